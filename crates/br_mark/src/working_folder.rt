ghost use Rattle.std.specs.Prelude.{◌≡◌, length, position, reverse};
ghost use Rattle.std.specs.List.{slice_split};
ghost use Rattle.br_model.specs.Answer.{Answers};
ghost use Rattle.br_model.specs.Name.{is_slash};
ghost use Rattle.br_model.specs.Console as model;
ghost use Rattle.br_mark.specs.Fault.{cause};

use crate::fault::MarkFault;
use br_tree::bare_name;
use std::alloc::Global;

/// Returns the number of bytes after the last slash, if there is one.
fn last_slash(name: &[u8]) -> Option<usize>
    ensures { result ≡ position is_slash (reverse name.now) }
{
    name.iter().rev().position(|byte| *byte == b'/')
}

/// Returns the number of bytes of the last component of a path.
fn last_component_len(path: &[u8]) -> usize
    ensures { result ≡ length (model.last_component path.now) }
{
    let name = bare_name(path);
    match last_slash(name) {
        Some(len) => len,
        None => name.len(),
    }
}

/// Goes to the parent directory; the parent of the root is the root.
fn go_up(directory: &mut Vec<u8>)
    ensures { directory.new.items ≡ model.parent directory.old.items }
{
    if directory.as_slice() != b"/".as_slice() {
        let above = directory
            .len()
            .saturating_sub(last_component_len(directory));
        directory.truncate(above.saturating_sub(1));
    }
}

/// Follows one component of a way.
fn go_on(directory: &mut Vec<u8>, component: &[u8]) -> Result<(), MarkFault>
    ensures { Answers (λ _. directory.new.items) cause result (model.step directory.old.items component.now) }
{
    if component.is_empty() {
        return Err(MarkFault::NoSuchDirectory);
    }
    if component == b".".as_slice() {
        return Ok(());
    }
    if component == b"..".as_slice() {
        go_up(directory);
        return Ok(());
    }
    directory.extend_from_slice(component)?;
    directory.extend_from_slice(b"/")?;
    Ok(())
}

/// Follows all components of a way.
fn follow(directory: &mut Vec<u8>, way: &[u8]) -> Result<(), MarkFault>
    ensures { Answers (λ _. directory.new.items) cause result (model.walk directory.old.items (slice_split is_slash way.now)) }
{
    for component in way.split(|byte| *byte == b'/') {
        go_on(directory, component)?;
    }
    Ok(())
}

/// Returns the directory to which a way leads from a directory.
fn followed(alloc: Global, directory: &[u8], way: &[u8]) -> Result<Vec<u8>, MarkFault>
    ensures { Answers (λ d. d.items) cause result (model.walk directory.now (slice_split is_slash way.now)) }
{
    let mut directory = Vec::from_slice(alloc, directory)?;
    follow(&mut directory, way)?;
    Ok(directory)
}

/// Returns the directory to which a way leads, from the root if it begins with `/`. One `/` at its
/// end is allowed. The directory need not exist.
///
/// # Errors
///
/// `NoSuchDirectory` if a component is empty.
#[tactic(auto, unfolding(br_model::specs::Console::resolve))]
pub(crate) fn resolve(alloc: Global, directory: &[u8], way: &[u8]) -> Result<Vec<u8>, MarkFault>
    ensures { Answers (λ d. d.items) cause result (model.resolve directory.now way.now) }
{
    if way == b"/".as_slice() {
        return Ok(Vec::from_slice(alloc, b"/")?);
    }
    let names = bare_name(way);
    if way.starts_with(b"/") {
        followed(alloc, b"/", &names[1..])
    } else {
        followed(alloc, directory, names)
    }
}
