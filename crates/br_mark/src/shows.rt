ghost use Rattle.std.specs.Prelude.{◌≡◌, ◌<◌, ◌^◌, filter, flat_map, not, sum_by, None, Some, IfOk};
ghost use Rattle.br_model.specs.Name.{is_directory};
ghost use Rattle.br_model.specs.Console as model;
ghost use Rattle.br_tree.specs.Seen.{seen_path};
ghost use Rattle.br_mark.specs.Applied.{Goes, Says, child_lines as lines_of, count_shown, estimate_shown, lines_within, matching_children};
ghost use Rattle.br_mark.specs.Seen.{flagged_line, flag_sign};

use crate::console_lines::{push_path, push_signed, totals_line};
use crate::fault::MarkFault;
use br_tree::{Child, Tree, bare_name, matches};
use br_types::{Path, is_directory_path};
use br_view::Entry;
use std::alloc::{AllocError, Global};

/// Returns a line for each name.
fn child_lines(alloc: Global, children: &[Child<'_>]) -> Result<Vec<u8>, AllocError>
    ensures { IfOk result (λ text. text.items ≡ lines_of children.now) }
{
    let mut text = Vec::new(alloc);
    for child in children {
        push_signed(&mut text, child.sign.byte(), child.name)?;
    }
    Ok(text)
}

/// Returns a line for each name that matches.
fn matching_lines(
    alloc: Global,
    children: &[Child<'_>],
    pattern: &[u8],
) -> Result<Vec<u8>, AllocError>
    ensures { IfOk result (λ text. text.items ≡ lines_of (matching_children pattern.now children.now)) }
{
    let mut text = Vec::new(alloc);
    for child in children {
        if matches(pattern, bare_name(child.name)) {
            push_signed(&mut text, child.sign.byte(), child.name)?;
        }
    }
    Ok(text)
}

/// Returns the lines of all names in a directory.
#[tactic(auto, unfolding(br_model::specs::Console::apply))]
pub(crate) fn list(alloc: Global, tree: &Tree<'_>, directory: &[u8]) -> Result<Vec<u8>, AllocError>
    ensures { IfOk result (λ t. Says directory.now tree.now (model.Ls None) t.items) }
{
    let children = tree.children(alloc, directory)?;
    child_lines(alloc, &children)
}

/// Returns the lines of the names in a directory that match; `NoMatch` if none does.
#[tactic(auto, unfolding(br_model::specs::Console::apply))]
pub(crate) fn list_matching(
    alloc: Global,
    tree: &Tree<'_>,
    directory: &[u8],
    pattern: &[u8],
) -> Result<Vec<u8>, MarkFault>
    ensures { Goes directory.now directory.now tree.now (model.Ls (Some pattern.now)) result }
{
    let children = tree.children(alloc, directory)?;
    let text = matching_lines(alloc, &children, pattern)?;
    if text.is_empty() {
        return Err(MarkFault::NoMatch);
    }
    Ok(text)
}

/// Returns the sign of a path: a star if it is marked, else a space.
fn sign_of(is_marked: bool) -> u8
    ensures { result ≡ flag_sign is_marked }
{
    if is_marked { b'*' } else { b' ' }
}

/// Returns a line for each path.
pub(crate) fn found_lines(alloc: Global, found: &[(&Path, bool)]) -> Result<Vec<u8>, AllocError>
    ensures { IfOk result (λ text. text.items ≡ flat_map (λ p. flagged_line (seen_path p)) found.now) }
{
    let mut text = Vec::new(alloc);
    for (path, is_marked) in found {
        push_signed(&mut text, sign_of(*is_marked), path.bytes())?;
    }
    Ok(text)
}

/// Returns whether a path begins with a directory.
fn is_within(path: &Path, directory: &[u8]) -> bool
    ensures { result ≡ model.begins_with path.now directory.now }
{
    path.bytes().starts_with(directory)
}

/// Returns a line for each path below a directory, and for the directory itself.
fn lines_below(
    alloc: Global,
    entries: &[(&Path, Entry)],
    directory: &[u8],
) -> Result<Vec<u8>, AllocError>
    ensures { IfOk result (λ text. text.items ≡ lines_within directory.now entries.now) }
{
    let mut text = Vec::new(alloc);
    for (path, _) in entries {
        if is_within(path, directory) {
            push_path(&mut text, path.bytes())?;
        }
    }
    Ok(text)
}

/// Returns the lines of the marked paths below a directory.
#[tactic(auto, unfolding(br_model::specs::Console::apply))]
pub(crate) fn list_marked(
    alloc: Global,
    tree: &Tree<'_>,
    directory: &[u8],
) -> Result<Vec<u8>, AllocError>
    ensures { IfOk result (λ t. Says directory.now tree.now model.LsMark t.items) }
{
    let entries = tree.marked_entries(alloc)?;
    lines_below(alloc, &entries, directory)
}

/// Returns the line for the number of paths, and of those that are marked.
pub(crate) fn count(alloc: Global, tree: &Tree<'_>) -> Result<Vec<u8>, AllocError>
    ensures { IfOk result (λ t. t.items ≡ count_shown tree.now) }
{
    let (paths, marked) = tree.count();
    totals_line(alloc, paths, b" paths, ", u128::from(marked), b" marked")
}

/// Returns a size in bytes; 0 if it is negative.
fn size_of(size: i64) -> u128
    ensures same { result ≡ model.size_of size }
    ensures fits { result < 2 ^ 63 }
{
    if size < 0 { 0 } else { size as u128 }
}

/// Returns the sum of the sizes of the files among these, without directories.
fn bytes_in(entries: &[(&Path, Entry)]) -> u128
    ensures { result ≡ sum_by (λ e. model.size_of e.1.size) (filter (λ e. not (is_directory e.0.now)) entries.now) }
{
    let mut total: u128 = 0;
    for (path, entry) in entries {
        if !is_directory_path(path.bytes()) {
            total += size_of(entry.size);
        }
    }
    total
}

/// Returns the line for the number of marked paths, and of the bytes of the files among them.
pub(crate) fn estimate(alloc: Global, tree: &Tree<'_>) -> Result<Vec<u8>, AllocError>
    ensures { IfOk result (λ t. t.items ≡ estimate_shown tree.now) }
{
    let entries = tree.marked_entries(alloc)?;
    let total = bytes_in(&entries);
    totals_line(alloc, entries.len() as u64, b" marked, ", total, b" bytes")
}
