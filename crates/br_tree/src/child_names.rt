ghost use Rattle.std.specs.Prelude.{◌≡◌, true, ◌<◌, ◌++◌, length, IfNone, IfOk, OnOk};
ghost use Rattle.br_model.specs.Console as model;
ghost use Rattle.br_tree.specs.Lists.{NotesChild, AreChildren};
ghost use Rattle.br_tree.specs.Walk.{seen_paths, AllPassing, AreSorted, IsFirstChild, NoneBegins, marked_in};

use crate::child::Child;
use crate::flags::Flags;
use crate::list::pair_at;
use crate::path_spans::span_at;
use crate::shown_paths::{Shown, child_len, child_name, run_of};
use crate::sign::{is_quiet, sign_if_any};
use crate::tree_walk::part_of;
use std::alloc::{AllocError, Global};

/// Returns the path of a child from a path that is the child's or below it.
fn front_of<'p>(directory: &[u8], path: &'p [u8], name: &[u8]) -> &'p [u8]
    requires begins { model.begins_with path.now directory.now ≡ true }
    requires named { name.now ≡ model.child_of directory.now path.now }
    ensures { result.now ≡ directory.now ++ name.now }
{
    &path[..directory.len() + name.len()]
}

/// Returns the first of some paths in a directory, and the number of first paths that belong to its
/// child. A right guess of this number saves a search.
fn next_child<'h>(entries: &[Shown<'h>], directory: &[u8], guess: usize) -> (&'h [u8], usize)
    requires sorted { AreSorted entries.now }
    requires begins { AllPassing (λ path. model.begins_with path directory.now) (seen_paths entries.now) }
    requires some { 0 < length entries.now }
    ensures { IsFirstChild directory.now (seen_paths entries.now) result.0.now result.1 }
{
    let path = pair_at(entries, 0).0.bytes();
    (
        path,
        child_len(entries, directory, child_name(directory, path), guess),
    )
}

/// Returns a guess, unless none is needed.
fn guess_unless(is_quiet: bool, guess: (usize, usize)) -> Option<(usize, usize)>
    ensures { IfNone result (is_quiet ≡ true) }
{
    if is_quiet { None } else { Some(guess) }
}

/// Notes the child of a path, with its sign; the directory itself is not a child. A right guess of
/// the places between which its paths are saves a search. There is no guess only if no path in the
/// directory is marked.
fn note_child<'h>(
    noted: &mut Vec<Child<'h>>,
    entries: &[Shown<'_>],
    flags: &Flags,
    directory: &[u8],
    path: &'h [u8],
    guess: Option<(usize, usize)>,
) -> Result<(), AllocError>
    requires sorted { AreSorted entries.now }
    requires as_long { length flags.now ≡ length entries.now }
    requires begins { model.begins_with path.now directory.now ≡ true }
    requires quiet { IfNone guess (NoneBegins (marked_in entries.now flags.now) directory.now) }
    ensures { OnOk result (NotesChild (marked_in entries.now flags.now) directory.now path.now noted.old.items noted.new.items) }
{
    let name = child_name(directory, path);
    if !name.is_empty() {
        let sign = sign_if_any(entries, flags, front_of(directory, path, name), guess);
        if noted.push(Child { name, sign }).is_err() {
            return Err(AllocError);
        }
    }
    Ok(())
}

/// Returns the names in a directory, each with its sign.
pub(crate) fn names_in<'h>(
    alloc: Global,
    entries: &[Shown<'h>],
    flags: &Flags,
    spans: &[u32],
    directory: &[u8],
) -> Result<Vec<Child<'h>>, AllocError>
    requires sorted { AreSorted entries.now }
    requires as_long { length flags.now ≡ length entries.now }
    ensures { IfOk result (λ noted. AreChildren entries.now flags.now directory.now noted.items) }
{
    let (first, last) = run_of(entries, directory);
    let run = part_of(entries, first, last);
    let quiet = is_quiet(entries, flags, directory, (first, last));
    let mut noted = Vec::new(alloc);
    let mut place = 0;
    while place < run.len() {
        let at = first + place;
        let (path, len) = next_child(run.split_at(place).1, directory, span_at(spans, at));
        let guess = guess_unless(quiet, (at, at + len));
        note_child(&mut noted, entries, flags, directory, path, guess)?;
        place += len;
    }
    Ok(noted)
}
