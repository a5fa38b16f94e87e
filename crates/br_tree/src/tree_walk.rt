ghost use Rattle.std.specs.Prelude.{◌≡◌, true, ◌<◌, ◌≤◌, ◌-◌, length, take, drop, bytes_eq};
ghost use Rattle.std.specs.Cmp.Lexicographic.{slice_cmp};
ghost use Rattle.std.specs.Ordering.{nat_cmp, is_lt};
ghost use Rattle.br_model.specs.Console.{begins_with, child_of};
ghost use Rattle.br_tree.specs.Walk.{seen_paths, is_picked, is_own, reach};
ghost use Rattle.br_tree.specs.Walk.{set_where, changes, AllPassing, NonePassing, IsStep, AreSorted};

use crate::flags::Flags;
use crate::meant_run::meant_run;
use crate::pattern::{bare_name, matches as fits};
use crate::shown_paths::{Shown, child_len, child_name, not_before, rest_of};
use br_types::is_directory_path;

/// Returns whether a path in a directory, of a child of this name, is the own path of a child that
/// is a directory.
fn is_own_path(directory: &[u8], path: &[u8], name: &[u8]) -> bool
    requires begins { begins_with path.now directory.now ≡ true }
    requires named { name.now ≡ child_of directory.now path.now }
    ensures { result ≡ is_own directory.now path.now }
{
    is_directory_path(path) && rest_of(directory, path) == name
}

/// Returns the number of paths of a child that are meant, from its first path on.
fn reach_of(
    path: &[u8],
    name: &[u8],
    len: usize,
    directory: &[u8],
    pattern: &[u8],
    deep: bool,
) -> usize
    requires begins { begins_with path.now directory.now ≡ true }
    requires named { name.now ≡ child_of directory.now path.now }
    ensures { result ≡ reach deep directory.now pattern.now name.now path.now len }
{
    if name.is_empty() || !fits(pattern, bare_name(name)) {
        0
    } else if deep {
        len
    } else if is_own_path(directory, path, name) {
        1
    } else {
        0
    }
}

/// Returns the number of paths of the first child that are meant, from the first path on, and the
/// number of its paths.
fn step(entries: &[Shown<'_>], directory: &[u8], pattern: &[u8], deep: bool) -> (usize, usize)
    requires sorted { AreSorted entries.now }
    requires begins { AllPassing (λ path. begins_with path directory.now) (seen_paths entries.now) }
    requires some { 0 < length entries.now }
    ensures { IsStep (is_picked deep directory.now pattern.now) (seen_paths entries.now) result.0 result.1 }
{
    match entries.split_first() {
        None => (0, 0),
        Some((first, _)) => {
            let path = first.0.bytes();
            let name = child_name(directory, path);
            let len = child_len(entries, directory, name, 1);
            (reach_of(path, name, len, directory, pattern, deep), len)
        }
    }
}

/// Returns the pairs from one place to another.
pub(crate) fn part_of<'e, 'h>(
    entries: &'e [Shown<'h>],
    first: usize,
    last: usize,
) -> &'e [Shown<'h>]
    requires ordered { first ≤ last }
    requires bound { last ≤ length entries.now }
    ensures { result.now ≡ take (last - first) (drop first entries.now) }
{
    &entries[first..last]
}

/// Returns the number of first paths that are a directory's own; no path comes before
/// the directory.
pub(crate) fn own_len(entries: &[Shown<'_>], directory: &[u8]) -> usize
    requires sorted { AreSorted entries.now }
    requires from { NonePassing (λ path. is_lt (slice_cmp nat_cmp path directory.now)) (seen_paths entries.now) }
    ensures bound { result ≤ length entries.now }
    ensures within { AllPassing (bytes_eq directory.now) (take result (seen_paths entries.now)) }
    ensures after { NonePassing (bytes_eq directory.now) (drop result (seen_paths entries.now)) }
{
    match entries.split_first() {
        Some((first, _)) => { if directory == first.0.bytes() { 1 } else { 0 } }
        None => 0,
    }
}

/// Returns the result of `step` for the paths from one place to another, all in a directory.
fn step_at(
    entries: &[Shown<'_>],
    place: usize,
    last: usize,
    directory: &[u8],
    pattern: &[u8],
    deep: bool,
) -> (usize, usize)
    requires sorted { AreSorted entries.now }
    requires some { place < last }
    requires bound { last ≤ length entries.now }
    requires begins { AllPassing (λ path. begins_with path directory.now) (take (last - place) (drop place (seen_paths entries.now))) }
    ensures { IsStep (is_picked deep directory.now pattern.now) (drop place (seen_paths entries.now)) result.0 result.1 }
{
    step(part_of(entries, place, last), directory, pattern, deep)
}

/// Sets the flags of the children of a directory that match a pattern and of all paths below them,
/// or only of the directories among them. Returns the number of flags that change; `None` if no
/// path is meant.
pub(crate) fn set_matching(
    entries: &[Shown<'_>],
    flags: &mut Flags,
    directory: &[u8],
    pattern: &[u8],
    deep: bool,
    value: bool,
) -> Option<usize>
    requires sorted { AreSorted entries.now }
    requires as_long { length flags.old ≡ length entries.now }
    ensures flags { flags.new ≡ set_where (is_picked deep directory.now pattern.now) value (seen_paths entries.now) flags.old }
    ensures answer { result ≡ changes (is_picked deep directory.now pattern.now) value (seen_paths entries.now) flags.old }
{
    let (first, last) = meant_run(entries, directory, pattern);
    let mut place = first;
    let mut count = 0;
    let mut found = false;
    while place < last {
        let (reach, len) = step_at(entries, place, last, directory, pattern, deep);
        count += flags.set(place, place + reach, value);
        found = found || 0 < reach;
        place += len;
    }
    if found { Some(count) } else { None }
}

/// Sets the flag of the path of a directory. Returns the number of flags that change; `None` if it
/// is not a path of the view.
pub(crate) fn set_own(
    entries: &[Shown<'_>],
    flags: &mut Flags,
    directory: &[u8],
    value: bool,
) -> Option<usize>
    requires sorted { AreSorted entries.now }
    requires as_long { length flags.old ≡ length entries.now }
    ensures flags { flags.new ≡ set_where (bytes_eq directory.now) value (seen_paths entries.now) flags.old }
    ensures answer { result ≡ changes (bytes_eq directory.now) value (seen_paths entries.now) flags.old }
{
    let first = not_before(entries, directory, 0);
    let own = own_len(entries.split_at(first).1, directory);
    let count = flags.set(first, first + own, value);
    if 0 < own { Some(count) } else { None }
}
