ghost use Rattle.std.specs.Prelude.{◌≡◌, ◌<◌, ◌+◌, drop, ◌++◌, [], ◌∷◌, if◌then◌else◌, length, map, IfOk, OnOk};
ghost use Rattle.br_model.specs.Console.{last_component};
ghost use Rattle.br_tree.specs.Lists.{kept, found_in, found_if, last_part};
ghost use Rattle.br_tree.specs.Seen.{seen_path};

use crate::pattern::{bare_name, matches as fits};
use crate::shown_paths::{Shown, slash_in};
use br_types::Path;
use br_view::Entry;
use std::alloc::{AllocError, Global};

/// Returns a text after a place.
fn behind(text: &[u8], place: usize) -> &[u8]
    requires { place < length text.now }
    ensures { result.now ≡ drop (place + 1) text.now }
{
    text.split_at(place + 1).1
}

/// Returns a text after its last `/`.
fn part_behind(text: &[u8]) -> &[u8]
    ensures { result.now ≡ last_part text.now }
{
    let mut rest = text;
    while let Some(place) = slash_in(rest) {
        rest = behind(rest, place);
    }
    rest
}

/// Returns the name after the last `/`, not counting one at the end.
fn last_name(path: &[u8]) -> &[u8]
    ensures { result.now ≡ last_component path.now }
{
    part_behind(bare_name(path))
}

/// Returns the flag at a place.
pub fn flag_at(flags: &[bool], place: usize) -> bool
    requires { place < length flags.now }
    ensures { drop place flags.now ≡ result ∷ drop (place + 1) flags.now }
{
    flags[place]
}

/// Returns the pair at a place.
pub fn pair_at<'h>(entries: &[Shown<'h>], place: usize) -> Shown<'h>
    requires { place < length entries.now }
    ensures { drop place entries.now ≡ result ∷ drop (place + 1) entries.now }
{
    let pair = &entries[place];
    (pair.0, pair.1)
}

/// Keeps a path and its newest copy if they are flagged.
pub fn keep_if<'h>(
    pairs: &mut Vec<Shown<'h>>,
    path: &'h Path,
    entry: Entry,
    flag: bool,
) -> Result<(), AllocError>
    ensures { OnOk result (pairs.new.items ≡ pairs.old.items ++ (if flag then (path.entry, entry) ∷ [] else [])) }
{
    if flag {
        if pairs.push((path, entry)).is_err() {
            return Err(AllocError);
        }
    }
    Ok(())
}

/// Returns the pairs that are flagged.
pub(crate) fn flagged_pairs<'h>(
    alloc: Global,
    entries: &[Shown<'h>],
    flags: &[bool],
) -> Result<Vec<Shown<'h>>, AllocError>
    requires { length flags.now ≡ length entries.now }
    ensures { IfOk result (λ pairs. pairs.items ≡ kept entries.now flags.now) }
{
    let mut pairs = Vec::new(alloc);
    for place in 0..entries.len() {
        let pair = pair_at(entries, place);
        keep_if(&mut pairs, pair.0, pair.1, flag_at(flags, place))?;
    }
    Ok(pairs)
}

/// Copies the paths of some pairs.
pub(crate) fn paths_of(alloc: Global, pairs: &[Shown<'_>]) -> Result<Vec<Path>, AllocError>
    ensures { IfOk result (λ paths. paths.items ≡ map (λ pair. pair.0.now) pairs.now) }
{
    let mut paths = Vec::new(alloc);
    for pair in pairs {
        let path = pair.0.copy(alloc)?;
        if paths.push(path).is_err() {
            return Err(AllocError);
        }
    }
    Ok(paths)
}

/// Notes a path if its last component matches.
fn note_if<'h>(
    found: &mut Vec<(&'h Path, bool)>,
    path: &'h Path,
    flag: bool,
    pattern: &[u8],
) -> Result<(), AllocError>
    ensures { OnOk result (map seen_path found.new.items ≡ map seen_path found.old.items ++ found_if pattern.now path.now flag) }
{
    if fits(pattern, last_name(path.bytes())) {
        if found.push((path, flag)).is_err() {
            return Err(AllocError);
        }
    }
    Ok(())
}

/// Returns the paths whose last component matches, each with its flag.
pub(crate) fn found_pairs<'h>(
    alloc: Global,
    entries: &[Shown<'h>],
    flags: &[bool],
    pattern: &[u8],
) -> Result<Vec<(&'h Path, bool)>, AllocError>
    requires { length flags.now ≡ length entries.now }
    ensures { IfOk result (λ found. map seen_path found.items ≡ found_in pattern.now entries.now flags.now) }
{
    let mut found = Vec::new(alloc);
    for place in 0..entries.len() {
        let pair = pair_at(entries, place);
        note_if(&mut found, pair.0, flag_at(flags, place), pattern)?;
    }
    Ok(found)
}
