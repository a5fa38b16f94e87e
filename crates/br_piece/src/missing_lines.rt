//! The lines that report missing files.
ghost use Rattle.std.specs.Prelude.{◌≡◌, ◌++◌, flat_map, IfOk, OnOk};
ghost use Rattle.br_piece.specs.MissingLines as model;
ghost use Rattle.br_piece.specs.MissingLines.{count_at, count_line, count_lines, count_text, gap_line, gap_text};
ghost use Rattle.br_piece.specs.MissingLines.{line_of, next_text, numbers_text, ranges_text, sessions_text};
ghost use Rattle.br_piece.specs.NearRanges.{AreSorted};

use crate::file_counts::got_of;
use crate::lacking::{Gap, missing_of};
use br_bsr::{Group, MAX_INDEX, Range, push_range};
use br_types::{FileKey, push_escaped, push_number, push_wide};
use std::alloc::{AllocError, Global};

/// Appends ranges, each after a comma.
fn push_next(text: &mut Vec<u8>, ranges: &[Range]) -> Result<(), AllocError>
    ensures { OnOk result (text.new.items ≡ text.old.items ++ flat_map next_text ranges.now) }
{
    for range in ranges {
        text.push(b',')?;
        push_range(text, *range)?;
    }
    Ok(())
}

/// Appends ranges with commas between them, or `*` if there are none.
fn push_ranges(text: &mut Vec<u8>, ranges: &[Range]) -> Result<(), AllocError>
    ensures { OnOk result (text.new.items ≡ text.old.items ++ ranges_text ranges.now) }
{
    match ranges {
        [] => {
            text.push(b'*')?;
            Ok(())
        }
        [first, more @ ..] => {
            push_range(text, *first)?;
            push_next(text, more)
        }
    }
}

/// Appends the numbers and the times of sessions that a group admits, with a blank between them.
fn push_sessions(text: &mut Vec<u8>, group: &Group) -> Result<(), AllocError>
    ensures { OnOk result (text.new.items ≡ text.old.items ++ sessions_text group.now) }
{
    push_ranges(text, &group.session_ids)?;
    text.push(b' ')?;
    push_ranges(text, &group.session_times)
}

/// Appends the line of some indexes that a group asks for.
fn push_line(text: &mut Vec<u8>, group: &Group, indexes: Range) -> Result<(), AllocError>
    ensures { OnOk result (text.new.items ≡ text.old.items ++ gap_line group.now indexes) }
{
    text.extend_from_slice(b"missing ")?;
    push_sessions(text, group)?;
    text.push(b' ')?;
    push_range(text, indexes)?;
    text.push(b' ')?;
    push_escaped(text, group.vol.bytes())?;
    text.push(b'\n')?;
    Ok(())
}

/// Appends the line of a run of indexes, with the group at its place.
fn push_line_of(text: &mut Vec<u8>, groups: &[Group], gap: Gap) -> Result<(), AllocError>
    ensures { OnOk result (text.new.items ≡ text.old.items ++ line_of groups.now gap) }
{
    match groups.get(gap.group) {
        Some(group) => push_line(text, group, gap.indexes),
        None => Ok(()),
    }
}

/// Appends the line of a run of indexes, if it does not go up to the greatest index.
fn push_gap(text: &mut Vec<u8>, groups: &[Group], gap: Gap) -> Result<(), AllocError>
    ensures { OnOk result (text.new.items ≡ text.old.items ++ gap_text groups.now gap) }
{
    if gap.indexes.high < MAX_INDEX {
        push_line_of(text, groups, gap)
    } else {
        Ok(())
    }
}

/// Returns the lines of some runs of indexes.
fn lines_of(alloc: Global, groups: &[Group], gaps: &[Gap]) -> Result<Vec<u8>, AllocError>
    ensures { IfOk result (λ text. text.items ≡ flat_map (gap_text groups.now) gaps.now) }
{
    let mut text = Vec::new(alloc);
    for gap in gaps {
        push_gap(&mut text, groups, *gap)?;
    }
    Ok(text)
}

/// Appends two numbers with a blank between them.
fn push_numbers(text: &mut Vec<u8>, count: u64, found: u128) -> Result<(), AllocError>
    ensures { OnOk result (text.new.items ≡ text.old.items ++ numbers_text count found) }
{
    push_number(text, count)?;
    text.push(b' ')?;
    push_wide(text, found)
}

/// Appends the line of a group that asks for `count` files and gets `found`.
fn push_fewer(text: &mut Vec<u8>, group: &Group, count: u64, found: u128) -> Result<(), AllocError>
    ensures { OnOk result (text.new.items ≡ text.old.items ++ count_line group.now count found) }
{
    text.extend_from_slice(b"count ")?;
    push_sessions(text, group)?;
    text.push(b' ')?;
    push_numbers(text, count, found)?;
    text.push(b' ')?;
    push_escaped(text, group.vol.bytes())?;
    text.push(b'\n')?;
    Ok(())
}

/// Appends the line of a group that asks for `count` files, if it gets fewer.
fn push_count(
    alloc: Global,
    text: &mut Vec<u8>,
    keys: &[FileKey],
    group: &Group,
    count: u64,
) -> Result<(), AllocError>
    requires { AreSorted keys.now }
    ensures { OnOk result (text.new.items ≡ text.old.items ++ count_text group.now count keys.now) }
{
    let found = got_of(alloc, keys, group)?;
    if found < u128::from(count) {
        push_fewer(text, group, count, found)
    } else {
        Ok(())
    }
}

/// Appends the line of the group at its place, if it has a count and gets fewer files.
fn push_count_of(
    alloc: Global,
    text: &mut Vec<u8>,
    keys: &[FileKey],
    groups: &[Group],
    place: usize,
    count: Option<u64>,
) -> Result<(), AllocError>
    requires { AreSorted keys.now }
    ensures { OnOk result (text.new.items ≡ text.old.items ++ count_at groups.now keys.now (place, count)) }
{
    let Some(count) = count else {
        return Ok(());
    };
    match groups.get(place) {
        Some(group) => push_count(alloc, text, keys, group, count),
        None => Ok(()),
    }
}

/// Appends the lines of all groups that get fewer files than their counts.
fn push_counts(
    alloc: Global,
    text: &mut Vec<u8>,
    keys: &[FileKey],
    groups: &[Group],
    counts: &[Option<u64>],
) -> Result<(), AllocError>
    requires { AreSorted keys.now }
    ensures { OnOk result (text.new.items ≡ text.old.items ++ count_lines groups.now counts.now keys.now) }
{
    for (place, count) in counts.iter().enumerate() {
        push_count_of(alloc, text, keys, groups, place, *count)?;
    }
    Ok(())
}

/// Returns a line for each run of indexes that is `missing`: `missing ID TIME INDEXES VOLUME`; and then a line for
/// each group that has a count and gets fewer files: `count ID TIME COUNT FOUND VOLUME`. ID and TIME are the numbers
/// and times of sessions that the group admits, INDEXES is one index or `FIRST-LAST`, and the volume is escaped.
/// Several ranges have commas between them, and `*` means that the group does not say.
///
/// A run up to the greatest index, 2,147,483,647, has no line: a range that ends there asks for all files
/// from its first on, whatever their number. The files that a group gets are those of sessions that
/// it admits, and of indexes in its ranges of FileIndex, if it has any.
///
/// The counts are those of the groups, in the same order. The files may come in any order.
#[tactic(auto, unfolding(crate::specs::MissingLines::report))]
pub fn report(
    alloc: Global,
    groups: &[Group],
    counts: &[Option<u64>],
    mut keys: Vec<FileKey>,
) -> Result<Vec<u8>, AllocError>
    ensures { IfOk result (λ text. text.items ≡ model.report groups.now counts.now keys.items) }
{
    keys.sort_unstable();
    let gaps = missing_of(alloc, groups, &keys)?;
    let mut text = lines_of(alloc, groups, &gaps)?;
    push_counts(alloc, &mut text, &keys, groups, counts)?;
    Ok(text)
}
