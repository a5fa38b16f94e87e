//! How many files a group gets.
ghost use Rattle.std.specs.Prelude.{◌≡◌, ◌+◌, IfOk, count_by};
ghost use Rattle.std.specs.List.Sorted.{IsNonDecreasingBy};
ghost use Rattle.br_piece.specs.FileCounts.{got, got_in, is_got_by};
ghost use Rattle.br_piece.specs.Missing.{admits_session};
ghost use Rattle.br_piece.specs.NearRanges.{AreSorted, is_asked};

use crate::lacking::{admits_session, asks_for};
use crate::near_ranges::near;
use br_bsr::{Group, Range, by_low};
use br_types::FileKey;
use std::alloc::{AllocError, Global};

/// Returns the number of files of the sessions that the group admits.
fn count_all(keys: &[FileKey], group: &Group) -> usize
    ensures { result ≡ count_by (λ k. admits_session group.now k.session) keys.now }
{
    keys.iter()
        .filter(|key| admits_session(group, key.session))
        .count()
}

/// Returns the number of these files for which the group asks by the range.
fn count_asked(keys: &[FileKey], group: &Group, range: Range) -> usize
    ensures { result ≡ count_by (is_asked group.now range) keys.now }
{
    keys.iter()
        .filter(|key| asks_for(group, range, **key))
        .count()
}

/// Returns the number of files that the group asks for by the range, in time log n beside that of these files
/// if the group names one session.
fn count_in(keys: &[FileKey], group: &Group, range: Range) -> usize
    requires { AreSorted keys.now }
    ensures { result ≡ count_by (is_asked group.now range) keys.now }
{
    count_asked(near(keys, group, range), group, range)
}

/// Returns the number of files that the group asks for by the part of the range from a number on.
fn count_from(keys: &[FileKey], group: &Group, next: u128, range: Range) -> usize
    requires { AreSorted keys.now }
    ensures { result ≡ got_in group.now keys.now next range }
{
    let low = u128::from(range.low).max(next);
    if low <= u128::from(range.high) {
        let rest = Range {
            low: low as u64,
            high: range.high,
        };
        count_in(keys, group, rest)
    } else {
        0
    }
}

/// Returns the number after a number.
fn after(number: u64) -> u128
    ensures { result ≡ number + 1 }
{
    u128::from(number) + 1
}

/// Returns the number of files that the group asks for by one of the ranges, which are in order of their low ends.
fn count_by_ranges(keys: &[FileKey], group: &Group, ranges: &[Range]) -> u128
    requires sorted { AreSorted keys.now }
    requires rising { IsNonDecreasingBy (λ r. r.low) ranges.now }
    ensures { result ≡ count_by (is_got_by group.now ranges.now) keys.now }
{
    let mut found = 0;
    let mut next = 0;
    for range in ranges {
        found += count_from(keys, group, next, *range) as u128;
        next = next.max(after(range.high));
    }
    found
}

/// Returns the number of files that the group asks for, whose ranges of FileIndex these are.
fn got_by(
    alloc: Global,
    keys: &[FileKey],
    group: &Group,
    indexes: &[Range],
) -> Result<u128, AllocError>
    requires sorted { AreSorted keys.now }
    requires own { group.now.indexes ≡ indexes.now }
    ensures { IfOk result (λ n. n ≡ got group.now keys.now) }
{
    if indexes.is_empty() {
        return Ok(count_all(keys, group) as u128);
    }
    let ranges = by_low(alloc, indexes)?;
    Ok(count_by_ranges(keys, group, &ranges))
}

/// Returns the number of files that the group asks for: those of the sessions that it admits, and of the indexes in
/// its ranges of FileIndex, if it has any. The files are in order of key.
pub fn got_of(alloc: Global, keys: &[FileKey], group: &Group) -> Result<u128, AllocError>
    requires { AreSorted keys.now }
    ensures { IfOk result (λ n. n ≡ got group.now keys.now) }
{
    got_by(alloc, keys, group, &group.indexes)
}
