//! The indexes that are left of those that a group asks for.
ghost use Rattle.std.specs.Prelude.{◌≡◌, ◌++◌, ◌≤◌, ◌+◌, ◌^◌, ℕ, true, IfOk, OnOk};
ghost use Rattle.br_damage.specs.LeftIndexes.{AreLeft, LeavesOf, StayValid, are_valid, indexes_of, indexes_without};
ghost use Rattle.br_damage.specs.LostFiles.{Rise};

use crate::group_sessions::place_of;
use crate::lost_files::{LostFiles, Span, before, span_of};
use br_bsr::Range;
use br_types::SessionKey;
use std::alloc::{AllocError, Global};

/// Appends the indexes of the files from one place up to another, which is excluded, if there are
/// any. `base` is the place of the session's index 0.
fn push_indexes(left: &mut Vec<Range>, base: u128, low: u128, end: u128) -> Result<(), AllocError>
    requires from { base ≤ low }
    requires to { end ≤ base + 2 ^ 64 }
    ensures { OnOk result (left.new.items ≡ left.old.items ++ indexes_of base low end) }
{
    if low < end {
        left.push(Range {
            low: (low - base) as u64,
            high: (end - 1 - base) as u64,
        })?;
    }
    Ok(())
}

/// Appends the indexes of these files, without those that are lost.
fn push_without(
    left: &mut Vec<Range>,
    base: u128,
    files: Span,
    lost: &[Span],
) -> Result<(), AllocError>
    requires from { base ≤ files.low }
    requires to { files.end ≤ base + 2 ^ 64 }
    ensures { OnOk result (left.new.items ≡ left.old.items ++ indexes_without base files.low files.end lost.now) }
{
    let mut next = files.low;
    for span in lost {
        push_indexes(left, base, next, files.end.min(span.low))?;
        next = next.max(span.end);
    }
    push_indexes(left, base, next, files.end)
}

/// Appends the indexes of a range, without those of lost files of the session.
fn push_left(
    left: &mut Vec<Range>,
    session: SessionKey,
    range: Range,
    lost: &LostFiles,
) -> Result<(), AllocError>
    ensures left { OnOk result (LeavesOf lost.now.spans.items session range left.old.items left.new.items) }
    ensures valid { OnOk result (StayValid range left.old.items left.new.items) }
{
    let files = span_of(session, range);
    let near = before(lost.from(files.low), files.end);
    push_without(left, place_of(session, 0), files, near)?;
    Ok(())
}

/// Returns the indexes of some ranges, without those of lost files of the session.
pub(crate) fn left_of(
    alloc: Global,
    session: SessionKey,
    ranges: &[Range],
    lost: &LostFiles,
) -> Result<Vec<Range>, AllocError>
    ensures left { IfOk result (λ left. AreLeft lost.now.spans.items session ranges.now left.items) }
    ensures valid { IfOk result (λ left. are_valid ranges.now ≡ true → are_valid left.items ≡ true) }
{
    let mut left = Vec::new(alloc);
    for range in ranges {
        push_left(&mut left, session, *range, lost)?;
    }
    Ok(left)
}
