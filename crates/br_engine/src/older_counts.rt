//! Counts the outcomes that are older copies of paths.
ghost use Rattle.std.specs.Prelude.{◌≡◌, List, map, min, not, ◌^◌, ◌-◌, IfOk, OnOk};
ghost use Rattle.std.specs.List.{list_any};
ghost use Rattle.br_join.specs.Outcome.{restored};
ghost use Rattle.br_types.specs.Newest.{AreNoted, Copy, copies_of, is_of};
ghost use Rattle.br_engine.specs.OlderCounts as model;
ghost use Rattle.br_engine.specs.OlderCounts.{CountsFirst, CountsOver, counts, older, on_top};

use crate::newest_flags::{is_current, noted};
use br_join::Outcome;
use br_types::{FileKey, NewestCopies};
use std::alloc::{AllocError, Global};

/// How many outcomes are older copies of paths.
#[derive(Clone, Copy)]
pub struct OlderCopies {
    /// The number of files for whose path a newer file is among the outcomes.
    pub files: u64,
    /// The number of paths whose last file is such an older copy.
    pub on_top: u64,
}

/// The copies that are counted: the last ones of their paths, if they are older ones.
#[derive(Drop)]
struct LastCopies<'o> {
    seen: NewestCopies<'o>,
    count: u64,
}

/// Returns true if no copy of the path is in the set.
fn is_last(seen: &NewestCopies<'_>, path: &[u8]) -> bool
    ensures { (copies : List Copy) → AreNoted seen.now copies → result ≡ not (list_any (is_of path.now) copies) }
{
    seen.newest(path).is_none()
}

/// Returns true if a copy that comes before those in the set counts: it is an older one, and the
/// last of its path.
fn is_counted(seen: &NewestCopies<'_>, is_old: bool, path: &[u8]) -> bool
    ensures { (copies : List Copy) → AreNoted seen.now copies → result ≡ counts is_old (list_any (is_of path.now) copies) }
{
    is_old && is_last(seen, path)
}

/// Returns a number plus one, if the flag is set.
fn and_one(count: u64, is_more: bool) -> u64
    ensures { result ≡ model.and_one count is_more }
{
    if is_more {
        count.saturating_add(1)
    } else {
        count
    }
}

/// Adds a copy before those that were added, and counts it if it is an older one.
fn note_copy<'o>(
    last: &mut LastCopies<'o>,
    is_old: bool,
    key: FileKey,
    path: &'o [u8],
) -> Result<(), AllocError>
    ensures { OnOk result (CountsFirst last.old last.new is_old (record { key = key; path = path.now })) }
{
    let is_more = is_counted(&last.seen, is_old, path);
    last.count = and_one(last.count, is_more);
    last.seen.note(key, path)
}

/// Adds an outcome before those that were added, if it is a file.
fn note_outcome<'o>(
    last: &mut LastCopies<'o>,
    copies: &NewestCopies<'_>,
    key: FileKey,
    outcome: &'o Outcome,
) -> Result<(), AllocError>
    ensures { OnOk result (CountsOver last.old last.new copies.now (restored (key, outcome.now))) }
{
    match outcome {
        Outcome::File(item) => {
            let path = item.path.bytes();
            note_copy(last, copies.has_newer(key, path), key, path)
        }
        Outcome::Fault { .. } => Ok(()),
    }
}

/// Returns the number of paths whose last file among the outcomes is an older copy. `copies` are
/// the outcomes as copies.
#[tactic(auto, unfolding(crate::specs::OlderCounts::on_top))]
fn count_on_top(
    alloc: Global,
    copies: &NewestCopies<'_>,
    outcomes: &[(FileKey, Outcome)],
) -> Result<u64, AllocError>
    requires { AreNoted copies.now (copies_of (map restored outcomes.now)) }
    ensures { IfOk result (λ count. count ≡ min (on_top (map restored outcomes.now)) (2 ^ 64 - 1)) }
{
    let mut last = LastCopies {
        seen: NewestCopies::new(alloc),
        count: 0,
    };
    for outcome in outcomes.iter().rev() {
        note_outcome(&mut last, copies, outcome.0, &outcome.1)?;
    }
    Ok(last.count)
}

/// Returns the number of outcomes that are older copies. `copies` are the outcomes as copies.
#[tactic(auto, unfolding(crate::specs::OlderCounts::older))]
fn count_older(copies: &NewestCopies<'_>, outcomes: &[(FileKey, Outcome)]) -> u64
    requires { AreNoted copies.now (copies_of (map restored outcomes.now)) }
    ensures { result ≡ min (older (map restored outcomes.now)) (2 ^ 64 - 1) }
{
    let mut count: u64 = 0;
    for outcome in outcomes {
        if !is_current(copies, outcome.0, &outcome.1) {
            count = count.saturating_add(1);
        }
    }
    count
}

/// Returns the number of files among the outcomes that are older copies of their paths, and the
/// number of paths whose last file is one; at most 2^64 - 1 each. The last file of a path is the
/// one that remains after all files were put.
pub fn older_copies(
    alloc: Global,
    outcomes: &[(FileKey, Outcome)],
) -> Result<OlderCopies, AllocError>
    ensures files { IfOk result (λ c. c.files ≡ min (older (map restored outcomes.now)) (2 ^ 64 - 1)) }
    ensures on_top { IfOk result (λ c. c.on_top ≡ min (on_top (map restored outcomes.now)) (2 ^ 64 - 1)) }
{
    let copies = noted(alloc, outcomes)?;
    let files = count_older(&copies, outcomes);
    let on_top = if files == 0 {
        0
    } else {
        count_on_top(alloc, &copies, outcomes)?
    };
    Ok(OlderCopies { files, on_top })
}
