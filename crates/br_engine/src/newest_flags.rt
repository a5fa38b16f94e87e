ghost use Rattle.std.specs.Prelude.{◌≡◌, drop, map, IfOk, OnOk};
ghost use Rattle.std.specs.List.{items_where_true};
ghost use Rattle.std.specs.Slice.Iter.{iter_rest};
ghost use Rattle.br_join.specs.Outcome.{restored};
ghost use Rattle.br_types.specs.Newest.{AreNoted, copies_of};
ghost use Rattle.br_engine.specs.NewestFlags.{NotesFirst, SaysCurrent, front_flag, newest_flags};

use br_join::Outcome;
use br_types::{FileKey, NewestCopies};
use std::alloc::{AllocError, Global};
use std::slice::Iter;

/// Adds an outcome to the copies, if it is a file.
fn note<'o>(
    copies: &mut NewestCopies<'o>,
    key: FileKey,
    outcome: &'o Outcome,
) -> Result<(), AllocError>
    ensures { OnOk result (NotesFirst copies.old copies.new (restored (key, outcome.now))) }
{
    match outcome {
        Outcome::File(item) => copies.note(key, item.path.bytes()),
        Outcome::Fault { .. } => Ok(()),
    }
}

/// Returns the files among the outcomes as copies of their paths.
pub(crate) fn noted<'o>(
    alloc: Global,
    outcomes: &'o [(FileKey, Outcome)],
) -> Result<NewestCopies<'o>, AllocError>
    ensures { IfOk result (λ copies. AreNoted copies (copies_of (map restored outcomes.now))) }
{
    let mut copies = NewestCopies::new(alloc);
    for outcome in outcomes.iter().rev() {
        note(&mut copies, outcome.0, &outcome.1)?;
    }
    Ok(copies)
}

/// Returns true if no copy is newer than an outcome. An outcome that is no file is always current.
pub(crate) fn is_current(copies: &NewestCopies<'_>, key: FileKey, outcome: &Outcome) -> bool
    ensures { SaysCurrent copies.now (restored (key, outcome.now)) result }
{
    match outcome {
        Outcome::File(item) => !copies.has_newer(key, item.path.bytes()),
        Outcome::Fault { .. } => true,
    }
}

/// Returns for each outcome true if it is current among the copies.
fn flags_of(
    alloc: Global,
    copies: &NewestCopies<'_>,
    outcomes: &[(FileKey, Outcome)],
) -> Result<Vec<bool>, AllocError>
    requires { AreNoted copies.now (copies_of (map restored outcomes.now)) }
    ensures { IfOk result (λ flags. flags.items ≡ newest_flags outcomes.now) }
{
    let mut flags = Vec::new(alloc);
    for outcome in outcomes {
        flags.push(is_current(copies, outcome.0, &outcome.1))?;
    }
    Ok(flags)
}

/// Returns for each outcome true if it is the newest copy of its path among them, or no file.
pub fn flags_of_newest(
    alloc: Global,
    outcomes: &[(FileKey, Outcome)],
) -> Result<Vec<bool>, AllocError>
    ensures { IfOk result (λ flags. flags.items ≡ newest_flags outcomes.now) }
{
    flags_of(alloc, &noted(alloc, outcomes)?, outcomes)
}

/// Returns the next flag, false if there is none.
fn next_flag(flags: &mut Iter<'_, bool>) -> bool
    ensures flag { result ≡ front_flag (iter_rest flags.old) }
    ensures rest { iter_rest flags.new ≡ drop 1 (iter_rest flags.old) }
{
    match flags.next() {
        Some(flag) => *flag,
        None => false,
    }
}

/// Drops the outcomes whose flag is false, and those without a flag.
pub fn keep_flagged(outcomes: &mut Vec<(FileKey, Outcome)>, flags: &[bool])
    ensures { outcomes.new.items ≡ items_where_true flags.now outcomes.old.items }
{
    let mut left = flags.iter();
    outcomes.retain(|_| next_flag(&mut left));
}
