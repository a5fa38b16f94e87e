//! The choice among the outcomes before the manifest is written.
ghost use Rattle.std.specs.Prelude.{◌≡◌, true, length, map, replicate, IfOk};
ghost use Rattle.std.specs.List.{items_where_true};
ghost use Rattle.br_join.specs.Outcome.{restored};
ghost use Rattle.br_sink.specs.ConflictsApart.{apart, conflicts};
ghost use Rattle.br_engine.specs.WantedOutcomes.{HaveFlags, conflicting, delivered, kept, left_by, left_out, of_copies, reported, reported_for};
ghost use Rattle.br_types.specs.declared.wanted.Gaps.TheVariants.{Reported};

use crate::newest_flags::{flags_of_newest, keep_flagged};
use crate::restore_order::CountedBootstrap;
use br_bsr::Group;
use br_join::Outcome;
use br_piece::report;
use br_sink::keep_apart;
use br_types::{Copies, FileKey, Gaps, Path, Stops, Wanted};
use std::alloc::{AllocError, Global};

/// The choice among the outcomes before the manifest is written.
#[derive(Drop)]
pub(crate) struct ChosenOutcomes {
    /// The lines of what is missing, if they are reported.
    pub(crate) missing: Vec<u8>,
    /// For each outcome, true if it is delivered. Without flags each is.
    pub(crate) flags: Option<Vec<bool>>,
    /// The paths of the files that are left out since they conflict with one that is delivered.
    pub(crate) left: Vec<Path>,
}

/// The outcomes that are delivered, and the files that are left out.
#[derive(Drop)]
struct Chosen {
    /// For each outcome, true if it is delivered. Without flags each is.
    flags: Option<Vec<bool>>,
    /// The paths of the files that are left out.
    left: Vec<Path>,
}

/// Returns the keys of the outcomes.
fn keys_of(alloc: Global, outcomes: &[(FileKey, Outcome)]) -> Result<Vec<FileKey>, AllocError>
    ensures { IfOk result (λ keys. keys.items ≡ map (λ o. (restored o).key) outcomes.now) }
{
    let mut keys = Vec::with_capacity(alloc, outcomes.len())?;
    for outcome in outcomes {
        keys.push(outcome.0)?;
    }
    Ok(keys)
}

/// Returns the lines of the indexes without an outcome, and of the groups with fewer outcomes than
/// their counts.
fn missing_of(
    alloc: Global,
    groups: &[Group],
    counts: &[Option<u64>],
    outcomes: &[(FileKey, Outcome)],
) -> Result<Vec<u8>, AllocError>
    ensures { IfOk result (λ lines. lines.items ≡ reported Reported groups.now counts.now (map restored outcomes.now)) }
{
    let keys = keys_of(alloc, outcomes)?;
    report(alloc, groups, counts, keys)
}

/// Returns the lines of what is missing, if they are reported.
fn reported_of(
    alloc: Global,
    gaps: Gaps,
    asked: &CountedBootstrap<'_>,
    outcomes: &[(FileKey, Outcome)],
) -> Result<Vec<u8>, AllocError>
    ensures { IfOk result (λ lines. lines.items ≡ reported_for gaps asked.now (map restored outcomes.now)) }
{
    match gaps {
        Gaps::Unreported => Ok(Vec::new(alloc)),
        Gaps::Reported => missing_of(alloc, asked.bootstrap.groups(), asked.counts, outcomes),
    }
}

/// Returns for each outcome true if it is of a wanted copy; nothing if each is.
fn flags_of(
    alloc: Global,
    copies: Copies,
    outcomes: &[(FileKey, Outcome)],
) -> Result<Option<Vec<bool>>, AllocError>
    ensures flags { IfOk result (λ flags. map restored (left_by flags outcomes.now) ≡ of_copies copies (map restored outcomes.now)) }
    ensures each { IfOk result (λ flags. HaveFlags flags outcomes.now) }
{
    match copies {
        Copies::All => Ok(None),
        Copies::Newest => Ok(Some(flags_of_newest(alloc, outcomes)?)),
    }
}

/// Returns `count` flags that are true.
fn all_flags(alloc: Global, count: usize) -> Result<Vec<bool>, AllocError>
    ensures { IfOk result (λ flags. flags.items ≡ replicate count true) }
{
    vec![in alloc; true; count]
}

/// Returns the flags of outcomes. If there are no flags, each is true.
fn flags_or_all(
    alloc: Global,
    flags: Option<Vec<bool>>,
    outcomes: &[(FileKey, Outcome)],
) -> Result<Vec<bool>, AllocError>
    requires { HaveFlags flags outcomes.now }
    ensures same { IfOk result (λ all. items_where_true all.items outcomes.now ≡ left_by flags outcomes.now) }
    ensures each { IfOk result (λ all. length all.items ≡ length outcomes.now) }
{
    match flags {
        Some(flags) => Ok(flags),
        None => all_flags(alloc, outcomes.len()),
    }
}

/// Leaves out the files that conflict with one that is delivered before.
fn without_conflicts(
    alloc: Global,
    flags: Option<Vec<bool>>,
    outcomes: &[(FileKey, Outcome)],
) -> Result<Chosen, AllocError>
    requires { HaveFlags flags outcomes.now }
    ensures flags { IfOk result (λ c. map restored (left_by c.flags outcomes.now) ≡ apart (map restored (left_by flags outcomes.now))) }
    ensures left { IfOk result (λ c. c.left.items ≡ conflicts (map restored (left_by flags outcomes.now))) }
{
    let wanted = flags_or_all(alloc, flags, outcomes)?;
    let kept = keep_apart(alloc, &wanted, outcomes)?;
    Ok(Chosen {
        flags: Some(kept.flags),
        left: kept.left,
    })
}

/// Leaves out the files that conflict with one that is delivered before, unless the delivery stops
/// there.
fn chosen_of(
    alloc: Global,
    stops: Stops,
    flags: Option<Vec<bool>>,
    outcomes: &[(FileKey, Outcome)],
) -> Result<Chosen, AllocError>
    requires { HaveFlags flags outcomes.now }
    ensures flags { IfOk result (λ c. map restored (left_by c.flags outcomes.now) ≡ kept stops (map restored (left_by flags outcomes.now))) }
    ensures left { IfOk result (λ c. c.left.items ≡ conflicting stops (map restored (left_by flags outcomes.now))) }
{
    match stops {
        Stops::AtFirst => Ok(Chosen {
            flags,
            left: Vec::new(alloc),
        }),
        Stops::Never => without_conflicts(alloc, flags, outcomes),
    }
}

/// Makes the choice that is wanted among the outcomes.
pub(crate) fn prepare(
    alloc: Global,
    wanted: Wanted,
    asked: &CountedBootstrap<'_>,
    outcomes: &[(FileKey, Outcome)],
) -> Result<ChosenOutcomes, AllocError>
    ensures missing { IfOk result (λ p. p.missing.items ≡ reported_for wanted.gaps asked.now (map restored outcomes.now)) }
    ensures flags { IfOk result (λ p. map restored (left_by p.flags outcomes.now) ≡ delivered wanted (map restored outcomes.now)) }
    ensures left { IfOk result (λ p. p.left.items ≡ left_out wanted (map restored outcomes.now)) }
{
    let missing = reported_of(alloc, wanted.gaps, asked, outcomes)?;
    let flags = flags_of(alloc, wanted.copies, outcomes)?;
    let chosen = chosen_of(alloc, wanted.stops, flags, outcomes)?;
    Ok(ChosenOutcomes {
        missing,
        flags: chosen.flags,
        left: chosen.left,
    })
}

/// Drops the outcomes that are not delivered.
pub(crate) fn keep_delivered(outcomes: &mut Vec<(FileKey, Outcome)>, flags: &Option<Vec<bool>>)
    ensures { outcomes.new.items ≡ left_by flags.now outcomes.old.items }
{
    if let Some(flags) = flags {
        keep_flagged(outcomes, flags);
    }
}
