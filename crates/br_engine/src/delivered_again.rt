//! Makes files once more and puts them into a sink, some at a time.
ghost use Rattle.std.specs.Prelude.{◌≡◌, ◌<◌, ◌≤◌, length, map, IfErr};
ghost use Rattle.br_model.specs.Answer.{IsRefusal};
ghost use Rattle.br_model.specs.Delivery.{delivery};
ghost use Rattle.br_join.specs.Outcome.{restored};
ghost use Rattle.br_data.specs.ManyDrives.{GoOn};
ghost use Rattle.br_reread_files.specs.FileParts.{GivesItem};
ghost use Rattle.br_reread_files.specs.TwoFiles.{GivesKeyed};
ghost use Rattle.br_sink.specs.Delivery.{AreApart, items_in, stop_cause};
ghost use Rattle.br_engine.specs.DeliveredAgain.{CanMake, DeliversAll, IsWindowOf, PutsAgain, PutsItemAgain, PutsTwoAgain};
ghost use Rattle.br_engine.specs.Stopping.{IsChangedOnly, IsLostOnly, IsRestoreStop, IsStopAgain};

use crate::restore_stop::{
    RestoreCause, RestoreStop, as_in_memory, cause_of_again, cause_of_parts,
};
use br_data::{OverMany, standing_stays};
use br_join::Outcome;
use br_reread_files::{Gathered, KeyedItem, TwoDone};
use br_sink::{Sink, StopCause, stand_apart, totals};
use br_types::FileKey;
use br_volume::Drive;
use std::alloc::Global;
use std::thread::Threads;

/// What files are made from once more.
#[derive(Drop)]
pub(crate) struct RereadSource<'g> {
    pub(crate) alloc: Global,
    pub(crate) gathered: &'g Gathered,
    /// The number of bytes in the files that are made once more together, in memory. A longer file
    /// is put part by part: alone, or side by side with the next one, if that is longer, too.
    pub(crate) window: u64,
}

/// Returns the number of bytes in an outcome.
pub(crate) fn len_of(outcome: &Outcome) -> u64 {
    match outcome {
        Outcome::File(item) => item.bytes.len(),
        Outcome::Fault { .. } => 0,
    }
}

/// Returns the number of first outcomes that are files with more than `window` bytes: two at most.
fn long_files(window: u64, outcomes: &[(FileKey, Outcome)]) -> usize
    ensures { result ≤ length outcomes.now }
{
    match outcomes {
        [(_, one), (_, other), ..] if len_of(one) > window && len_of(other) > window => 2,
        [(_, one), ..] if len_of(one) > window => 1,
        _ => 0,
    }
}

/// Returns the number of first outcomes that are put in one step, at least one: those whose files
/// have at most `window` bytes together, or one or two longer files.
fn window_len(window: u64, outcomes: &[(FileKey, Outcome)]) -> usize
    requires { 0 < length outcomes.now }
    ensures some { 0 < result }
    ensures within { result ≤ length outcomes.now }
{
    let long = long_files(window, outcomes);
    if long > 0 {
        return long;
    }
    let mut count = 0;
    let mut left = window;
    for (_, outcome) in outcomes {
        let len = len_of(outcome);
        if count > 0 && len > left {
            return count;
        }
        left = left.saturating_sub(len);
        count += 1;
    }
    count
}

/// The outcomes whose files are put in one step.
#[derive(Drop)]
enum PutStep<'o> {
    /// One file, which is put part by part.
    Alone(KeyedItem<'o>),
    /// Two files, which are put part by part.
    Two {
        one: KeyedItem<'o>,
        other: KeyedItem<'o>,
    },
    /// Other outcomes: their files are made once more in memory.
    Together,
}

/// Returns the files to be put part by part, if these outcomes are one or two files with more than
/// `window` bytes.
fn window_of(window: u64, outcomes: &[(FileKey, Outcome)]) -> PutStep<'_>
    ensures { IsWindowOf outcomes.now result }
{
    match outcomes {
        [(key, Outcome::File(item))] if item.bytes.len() > window => {
            PutStep::Alone(KeyedItem { key: *key, item })
        }
        [(key, Outcome::File(one)), (later, Outcome::File(other))]
            if one.bytes.len() > window && other.bytes.len() > window => {
            PutStep::Two {
                one: KeyedItem {
                    key: *key,
                    item: one,
                },
                other: KeyedItem {
                    key: *later,
                    item: other,
                },
            }
        }
        _ => PutStep::Together,
    }
}

/// Makes the files among the outcomes once more in memory, and puts them into a sink.
fn put_together<D: Drive, S: Sink>(
    rt: &(impl Threads + Sync),
    source: &RereadSource<'_>,
    many: &mut OverMany<'_, D>,
    window: &[(FileKey, Outcome)],
    sink: &mut S,
) -> Result<(), RestoreStop>
    ensures put { PutsAgain many.old source.now.gathered.now window.now (S.has sink.old) (S.has sink.new) result }
    ensures stopped { IfErr result (IsStopAgain (length (items_in window.now))) }
    ensures changed { IfErr result (IsChangedOnly (CanMake many.old source.now.gathered.now (map restored window.now))) }
    ensures lost { IfErr result (IsLostOnly many.old many.new) }
    ensures on { GoOn many.old many.new }
    ensures counted { S.failures sink.old ≤ S.failures sink.new }
    ensures failed { IfErr result (λ stop. stop.number ≡ 80 → S.failures sink.old < S.failures sink.new) }
{
    match source.gathered.again(source.alloc, many, window) {
        Ok(made) => as_in_memory(sink.put_all(rt, &made)),
        Err(fault) => Err(RestoreStop::new(cause_of_again(fault), 0)),
    }
}

/// Puts a file like this one into a sink. Its data are read again while the file is put.
fn put_alone<D: Drive, S: Sink>(
    rt: &impl Threads,
    source: &RereadSource<'_>,
    many: &mut OverMany<'_, D>,
    alone: &KeyedItem<'_>,
    sink: &mut S,
) -> Result<(), RestoreStop>
    ensures put { PutsItemAgain many.old source.now.gathered.now alone.now.key alone.now.item.now (S.has sink.old) (S.has sink.new) result }
    ensures stopped { IfErr result (IsStopAgain 1) }
    ensures changed { IfErr result (IsChangedOnly (GivesItem many.old source.now.gathered.now.hits alone.now.key alone.now.item.now)) }
    ensures lost { IfErr result (IsLostOnly many.old many.new) }
    ensures on { GoOn many.old many.new }
    ensures counted { S.failures sink.old ≤ S.failures sink.new }
    ensures failed { IfErr result (λ stop. stop.number ≡ 80 → S.failures sink.old < S.failures sink.new) }
{
    let put = source
        .gathered
        .put_by_parts(rt, source.alloc, many, alone.key, alone.item, sink);
    match put {
        Ok(()) => Ok(()),
        Err(fault) => Err(RestoreStop::new(cause_of_parts(fault), 0)),
    }
}

/// Puts two files like these into a sink: side by side, if the sink puts two at once, else one
/// after the other. Their data are read again while they are put.
fn put_two_alone<D: Drive, S: Sink>(
    rt: &impl Threads,
    source: &RereadSource<'_>,
    many: &mut OverMany<'_, D>,
    one: &KeyedItem<'_>,
    other: &KeyedItem<'_>,
    sink: &mut S,
) -> Result<(), RestoreStop>
    ensures put { PutsTwoAgain many.old source.now.gathered.now one.now other.now (S.has sink.old) (S.has sink.new) result }
    ensures stopped { IfErr result (IsStopAgain 2) }
    ensures changed { IfErr result (IsChangedOnly (GivesKeyed many.old source.now.gathered.now one.now other.now)) }
    ensures lost { IfErr result (IsLostOnly many.old many.new) }
    ensures on { GoOn many.old many.new }
    ensures counted { S.failures sink.old ≤ S.failures sink.new }
    ensures failed { IfErr result (λ stop. stop.number ≡ 80 → S.failures sink.old < S.failures sink.new) }
{
    let put = source
        .gathered
        .put_two_by_parts(rt, source.alloc, many, one, other, sink);
    match put {
        TwoDone::Both => Ok(()),
        TwoDone::One(fault) => Err(RestoreStop::new(cause_of_parts(fault), 1)),
        TwoDone::Neither(fault) => Err(RestoreStop::new(cause_of_parts(fault), 0)),
    }
}

/// Makes the files among the outcomes once more, and puts them into a sink. One or two files longer
/// than the window are put part by part.
fn put_window<D: Drive, S: Sink>(
    rt: &(impl Threads + Sync),
    source: &RereadSource<'_>,
    many: &mut OverMany<'_, D>,
    window: &[(FileKey, Outcome)],
    sink: &mut S,
) -> Result<(), RestoreStop>
    ensures put { PutsAgain many.old source.now.gathered.now window.now (S.has sink.old) (S.has sink.new) result }
    ensures stopped { IfErr result (IsStopAgain (length (items_in window.now))) }
    ensures changed { IfErr result (IsChangedOnly (CanMake many.old source.now.gathered.now (map restored window.now))) }
    ensures lost { IfErr result (IsLostOnly many.old many.new) }
    ensures on { GoOn many.old many.new }
    ensures counted { S.failures sink.old ≤ S.failures sink.new }
    ensures failed { IfErr result (λ stop. stop.number ≡ 80 → S.failures sink.old < S.failures sink.new) }
{
    match window_of(source.window, window) {
        PutStep::Alone(alone) => put_alone(rt, source, many, &alone, sink),
        PutStep::Two { one, other } => put_two_alone(rt, source, many, &one, &other, sink),
        PutStep::Together => put_together(rt, source, many, window, sink),
    }
}

/// Makes the files among the outcomes once more, some at a time, and puts them into a sink in their
/// order.
fn put_windows<D: Drive, S: Sink>(
    rt: &(impl Threads + Sync),
    source: &RereadSource<'_>,
    many: &mut OverMany<'_, D>,
    outcomes: &[(FileKey, Outcome)],
    sink: &mut S,
) -> Result<(), RestoreStop>
    ensures put { PutsAgain many.old source.now.gathered.now outcomes.now (S.has sink.old) (S.has sink.new) result }
    ensures stopped { IfErr result (IsStopAgain (length (items_in outcomes.now))) }
    ensures changed { IfErr result (IsChangedOnly (CanMake many.old source.now.gathered.now (map restored outcomes.now))) }
    ensures lost { IfErr result (IsLostOnly many.old many.new) }
    ensures on { GoOn many.old many.new }
    ensures counted { S.failures sink.old ≤ S.failures sink.new }
    ensures failed { IfErr result (λ stop. stop.number ≡ 80 → S.failures sink.old < S.failures sink.new) }
{
    standing_stays();
    let mut place = 0;
    let mut done = 0;
    while place < outcomes.len() {
        let rest = &outcomes[place..];
        let (window, _) = rest.split_at(window_len(source.window, rest));
        if let Err(stop) = put_window(rt, source, many, window, sink) {
            return Err(RestoreStop::new(stop.cause(), done + stop.done()));
        }
        done += totals(window).files;
        place += window.len();
    }
    Ok(())
}

/// Makes the files among the outcomes once more, and puts them into a sink as `deliver` of br_sink does.
///
/// # Errors
///
/// Those of `deliver`, `NoDriveLeft` (70) if each drive failed, and `Changed` (72) if the data of a file are no
/// longer those that were found.
pub(crate) fn deliver_again<D: Drive, S: Sink>(
    rt: &(impl Threads + Sync),
    source: &RereadSource<'_>,
    many: &mut OverMany<'_, D>,
    outcomes: &[(FileKey, Outcome)],
    sink: &mut S,
) -> Result<(), RestoreStop>
    ensures put { PutsAgain many.old source.now.gathered.now outcomes.now (S.has sink.old) (S.has sink.new) result }
    ensures all { DeliversAll result (map restored outcomes.now) }
    ensures stopped { IfErr result (IsRestoreStop (items_in outcomes.now)) }
    ensures changed { IfErr result (IsChangedOnly (CanMake many.old source.now.gathered.now (map restored outcomes.now))) }
    ensures lost { IfErr result (IsLostOnly many.old many.new) }
    ensures on { GoOn many.old many.new }
    ensures counted { S.failures sink.old ≤ S.failures sink.new }
    ensures failed { IfErr result (λ stop. stop.number ≡ 80 → S.failures sink.old < S.failures sink.new) }
{
    let Ok((place, files)) = stand_apart(source.alloc, outcomes) else {
        return Err(RestoreStop::new(RestoreCause::Sink(StopCause::Memory), 0));
    };
    put_windows(rt, source, many, &outcomes[..place], sink)?;
    if place < outcomes.len() {
        return Err(RestoreStop::new(RestoreCause::Sink(StopCause::Conflict), files));
    }
    Ok(())
}
