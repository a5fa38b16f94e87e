//! A delivery that goes on after a file at which its sink fails.
ghost use Rattle.std.specs.Prelude.{◌≡◌, ◌++◌, ◌∷◌, [], ◌<◌, ◌≤◌, true, false, length, IfErr, IfOk, IfSome, OnErr, OnOk, Err};
ghost use Rattle.std.specs.Thread.{IsSync};
ghost use Rattle.br_types.specs.declared.wanted.Stops.TheVariants.{AtFirst};
ghost use Rattle.br_sink.specs.Delivery.{IsStopBelow, items_in, items_put};
ghost use Rattle.br_sink.specs.declared.fault.SinkFault.TheVariants.{Fault};
ghost use Rattle.br_sink.specs.Fault.{cause_number};
ghost use Rattle.br_sink.specs.FileParts.{AreAlike, with_bytes};
ghost use Rattle.br_sink.specs.TwoParts.{AreTwoAlike, AreTwoSame, FailsTwo, LosesTwo, NotChanged, two_put};
ghost use Rattle.br_sink.specs.declared.file_parts.PartsFault.TheVariants as why;
ghost use Rattle.br_sink.specs.KeepGoing.{Leaves, NotesStop, StaysNoted, Takes, passed};

use crate::fault::{SinkFault, SinkStop, StopCause};
use crate::file_parts::{Parts, PartsFault};
use crate::left_out::{Noted, file_at};
use crate::mem_sink::copy_of;
use crate::report::totals;
use crate::sink::Sink;
use crate::two_parts::{TwoParts, TwoPut};
use br_join::{FileBytes, Item, Outcome};
use br_types::{FileKey, Stops};
use std::alloc::Global;
use std::thread::Threads;

/// Returns true if a delivery goes on after a stop for this reason.
fn goes_on(stops: Stops, cause: StopCause) -> bool
    ensures on { result ≡ true → cause_number cause ≡ 80 }
    ensures stop { result ≡ false → cause_number cause ≡ 80 → stops ≡ AtFirst }
    ensures first { stops ≡ AtFirst → result ≡ false }
{
    match stops {
        Stops::AtFirst => false,
        Stops::Never => matches!(cause, StopCause::Fault),
    }
}

/// Leaves out a file at which a sink failed. Returns the fault if the file is not to be left out,
/// or if memory ran out.
fn leave_at(stops: Stops, noted: &mut Noted, item: &Item, fault: SinkFault) -> Result<(), SinkFault>
    ensures left { OnOk result ((fault ≡ Fault) × Leaves noted.old noted.new item.now) }
    ensures none { OnErr result (Takes noted.old noted.new []) }
    ensures fault { result ≡ Err Fault → (fault ≡ Fault) × (stops ≡ AtFirst) }
    ensures kept { stops ≡ AtFirst → noted.new.left.items ≡ noted.old.left.items }
{
    match fault {
        SinkFault::Memory => Err(SinkFault::Memory),
        SinkFault::Fault => {
            if !goes_on(stops, StopCause::Fault) {
                return Err(SinkFault::Fault);
            }
            noted.leave(item)?;
            Ok(())
        }
    }
}

/// Puts a file into a sink, or leaves it out.
pub(crate) fn put_one<S: Sink>(
    stops: Stops,
    sink: &mut S,
    noted: &mut Noted,
    item: &Item,
) -> Result<(), SinkFault>
    ensures taken { OnOk result (noted.new.taken.items ≡ noted.old.taken.items ++ item.now ∷ []) }
    ensures none { OnErr result (noted.new.taken.items ≡ noted.old.taken.items) }
    ensures noted { StaysNoted S.has S.failures sink.old sink.new noted.old noted.new }
    ensures counted { S.failures sink.old ≤ S.failures sink.new }
    ensures failed { result ≡ Err Fault → S.failures sink.old < S.failures sink.new }
    ensures first { result ≡ Err Fault → stops ≡ AtFirst }
    ensures kept { stops ≡ AtFirst → noted.new.left.items ≡ noted.old.left.items }
{
    match sink.put(item) {
        Ok(()) => {
            noted.take_one(item);
            Ok(())
        }
        Err(fault) => leave_at(stops, noted, item, fault),
    }
}

/// Leaves out a file at which a sink failed while its bytes were read again. Returns the fault if
/// the file is not to be left out, or if memory ran out.
fn leave_parts_at(
    stops: Stops,
    noted: &mut Noted,
    item: &Item,
    fault: PartsFault,
) -> Result<(), PartsFault>
    ensures left { OnOk result ((fault ≡ why.Fault) × Leaves noted.old noted.new item.now) }
    ensures none { OnErr result (Takes noted.old noted.new []) }
    ensures fault { result ≡ Err why.Fault → (fault ≡ why.Fault) × (stops ≡ AtFirst) }
    ensures changed { result ≡ Err why.Changed → fault ≡ why.Changed }
    ensures lost { result ≡ Err why.NoDriveLeft → fault ≡ why.NoDriveLeft }
    ensures kept { stops ≡ AtFirst → noted.new.left.items ≡ noted.old.left.items }
{
    match fault {
        PartsFault::Fault => {
            leave_at(stops, noted, item, SinkFault::Fault)?;
            Ok(())
        }
        PartsFault::Memory => Err(PartsFault::Memory),
        PartsFault::NoDriveLeft => Err(PartsFault::NoDriveLeft),
        PartsFault::Changed => Err(PartsFault::Changed),
    }
}

/// Puts a file like this one into a sink, or leaves it out. Returns the bytes that were read again, or those of
/// the file if it is left out.
pub(crate) fn put_one_by_parts<S: Sink, P: Parts>(
    alloc: Global,
    stops: Stops,
    sink: &mut S,
    noted: &mut Noted,
    item: &Item,
    parts: &mut P,
) -> Result<FileBytes, PartsFault>
    ensures taken { IfOk result (λ bytes. noted.new.taken.items ≡ noted.old.taken.items ++ with_bytes item.now bytes ∷ []) }
    ensures alike { IfOk result (λ bytes. AreAlike bytes item.now.bytes) }
    ensures same { IfOk result (λ bytes. P.gives parts.old item.now → bytes ≡ item.now.bytes) }
    ensures none { OnErr result (noted.new.taken.items ≡ noted.old.taken.items) }
    ensures noted { StaysNoted S.has S.failures sink.old sink.new noted.old noted.new }
    ensures counted { S.failures sink.old ≤ S.failures sink.new }
    ensures failed { result ≡ Err why.Fault → S.failures sink.old < S.failures sink.new }
    ensures first { result ≡ Err why.Fault → stops ≡ AtFirst }
    ensures changed { result ≡ Err why.Changed → P.gives parts.old item.now → ⊥ }
    ensures lost { result ≡ Err why.NoDriveLeft → P.loses parts.old parts.new }
    ensures kept { stops ≡ AtFirst → noted.new.left.items ≡ noted.old.left.items }
    ensures on { P.goes_on parts.old parts.new }
{
    // The copy is made first, so that nothing fails after the file was put.
    let mut made = copy_of(alloc, item)?;
    match sink.put_parts(alloc, item, parts) {
        Ok(bytes) => {
            made.bytes = bytes;
            noted.take_one(&made);
            Ok(made.bytes)
        }
        Err(fault) => {
            leave_parts_at(stops, noted, item, fault)?;
            Ok(made.bytes)
        }
    }
}

/// Puts two files like these into a sink, side by side, and notes those that were put. Returns
/// `None` if the sink does not put these two side by side.
pub(crate) fn put_two_noted<S: Sink, P: TwoParts>(
    alloc: Global,
    sink: &mut S,
    noted: &mut Noted,
    one: &Item,
    other: &Item,
    parts: &mut P,
) -> Option<TwoPut>
    ensures taken { noted.new.taken.items ≡ noted.old.taken.items ++ two_put one.now other.now result }
    ensures alike { IfSome result (AreTwoAlike one.now other.now) }
    ensures same { P.gives parts.old one.now other.now → IfSome result (AreTwoSame one.now other.now) }
    ensures noted { StaysNoted S.has S.failures sink.old sink.new noted.old noted.new }
    ensures counted { S.failures sink.old ≤ S.failures sink.new }
    ensures failed { FailsTwo result → S.failures sink.old < S.failures sink.new }
    ensures changed { P.gives parts.old one.now other.now → IfSome result NotChanged }
    ensures lost { LosesTwo result → P.loses parts.old parts.new }
    ensures kept { noted.new.left.items ≡ noted.old.left.items }
    ensures on { P.goes_on parts.old parts.new }
{
    match sink.put_two(alloc, one, other, parts) {
        Some(put) => {
            noted.take_two(one, other, &put);
            Some(put)
        }
        None => None,
    }
}

/// Leaves out the file at which a sink stopped. Returns the number of outcomes up to this file,
/// included.
///
/// Returns the stop if no file is to be left out, or if memory ran out.
fn pass(
    stops: Stops,
    noted: &mut Noted,
    outcomes: &[(FileKey, Outcome)],
    stop: SinkStop,
) -> Result<usize, SinkStop>
    requires { IsStopBelow (length (items_in outcomes.now)) stop }
    ensures some { IfOk result (λ n. 0 < n) }
    ensures within { IfOk result (λ n. n ≤ length outcomes.now) }
    ensures taken { noted.new.taken.items ≡ noted.old.taken.items ++ passed result outcomes.now }
    ensures noted { NotesStop outcomes.now stop noted.old noted.new }
    ensures stopped { IfErr result (IsStopBelow (length (items_in outcomes.now))) }
    ensures fault { IfErr result (λ s. s.number ≡ 80 → (stop.number ≡ 80) × (stops ≡ AtFirst)) }
    ensures kept { stops ≡ AtFirst → noted.new.left.items ≡ noted.old.left.items }
{
    let Some((place, item)) = file_at(outcomes, stop.done()) else {
        return Err(stop);
    };
    noted.take(&outcomes[..place]);
    if !goes_on(stops, stop.cause()) {
        return Err(stop);
    }
    if let Err(_) = noted.leave(item) {
        return Err(SinkStop::new(StopCause::Memory, stop.done()));
    }
    Ok(place + 1)
}

/// Puts files among the outcomes into a sink: all, or those before the first at which it fails.
/// That one is left out. Returns the number of outcomes that are dealt with.
fn put_some<S: Sink, R: Threads + Sync>(
    threads: &R,
    stops: Stops,
    sink: &mut S,
    noted: &mut Noted,
    outcomes: &[(FileKey, Outcome)],
) -> Result<usize, SinkStop>
    requires some { 0 < length outcomes.now }
    requires threads { IsSync R.row }
    ensures some { IfOk result (λ n. 0 < n) }
    ensures within { IfOk result (λ n. n ≤ length outcomes.now) }
    ensures taken { noted.new.taken.items ≡ noted.old.taken.items ++ passed result outcomes.now }
    ensures noted { StaysNoted S.has S.failures sink.old sink.new noted.old noted.new }
    ensures stopped { IfErr result (IsStopBelow (length (items_in outcomes.now))) }
    ensures counted { S.failures sink.old ≤ S.failures sink.new }
    ensures failed { IfErr result (λ stop. stop.number ≡ 80 → S.failures sink.old < S.failures sink.new) }
    ensures first { IfErr result (λ stop. stop.number ≡ 80 → stops ≡ AtFirst) }
    ensures kept { stops ≡ AtFirst → noted.new.left.items ≡ noted.old.left.items }
{
    match sink.put_all(threads, outcomes) {
        Ok(()) => {
            noted.take(outcomes);
            Ok(outcomes.len())
        }
        Err(stop) => pass(stops, noted, outcomes, stop),
    }
}

/// Puts the files among the outcomes into a sink, in their order, and leaves out those at which it fails.
pub(crate) fn put_each<S: Sink, R: Threads + Sync>(
    threads: &R,
    stops: Stops,
    sink: &mut S,
    noted: &mut Noted,
    outcomes: &[(FileKey, Outcome)],
) -> Result<(), SinkStop>
    requires threads { IsSync R.row }
    ensures taken { noted.new.taken.items ≡ noted.old.taken.items ++ items_put result (items_in outcomes.now) }
    ensures noted { StaysNoted S.has S.failures sink.old sink.new noted.old noted.new }
    ensures stopped { IfErr result (IsStopBelow (length (items_in outcomes.now))) }
    ensures counted { S.failures sink.old ≤ S.failures sink.new }
    ensures failed { IfErr result (λ stop. stop.number ≡ 80 → S.failures sink.old < S.failures sink.new) }
    ensures first { IfErr result (λ stop. stop.number ≡ 80 → stops ≡ AtFirst) }
    ensures kept { stops ≡ AtFirst → noted.new.left.items ≡ noted.old.left.items }
{
    let mut place = 0;
    while place < outcomes.len() {
        match put_some(threads, stops, sink, noted, &outcomes[place..]) {
            Ok(count) => place += count,
            Err(stop) => {
                let done = totals(&outcomes[..place]).files;
                return Err(SinkStop::new(stop.cause(), done + stop.done()));
            }
        }
    }
    Ok(())
}
