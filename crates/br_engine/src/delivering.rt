ghost use Rattle.std.specs.Prelude.{◌≡◌, map, option_map, Some};
ghost use Rattle.br_join.specs.Outcome.{restored};
ghost use Rattle.br_engine.specs.Outputs.{SinkCounts, StopsByFailure, StopsOnlyIf, end_of_files};
ghost use Rattle.br_engine.specs.Delivering.{EndsWith};

use crate::extracting::all_files;
use crate::restore_end::RestoreEnd;
use crate::restore_stop::RestoreStop;
use br_join::Outcome;
use br_sink::{Sink, deliver};
use br_types::FileKey;
use std::alloc::Global;
use std::thread::Threads;

/// Returns the end of a restore with these outcomes whose delivery did not stop.
pub(crate) fn end_of(outcomes: &[(FileKey, Outcome)]) -> RestoreEnd
    ensures { result ≡ end_of_files (map restored outcomes.now) }
{
    if all_files(outcomes) {
        RestoreEnd::AllFiles
    } else {
        RestoreEnd::SomeFaults
    }
}

/// Delivers the files among the outcomes into a sink. Returns the end of the restore.
fn deliver_to<S: Sink>(
    rt: &(impl Threads + Sync),
    alloc: Global,
    outcomes: &[(FileKey, Outcome)],
    sink: &mut S,
) -> RestoreEnd
    ensures ends { EndsWith (Some (S.has sink.old)) (Some (S.has sink.new)) (map restored outcomes.now) result }
    ensures counted { SinkCounts (Some (S.failures sink.old)) (Some (S.failures sink.new)) }
    ensures failed { StopsByFailure (Some (S.failures sink.old)) (Some (S.failures sink.new)) result }
    ensures lost { StopsOnlyIf 70 ⊥ result }
    ensures changed { StopsOnlyIf 72 ⊥ result }
{
    match deliver(rt, alloc, outcomes, sink) {
        Ok(_) => end_of(outcomes),
        Err(stop) => RestoreEnd::Stopped(RestoreStop::of_sink(stop)),
    }
}

/// Delivers the files among the outcomes in their order, if there is a sink. Returns the end of the
/// restore.
pub(crate) fn deliver_files<S: Sink>(
    rt: &(impl Threads + Sync),
    alloc: Global,
    outcomes: &[(FileKey, Outcome)],
    sink: &mut Option<S>,
) -> RestoreEnd
    ensures ends { EndsWith (option_map S.has sink.old) (option_map S.has sink.new) (map restored outcomes.now) result }
    ensures counted { SinkCounts (option_map S.failures sink.old) (option_map S.failures sink.new) }
    ensures failed { StopsByFailure (option_map S.failures sink.old) (option_map S.failures sink.new) result }
    ensures lost { StopsOnlyIf 70 ⊥ result }
    ensures changed { StopsOnlyIf 72 ⊥ result }
{
    match sink {
        None => end_of(outcomes),
        Some(sink) => deliver_to(rt, alloc, outcomes, sink),
    }
}
