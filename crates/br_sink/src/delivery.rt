ghost use Rattle.std.specs.Prelude.{◌≡◌, ◌<◌, ◌≤◌, true, length, map, IfOk, OnErr, IfErr};
ghost use Rattle.br_model.specs.Answer.{Answers};
ghost use Rattle.br_model.specs.Delivery.{delivery};
ghost use Rattle.br_join.specs.Outcome.{restored};
ghost use Rattle.br_sink.specs.Delivery.{IsStopIn, StandApart, items_in, items_put, stop_cause};
ghost use Rattle.br_sink.specs.Sink.{HasMore};

use crate::fault::{SinkStop, StopCause};
use crate::report::{Report, totals};
use crate::sink::Sink;
use br_join::Outcome;
use br_types::{FileKey, Ways, is_next};
use std::alloc::{AllocError, Global};
use std::thread::Threads;

/// Returns the number of outcomes before the first file whose path conflicts with an earlier one, and the
/// number of files among them.
pub fn stand_apart(
    alloc: Global,
    outcomes: &[(FileKey, Outcome)],
) -> Result<(usize, u64), AllocError>
    ensures apart { IfOk result (λ r. StandApart outcomes.now r.0 r.1) }
    ensures memory { OnErr result (0 < length (items_in outcomes.now)) }
{
    let mut ways = Ways::new(alloc);
    let mut place = 0;
    let mut files = 0;
    for (_, outcome) in outcomes {
        if let Outcome::File(item) = outcome {
            if !is_next(&mut ways, item.path.bytes())? {
                return Ok((place, files));
            }
            files += 1;
        }
        place += 1;
    }
    Ok((place, files))
}

/// Puts the files among the outcomes into a sink, in their order, and skips the faults. A file
/// whose path was put before is put again.
///
/// # Errors
///
/// The delivery stops at the first file that can't be put. The files before it stay in the sink, and the
/// stop contains their number.
///
/// - `Conflict` (81) if its path conflicts with one put before: one of the two does not end in `/` and is,
///   with a `/` appended, a prefix of the other.
/// - `Fault` (80) if the sink failed.
/// - `Memory` (1) if memory ran out.
pub fn deliver<S: Sink, R: Threads + Sync>(
    threads: &R,
    alloc: Global,
    outcomes: &[(FileKey, Outcome)],
    sink: &mut S,
) -> Result<Report, SinkStop>
    ensures answers { Answers (λ totals. totals) stop_cause result (delivery (map restored outcomes.now)) }
    ensures put { HasMore (items_put result (items_in outcomes.now)) (S.has sink.old) (S.has sink.new) }
    ensures stopped { IfErr result (λ stop. IsStopIn (items_in outcomes.now) stop) }
    ensures counted { S.failures sink.old ≤ S.failures sink.new }
    ensures failed { IfErr result (λ stop. stop.number ≡ 80 → S.failures sink.old < S.failures sink.new) }
{
    let Ok((place, files)) = stand_apart(alloc, outcomes) else {
        return Err(SinkStop::new(StopCause::Memory, 0));
    };
    sink.put_all(threads, &outcomes[..place])?;
    if place < outcomes.len() {
        return Err(SinkStop::new(StopCause::Conflict, files));
    }
    Ok(totals(outcomes))
}
