//! The gatherer: it gives a joiner the hits that workers send.
ghost use Rattle.std.specs.Prelude.{◌≡◌, ◌≢◌, ◌<◌, true, IsTrue};
ghost use Rattle.crossbeam_queue.specs.Passes.{view, IsPassOf};
ghost use Rattle.br_pool.specs.Crew.{HasAll, sent_by};
ghost use Rattle.br_pool.specs.Gathering.{IsStill, Takes, with_pushed};
ghost use Rattle.br_pool.specs.declared.gathering.Look.TheVariants.{Empty, Lost};

use crate::batch_queue::{CrewPass, Line, next_batch, try_send};
use crate::round_course::Course;
use br_join::Joiner;
use br_match::Batch;
use std::sync::Wait;

/// What became of one look at the queue.
#[derive(Clone, Copy)]
pub(crate) enum Look {
    /// The joiner took a batch.
    Taken,
    /// Memory ran out for a batch, which is lost.
    Lost,
    /// There was no batch.
    Empty,
}

/// Gives the joiner the next batch, if there is one.
fn take_one<R: Wait>(rt: &R, line: &Line, pass: &mut CrewPass, joiner: &mut Joiner) -> Look
    requires pass { IsPassOf line.now pass.old }
    requires gathers { (view pass.old).gathers ≡ true }
    ensures pass { IsPassOf line.now pass.new }
    ensures still { IsStill (view pass.old) (view pass.new) }
    ensures took { Takes (result ≢ Lost) (view pass.old) (view pass.new) joiner.old joiner.new }
    ensures all { result ≡ Empty → HasAll (view pass.new).pushed (view pass.new).popped }
    ensures no_other { result ≡ Empty → (view pass.new).parts ≡ 65536 → HasAll (view pass.new).popped (view pass.new).pushed }
{
    match next_batch(rt, line, pass) {
        None => Look::Empty,
        Some(batch) => {
            let Ok(()) = joiner.take_hits(batch) else {
                return Look::Lost;
            };
            Look::Taken
        }
    }
}

/// Gives the joiner the next batch, if there is one. Returns whether none was lost.
fn take_next<R: Wait>(rt: &R, line: &Line, pass: &mut CrewPass, joiner: &mut Joiner) -> bool
    requires pass { IsPassOf line.now pass.old }
    requires gathers { (view pass.old).gathers ≡ true }
    ensures pass { IsPassOf line.now pass.new }
    ensures still { IsStill (view pass.old) (view pass.new) }
    ensures took { Takes (IsTrue result) (view pass.old) (view pass.new) joiner.old joiner.new }
{
    match take_one(rt, line, pass, joiner) {
        Look::Taken => true,
        Look::Lost => false,
        Look::Empty => true,
    }
}

/// Pushes a batch by the pass of a sender that has ended. While the queue is full, gives the joiner
/// batches from it. Returns whether none was lost.
fn push_or_take<R: Wait>(
    rt: &R,
    line: &Line,
    pass: &mut CrewPass,
    joiner: &mut Joiner,
    own: &mut CrewPass,
    batch: Batch,
) -> bool
    requires passes { IsPassOf line.now pass.old × IsPassOf line.now own.old }
    requires gathers { (view pass.old).gathers ≡ true }
    requires part { 0 < (view own.old).parts }
    ensures passes { IsPassOf line.now pass.new × IsPassOf line.now own.new }
    ensures still { IsStill (view pass.old) (view pass.new) }
    ensures took { Takes (IsTrue result) (view pass.old) (view pass.new) joiner.old joiner.new }
    ensures sent { view own.new ≡ sent_by (view own.old) batch }
{
    let mut fine = true;
    let mut waiting = batch;
    for _ in rt.forever() {
        match try_send(rt, line, own, waiting) {
            Ok(()) => return fine,
            Err(back) => {
                waiting = back;
                fine &= take_next(rt, line, pass, joiner);
            }
        }
    }
    unreachable!()
}

/// Pushes the batches that a sender keeps which has ended, by its pass. While the queue is full, gives
/// the joiner batches from it. Returns whether none was lost.
pub(crate) fn give_kept<R: Wait>(
    rt: &R,
    line: &Line,
    pass: &mut CrewPass,
    joiner: &mut Joiner,
    own: &mut CrewPass,
    kept: Vec<Batch>,
) -> bool
    requires passes { IsPassOf line.now pass.old × IsPassOf line.now own.old }
    requires gathers { (view pass.old).gathers ≡ true }
    requires part { 0 < (view own.old).parts }
    ensures passes { IsPassOf line.now pass.new × IsPassOf line.now own.new }
    ensures still { IsStill (view pass.old) (view pass.new) }
    ensures took { Takes (IsTrue result) (view pass.old) (view pass.new) joiner.old joiner.new }
    ensures sent { view own.new ≡ with_pushed (view own.old) kept.items }
{
    let mut fine = true;
    for batch in kept {
        fine &= push_or_take(rt, line, pass, joiner, own, batch);
    }
    fine
}

/// Gives the joiner the batches in the queue, until the queue is empty after the senders have ended.
/// Returns whether nothing was lost. If a batch is lost, the later ones are still taken, so that no
/// worker waits for room in the queue.
pub(crate) fn gather<R: Wait>(
    rt: &R,
    line: &Line,
    pass: &mut CrewPass,
    joiner: &mut Joiner,
    course: &Course,
) -> bool
    requires pass { IsPassOf line.now pass.old }
    requires gathers { (view pass.old).gathers ≡ true }
    ensures pass { IsPassOf line.now pass.new }
    ensures still { IsStill (view pass.old) (view pass.new) }
    ensures took { Takes (IsTrue result) (view pass.old) (view pass.new) joiner.old joiner.new }
    ensures all { HasAll (view pass.new).pushed (view pass.new).popped }
    ensures no_other { (view pass.new).parts ≡ 65536 → HasAll (view pass.new).popped (view pass.new).pushed }
{
    let mut fine = true;
    for _ in rt.forever() {
        let over = course.is_over();
        match take_one(rt, line, pass, joiner) {
            Look::Taken => {}
            Look::Lost => fine = false,
            Look::Empty => {
                if over {
                    return fine;
                }
                course.sleep(rt);
            }
        }
    }
    unreachable!()
}

/// Begins, and gives the joiner the batches in the queue, as `gather` does.
pub(crate) fn gather_sent<R: Wait>(
    rt: &R,
    line: &Line,
    pass: &mut CrewPass,
    joiner: &mut Joiner,
    course: &Course,
) -> bool
    requires pass { IsPassOf line.now pass.old }
    requires gathers { (view pass.old).gathers ≡ true }
    ensures pass { IsPassOf line.now pass.new }
    ensures still { IsStill (view pass.old) (view pass.new) }
    ensures took { Takes (IsTrue result) (view pass.old) (view pass.new) joiner.old joiner.new }
    ensures all { HasAll (view pass.new).pushed (view pass.new).popped }
    ensures no_other { (view pass.new).parts ≡ 65536 → HasAll (view pass.new).popped (view pass.new).pushed }
{
    course.begin();
    gather(rt, line, pass, joiner, course)
}
