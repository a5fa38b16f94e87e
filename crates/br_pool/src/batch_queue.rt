//! The queue by which workers send batches to the gatherer: its rule, and its passes.
ghost use Rattle.std.specs.Prelude.{◌≡◌, ◌<◌, [], true, IfErr, IfOk, IfSome, IfNone, OnErr, OnOk};
ghost use Rattle.crossbeam_queue.specs.Passes.{view, IsPassOf};
ghost use Rattle.br_pool.specs.Crew.{HasAll, crew, hired, joined, one_part_fewer, sent_by, taken_by};

use crate::round_course::Course;
use br_match::Batch;
use crossbeam_queue::protocol::{Join, Lesson, Outcome, Protocol, Split};
use crossbeam_queue::{Pass, RuledArrayQueue};
use std::alloc::{AllocError, Global};
use std::collections::LinkedList;
use std::sync::Wait;
use std::thread;

/// What a pass of the queue knows: whether it is the gatherer's, how many parts of the queue it
/// has, and which batches were pushed and popped by it and by the passes that it took in. No value
/// of this type is ever made.
pub(crate) struct Crew {
    pub(crate) gathers: bool,
    pub(crate) parts: u32,
    pub(crate) pushed: LinkedList<Batch>,
    pub(crate) popped: LinkedList<Batch>,
}

/// The rule of the queue: what was pushed is in the queue or was popped, and nothing else is there.
pub(crate) struct NothingLost;

impl Protocol<Batch, Crew> for NothingLost {
    ghost use Rattle.std.specs.Prelude.{true, []};
    ghost use Rattle.br_pool.specs.Crew.{crew, IsKept};

    ghost holds = { IsKept };

    ghost first = { crew true 65536 [] [] };
}

/// A pass gives another pass one of its parts, or takes it back with all that it pushed.
pub(crate) struct OnePart;

impl Split<Crew> for OnePart {
    ghost use Rattle.br_pool.specs.Crew.{hired, one_part_fewer};

    ghost left = { one_part_fewer };

    ghost right = { λ v. hired };
}

impl Join<Crew> for OnePart {
    ghost use Rattle.br_pool.specs.Crew as rule;

    ghost both = { rule.joined };

    ghost spent = { rule.spent };
}

/// A push of a batch.
pub(crate) struct Sends;

impl Outcome<Batch, Crew> for Sends {
    ghost use Rattle.std.specs.Prelude.{◌≡◌};
    ghost use Rattle.br_pool.specs.Crew.{sent_by};

    ghost then = { λ v x w. w ≡ sent_by v x };
}

impl Lesson<Batch, Crew> for Sends {
    ghost fact = { λ v items. Unit {0} };
}

/// A pop of a batch, and what follows from an empty queue.
pub(crate) struct Takes;

impl Outcome<Batch, Crew> for Takes {
    ghost use Rattle.std.specs.Prelude.{◌≡◌};
    ghost use Rattle.br_pool.specs.Crew.{taken_by};

    ghost then = { λ v x w. w ≡ taken_by v x };
}

impl Lesson<Batch, Crew> for Takes {
    ghost use Rattle.br_pool.specs.Crew.{TellsAll};

    ghost fact = { TellsAll };
}

/// The queue.
pub(crate) type Line = RuledArrayQueue<Batch, Crew, NothingLost>;

/// A pass of the queue.
pub(crate) type CrewPass = Pass<Batch, Crew>;

/// Returns a queue with room for `room` batches, and the gatherer's pass.
pub(crate) fn open_line(alloc: Global, room: usize) -> Result<(Line, CrewPass), AllocError>
    requires room { 0 < room }
    ensures pass { IfOk result (λ opened. IsPassOf opened.0 opened.1) }
    ensures first { IfOk result (λ opened. view opened.1 ≡ crew true 65536 [] []) }
{
    // The clauses of the kit, as facts about a crew.
    Line::ruled(alloc, room)
}

/// Returns a pass for a worker, which gets a part of the gatherer's.
pub(crate) fn pass_for_worker(line: &Line, pass: &mut CrewPass) -> CrewPass
    requires pass { IsPassOf line.now pass.old }
    requires parts { 1 < (view pass.old).parts }
    ensures passes { IsPassOf line.now pass.new × IsPassOf line.now result }
    ensures left { view pass.new ≡ one_part_fewer (view pass.old) }
    ensures first { view result ≡ hired }
{
    // The clauses of the kit, as facts about a crew.
    line.another::<OnePart>(pass)
}

/// Takes in the pass of a worker that has ended, with all that the worker pushed.
pub(crate) fn take_in(line: &Line, pass: &mut CrewPass, other: CrewPass)
    requires passes { IsPassOf line.now pass.old × IsPassOf line.now other }
    ensures pass { IsPassOf line.now pass.new }
    ensures taken { view pass.new ≡ joined (view pass.old) (view other) }
{
    line.absorb::<OnePart>(pass, other);
}

/// Pushes a batch. Returns it if the queue is full.
pub(crate) fn try_send<R: Wait>(
    rt: &R,
    line: &Line,
    pass: &mut CrewPass,
    batch: Batch,
) -> Result<(), Batch>
    requires pass { IsPassOf line.now pass.old }
    requires part { 0 < (view pass.old).parts }
    ensures pass { IsPassOf line.now pass.new }
    ensures sent { OnOk result (view pass.new ≡ sent_by (view pass.old) batch) }
    ensures same { OnErr result (view pass.new ≡ view pass.old) }
    ensures back { IfErr result (λ back. back ≡ batch) }
{
    match line.push_as::<Sends, R>(rt, pass, batch) {
        Ok(()) => Ok(()),
        Err(back) => Err(back),
    }
}

/// Pushes a batch. Waits while the queue is full.
pub(crate) fn send<R: Wait>(rt: &R, line: &Line, course: &Course, pass: &mut CrewPass, batch: Batch)
    requires pass { IsPassOf line.now pass.old }
    requires part { 0 < (view pass.old).parts }
    ensures pass { IsPassOf line.now pass.new }
    ensures sent { view pass.new ≡ sent_by (view pass.old) batch }
{
    let mut waiting = batch;
    for _ in rt.forever() {
        match try_send(rt, line, pass, waiting) {
            Ok(()) => {
                course.note_sent();
                return;
            }
            Err(back) => {
                waiting = back;
                course.wake();
                thread::yield_now();
            }
        }
    }
    unreachable!()
}

/// Pops the next batch of the queue. If there is none, all that was pushed was popped. If the pass
/// has taken all others in, it has popped all batches.
pub(crate) fn next_batch<R: Wait>(rt: &R, line: &Line, pass: &mut CrewPass) -> Option<Batch>
    requires pass { IsPassOf line.now pass.old }
    requires gathers { (view pass.old).gathers ≡ true }
    ensures pass { IsPassOf line.now pass.new }
    ensures popped { IfSome result (λ batch. view pass.new ≡ taken_by (view pass.old) batch) }
    ensures same { IfNone result (view pass.new ≡ view pass.old) }
    ensures all { IfNone result (HasAll (view pass.old).pushed (view pass.old).popped) }
    ensures no_other { IfNone result ((view pass.old).parts ≡ 65536 → HasAll (view pass.old).popped (view pass.old).pushed) }
{
    match line.pop_as::<Takes, R>(rt, pass) {
        Some(batch) => Some(batch),
        None => None,
    }
}
