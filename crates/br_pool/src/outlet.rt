//! The way of a sender's batches to the gatherer: its pass of the queue, and the batches that it keeps.
ghost use Rattle.std.specs.Prelude.{◌≡◌, ◌<◌, [], OnErr, OnOk};
ghost use Rattle.crossbeam_queue.specs.Passes.{view, IsPassOf};
ghost use Rattle.br_pool.specs.Crew.{sent_by};
ghost use Rattle.br_pool.specs.Gathering.{with_pushed};
ghost use Rattle.br_pool.specs.Outlets.{outlet_view};

use crate::batch_queue::{CrewPass, Line, send, try_send};
use crate::round_course::Course;
use br_match::Batch;
use std::alloc::{AllocError, Global};
use std::mem;
use std::sync::Wait;

/// The pass of a sender, and the batches that it keeps, in their order: those for which the queue
/// had no room before the gatherer began.
pub(crate) struct Outlet {
    pub(crate) pass: CrewPass,
    pub(crate) kept: Vec<Batch>,
}

impl Outlet {
    /// Returns an outlet with this pass, which keeps nothing.
    pub(crate) fn new(alloc: Global, pass: CrewPass) -> Outlet
        ensures pass { result.pass ≡ pass }
        ensures shown { outlet_view result ≡ view pass }
    {
        let kept = Vec::new(alloc);
        Outlet { pass, kept }
    }
}

/// Pushes batches in their order. Waits while the queue is full.
fn send_each<R: Wait>(
    rt: &R,
    line: &Line,
    course: &Course,
    pass: &mut CrewPass,
    batches: Vec<Batch>,
)
    requires pass { IsPassOf line.now pass.old }
    requires part { 0 < (view pass.old).parts }
    ensures pass { IsPassOf line.now pass.new }
    ensures sent { view pass.new ≡ with_pushed (view pass.old) batches.items }
{
    for batch in batches {
        send(rt, line, course, pass, batch);
    }
}

/// Pushes the batches that are kept. Waits while the queue is full.
fn send_kept<R: Wait>(rt: &R, line: &Line, course: &Course, outlet: &mut Outlet)
    requires pass { IsPassOf line.now outlet.old.pass }
    requires part { 0 < (outlet_view outlet.old).parts }
    ensures pass { IsPassOf line.now outlet.new.pass }
    ensures same { outlet_view outlet.new ≡ outlet_view outlet.old }
    ensures none { outlet.new.kept.items ≡ [] }
{
    let alloc = *outlet.kept.allocator();
    let kept = mem::replace(&mut outlet.kept, Vec::new(alloc));
    send_each(rt, line, course, &mut outlet.pass, kept);
}

/// Keeps a batch. If memory runs out, the batch is lost.
fn keep(outlet: &mut Outlet, batch: Batch) -> Result<(), AllocError>
    ensures pass { outlet.new.pass ≡ outlet.old.pass }
    ensures sent { OnOk result (outlet_view outlet.new ≡ sent_by (outlet_view outlet.old) batch) }
    ensures same { OnErr result (outlet_view outlet.new ≡ outlet_view outlet.old) }
{
    outlet.kept.push(batch)?;
    Ok(())
}

/// Pushes a batch. If the queue is full, waits if the gatherer has begun, and else keeps the batch:
/// there may be no thread for the gatherer until the senders have ended. What is kept is pushed
/// before more is, as soon as the gatherer has begun.
///
/// # Errors
///
/// `AllocError` if memory runs out. Then the batch is lost.
pub(crate) fn send_or_keep<R: Wait>(
    rt: &R,
    line: &Line,
    course: &Course,
    outlet: &mut Outlet,
    batch: Batch,
) -> Result<(), AllocError>
    requires pass { IsPassOf line.now outlet.old.pass }
    requires part { 0 < (outlet_view outlet.old).parts }
    ensures pass { IsPassOf line.now outlet.new.pass }
    ensures sent { OnOk result (outlet_view outlet.new ≡ sent_by (outlet_view outlet.old) batch) }
    ensures same { OnErr result (outlet_view outlet.new ≡ outlet_view outlet.old) }
{
    if course.has_begun() {
        send_kept(rt, line, course, outlet);
        send(rt, line, course, &mut outlet.pass, batch);
        return Ok(());
    }
    if !outlet.kept.is_empty() {
        return keep(outlet, batch);
    }
    match try_send(rt, line, &mut outlet.pass, batch) {
        Ok(()) => Ok(()),
        Err(back) => keep(outlet, back),
    }
}
