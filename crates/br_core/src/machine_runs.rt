//! Runs of the machine over lists of events.
ghost use Rattle.std.specs.Prelude.{map, IfOk};
ghost use Rattle.br_core.specs.Happening.{event_of, reply_of};
ghost use Rattle.br_core.specs.Machine.{IsRun, IsStep};
ghost use Rattle.br_core.specs.Reached.{nothing};
ghost use Rattle.br_core.specs.Running.{AllGiveSelected, AlwaysHaveHits};

use crate::event::{Event, Reply};
use crate::world::World;
use std::alloc::{AllocError, Global};
use std::thread::Threads;

/// Takes the step of an event, and returns its reply, which may be the number of a refusal.
fn reply_to(
    rt: &(impl Threads + Sync),
    world: &mut World,
    event: Event,
) -> Result<Reply, AllocError>
    ensures { IfOk result (λ reply. IsStep world.old (event_of event) (reply_of reply) world.new) }
{
    match world.step(rt, event) {
        Ok(reply) => Ok(reply),
        Err(fault) => match fault.cause() {
            Some(number) => Ok(Reply::Refused(number)),
            None => Err(AllocError),
        },
    }
}

/// Takes the steps of events one after another, and returns the reply to each.
fn replies_to(
    rt: &(impl Threads + Sync),
    alloc: Global,
    world: &mut World,
    events: Vec<Event>,
) -> Result<Vec<Reply>, AllocError>
    ensures { IfOk result (λ replies. IsRun world.old (map event_of events.items) (map reply_of replies.items) world.new) }
{
    let mut replies = Vec::new(alloc);
    for event in events {
        replies.push(reply_to(rt, world, event)?)?;
    }
    Ok(replies)
}

/// Runs a new machine over events. Returns its state afterwards, and the reply to each.
///
/// # Errors
///
/// Only `AllocError`, if memory runs out. Any other refusal is the reply [`Reply::Refused`], and
/// the run continues.
pub fn run(
    rt: &(impl Threads + Sync),
    alloc: Global,
    events: Vec<Event>,
) -> Result<(World, Vec<Reply>), AllocError>
    ensures run { IfOk result (λ r. IsRun nothing (map event_of events.items) (map reply_of r.1.items) r.0) }
    ensures delivers { IfOk result (λ r. AllGiveSelected (map event_of events.items) (map reply_of r.1.items) r.0) }
    ensures hits { IfOk result (λ r. AlwaysHaveHits (map event_of events.items) (map reply_of r.1.items) r.0) }
{
    let mut world = World::new(alloc);
    let replies = replies_to(rt, alloc, &mut world, events)?;
    Ok((world, replies))
}
