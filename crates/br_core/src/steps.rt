//! The steps of the machine, over its parts: the backups and the restores under their numbers.
ghost use Rattle.std.specs.Prelude.{map, option_map, OnOk};
ghost use Rattle.br_mark.specs.Said.{said};
ghost use Rattle.br_volume.specs.Memory.{volumes_of};
ghost use Rattle.br_history.specs.Committing.{AreWhole};
ghost use Rattle.br_core.specs.Committing.{AppendsIfCommit, AppendsSession};
ghost use Rattle.br_core.specs.Happening.{event_of};
ghost use Rattle.br_core.specs.Machine.Event.{Deliver, Finish, Plan, Read};
ghost use Rattle.br_core.specs.Reached.{IsReached};
ghost use Rattle.br_core.specs.Stepping.{CommitsBeside, PlansRestore, RestoresStep, ShowsTo, TakesStep, world_with};

use crate::backups::Backups;
use crate::event::{Event, Reply};
use crate::fault::StepFault;
use crate::open_restore::{Move, OpenRestore};
use crate::planning::planned;
use crate::restores::{add, commits_of, deliver, step_of_one};
use br_history::SavedJob;
use br_mark::Command;
use br_plan::Request;
use br_types::VolName;
use std::alloc::Global;
use std::thread::Threads;

/// Commits a job. No restore is changed.
fn commit_job(backups: &mut Backups, job: SavedJob) -> Result<Reply, StepFault>
    ensures step { CommitsBeside backups.old job backups.new result }
    ensures appends { OnOk result (AppendsSession backups.old.volumes job backups.new.volumes) }
    ensures whole { AreWhole backups.new.volumes }
{
    backups.commit(job)?;
    Ok(Reply::Done)
}

/// Returns the restore of a script's marks, just planned.
fn planned_now(
    alloc: Global,
    backups: &Backups,
    request: Request,
    script: &[Command],
) -> Result<OpenRestore, StepFault>
    ensures { PlansRestore backups.now request (map said script.now) result }
{
    let (marks, plan) = planned(alloc, backups.history(), &request, script)?;
    Ok(OpenRestore::new(alloc, backups.len(), request, marks, plan)?)
}

/// Plans a restore of a script's marks.
fn plan_restore(
    alloc: Global,
    backups: &Backups,
    restores: &mut Vec<Option<OpenRestore>>,
    request: Request,
    script: &[Command],
) -> Result<Reply, StepFault>
    ensures { RestoresStep backups.now restores.old.items (Plan request (map said script.now)) restores.new.items result }
{
    let restore = planned_now(alloc, backups, request, script)?;
    Ok(Reply::Planned(add(restores, restore)?))
}

/// Returns the volumes after a number of commits, if the restore with this number is not over, and
/// was planned after no more commits.
fn shown<'b>(
    backups: &'b Backups,
    restores: &[Option<OpenRestore>],
    number: u64,
    commits: u64,
) -> Option<&'b [(VolName, Vec<u8>)]>
    ensures { ShowsTo backups.now restores.now number commits (option_map (λ volumes. volumes_of volumes.now) result) }
{
    let Some(since) = commits_of(restores, number) else {
        return None;
    };
    if commits < since {
        return None;
    }
    backups.volumes_after(commits)
}

/// Lets the walk of a claimed piece read its next block, over the volumes after a number of
/// commits.
fn read_piece(
    alloc: Global,
    backups: &Backups,
    restores: &mut Vec<Option<OpenRestore>>,
    number: u64,
    piece: u32,
    commits: u64,
) -> Result<Reply, StepFault>
    requires { IsReached (world_with backups.now restores.old.items) }
    ensures { RestoresStep backups.now restores.old.items (Read number piece commits) restores.new.items result }
{
    let Some(volumes) = shown(backups, restores, number, commits) else {
        return Err(StepFault::NotEnabled);
    };
    step_of_one(alloc, restores, number, Move::Read(piece, volumes))
}

/// Ends the walk of a claimed piece, over the volumes of the restore's plan.
fn finish_piece(
    alloc: Global,
    backups: &Backups,
    restores: &mut Vec<Option<OpenRestore>>,
    number: u64,
    piece: u32,
) -> Result<Reply, StepFault>
    requires { IsReached (world_with backups.now restores.old.items) }
    ensures { RestoresStep backups.now restores.old.items (Finish number piece) restores.new.items result }
{
    let Some(since) = commits_of(restores, number) else {
        return Err(StepFault::NotEnabled);
    };
    let Some(volumes) = backups.volumes_after(since) else {
        return Err(StepFault::NotEnabled);
    };
    step_of_one(alloc, restores, number, Move::Finish(piece, volumes))
}

/// Delivers the files of a restore.
fn deliver_files(
    rt: &(impl Threads + Sync),
    backups: &Backups,
    restores: &mut Vec<Option<OpenRestore>>,
    number: u64,
) -> Result<Reply, StepFault>
    ensures { RestoresStep backups.now restores.old.items (Deliver number) restores.new.items result }
{
    match deliver(rt, restores, number) {
        Ok(files) => Ok(Reply::Delivered(files)),
        Err(fault) => Err(fault),
    }
}

/// Takes the step of an event. After a refusal nothing has changed.
pub(crate) fn take_step(
    rt: &(impl Threads + Sync),
    alloc: Global,
    backups: &mut Backups,
    restores: &mut Vec<Option<OpenRestore>>,
    event: Event,
) -> Result<Reply, StepFault>
    requires { IsReached (world_with backups.old restores.old.items) }
    ensures step { TakesStep (world_with backups.old restores.old.items) (event_of event) (world_with backups.new restores.new.items) result }
    ensures appends { OnOk result (AppendsIfCommit backups.old.volumes (event_of event) backups.new.volumes) }
    ensures whole { AreWhole backups.new.volumes }
{
    match event {
        Event::Commit(job) => commit_job(backups, job),
        Event::Plan(request, script) => plan_restore(alloc, backups, restores, request, &script),
        Event::Claim { plan, piece } => step_of_one(alloc, restores, plan, Move::Claim(piece)),
        Event::Read {
            plan,
            piece,
            commits,
        } => read_piece(alloc, backups, restores, plan, piece, commits),
        Event::Fail { plan, piece } => step_of_one(alloc, restores, plan, Move::Fail(piece)),
        Event::Finish { plan, piece } => finish_piece(alloc, backups, restores, plan, piece),
        Event::Take { plan, place } => step_of_one(alloc, restores, plan, Move::Take(place)),
        Event::Deliver { plan } => deliver_files(rt, backups, restores, plan),
    }
}
