ghost use Rattle.std.specs.Prelude.{◌≡◌, ◌++◌, ◌∷◌, [], length, map, slice_get, IfOk, OnErr, OnOk, Some};
ghost use Rattle.br_join.specs.Outcome.{restored};
ghost use Rattle.br_core.specs.Moving.{OneDelivers, OneMoves, asked, commits_at, moved};
ghost use Rattle.br_core.specs.Stepping.{StepsOfOne};

use crate::event::Reply;
use crate::fault::StepFault;
use crate::open_restore::{Move, OpenRestore};
use br_join::Outcome;
use br_types::FileKey;
use std::alloc::{AllocError, Global};
use std::thread::Threads;

/// Makes a move of the restore with this number, if there is one that is not over.
pub(crate) fn go(
    alloc: Global,
    restores: &mut Vec<Option<OpenRestore>>,
    number: u64,
    what: Move<'_>,
) -> Result<(), StepFault>
    ensures { OneMoves (asked what.entry) (moved what.entry) number restores.old.items restores.new.items result }
{
    let Some(place) = restores.get_mut(number as usize) else {
        return Err(StepFault::NotEnabled);
    };
    let Some(mut restore) = place.take() else {
        return Err(StepFault::NotEnabled);
    };
    let result = restore.go(alloc, what);
    *place = Some(restore);
    result
}

/// Carries out an event of the restore with this number, as the relation does: the restore makes
/// the move.
pub(crate) fn step_of_one(
    alloc: Global,
    restores: &mut Vec<Option<OpenRestore>>,
    number: u64,
    what: Move<'_>,
) -> Result<Reply, StepFault>
    ensures { StepsOfOne (asked what.entry) (moved what.entry) number restores.old.items restores.new.items result }
{
    match go(alloc, restores, number, what) {
        Ok(()) => Ok(Reply::Done),
        Err(fault) => Err(fault),
    }
}

/// Adds a restore, and returns its number, which is the next one.
pub(crate) fn add(
    restores: &mut Vec<Option<OpenRestore>>,
    restore: OpenRestore,
) -> Result<u64, AllocError>
    ensures number { IfOk result (λ number. number ≡ length restores.old.items) }
    ensures ok { OnOk result (restores.new.items ≡ restores.old.items ++ Some restore ∷ []) }
    ensures err { OnErr result (restores.new.items ≡ restores.old.items) }
{
    let number = restores.len() as u64;
    restores.push(Some(restore))?;
    Ok(number)
}

/// Returns the files of the restore with this number, if all is read and taken. It is then over.
pub(crate) fn deliver(
    rt: &(impl Threads + Sync),
    restores: &mut Vec<Option<OpenRestore>>,
    number: u64,
) -> Result<Vec<(FileKey, Outcome)>, StepFault>
    ensures { OneDelivers (λ outcomes. map restored outcomes.items) number restores.old.items restores.new.items result }
{
    let Some(place) = restores.get_mut(number as usize) else {
        return Err(StepFault::NotEnabled);
    };
    let Some(restore) = place.take() else {
        return Err(StepFault::NotEnabled);
    };
    if !restore.is_whole() {
        *place = Some(restore);
        return Err(StepFault::NotEnabled);
    }
    match restore.deliver(rt) {
        Ok(files) => Ok(files),
        Err(restore) => {
            *place = Some(restore);
            Err(StepFault::Memory)
        }
    }
}

/// Returns the number of commits before the plan of the restore with this number, if there is one
/// that is not over.
pub(crate) fn commits_of(restores: &[Option<OpenRestore>], number: u64) -> Option<u64>
    ensures { result ≡ commits_at (slice_get restores.now number) }
{
    match restores.get(number as usize) {
        Some(Some(restore)) => Some(restore.commits),
        _ => None,
    }
}
