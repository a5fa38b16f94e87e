//! A keeper with one caller.
ghost use Rattle.std.specs.Prelude.{◌≡◌};

use crate::job_drafts::{Job, saved_job};
use crate::keeper_state::{Kept, MemKeeper, tell_left, tell_receipt, tell_state};
use br_keeper::{Keeper, Session};
use br_types::VolName;
use std::io;
use std::sync::Wait;

/// A deed: a job is committed, what waits is published, or a byte is appended to the volume C.
#[derive(Clone, Copy)]
pub(crate) enum Deed {
    Commit(Job),
    Republish,
    Append,
}

/// Commits a job, and prints the result.
fn commit<R: Print + Wait + AllocGlobal>(
    rt: &R,
    keeper: &mut MemKeeper,
    job: Job,
) -> io::Result<()> {
    let Some(job) = saved_job(rt.alloc(), job) else {
        return print!(rt; "no job");
    };
    print!(rt; "commit {}", job.row().id.get())?;
    tell_receipt(rt, &keeper.commit(rt, job))
}

/// Publishes the job that waits, and prints the result.
fn republish<R: Print + Wait + AllocGlobal>(rt: &R, keeper: &mut MemKeeper) -> io::Result<()> {
    match keeper.republish(rt) {
        Ok(Some(receipt)) => {
            print!(rt; "republish {}:{}", receipt.number(), receipt.job().get())
        }
        Ok(None) => print!(rt; "republish none"),
        Err(fault) => print!(rt; "republish refused {}", fault.number()),
    }
}

/// Appends a byte to the volume C, and prints the result.
fn append<R: Print + Wait + AllocGlobal>(rt: &R, keeper: &mut MemKeeper) -> io::Result<()> {
    let Ok(vol) = VolName::new(rt.alloc(), b"C") else {
        return print!(rt; "no name");
    };
    match keeper.append_raw(&vol, b"0") {
        Ok(()) => print!(rt; "append done"),
        Err(fault) => print!(rt; "append refused {}", fault.number()),
    }
}

/// Does one deed, and prints the result.
fn act<R: Print + Wait + AllocGlobal>(
    rt: &R,
    keeper: &mut MemKeeper,
    deed: Deed,
) -> io::Result<()> {
    match deed {
        Deed::Commit(job) => commit(rt, keeper, job),
        Deed::Republish => republish(rt, keeper),
        Deed::Append => append(rt, keeper),
    }
}

/// Does the deeds, and prints after each the result and the state.
fn act_each<R: Print + Wait + AllocGlobal>(
    rt: &R,
    keeper: &mut MemKeeper,
    session: Session,
    deeds: &[Deed],
) -> io::Result<()> {
    let mut session = session;
    for deed in deeds {
        act(rt, keeper, *deed)?;
        session = tell_state(rt, keeper, session)?;
    }
    Ok(())
}

/// Commits a job, and prints the result. Returns the session, which then knows that the job is
/// published.
fn learn<R: Print + Wait + AllocGlobal>(
    rt: &R,
    keeper: &mut MemKeeper,
    session: Session,
    job: Job,
) -> (Session, io::Result<()>)
    requires { session.book ≡ keeper.old.list.book }
{
    let Some(job) = saved_job(rt.alloc(), job) else {
        return (session, print!(rt; "no job"));
    };
    match keeper.commit(rt, job) {
        Ok(receipt) => {
            let told = print!(rt; "learn {}:{}", receipt.number(), receipt.job().get());
            (session.learn(&receipt), told)
        }
        Err(fault) => (session, print!(rt; "learn refused {}", fault.number())),
    }
}

/// Commits the first job, and does the deeds.
fn begin<R: Print + Wait + AllocGlobal>(
    rt: &R,
    keeper: &mut MemKeeper,
    session: Session,
    first: Job,
    deeds: &[Deed],
) -> io::Result<()>
    requires { session.book ≡ keeper.old.list.book }
{
    let (session, told) = learn(rt, keeper, session, first);
    told?;
    let session = tell_state(rt, keeper, session)?;
    act_each(rt, keeper, session, deeds)
}

/// Commits the first job and does the deeds by a new keeper, and prints what is left. Returns that, if
/// there was a keeper.
pub(crate) fn run<R: Print + Wait + AllocGlobal>(
    rt: &R,
    kept: Kept,
    first: Job,
    deeds: &[Deed],
) -> io::Result<Option<Kept>> {
    let (jobs, volumes) = kept;
    match Keeper::new(rt, rt.alloc(), jobs, volumes, 1) {
        Ok((mut keeper, mut sessions)) => {
            let told = match sessions.pop() {
                Some(session) => begin(rt, &mut keeper, session, first, deeds),
                None => Ok(()),
            };
            let kept = keeper.close(rt);
            told?;
            tell_left(rt, &kept)?;
            Ok(Some(kept))
        }
        Err(fault) => {
            println!(rt; "no keeper: refused {}", fault.number())?;
            Ok(None)
        }
    }
}
