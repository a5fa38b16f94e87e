//! The results of the callers of a served keeper, each in its own thread, and what sessions in
//! other threads see meanwhile.
ghost use Rattle.std.specs.Prelude.{◌≡◌, ◌<◌, [], IfSome};
ghost use Rattle.br_keeper.specs.Sessions.{AllKnow};

use crate::keeping::MemKeeper;
use crate::mem_volumes::MemVolumes;
use crate::saved_jobs::numbered;
use br_history::JobRows;
use br_keeper::{Ask, Keeper, MemJobs, Naming, Reply, SavedJob, Session, serve};
use br_test_support::Case;
use br_volume::MemStore;
use crossbeam_channel::{Sender, bounded, unbounded};
use std::alloc::{AllocError, Global};
use std::marker::Brand;
use std::sync::Wait;
use std::thread::{JoinHandle, Threads, spawn, yield_now};

/// The jobs of the first caller are numbered from 1, those of the second one from 1,001.
const BEFORE_SECOND: u32 = 1000;

/// The last job of each caller, or the number before its first.
type Seen = (u32, u32);

/// Returns the last job of each caller, if these are the first jobs of each, in its order.
fn seen_in(jobs: &[JobRows]) -> Option<Seen> {
    let mut seen = (0, BEFORE_SECOND);
    for rows in jobs {
        let id = rows.row().id.get();
        if id.checked_sub(1) == Some(seen.0) {
            seen.0 = id;
        } else if id.checked_sub(1) == Some(seen.1) {
            seen.1 = id;
        } else {
            return None;
        }
    }
    Some(seen)
}

/// Takes a snapshot. Returns the last job of each caller in it, or `None` if they are not in order
/// or there is no snapshot.
fn look(session: Session) -> Option<(Session, Seen)>
    ensures { IfSome result (λ r. r.0.book ≡ session.book) }
{
    match session.snapshot() {
        Ok(snapshot) => {
            let seen = seen_in(snapshot.history().jobs());
            let session = snapshot.release();
            Some((session, seen?))
        }
        Err(_) => None,
    }
}

/// Has a job committed, learns its receipt, and finds it as the last job of its caller in the next snapshot. Returns
/// `None` if no receipt comes or the job is not found.
fn ask<K: Naming, R: Wait>(
    rt: &R,
    alloc: Global,
    inbox: &Sender<Ask<K>>,
    session: Session,
    job: SavedJob,
) -> Option<Session>
    requires { session.book ≡ K.book }
    ensures { IfSome result (λ s. s.book ≡ K.book) }
{
    let id = job.row().id.get();
    let Ok((reply, replies)) = bounded::<Reply<K>, Global>(alloc, 1) else {
        return None;
    };
    let _ = inbox.send(rt, Ask { job, reply });
    let Ok(reply) = replies.recv(rt) else {
        return None;
    };
    let Ok(receipt) = reply.receipt() else {
        return None;
    };
    let (session, seen) = look(session.learn(receipt))?;
    if seen.0 == id || seen.1 == id {
        Some(session)
    } else {
        None
    }
}

/// Has `count` jobs committed one after another, with the numbers after `before`. Returns whether
/// it found each in the next snapshot. The sender is dropped at the end.
fn call<K: Naming, R: Wait>(
    rt: &R,
    alloc: Global,
    inbox: Sender<Ask<K>>,
    session: Session,
    before: u32,
    count: u32,
) -> bool
    requires { session.book ≡ K.book }
{
    let mut session = session;
    for place in 0..count {
        let Some(job) = numbered(alloc, before.saturating_add(place).saturating_add(1)) else {
            return false;
        };
        let Some(next) = ask::<K, R>(rt, alloc, &inbox, session, job) else {
            return false;
        };
        session = next;
    }
    true
}

/// Starts a caller in its own thread. The thread returns whether it found all its jobs.
fn start<K: Naming + Send + Sync + 'static, R: Threads + Wait + Copy + Send + 'static>(
    rt: R,
    alloc: Global,
    inbox: Sender<Ask<K>>,
    session: Session,
    before: u32,
    count: u32,
) -> Option<JoinHandle<bool>>
    requires { session.book ≡ K.book }
{
    let caller = spawn(
        &rt,
        move || -> bool
            requires { session.book ≡ K.book }
        { call::<K, R>(&rt, alloc, inbox, session, before, count) },
    );
    match caller {
        Ok(caller) => Some(caller),
        Err(_) => None,
    }
}

/// Takes snapshots until one has all jobs. Returns false if there is no snapshot, or one has jobs
/// out of order or fewer than the previous one.
fn watch<R: Wait>(rt: &R, session: Session, all: Seen) -> bool {
    let mut session = session;
    let mut before = (0, 0);
    for _ in rt.forever() {
        let Some((next, seen)) = look(session) else {
            return false;
        };
        if seen.0 < before.0 || seen.1 < before.1 || seen == all {
            return seen == all;
        }
        session = next;
        before = seen;
        yield_now();
    }
    false
}

/// Starts a watcher of each session, each in its own thread.
fn start_watchers<R: Threads + Wait + Copy + Send + 'static>(
    rt: R,
    alloc: Global,
    sessions: Vec<Session>,
    all: Seen,
) -> Result<Vec<Option<JoinHandle<bool>>>, AllocError> {
    let mut watchers = Vec::with_capacity(alloc, sessions.len())?;
    for session in sessions {
        let watcher = match spawn(&rt, move || watch(&rt, session, all)) {
            Ok(watcher) => Some(watcher),
            Err(_) => None,
        };
        watchers.push(watcher).map_err(AllocError::from)?;
    }
    Ok(watchers)
}

/// Waits for a thread, and returns what it returns.
fn end<R: Threads>(rt: &R, thread: Option<JoinHandle<bool>>) -> bool {
    match thread {
        Some(thread) => thread.join(rt),
        None => false,
    }
}

/// Waits for watchers, and returns the number of them that were right.
fn count_right<R: Threads>(rt: &R, watchers: Vec<Option<JoinHandle<bool>>>) -> u32 {
    let mut count: u32 = 0;
    for watcher in watchers {
        count = count.saturating_add(u32::from(end(rt, watcher)));
    }
    count
}

/// Serves two callers until both have ended. Returns whether both found all their jobs.
fn serve_both<K: Naming + Send + Sync + 'static, R: Threads + Wait + Copy + Send + 'static>(
    rt: R,
    alloc: Global,
    keeper: MemKeeper,
    callers: (Session, Session),
    jobs: (u32, u32),
) -> (MemKeeper, bool)
    requires { (keeper.list.book ≡ K.book) × (callers.0.book ≡ K.book) × (callers.1.book ≡ K.book) }
{
    let Ok((inbox, asks)) = unbounded::<Ask<K>, Global>(alloc) else {
        return (keeper, false);
    };
    let Ok(second) = inbox.clone() else {
        return (keeper, false);
    };
    let one = start::<K, R>(rt, alloc, inbox, callers.0, 0, jobs.0);
    let other = start::<K, R>(rt, alloc, second, callers.1, BEFORE_SECOND, jobs.1);
    let keeper = serve::<K, MemJobs, MemVolumes, R>(&rt, keeper, &asks);
    let found = end(&rt, one);
    (keeper, end(&rt, other) && found)
}

/// Serves two callers with the last two sessions, while the others watch. Returns the number of
/// watchers that were right if both callers found all their jobs.
fn serve_sessions<R: Threads + Wait + Copy + Send + 'static>(
    rt: R,
    alloc: Global,
    keeper: MemKeeper,
    mut sessions: Vec<Session>,
    jobs: (u32, u32),
) -> (MemKeeper, Option<u32>)
    requires { AllKnow keeper.list.book keeper.list.opening [] sessions.items }
{
    let Some(one) = sessions.pop() else {
        return (keeper, None);
    };
    let Some(other) = sessions.pop() else {
        return (keeper, None);
    };
    let all = (jobs.0, BEFORE_SECOND.saturating_add(jobs.1));
    let Ok(watchers) = start_watchers(rt, alloc, sessions, all) else {
        return (keeper, None);
    };
    let (keeper, found) = serve_both::<Brand, R>(rt, alloc, keeper, (one, other), jobs);
    let right = if found {
        Some(count_right(&rt, watchers))
    } else {
        None
    };
    (keeper, right)
}

/// Runs a call: serves two callers that have this number of jobs committed, while this number of
/// sessions watch. Prints the number of watchers that were right, if both callers found all their
/// jobs, and the number of jobs in the catalogue.
pub(crate) fn run<R: Threads + Wait + Copy + Send + 'static>(
    rt: R,
    case: &mut Case,
    jobs: (u32, u32),
    watchers: u32,
) {
    let alloc = case.alloc();
    let catalogue = MemJobs::new(alloc);
    let sessions = if watchers < 15 { watchers + 2 } else { 16 };
    let volumes = MemVolumes::new(MemStore::new(alloc), 0, 0);
    match Keeper::new(&rt, alloc, catalogue, volumes, sessions) {
        Ok((keeper, sessions)) => {
            let (keeper, right) = serve_sessions(rt, alloc, keeper, sessions, jobs);
            case.number_or_none(right.map(u64::from));
            let (catalogue, _volumes) = keeper.close(&rt);
            case.text(" ");
            case.number(catalogue.history.len() as u64);
        }
        Err(fault) => case.refused(fault.number()),
    }
}
