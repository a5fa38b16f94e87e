//! The results of a keeper in memory, what a session sees meanwhile, and what is left on the
//! volumes and in the catalogue.

use crate::mem_volumes::MemVolumes;
use crate::saved_jobs::job_of;
use br_history::JobRows;
use br_keeper::{Keeper, KeeperFault, MemJobs, Receipt, Session};
use br_test_support::Case;
use br_types::VolName;
use br_volume::MemStore;
use std::sync::Wait;

pub(crate) type MemKeeper = Keeper<MemJobs, MemVolumes>;

/// Prints the number of a receipt and that of its job; `none` if nothing was published; or the
/// number of the refusal.
fn push_receipt(case: &mut Case, given: &Result<Option<Receipt>, KeeperFault>) {
    match given {
        Ok(Some(receipt)) => {
            case.number(receipt.number());
            case.text(":");
            case.number(u64::from(receipt.job().get()));
        }
        Ok(None) => case.text("none"),
        Err(fault) => case.number(u64::from(fault.number())),
    }
}

/// Commits the job in a text of lines, and prints the result.
fn commit<R: Wait>(rt: &R, case: &mut Case, keeper: &mut MemKeeper, text: &str) {
    let Some(job) = job_of(case, text) else {
        return;
    };
    let given = match keeper.commit(rt, job) {
        Ok(receipt) => Ok(Some(receipt)),
        Err(fault) => Err(fault),
    };
    push_receipt(case, &given);
}

/// Takes a snapshot, and prints the number of its jobs and the number of the last one, or that
/// there is no snapshot.
fn see(case: &mut Case, session: Session) -> Session {
    match session.snapshot() {
        Ok(snapshot) => {
            let jobs = snapshot.history().jobs();
            let last = jobs.last().map_or(0, |rows| rows.row().id.get());
            case.number(jobs.len() as u64);
            case.text("/");
            case.number(u64::from(last));
            snapshot.release()
        }
        Err(session) => {
            case.text("none");
            session
        }
    }
}

/// Appends a byte to a volume, or prints the length that the keeper vouches for.
fn ask_of_volume(case: &mut Case, keeper: &mut MemKeeper, word: &str, name: &str) {
    let Some(vol) = case.vol_of(name) else {
        return;
    };
    if word == "vouched" {
        return case.number(keeper.vouched(&vol));
    }
    match keeper.append_raw(&vol, b"0") {
        Ok(()) => case.text("done"),
        Err(_) => case.text("failed"),
    }
}

/// Takes a step, and prints the result.
fn act<R: Wait>(
    rt: &R,
    case: &mut Case,
    keeper: &mut MemKeeper,
    session: Session,
    step: &str,
) -> Session {
    let (word, rest) = step.split_once(':').unwrap_or((step, ""));
    match word {
        "see" => return see(case, session),
        "commit" => commit(rt, case, keeper, rest),
        "republish" => push_receipt(case, &keeper.republish(rt)),
        _ => ask_of_volume(case, keeper, word, rest),
    }
    session
}

/// Takes steps one after another.
fn act_each<R: Wait>(
    rt: &R,
    case: &mut Case,
    keeper: &mut MemKeeper,
    session: Session,
    steps: &[&str],
) -> Session {
    let mut session = session;
    for step in steps {
        session = act(rt, case, keeper, session, step);
        case.text(" ");
    }
    session
}

/// Prints the names and lengths of volumes.
fn push_volumes(case: &mut Case, volumes: &[(VolName, Vec<u8>)]) {
    for volume in volumes {
        case.bytes(volume.0.bytes());
        case.text("=");
        case.number(volume.1.len() as u64);
        case.text(" ");
    }
}

/// Prints the numbers of jobs, and their spans.
fn push_jobs(case: &mut Case, jobs: &[JobRows]) {
    for rows in jobs {
        case.number(u64::from(rows.row().id.get()));
        for span in rows.spans() {
            case.text(" ");
            case.bytes(span.vol.bytes());
            case.number(span.start);
            case.text("-");
            case.number(span.end);
        }
        case.text(";");
    }
}

/// Makes volumes of which this call fails.
fn volumes_of(case: &mut Case, failure: &str) -> MemVolumes {
    let alloc = case.alloc();
    match case.split(failure, ':') {
        ("length", number) => MemVolumes::new(MemStore::new(alloc), case.u64_of(number), 0),
        ("sync", number) => MemVolumes::new(MemStore::new(alloc), 0, case.u64_of(number)),
        (number, kept) => {
            let (number, kept) = (case.u64_of(number), case.u32_of(kept));
            MemVolumes::new(MemStore::failing_at(alloc, number, kept as usize), 0, 0)
        }
    }
}

/// Runs a call: makes a keeper with sixteen sessions over a catalogue without jobs, takes the
/// steps, and prints what one of the sessions sees after the keeper has ended, and what is left.
/// `NUMBER:KEPT` tells which append fails (0 for none), and the number of its bytes that are kept;
/// `length:NUMBER` which call for a length fails, `sync:NUMBER` which sync.
pub(crate) fn run<R: Wait>(rt: &R, case: &mut Case, failure: &str, steps: &[&str]) {
    let alloc = case.alloc();
    let volumes = volumes_of(case, failure);
    let catalogue = MemJobs::new(alloc);
    match Keeper::new(rt, alloc, catalogue, volumes, 16) {
        Ok((mut keeper, mut sessions)) => {
            let session = match sessions.pop() {
                Some(session) => Some(act_each(rt, case, &mut keeper, session, steps)),
                None => None,
            };
            let (catalogue, volumes) = keeper.close(rt);
            if let Some(session) = session {
                let _ = see(case, session);
            }
            case.text(" ");
            push_volumes(case, volumes.store.volumes());
            push_jobs(case, catalogue.history.jobs());
        }
        Err(fault) => case.refused(fault.number()),
    }
}
