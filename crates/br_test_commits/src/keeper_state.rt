//! The state after a call, and what a keeper leaves.
use br_history::JobRows;
use br_keeper::{Keeper, KeeperFault, MemJobs, Receipt, Session};
use br_types::VolName;
use br_volume::MemStore;
use md5::{Digest, Md5};
use std::alloc::Global;
use std::io;

pub(crate) type MemKeeper = Keeper<MemJobs, MemStore>;

/// What a keeper works on, and what it leaves.
pub(crate) type Kept = (MemJobs, MemStore);

/// Returns a catalogue without jobs and a store without volumes.
pub(crate) fn new_kept(alloc: Global) -> Kept {
    (MemJobs::new(alloc), MemStore::new(alloc))
}

/// Returns the name of a volume.
fn name_of(vol: &VolName) -> &str {
    str::from_utf8(vol.bytes()).unwrap_or("?")
}

/// Prints a receipt, or the number of a refusal.
pub(crate) fn tell_receipt<R: Print>(
    rt: &R,
    given: &Result<Receipt, KeeperFault>,
) -> io::Result<()> {
    match given {
        Ok(receipt) => print!(rt; " {}:{}", receipt.number(), receipt.job().get()),
        Err(fault) => print!(rt; " refused {}", fault.number()),
    }
}

/// Prints the length of each volume, and the one that the keeper vouches for.
fn tell_volumes<R: Print>(rt: &R, keeper: &MemKeeper) -> io::Result<()> {
    for volume in keeper.volumes().volumes() {
        let (vol, bytes) = (&volume.0, &volume.1);
        print!(rt; " {}={}/{}", name_of(vol), bytes.len(), keeper.vouched(vol))?;
    }
    Ok(())
}

/// Prints the number of jobs in a snapshot and the last of them, if there is a snapshot. Returns
/// the session.
fn tell_seen<R: Print>(rt: &R, session: Session) -> (Session, io::Result<()>) {
    match session.snapshot() {
        Ok(snapshot) => {
            let jobs = snapshot.history().jobs();
            let last = jobs.last().map_or(0, |rows| rows.row().id.get());
            let told = println!(rt; " seen={}:{last}", jobs.len());
            (snapshot.release(), told)
        }
        Err(session) => (session, println!(rt; " no snapshot")),
    }
}

/// Prints the state. Returns the session.
pub(crate) fn tell_state<R: Print>(
    rt: &R,
    keeper: &MemKeeper,
    session: Session,
) -> io::Result<Session> {
    tell_volumes(rt, keeper)?;
    let (session, told) = tell_seen(rt, session);
    told?;
    Ok(session)
}

/// Prints the number of a job, and its spans.
fn tell_job<R: Print>(rt: &R, rows: &JobRows) -> io::Result<()> {
    print!(rt; " {}", rows.row().id.get())?;
    for span in rows.spans() {
        print!(rt; " {}{}-{}", name_of(&span.vol), span.start, span.end)?;
    }
    print!(rt; ";")
}

/// Prints the jobs of a catalogue.
fn tell_jobs<R: Print>(rt: &R, jobs: &[JobRows]) -> io::Result<()> {
    for rows in jobs {
        tell_job(rt, rows)?;
    }
    Ok(())
}

/// Prints the digests of volumes.
fn tell_digests<R: Print>(rt: &R, volumes: &[(VolName, Vec<u8>)]) -> io::Result<()> {
    for volume in volumes {
        let digest = u128::from_be_bytes(Md5::digest(&volume.1));
        print!(rt; " {}={digest:032x}", name_of(&volume.0))?;
    }
    Ok(())
}

/// Prints the jobs of the catalogue, and the digests of the volumes.
pub(crate) fn tell_left<R: Print>(rt: &R, kept: &Kept) -> io::Result<()> {
    print!(rt; "left")?;
    tell_jobs(rt, kept.0.history.jobs())?;
    tell_digests(rt, kept.1.volumes())?;
    println!(rt; "")
}
