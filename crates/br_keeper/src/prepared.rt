//! A job that can be committed, before anything is written.
ghost use Rattle.br_keeper.specs.Preparing.{Prepares};

use crate::vouched_lengths::{Vouch, starts_of};
use br_history::{History, HistoryFault, JobRows, SavedJob, session_of};
use br_types::VolName;
use std::alloc::Global;

/// A job that can be committed: its rows, the blocks of its session, and the lengths of the volumes
/// at which they begin, one for each place.
#[derive(Drop)]
pub(crate) struct Prepared {
    pub(crate) rows: JobRows,
    pub(crate) blocks: Vec<(VolName, Vec<u8>)>,
    pub(crate) starts: Vec<(VolName, u64)>,
}

/// Prepares a job, if it can be committed.
pub(crate) fn prepare(
    alloc: Global,
    vouches: &[Vouch],
    history: &History,
    job: &SavedJob,
) -> Result<Prepared, HistoryFault>
    ensures { Prepares vouches.now history.now job.now result }
{
    history.check(job.row())?;
    let starts = starts_of(alloc, vouches, history.jobs(), job.places())?;
    let (rows, blocks) = session_of(alloc, &starts, job)?;
    Ok(Prepared {
        rows,
        blocks,
        starts,
    })
}
