//! The session and the rows of a job, before anything is written.
ghost use Rattle.std.specs.Prelude.{◌<◌, ◌^◌};
ghost use Rattle.br_history.specs.Preparing.{MakesSession, WritesJob};

use crate::fault::HistoryFault;
use crate::rows::JobRows;
use crate::saved_job::SavedJob;
use br_session::{SessionFault, Written, write_session};
use br_types::{SessionKey, VolName};
use std::alloc::Global;

/// Returns the session of a job, written to volumes of these lengths.
fn written(
    alloc: Global,
    job: &SavedJob,
    starts: &[(VolName, u64)],
) -> Result<Written, HistoryFault>
    ensures { WritesJob job.now starts.now result }
{
    let session = job.row().session;
    match write_session(
        alloc,
        job.files(),
        session,
        job.limit(),
        job.places(),
        starts,
    ) {
        Ok(written) => Ok(written),
        Err(SessionFault::BadRow) => Err(HistoryFault::BadRow),
        // The files are in order, so it is out of memory.
        Err(_) => Err(HistoryFault::Memory),
    }
}

/// States that the numbers of a session are of 32 bits.
fn are_32_bits(session: SessionKey)
    ensures id { session.id < 2 ^ 32 }
    ensures time { session.time < 2 ^ 32 }
{}

/// Returns the rows of a job, and its blocks for volumes of these lengths. A volume that is not named
/// there is empty.
///
/// # Errors
///
/// `BadRow` if a span would end past the greatest address.
pub fn session_of(
    alloc: Global,
    starts: &[(VolName, u64)],
    job: &SavedJob,
) -> Result<(JobRows, Vec<(VolName, Vec<u8>)>), HistoryFault>
    ensures { MakesSession job.now starts.now result }
{
    are_32_bits(job.row().session);
    let Written { blocks, spans } = written(alloc, job, starts)?;
    let rows = job.rows(alloc, &spans)?;
    Ok((rows, blocks))
}
