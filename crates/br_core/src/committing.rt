//! Jobs as they are committed: their sessions and rows, and the blocks on the volumes.
ghost use Rattle.std.specs.Prelude.{◌≡◌, map, IfOk, OnOk};
ghost use Rattle.br_model.specs.Volume.{Extends};
ghost use Rattle.br_model.specs.SessionHolds.{AreAppended};
ghost use Rattle.br_volume.specs.Memory.{volumes_of};
ghost use Rattle.br_volume.specs.Store.{AreAppendedInTurn};
ghost use Rattle.br_core.specs.Machine.{lengths_of};
ghost use Rattle.br_core.specs.Committing.{Prepares};

use br_history::{History, HistoryFault, JobRows, SavedJob, session_of};
use br_types::VolName;
use br_volume::{MemStore, VolumeStore, appends_add_up};
use std::alloc::{AllocError, Global};

/// Returns the lengths of volumes.
pub(crate) fn lengths(
    alloc: Global,
    volumes: &[(VolName, Vec<u8>)],
) -> Result<Vec<(VolName, u64)>, AllocError>
    ensures { IfOk result (λ lengths. lengths.items ≡ lengths_of (volumes_of volumes.now)) }
{
    let mut lengths = Vec::new(alloc);
    for volume in volumes {
        lengths.push((volume.0.copy(alloc)?, volume.1.len() as u64))?;
    }
    Ok(lengths)
}

/// Returns the rows of a job, and its blocks for volumes of these lengths, if it can be committed.
/// A volume that is not named there is empty.
///
/// # Errors
///
/// `DuplicateJob` if the history has a job of this number, `DuplicateSession` if it has one of this
/// session, and `BadRow` if a span would end past the greatest address.
pub fn prepared(
    alloc: Global,
    history: &History,
    starts: &[(VolName, u64)],
    job: &SavedJob,
) -> Result<(JobRows, Vec<(VolName, Vec<u8>)>), HistoryFault>
    ensures { Prepares history.now job.now starts.now result }
{
    history.check(job.row())?;
    session_of(alloc, starts, job)
}

/// Appends blocks, each to its volume. After a refusal some may have been appended.
fn append_all(store: &mut MemStore, blocks: &[(VolName, Vec<u8>)]) -> Result<(), AllocError>
    ensures { OnOk result (AreAppendedInTurn (map (λ b. (b.0, b.1.items)) blocks.now) store.old.volumes store.new.volumes) }
{
    for block in blocks {
        match store.append(&block.0, &block.1) {
            Ok(()) => {}
            Err(_) => return Err(AllocError),
        }
    }
    Ok(())
}

/// Returns the volumes with these blocks appended.
pub(crate) fn appended(
    alloc: Global,
    store: &MemStore,
    blocks: &[(VolName, Vec<u8>)],
) -> Result<MemStore, AllocError>
    ensures appended { IfOk result (λ later. AreAppended (map (λ b. (b.0, b.1.items)) blocks.now) store.now.volumes later.volumes) }
    ensures extend { IfOk result (λ later. Extends later.volumes store.now.volumes) }
{
    appends_add_up();
    let mut later = store.copy(alloc)?;
    append_all(&mut later, blocks)?;
    Ok(later)
}
