//! Volumes over which restores run while jobs are appended to them.
ghost use Rattle.std.specs.Prelude.{◌≡◌, length, true, IfOk};
ghost use Rattle.std.specs.List.{list_all};
ghost use Rattle.std.specs.Thread.{IsSync};
ghost use Rattle.br_model.specs.BootstrapText.{is_group};
ghost use Rattle.br_pool.specs.Pool.{AreDrives, StayInPlace};
ghost use Rattle.br_engine.specs.Restores.{change};
ghost use Rattle.br_cli_serve.specs.DrivenRestoring.{RestoredBy, RestoresWanted};

use crate::drive_count::{DriveCount, drives_over};
use crate::fixed_drive::FixedDrive;
use br_bsr::Bootstrap;
use br_engine::{Budget, ExtractFault, Restore, RestoreEnd, RestoreOrder};
use br_sink::{MemSink, Sink};
use br_types::Names;
use br_volume::{Drive, MemStore, VolumeStore};
use std::alloc::{AllocError, Global};
use std::io::Write;
use std::sync::Wait;
use std::thread::Threads;

/// What is to be restored, and by how many drives.
#[derive(Drop)]
pub struct DrivenRestore<'b> {
    pub drives: DriveCount,
    pub bootstrap: &'b Bootstrap,
    /// The names of the files, if the bootstrap is that of a plan.
    pub names: Option<Names>,
}

/// A reader of the volumes that a store had when the reader was made. It does not borrow the store,
/// and what is appended to the store later changes nothing of what it shows.
pub trait VolumeReader {
    ghost use Rattle.std.specs.Prelude.{List, Option};
    ghost use Rattle.br_model.specs.Volume.{Volume};

    /// The volumes that it shows, if it reports them.
    ghost shows: { Self → Option (List Volume) };

    /// Restores by drives over the volumes, writes the manifest and flushes it.
    ///
    /// # Errors
    ///
    /// As `restore_by`, and `Memory` if memory runs out for the drives.
    fn restore<T: Threads + Wait + Sync, W: Write>(
        &self,
        rt: &T,
        budget: Budget,
        wanted: DrivenRestore<'_>,
        writer: &mut W,
    ) -> Result<RestoreEnd, ExtractFault>
        requires threads { IsSync T.row }
        ensures restored { RestoresWanted (Self.shows self.now) wanted.entry (W.contents writer.old) (W.contents writer.new) result };
}

/// A store of volumes that has readers.
pub trait DrivenStore: VolumeStore {
    type Reader: VolumeReader + Drop;

    /// Returns a reader of the volumes, which takes its memory from this allocator.
    fn reader(&self, alloc: Global) -> Result<Self::Reader, AllocError>
        ensures shows { IfOk result (λ reader. Self.Reader.shows reader ≡ Self.holds self.now) };
}

/// Restores by a new reader of a store, writes the manifest and flushes it.
///
/// # Errors
///
/// As the reader's `restore`, and `Memory` if memory runs out for the reader.
#[tactic(auto, using(crate::proofs::DrivenLaws::no_drives))]
pub(crate) fn restore_by_reader<T: Threads + Wait + Sync, V: DrivenStore, W: Write>(
    rt: &T,
    volumes: &V,
    budget: Budget,
    wanted: DrivenRestore<'_>,
    writer: &mut W,
) -> Result<RestoreEnd, ExtractFault>
    ensures restored { RestoresWanted (V.holds volumes.now) wanted.entry (W.contents writer.old) (W.contents writer.new) result }
{
    let reader = volumes.reader(budget.alloc)?;
    reader.restore(rt, budget, wanted, writer)
}

/// Restores by these drives, as many as are wanted: writes the manifest and flushes it, and then
/// delivers the files into the sink, if there is one.
///
/// # Errors
///
/// As `Restore::run` of br_engine.
pub fn restore_by<T: Threads + Wait + Sync, D: Drive + Send, W: Write, S: Sink>(
    rt: &T,
    restore: &mut Restore<D, S>,
    wanted: DrivenRestore<'_>,
    writer: &mut W,
) -> Result<RestoreEnd, ExtractFault>
    requires few { AreDrives restore.old.drives.items }
    requires many { length restore.old.drives.items ≡ wanted.drives }
    ensures restored { RestoredBy wanted.entry (change D.Drive W.Write S.Sink (restore.old, writer.old) (restore.new, writer.new)) result }
    ensures places { StayInPlace D.shows D.failures restore.old.drives.items restore.new.drives.items }
{
    let order = RestoreOrder::plain(wanted.bootstrap, wanted.names);
    match restore.run(rt, order, writer) {
        Ok(done) => Ok(done.end),
        Err(fault) => Err(fault),
    }
}

/// States that a text can state each group of a bootstrap.
fn groups_are_valid(bootstrap: &Bootstrap)
    ensures { list_all is_group bootstrap.now ≡ true }
{
    let _groups = bootstrap.groups();
}

impl VolumeReader for MemStore {
    ghost use Rattle.std.specs.Prelude.{Some};

    ghost shows = { λ s. Some s.volumes };

    #[tactic(auto, using(crate::proofs::DrivenLaws::no_drives))]
    fn restore<T: Threads + Wait + Sync, W: Write>(
        &self,
        rt: &T,
        budget: Budget,
        wanted: DrivenRestore<'_>,
        writer: &mut W,
    ) -> Result<RestoreEnd, ExtractFault> {
        groups_are_valid(wanted.bootstrap);
        let drives = drives_over(budget.alloc, self.volumes(), wanted.drives)?;
        let mut restore: Restore<FixedDrive<'_>, MemSink> = Restore {
            budget,
            drives,
            sink: None,
        };
        restore_by(rt, &mut restore, wanted, writer)
    }
}

impl DrivenStore for MemStore {
    type Reader = MemStore;

    /// Returns a copy of the store, which later appends leave as it is.
    fn reader(&self, alloc: Global) -> Result<MemStore, AllocError> {
        self.copy(alloc)
    }
}
