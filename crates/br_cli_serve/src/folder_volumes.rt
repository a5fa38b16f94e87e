//! The volumes in a folder of the system. Jobs are appended to them, and restores read them.
ghost use Rattle.std.specs.Prelude.{◌≡◌, length, string_bytes, IfOk};
ghost use Rattle.br_pool.specs.Pool.{AreDrives};
ghost use Rattle.br_volume.specs.Folder.{store_over, volumes_told};
ghost use Rattle.br_volume.specs.HostDrives.{AreOver, AreUntold};
ghost use Rattle.br_cli_serve.specs.FolderVolumes.{IsFolder};

use crate::drive_count::DriveCount;
use crate::driven_store::{DrivenRestore, DrivenStore, VolumeReader, restore_by};
use br_engine::{Budget, ExtractFault, Restore, RestoreEnd};
use br_fs::{Disk, HostDisk};
use br_sink::MemSink;
use br_types::VolName;
use br_volume::{FolderStore, HostDrive, VolumeFault, VolumeStore, drives_over};
use std::alloc::{AllocError, Global};
use std::io::Write;
use std::marker::Model;
use std::sync::Wait;
use std::thread::Threads;

/// The volumes in a folder of a disk. If the disk tells its files, the clauses of `VolumeStore` hold
/// for them completely. Restores read in the system's folder with the same path.
#[derive(Drop)]
pub struct FolderVolumes<'r, D: Disk + Drop> {
    rt: &'r HostRuntime,
    path: String,
    store: FolderStore<D>,
}

impl<'r, D: Disk + Drop> Model for FolderVolumes<'r, D> {
    ghost use Rattle.std.specs.Prelude.{◌≡◌, string_bytes, None};
    ghost use Rattle.br_cli_serve.specs.FolderVolumes.{NeverTells, VolumesInFolder};

    ghost Value = { VolumesInFolder };

    ghost view = { λ v. record { path = string_bytes v.path; store = v.store } };

    ghost invariant = { λ v. NeverTells D.told → v.store.told ≡ None };
}

/// The volumes in a folder of the system.
pub type HostVolumes<'r> = FolderVolumes<'r, HostDisk<&'r HostRuntime>>;

impl<'r, D: Disk + Drop> FolderVolumes<'r, D> {
    /// Returns the volumes in the disk's folder with this path. Opens nothing yet.
    fn over(rt: &'r HostRuntime, disk: D, path: &str) -> Result<FolderVolumes<'r, D>, AllocError>
        ensures folder { IfOk result (IsFolder path.now) }
        ensures over { IfOk result (λ v. v.store ≡ store_over (D.told disk) (D.durable disk) (D.failed_syncs disk) path.now) }
    {
        Ok(FolderVolumes {
            rt,
            path: String::from_str(rt.alloc(), path)?,
            store: FolderStore::over(rt.alloc(), disk, path)?,
        })
    }
}

impl<'r> FolderVolumes<'r, HostDisk<&'r HostRuntime>> {
    /// Returns the volumes in the system's folder with this path. Opens nothing yet.
    pub(crate) fn new(rt: &'r HostRuntime, path: &str) -> Result<HostVolumes<'r>, AllocError>
        ensures { IfOk result (IsFolder path.now) }
    {
        FolderVolumes::over(rt, HostDisk::new(rt.alloc(), rt), path)
    }
}

/// A reader of the volumes in a folder of the system. It reads what the files have at the time, and
/// reports no volumes.
#[derive(Drop)]
pub struct FolderReader {
    rt: HostRuntime,
    path: String,
}

impl FolderReader {
    /// Returns this number of drives over the volumes.
    fn drives(&self, count: DriveCount) -> Result<Vec<HostDrive<'_>>, AllocError>
        ensures many { IfOk result (λ drives. length drives.items ≡ count) }
        ensures few { IfOk result (λ drives. AreDrives drives.items) }
        ensures over { IfOk result (λ drives. AreOver (string_bytes self.now.path) drives.items) }
        ensures untold { IfOk result (λ drives. AreUntold drives.items) }
    {
        drives_over(&self.rt, self.path.as_str(), count.get())
    }
}

impl<D: Disk + Drop> VolumeStore for FolderVolumes<'_, D> {
    ghost use Rattle.br_volume.specs.Folder.{durable_told, volumes_told};

    ghost holds = { λ v. volumes_told v.store.path v.store.told };

    ghost durable = { λ v. durable_told v.store.path v.store.durable };

    ghost failures = { λ v. v.store.failures };

    fn append(&mut self, vol: &VolName, bytes: &[u8]) -> Result<(), VolumeFault> {
        self.store.append(vol, bytes)
    }

    fn length(&mut self, vol: &VolName) -> Result<u64, VolumeFault> {
        self.store.length(vol)
    }

    fn sync(&mut self, vol: &VolName) -> Result<(), VolumeFault> {
        self.store.sync(vol)
    }
}

impl VolumeReader for FolderReader {
    ghost use Rattle.std.specs.Prelude.{None};

    ghost shows = { λ _. None };

    #[tactic(auto, using(crate::proofs::DrivenLaws::no_drives))]
    fn restore<T: Threads + Wait + Sync, W: Write>(
        &self,
        rt: &T,
        budget: Budget,
        wanted: DrivenRestore<'_>,
        writer: &mut W,
    ) -> Result<RestoreEnd, ExtractFault> {
        let drives = self.drives(wanted.drives)?;
        let mut restore: Restore<HostDrive<'_>, MemSink> = Restore {
            budget,
            drives,
            sink: None,
        };
        restore_by(rt, &mut restore, wanted, writer)
    }
}

impl<'r> DrivenStore for FolderVolumes<'r, HostDisk<&'r HostRuntime>> {
    ghost use Rattle.std.specs.Prelude.{List, None, Option};
    ghost use Rattle.br_model.specs.Volume.{Volume};

    type Reader = FolderReader;

    /// Returns a reader of the same folder.
    fn reader(&self, alloc: Global) -> Result<FolderReader, AllocError>
        ensures shows { IfOk result (λ _. ◌≡◌ {A = Option (List Volume)} None (volumes_told self.now.store.path self.now.store.told)) }
        ensures folder { IfOk result (λ reader. string_bytes reader.path ≡ self.now.path) }
    {
        Ok(FolderReader {
            rt: *self.rt,
            path: String::from_str(alloc, self.path.as_str())?,
        })
    }
}
