//! The store over a folder.
ghost use Rattle.std.specs.Prelude.{◌≡◌, ◌≤◌, [], IfErr, IfOk, IfSome, OnOk, OnErr, None, Ok};
ghost use Rattle.br_fs.specs.Append.{AppendsInPart};
ghost use Rattle.br_fs.specs.Calls.{Appends, IsFile, IsNoFile};
ghost use Rattle.br_fs.specs.Durable.{Lasts, NamesFiles};
ghost use Rattle.br_volume.specs.Store.{FailsOn, IsDurableIn, IsLengthIn};
ghost use Rattle.br_volume.specs.Folder.{AppendsBelow, AppendsInPartBelow, AreNamedIf, IsKnownFree, IsNamedAt, CanAppend, IsSyncedAt, IsSyncedBelow};
ghost use Rattle.br_volume.specs.Folder.{durable_told, store_over, volumes_told};
ghost use Rattle.br_volume.specs.declared.fault.DriveFault.TheVariants.{Memory};

use crate::failed_calls::FailedCalls;
use crate::fault::{DriveFault, VolumeFault};
use crate::folder::{Folder, fault_of, find_file};
use crate::volume_store::VolumeStore;
use br_fs::{Disk, HostDisk, append};
use br_types::VolName;
use std::alloc::{AllocError, Global};
use std::marker::Model;
use std::os::unix::fs::FileExt;
use std::rt::Files;

/// Opens the file at the path to append to it.
fn open_found<D: Disk>(disk: &mut D, path: &str) -> Result<D::File, DriveFault>
    requires file { IsFile (D.told disk.old) path.now }
    ensures opened { IfOk result (λ file. D.path_of file ≡ path.now) }
    ensures same { D.told disk.new ≡ D.told disk.old }
    ensures settled { D.durable disk.new ≡ D.durable disk.old }
    ensures clean { D.failed_syncs disk.new ≡ D.failed_syncs disk.old }
{
    match disk.open_to_append(path) {
        Ok(file) => Ok(file),
        Err(fault) => Err(fault_of(fault)),
    }
}

/// Makes an empty file at the path.
#[tactic(auto, using(crate::proofs::FreeLaws::only_memory))]
fn make<D: Disk>(disk: &mut D, path: &str) -> Result<D::File, DriveFault>
    ensures opened { IfOk result (λ file. D.path_of file ≡ path.now) }
    ensures made { OnOk result (Appends path.now [] (D.told disk.old) (D.told disk.new)) }
    ensures refused { OnErr result (D.told disk.new ≡ D.told disk.old) }
    ensures lasts { Lasts (D.durable disk.old) (D.durable disk.new) }
    ensures always { IsKnownFree (D.steady disk.old) (D.told disk.old) path.now → IfErr result (λ fault. fault ≡ Memory) }
{
    match disk.create(path) {
        Ok(file) => Ok(file),
        Err(fault) => Err(fault_of(fault)),
    }
}

/// Opens the file at the path to append to it, or makes it if nothing is there.
#[tactic(auto, using(crate::proofs::FolderLaws::file_of, crate::proofs::StoreLaws::ready_same, crate::proofs::StoreLaws::ready_made, crate::proofs::FreeLaws::still_free, crate::proofs::FreeLaws::found_never, crate::proofs::FreeLaws::other_fault))]
pub fn open_or_make<D: Disk>(disk: &mut D, path: &str) -> Result<D::File, DriveFault>
    ensures opened { IfOk result (λ file. D.path_of file ≡ path.now) }
    ensures ready { OnOk result (CanAppend path.now (D.told disk.old) (D.told disk.new)) }
    ensures refused { OnErr result (D.told disk.new ≡ D.told disk.old) }
    ensures lasts { Lasts (D.durable disk.old) (D.durable disk.new) }
    ensures always { IsKnownFree (D.steady disk.old) (D.told disk.old) path.now → IfErr result (λ fault. fault ≡ Memory) }
{
    match find_file(disk, path) {
        Ok(_) => open_found(disk, path),
        Err(DriveFault::UnknownVolume) => make(disk, path),
        Err(fault) => Err(fault),
    }
}

/// Returns the file at the path: the file held open if it is this one, else one opened or made.
#[tactic(auto, using(crate::proofs::StoreLaws::ready_held))]
fn opened<D: Disk>(disk: &mut D, held: Option<D::File>, path: &str) -> Result<D::File, DriveFault>
    ensures opened { IfOk result (λ file. D.path_of file ≡ path.now) }
    ensures ready { OnOk result (CanAppend path.now (D.told disk.old) (D.told disk.new)) }
    ensures refused { OnErr result (D.told disk.new ≡ D.told disk.old) }
    ensures lasts { Lasts (D.durable disk.old) (D.durable disk.new) }
{
    match held {
        Some(last) if disk.is_at(&last, path) => Ok(last),
        _ => open_or_make(disk, path),
    }
}

/// Appends bytes to the file at the path, and keeps the file open.
#[tactic(auto, using(crate::proofs::StoreLaws::after_ready, crate::proofs::StoreLaws::part_after_ready))]
fn append_at_path<D: Disk>(
    disk: &mut D,
    held: &mut Option<D::File>,
    path: &str,
    bytes: &[u8],
) -> Result<(), DriveFault>
    ensures all { OnOk result (Appends path.now bytes.now (D.told disk.old) (D.told disk.new)) }
    ensures part { OnErr result (AppendsInPart path.now bytes.now (D.told disk.old) (D.told disk.new)) }
    ensures lasts { Lasts (D.durable disk.old) (D.durable disk.new) }
{
    let mut file = opened(disk, held.take(), path)?;
    let done = append(disk, &mut file, bytes);
    *held = Some(file);
    match done {
        Ok(()) => Ok(()),
        Err(fault) => Err(fault_of(fault)),
    }
}

/// Appends bytes to a volume.
#[tactic(auto, using(crate::proofs::StoreLaws::appends_at, crate::proofs::StoreLaws::part_at, crate::proofs::StoreLaws::none_below))]
fn append_to_volume<D: Disk>(
    disk: &mut D,
    held: &mut Option<D::File>,
    folder: &Folder,
    vol: &VolName,
    bytes: &[u8],
) -> Result<(), DriveFault>
    ensures appended { OnOk result (AppendsBelow folder.now vol.now bytes.now (D.told disk.old) (D.told disk.new)) }
    ensures refused { OnErr result (AppendsInPartBelow folder.now vol.now bytes.now (D.told disk.old) (D.told disk.new)) }
    ensures lasts { Lasts (D.durable disk.old) (D.durable disk.new) }
{
    let path = folder.path_of(vol)?;
    append_at_path(disk, held, path.as_str(), bytes)
}

/// Returns the length of a volume in bytes; 0 if there is no such file.
#[tactic(auto, using(crate::proofs::StoreLaws::length_at, crate::proofs::StoreLaws::no_length_at))]
fn length_of_volume<D: Disk>(
    disk: &mut D,
    folder: &Folder,
    vol: &VolName,
) -> Result<u64, DriveFault>
    ensures told { IfOk result (λ n. IsLengthIn (volumes_told folder.now (D.told disk.old)) vol.now n) }
    ensures same { D.told disk.new ≡ D.told disk.old }
    ensures settled { D.durable disk.new ≡ D.durable disk.old }
{
    let path = folder.path_of(vol)?;
    match find_file(disk, path.as_str()) {
        Ok(len) => Ok(len),
        Err(DriveFault::UnknownVolume) => Ok(0),
        Err(fault) => Err(fault),
    }
}

/// Opens the file at the path, if there is one.
#[tactic(auto, using(crate::proofs::FolderLaws::file_of))]
fn open_if_found<D: Disk>(disk: &mut D, path: &str) -> Result<Option<D::File>, DriveFault>
    ensures opened { IfOk result (λ found. IfSome found (λ file. D.path_of file ≡ path.now)) }
    ensures missing { result ≡ Ok None → IsNoFile (D.told disk.new) path.now }
    ensures same { D.told disk.new ≡ D.told disk.old }
    ensures settled { D.durable disk.new ≡ D.durable disk.old }
    ensures clean { D.failed_syncs disk.new ≡ D.failed_syncs disk.old }
{
    match find_file(disk, path) {
        Ok(_) => Ok(Some(open_found(disk, path)?)),
        Err(DriveFault::UnknownVolume) => Ok(None),
        Err(fault) => Err(fault),
    }
}

/// Returns the file at the path, if there is one: the file held open if it is this one, else one
/// that is opened. What was written by a file that is open is synced by it, so that the system
/// reports an error of the writing there.
fn found<D: Disk>(
    disk: &mut D,
    held: Option<D::File>,
    path: &str,
) -> Result<Option<D::File>, DriveFault>
    ensures opened { IfOk result (λ found. IfSome found (λ file. D.path_of file ≡ path.now)) }
    ensures missing { result ≡ Ok None → IsNoFile (D.told disk.new) path.now }
    ensures same { D.told disk.new ≡ D.told disk.old }
    ensures settled { D.durable disk.new ≡ D.durable disk.old }
    ensures clean { D.failed_syncs disk.new ≡ D.failed_syncs disk.old }
{
    match held {
        Some(last) if disk.is_at(&last, path) => Ok(Some(last)),
        _ => open_if_found(disk, path),
    }
}

/// Makes the names of the folder's files durable, unless they are.
#[tactic(auto, using(crate::proofs::SyncLaws::names_same, crate::proofs::SyncLaws::lasts_itself))]
fn sync_names<D: Disk>(disk: &mut D, folder: &str, has_names: bool) -> Result<(), DriveFault>
    requires names { AreNamedIf has_names folder.now (D.told disk.old) (D.durable disk.old) }
    ensures named { OnOk result (NamesFiles folder.now (D.told disk.new) (D.durable disk.new)) }
    ensures same { D.told disk.new ≡ D.told disk.old }
    ensures lasts { Lasts (D.durable disk.old) (D.durable disk.new) }
    ensures clean { OnOk result (D.failed_syncs disk.new ≡ D.failed_syncs disk.old) }
{
    if has_names {
        return Ok(());
    }
    match disk.sync_folder(folder) {
        Ok(()) => Ok(()),
        Err(fault) => Err(fault_of(fault)),
    }
}

/// Makes the bytes of the file at the path durable, if there is one, and keeps it open. Its name is
/// durable.
#[tactic(auto, using(crate::proofs::SyncLaws::none_synced, crate::proofs::SyncLaws::file_synced, crate::proofs::SyncLaws::lasts_settled, crate::proofs::SyncLaws::lasts_same))]
fn sync_at_path<D: Disk>(
    disk: &mut D,
    held: &mut Option<D::File>,
    path: &str,
) -> Result<(), DriveFault>
    requires named { IsNamedAt path.now (D.told disk.old) (D.durable disk.old) }
    ensures synced { OnOk result (IsSyncedAt path.now (D.told disk.new) (D.durable disk.new)) }
    ensures same { D.told disk.new ≡ D.told disk.old }
    ensures lasts { Lasts (D.durable disk.old) (D.durable disk.new) }
    ensures clean { OnOk result (D.failed_syncs disk.new ≡ D.failed_syncs disk.old) }
{
    let Some(file) = found(disk, held.take(), path)? else {
        return Ok(());
    };
    let done = disk.sync(&file);
    *held = Some(file);
    match done {
        Ok(()) => Ok(()),
        Err(fault) => Err(fault_of(fault)),
    }
}

/// Makes a volume durable, if it exists, and the names of all volumes.
#[tactic(auto, using(crate::proofs::SyncLaws::volume_named, crate::proofs::SyncLaws::synced_below, crate::proofs::SyncLaws::names_last, crate::proofs::SyncLaws::clean_on, crate::proofs::SyncLaws::lasts_same))]
fn sync_volume<D: Disk>(
    disk: &mut D,
    held: &mut Option<D::File>,
    folder: &Folder,
    vol: &VolName,
    has_names: bool,
) -> Result<(), DriveFault>
    requires names { AreNamedIf has_names folder.now (D.told disk.old) (D.durable disk.old) }
    ensures synced { OnOk result (IsSyncedBelow folder.now vol.now (D.told disk.new) (D.durable disk.new)) }
    ensures named { OnOk result (NamesFiles folder.now (D.told disk.new) (D.durable disk.new)) }
    ensures same { D.told disk.new ≡ D.told disk.old }
    ensures lasts { Lasts (D.durable disk.old) (D.durable disk.new) }
    ensures clean { OnOk result (D.failed_syncs disk.new ≡ D.failed_syncs disk.old) }
{
    let path = folder.path_of(vol)?;
    sync_names(disk, folder.path(), has_names)?;
    sync_at_path(disk, held, path.as_str())
}

/// A store over a folder of a disk. It keeps open the file that it appended to or synced last, and
/// no other.
#[derive(Drop)]
pub struct FolderStore<D: Disk + Drop> {
    disk: D,
    folder: Folder,
    held: Option<D::File>,
    failures: FailedCalls,
    /// Whether the names of the folder's files are durable: the folder was synced, and nothing was
    /// appended since.
    has_names: bool,
}

impl<D: Disk + Drop> Model for FolderStore<D> {
    ghost use Rattle.br_volume.specs.Folder.{AreNamedIf, StoreInFolder};

    ghost Value = { StoreInFolder };

    ghost view = { λ s. record {
      told = D.told s.disk;
      durable = D.durable s.disk;
      path = s.folder;
      failures = s.failures;
      failed_syncs = D.failed_syncs s.disk;
    } };

    ghost invariant = { λ s. AreNamedIf s.has_names s.folder (D.told s.disk) (D.durable s.disk) };
}

impl<F: Files + Drop> FolderStore<HostDisk<F>>
where
    F::File: FileExt,
{
    /// Returns a store over the system's folder with this path, which exists already. Opens nothing
    /// yet.
    pub fn new(alloc: Global, files: F, path: &str) -> Result<FolderStore<HostDisk<F>>, AllocError>
        ensures { IfOk result (λ store. store ≡ store_over None None 0 path.now) }
    {
        FolderStore::over(alloc, HostDisk::new(alloc, files), path)
    }
}

impl<D: Disk + Drop> FolderStore<D> {
    /// Returns a store over the disk's folder with this path, which exists already. Opens nothing
    /// yet.
    pub fn over(alloc: Global, disk: D, path: &str) -> Result<FolderStore<D>, AllocError>
        ensures { IfOk result (λ store. store ≡ store_over (D.told disk) (D.durable disk) (D.failed_syncs disk) path.now) }
    {
        Ok(FolderStore {
            disk,
            folder: Folder::new(alloc, path)?,
            held: None,
            failures: FailedCalls::none(),
            has_names: false,
        })
    }

    /// Returns the disk.
    pub fn into_disk(self) -> D
        ensures { (D.told result ≡ self.told) × (D.durable result ≡ self.durable) }
    {
        self.disk
    }
}

impl<D: Disk + Drop> VolumeStore for FolderStore<D> {
    ghost use Rattle.br_volume.specs.Folder.{durable_told, volumes_told};

    ghost holds = { λ s. volumes_told s.path s.told };

    ghost durable = { λ s. durable_told s.path s.durable };

    ghost failures = { λ s. s.failures };

    /// Appends to the file with the volume's name.
    #[tactic(auto, using(crate::proofs::SyncLaws::lasts_below))]
    fn append(&mut self, vol: &VolName, bytes: &[u8]) -> Result<(), VolumeFault> {
        self.has_names = false;
        match append_to_volume(&mut self.disk, &mut self.held, &self.folder, vol, bytes) {
            Ok(()) => Ok(()),
            Err(_) => {
                self.failures = self.failures.and(vol);
                Err(VolumeFault::Failed)
            }
        }
    }

    /// Returns the length of the file with the volume's name.
    #[tactic(auto, using(crate::proofs::SyncLaws::names_if_same))]
    fn length(&mut self, vol: &VolName) -> Result<u64, VolumeFault> {
        match length_of_volume(&mut self.disk, &self.folder, vol) {
            Ok(len) => Ok(len),
            Err(_) => {
                self.failures = self.failures.and(vol);
                Err(VolumeFault::Failed)
            }
        }
    }

    /// Syncs the folder if anything was appended since it was synced, and then the file with the
    /// volume's name.
    #[tactic(auto, using(crate::proofs::SyncLaws::lasts_below))]
    fn sync(&mut self, vol: &VolName) -> Result<(), VolumeFault>
        ensures synced { OnOk result (IsDurableIn (volumes_told self.new.path self.new.told) (durable_told self.new.path self.new.durable) vol.now) }
        ensures same { volumes_told self.new.path self.new.told ≡ volumes_told self.old.path self.old.told }
        ensures lasts { Lasts (durable_told self.old.path self.old.durable) (durable_told self.new.path self.new.durable) }
        ensures counted { self.old.failures.number ≤ self.new.failures.number }
        ensures clean { OnOk result (self.new.failures ≡ self.old.failures) }
        ensures failed { OnErr result (FailsOn vol.now self.old.failures self.new.failures) }
        ensures once { OnOk result (self.new.failed_syncs ≡ self.old.failed_syncs) }
    {
        match sync_volume(
            &mut self.disk,
            &mut self.held,
            &self.folder,
            vol,
            self.has_names,
        ) {
            Ok(()) => {
                self.has_names = true;
                Ok(())
            }
            Err(_) => {
                self.has_names = false;
                self.failures = self.failures.and(vol);
                Err(VolumeFault::Failed)
            }
        }
    }
}
