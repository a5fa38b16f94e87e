//! A folder's path, and files in the folder.
ghost use Rattle.std.specs.Prelude.{◌≡◌, IfOk, IfErr, OnOk, Err, string_bytes};
ghost use Rattle.br_fs.specs.Calls.{IsFound, IsNoFile};
ghost use Rattle.br_fs.specs.declared.kind.Kind.TheVariants.{File};
ghost use Rattle.br_fs.specs.declared.fault.DiskFault.TheVariants.{NotFound};
ghost use Rattle.br_volume.specs.Folder.{FindsNone, IsKnownFree, IsPlain, drive_fault, file_path};
ghost use Rattle.br_volume.specs.declared.fault.DriveFault.TheVariants.{Fault, UnknownVolume};

use crate::fault::DriveFault;
use br_fs::{Disk, DiskFault, Kind, Metadata};
use br_types::VolName;
use std::alloc::{AllocError, Global};
use std::marker::Model;

/// The path of a folder.
#[derive(Drop)]
pub(crate) struct Folder {
    alloc: Global,
    path: String,
}

impl Model for Folder {
    ghost use Rattle.std.specs.Prelude.{List, ℕ, string_bytes};

    ghost Value = { List ℕ };

    ghost view = { λ f. string_bytes f.path };
}

impl Folder {
    pub(crate) fn new(alloc: Global, path: &str) -> Result<Folder, AllocError>
        ensures { IfOk result (λ folder. folder ≡ path.now) }
    {
        Ok(Folder {
            alloc,
            path: String::from_str(alloc, path)?,
        })
    }

    /// Returns the folder's path.
    pub(crate) fn path(&self) -> &str
        ensures { result.now ≡ self.now }
    {
        self.path.as_str()
    }

    /// Returns the path of a volume's file.
    #[tactic(auto, using(crate::proofs::SyncLaws::volume_is_plain))]
    pub(crate) fn path_of(&self, vol: &VolName) -> Result<String, DriveFault>
        ensures path { IfOk result (λ path. string_bytes path ≡ file_path self.now vol.now) }
        ensures known { IfErr result (λ fault. fault ≡ UnknownVolume → ⊥) }
        ensures plain { OnOk result (IsPlain vol.now) }
    {
        let mut path = Vec::from_slice(self.alloc, self.path.as_bytes())?;
        path.push(b'/').map_err(AllocError::from)?;
        path.extend_from_slice(vol.bytes())?;
        match String::from_utf8(path) {
            Ok(path) => Ok(path),
            Err(_) => Err(DriveFault::Fault),
        }
    }
}

/// Returns the drive's fault for that of a disk.
pub(crate) fn fault_of(fault: DiskFault) -> DriveFault
    ensures is { result ≡ drive_fault fault }
    ensures missing { result ≡ UnknownVolume → fault ≡ NotFound }
{
    match fault {
        DiskFault::NotFound => DriveFault::UnknownVolume,
        DiskFault::Memory => DriveFault::Memory,
        DiskFault::Exists | DiskFault::Interrupted | DiskFault::Failed => DriveFault::Fault,
    }
}

/// Returns the length of a file; `Fault` for anything else.
fn len_of(found: Metadata) -> Result<u64, DriveFault>
    ensures file { IfOk result (λ n. (found.kind ≡ File) × (n ≡ found.len)) }
    ensures other { IfErr result (λ fault. fault ≡ Fault) }
{
    if found.kind == Kind::File {
        Ok(found.len)
    } else {
        Err(DriveFault::Fault)
    }
}

/// Finds the file at the path. Returns its length; `Fault` if it is not a file.
#[tactic(auto, using(crate::proofs::FolderLaws::len_is, crate::proofs::FolderLaws::never_unknown, crate::proofs::FreeLaws::nothing_found, crate::proofs::FreeLaws::none_found))]
pub(crate) fn find_file<D: Disk>(disk: &mut D, path: &str) -> Result<u64, DriveFault>
    ensures found { IfOk result (λ n. IsFound (D.told disk.new) path.now File n) }
    ensures missing { result ≡ Err UnknownVolume → IsNoFile (D.told disk.new) path.now }
    ensures same { D.told disk.new ≡ D.told disk.old }
    ensures settled { D.durable disk.new ≡ D.durable disk.old }
    ensures clean { D.failed_syncs disk.new ≡ D.failed_syncs disk.old }
    ensures free { IsKnownFree (D.steady disk.old) (D.told disk.old) path.now → FindsNone (D.steady disk.new) result }
{
    match disk.find(path) {
        Ok(found) => len_of(found),
        Err(fault) => Err(fault_of(fault)),
    }
}
