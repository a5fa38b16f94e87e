ghost use Rattle.std.specs.Prelude.{◌≡◌, ◌^◌, ◌<◌, true, false, Ok};
ghost use Rattle.br_fs.specs.Making.{IsKindAt};
ghost use Rattle.br_fs.specs.declared.kind.Kind.TheVariants.{File};
ghost use Rattle.br_fs.specs.Alike.{IsAlike, IsAlikeAt, LacksAlikeAt};

use crate::fault::DiskFault;
use crate::file_digests::has_alike;
use crate::host::HostDisk;
use crate::maker::FileMaker;
use crate::mem_maker::MemMaker;
use md5::{Digest, Md5};
use std::alloc::Global;
use std::os::unix::fs::FileExt;
use std::rt::Files;

/// A maker of files that can compare files that are already on disk.
pub trait Comparer: FileMaker {
    /// Returns whether the file at the path has this number of bytes and this digest.
    ///
    /// # Errors
    ///
    /// If the file can't be read, or the maker fails by itself.
    fn is_alike(
        &mut self,
        alloc: Global,
        path: &str,
        count: u64,
        digest: &[u8; 16],
    ) -> Result<bool, DiskFault>
        requires file { IsKindAt (Self.nodes self.old) path.now File }
        ensures alike { result ≡ Ok true → IsAlikeAt (Self.nodes self.new) path.now count digest.now }
        ensures lacks { result ≡ Ok false → LacksAlikeAt (Self.nodes self.new) path.now count digest.now }
        ensures same { Self.nodes self.new ≡ Self.nodes self.old };
}

impl<F: Files + Drop> Comparer for HostDisk<F>
where
    F::File: FileExt,
{
    /// Makes a file that is alike durable, if this disk syncs.
    fn is_alike(
        &mut self,
        alloc: Global,
        path: &str,
        count: u64,
        digest: &[u8; 16],
    ) -> Result<bool, DiskFault> {
        let is_alike = has_alike(alloc, self, path, count, digest)?;
        if is_alike {
            self.settle_found(path)?;
        }
        Ok(is_alike)
    }
}

/// Returns whether bytes have this number and this digest.
fn are_alike(bytes: &[u8], count: u64, digest: &[u8; 16]) -> bool
    ensures alike { result ≡ true → IsAlike count digest.now bytes.now }
    ensures lacks { result ≡ false → IsAlike count digest.now bytes.now → ⊥ }
{
    bytes.len() as u64 == count && Md5::digest(bytes) == *digest
}

impl Comparer for MemMaker {
    /// Returns false for a file that is being written.
    #[tactic(auto, using(crate::proofs::AlikeLaws::alike_in, crate::proofs::AlikeLaws::lacks_in, crate::proofs::AlikeLaws::lacks_none))]
    fn is_alike(
        &mut self,
        _alloc: Global,
        path: &str,
        count: u64,
        digest: &[u8; 16],
    ) -> Result<bool, DiskFault> {
        match self.bytes(path) {
            Some(bytes) => Ok(are_alike(bytes, count, digest)),
            None => Ok(false),
        }
    }
}
