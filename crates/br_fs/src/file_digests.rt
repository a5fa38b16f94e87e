//! The contents of a file on a disk, read in parts.
ghost use Rattle.std.specs.Prelude.{◌≡◌, ◌^◌, ◌<◌, ℕ, List, length, take, true, false, IfOk, Ok};
ghost use Rattle.md5.specs.Md5.{Holds, md5};
ghost use Rattle.br_fs.specs.Calls.{HasFile, IsFile};
ghost use Rattle.br_fs.specs.Alike.{HasAlike, HasFront, LacksAlike, ReadsOn};

use crate::disk::Disk;
use crate::fault::DiskFault;
use crate::file_reading::read_from;
use crate::kind::Kind;
use md5::{Digest, Md5};
use std::alloc::Global;

/// The number of bytes that one read asks for.
const STEP: u64 = 1 << 16;

/// The greatest number of bytes of a file of a system.
const GREATEST: u64 = 9_223_372_036_854_775_807;

/// Digests the next bytes of the file, `wanted` or all that are left. The buffer has room for them.
#[tactic(auto, using(crate::proofs::AlikeLaws::front_more))]
fn digest_next<D: Disk>(
    disk: &mut D,
    file: &D::File,
    at: u64,
    wanted: u64,
    buffer: &mut Vec<u8>,
    hasher: &mut Md5,
) -> Result<(), DiskFault>
    requires some { 0 < wanted }
    requires few { wanted < 2 ^ 32 }
    requires in_file { at < 2 ^ 63 }
    ensures front { ReadsOn result (D.told disk.old) (D.told disk.new) (D.path_of file.now) at wanted
        (Holds hasher.old) (Holds hasher.new) }
    ensures same { D.told disk.new ≡ D.told disk.old }
{
    read_from(disk, file, at, wanted as usize, buffer)?;
    hasher.update(buffer.as_slice());
    Ok(())
}

/// Returns the digest of the first bytes of the file.
fn digest_front<D: Disk>(
    alloc: Global,
    disk: &mut D,
    file: &D::File,
    count: u64,
) -> Result<[u8; 16], DiskFault>
    requires file { IsFile (D.told disk.old) (D.path_of file.now) }
    requires in_file { count < 2 ^ 63 }
    ensures digest { IfOk result (λ digest. HasFront (D.told disk.new) (D.path_of file.now) count (λ front. digest ≡ md5 front)) }
    ensures same { D.told disk.new ≡ D.told disk.old }
{
    let mut hasher = Md5::new();
    let mut buffer = Vec::new(alloc);
    let mut at = 0;
    while at < count {
        let wanted = (count - at).min(STEP);
        digest_next(disk, file, at, wanted, &mut buffer, &mut hasher)?;
        at += wanted;
    }
    Ok(hasher.finalize())
}

/// Returns whether two digests are equal.
fn are_equal(one: &[u8; 16], other: &[u8; 16]) -> bool
    ensures equal { result ≡ true → one.now ≡ other.now }
    ensures differ { result ≡ false → one.now ≡ other.now → ⊥ }
{
    one == other
}

/// Returns whether the file at the path, which has this number of bytes, has the digest.
#[tactic(auto, using(crate::proofs::AlikeLaws::alike_front, crate::proofs::AlikeLaws::lacks_front))]
fn has_digest<D: Disk>(
    alloc: Global,
    disk: &mut D,
    path: &str,
    count: u64,
    digest: &[u8; 16],
) -> Result<bool, DiskFault>
    requires file { HasFile (D.told disk.old) path.now (λ bytes. length bytes ≡ count) }
    requires in_file { count < 2 ^ 63 }
    ensures alike { result ≡ Ok true → HasAlike (D.told disk.new) path.now count digest.now }
    ensures lacks { result ≡ Ok false → LacksAlike (D.told disk.new) path.now count digest.now }
    ensures same { D.told disk.new ≡ D.told disk.old }
{
    let file = disk.open(path)?;
    let found = digest_front(alloc, disk, &file, count)?;
    Ok(are_equal(&found, digest))
}

/// Returns whether a file of this number of bytes and this digest is at the path. A link is
/// followed. The file is read in parts, and never whole in memory.
///
/// # Errors
///
/// The errors of the disk. `Failed` also for more bytes than a file of a system has.
#[tactic(auto, using(crate::proofs::AlikeLaws::found_file, crate::proofs::AlikeLaws::lacks_count, crate::proofs::AlikeLaws::lacks_other))]
pub fn has_alike<D: Disk>(
    alloc: Global,
    disk: &mut D,
    path: &str,
    count: u64,
    digest: &[u8; 16],
) -> Result<bool, DiskFault>
    ensures alike { result ≡ Ok true → HasAlike (D.told disk.new) path.now count digest.now }
    ensures lacks { result ≡ Ok false → LacksAlike (D.told disk.new) path.now count digest.now }
    ensures same { D.told disk.new ≡ D.told disk.old }
{
    let found = disk.find(path)?;
    match found.kind {
        Kind::File => {
            if found.len != count {
                Ok(false)
            } else if count > GREATEST {
                Err(DiskFault::Failed)
            } else {
                has_digest(alloc, disk, path, count, digest)
            }
        }
        Kind::Folder | Kind::Link | Kind::Other => Ok(false),
    }
}
