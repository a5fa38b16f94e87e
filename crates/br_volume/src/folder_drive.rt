//! The drive over a folder.
ghost use Rattle.std.specs.Prelude.{◌≡◌, ℕ, ◌+◌, ◌^◌, ◌<◌, ◌≤◌, List, IfOk, Err, None, vec_len};
ghost use Rattle.br_fs.specs.Calls.{IsNoFile};
ghost use Rattle.br_volume.specs.Drive.{AnswersOver, IsSized};
ghost use Rattle.br_volume.specs.declared.fault.DriveFault.TheVariants.{UnknownVolume};
ghost use Rattle.br_volume.specs.Folder.{HasBlock, IsCut, volumes_told};

use crate::count::Count;
use crate::drive::{Drive, Got};
use crate::fault::DriveFault;
use crate::folder::{Folder, fault_of, find_file};
use br_fs::{Disk, HostDisk, read_from};
use br_types::VolName;
use std::alloc::{AllocError, Global};
use std::marker::Model;
use std::os::unix::fs::FileExt;
use std::rt::Files;

/// The greatest length of a file in bytes.
const MAX_LEN: u64 = (1 << 63) - 1;

/// Opens the file at the path. Its kind is tested first: anything but a file is not opened.
#[tactic(auto, using(crate::proofs::FolderLaws::file_of))]
fn open_file<D: Disk>(disk: &mut D, path: &str) -> Result<D::File, DriveFault>
    ensures opened { IfOk result (λ file. D.path_of file ≡ path.now) }
    ensures missing { result ≡ Err UnknownVolume → IsNoFile (D.told disk.new) path.now }
    ensures same { D.told disk.new ≡ D.told disk.old }
{
    find_file(disk, path)?;
    match disk.open(path) {
        Ok(file) => Ok(file),
        Err(fault) => Err(fault_of(fault)),
    }
}

/// Returns the file at the path: the file held open if it is this one, else a newly opened one.
fn opened<D: Disk>(disk: &mut D, held: Option<D::File>, path: &str) -> Result<D::File, DriveFault>
    ensures opened { IfOk result (λ file. D.path_of file ≡ path.now) }
    ensures missing { result ≡ Err UnknownVolume → IsNoFile (D.told disk.new) path.now }
    ensures same { D.told disk.new ≡ D.told disk.old }
{
    match held {
        Some(last) if disk.is_at(&last, path) => Ok(last),
        _ => open_file(disk, path),
    }
}

/// Makes a block of at most this size of the bytes that were read. No bytes are the end.
fn cut(size: u32, buf: &mut Vec<u8>) -> Got
    requires { vec_len buf.old < 2 ^ 32 }
    ensures { IsCut size buf.old.items buf.new.items result }
{
    if buf.is_empty() {
        return Got::End;
    }
    buf.truncate(size as usize);
    Got::Block(buf.len() as u32)
}

/// Reads a block of a file into the buffer. Asks for no bytes past the end of the longest possible
/// file.
#[tactic(auto, using(crate::proofs::FolderLaws::cut_block, crate::proofs::FolderLaws::cut_sized))]
fn read_block<D: Disk>(
    disk: &mut D,
    file: &D::File,
    addr: u64,
    size: u32,
    buf: &mut Vec<u8>,
) -> Result<Got, DriveFault>
    requires before { addr + 1 < 2 ^ 63 }
    ensures read { IfOk result (λ got. HasBlock (D.told disk.new) (D.path_of file.now) addr size buf.new.items got) }
    ensures missing { result ≡ Err UnknownVolume → IsNoFile (D.told disk.new) (D.path_of file.now) }
    ensures sized { IfOk result (IsSized addr size buf.new.items) }
    ensures same { D.told disk.new ≡ D.told disk.old }
{
    // If no bytes are asked for, one byte shows whether the file ends here.
    let count = u64::from(size.max(1)).min(MAX_LEN - addr);
    match read_from(disk, file, addr, count as usize, buf) {
        Ok(()) => Ok(cut(size, buf)),
        Err(fault) => Err(fault_of(fault)),
    }
}

/// Reports that a file ends before this address, which is beyond the end of any file.
#[tactic(auto, using(crate::proofs::FolderLaws::past_of))]
fn read_end<D: Disk>(
    disk: &mut D,
    path: &str,
    addr: u64,
    size: u32,
    buf: &mut Vec<u8>,
) -> Result<Got, DriveFault>
    ensures read { IfOk result (λ got. HasBlock (D.told disk.new) path.now addr size buf.new.items got) }
    ensures missing { result ≡ Err UnknownVolume → IsNoFile (D.told disk.new) path.now }
    ensures sized { IfOk result (IsSized addr size buf.new.items) }
    ensures same { D.told disk.new ≡ D.told disk.old }
{
    buf.clear();
    let len = find_file(disk, path)?;
    if len > addr {
        return Err(DriveFault::Fault);
    }
    Ok(Got::End)
}

/// Reads a block of the file at the path, and keeps the file open.
fn read_at_path<D: Disk>(
    disk: &mut D,
    held: &mut Option<D::File>,
    path: &str,
    addr: u64,
    size: u32,
    buf: &mut Vec<u8>,
) -> Result<Got, DriveFault>
    ensures read { IfOk result (λ got. HasBlock (D.told disk.new) path.now addr size buf.new.items got) }
    ensures missing { result ≡ Err UnknownVolume → IsNoFile (D.told disk.new) path.now }
    ensures sized { IfOk result (IsSized addr size buf.new.items) }
    ensures same { D.told disk.new ≡ D.told disk.old }
{
    if addr >= MAX_LEN {
        return read_end(disk, path, addr, size, buf);
    }
    let file = opened(disk, held.take(), path)?;
    let got = read_block(disk, &file, addr, size, buf);
    *held = Some(file);
    got
}

/// A drive over a folder of a disk. It keeps open the file that it read last, and no other.
#[derive(Drop)]
pub struct FolderDrive<D: Disk + Drop> {
    disk: D,
    folder: Folder,
    held: Option<D::File>,
    failures: Count,
}

impl<D: Disk + Drop> Model for FolderDrive<D> {
    ghost use Rattle.br_volume.specs.Folder.{InFolder};

    ghost Value = { InFolder };

    ghost view = { λ d. record { told = D.told d.disk; path = d.folder; failures = d.failures.number } };
}

impl<F: Files + Drop> FolderDrive<HostDisk<F>>
where
    F::File: FileExt,
{
    /// Returns a drive over the system's folder with this path. Opens nothing yet.
    pub fn new(alloc: Global, files: F, path: &str) -> Result<FolderDrive<HostDisk<F>>, AllocError>
        ensures { IfOk result (λ drive. drive ≡ record { told = None; path = path.now; failures = 0 }) }
    {
        FolderDrive::over(alloc, HostDisk::new(alloc, files), path)
    }
}

impl<D: Disk + Drop> FolderDrive<D> {
    /// Returns a drive over the disk's folder with this path. Opens nothing yet.
    pub fn over(alloc: Global, disk: D, path: &str) -> Result<FolderDrive<D>, AllocError>
        ensures { IfOk result (λ drive. drive ≡ record { told = D.told disk; path = path.now; failures = 0 }) }
    {
        Ok(FolderDrive {
            disk,
            folder: Folder::new(alloc, path)?,
            held: None,
            failures: Count::zero(),
        })
    }
}

/// Reads a block of a volume into the buffer: of this size, from this address on.
#[tactic(auto, using(crate::proofs::FolderLaws::answer_at, crate::proofs::FolderLaws::refused_at))]
fn read_volume<D: Disk>(
    disk: &mut D,
    held: &mut Option<D::File>,
    folder: &Folder,
    vol: &VolName,
    block: (u64, u32),
    buf: &mut Vec<u8>,
) -> Result<Got, DriveFault>
    ensures answers { AnswersOver (volumes_told folder.now (D.told disk.new)) vol.now block buf.new.items result }
    ensures sized { IfOk result (IsSized block.0 block.1 buf.new.items) }
    ensures same { D.told disk.new ≡ D.told disk.old }
{
    match folder.path_of(vol) {
        Ok(path) => read_at_path(disk, held, path.as_str(), block.0, block.1, buf),
        Err(fault) => Err(fault),
    }
}

impl<D: Disk + Drop> Drive for FolderDrive<D> {
    ghost shows = { λ d. volumes_told d.path d.told };

    ghost failures = { λ d. d.failures };

    /// Reads a block of the file with the volume's name.
    #[tactic(auto, using(crate::proofs::FolderLaws::same_grows))]
    fn block_at(
        &mut self,
        vol: &VolName,
        addr: u64,
        size: u32,
        buf: &mut Vec<u8>,
    ) -> Result<Got, DriveFault> {
        let block = (addr, size);
        let got = read_volume(
            &mut self.disk,
            &mut self.held,
            &self.folder,
            vol,
            block,
            buf,
        );
        if got == Err(DriveFault::Fault) {
            self.failures = self.failures.next();
        }
        got
    }
}
