//! The files of the system. Each method is one call of std: no clause can state its effect on disk.
ghost use Rattle.std.specs.Prelude.{◌≡◌, true, IfOk};
ghost use Rattle.std.specs.IoError.{error_kind};
ghost use Rattle.std.specs.Fs.{asks_append, asks_create_new, asks_write, new_options, with_append, with_read};
ghost use Rattle.br_fs.specs.Fault.{IsFaultOf};

use crate::disk::Disk;
use crate::fault::DiskFault;
use crate::file_path::FilePath;
use crate::kind::{Kind, Metadata};
use crate::maker::FileMaker;
use crate::mem_maker::is_below;
use std::alloc::Global;
use std::fs::{DirBuilder, FileType, OpenFile, OpenOptions};
use std::io::{ErrorKind, Write};
use std::marker::Model;
use std::os::unix::fs::{DirBuilderExt, FileExt, OpenOptionsExt};
use std::rt::Files;
use std::{fs, io};

/// A disk of the system.
#[derive(Drop)]
pub struct HostDisk<F: Files + Drop> {
    alloc: Global,
    files: F,
    /// Whether each file and folder that is made, or found in its place, is synced.
    is_syncing: bool,
    /// The last folder that was found and whose name was synced. So were those on the way to it.
    synced_way: Option<FilePath>,
}

/// An open file, and the path under which it was opened.
#[derive(Drop)]
pub struct HostFile<H: Drop> {
    path: FilePath,
    file: H,
}

impl<H: Drop> Model for HostFile<H> {
    ghost use Rattle.std.specs.Prelude.{List, ℕ};

    ghost Value = { List ℕ };

    ghost view = { λ f. f.path };
}

impl<F: Files + Drop> HostDisk<F> {
    /// Returns the disk on which this handle opens files.
    pub fn new(alloc: Global, files: F) -> HostDisk<F> {
        HostDisk {
            alloc,
            files,
            is_syncing: false,
            synced_way: None,
        }
    }

    /// Returns the disk on which this handle opens files. It syncs each file that it finishes, or
    /// finds alike, and the names of these and of each folder that it makes or finds on a way.
    pub fn syncing(alloc: Global, files: F) -> HostDisk<F> {
        HostDisk {
            alloc,
            files,
            is_syncing: true,
            synced_way: None,
        }
    }

    /// Makes the names in the folder at the path durable. A file system that has no sync of folders,
    /// such as that of a shared folder, is asked for none.
    fn sync_names(&self, folder: &str) -> Result<(), DiskFault> {
        let folder = to_read().open(&self.files, folder).map_err(fault_of)?;
        match folder.sync_all() {
            Err(error) if error.kind() != ErrorKind::InvalidInput => Err(fault_of(error)),
            _ => Ok(()),
        }
    }

    /// Makes the bytes of a file durable, and then its name.
    fn settle(&self, path: &str, file: &F::File) -> Result<(), DiskFault> {
        file.sync_all().map_err(fault_of)?;
        self.sync_names(folder_of(path))
    }

    /// Makes a file durable that is there already, and its name, if this disk syncs. The run that
    /// wrote it may have been killed before it did so.
    pub(crate) fn settle_found(&self, path: &str) -> Result<(), DiskFault> {
        if !self.is_syncing {
            return Ok(());
        }
        let file = to_read().open(&self.files, path).map_err(fault_of)?;
        self.settle(path, &file)
    }

    /// Returns whether the folder at the path is the last one that was found, or on the way to it.
    fn is_on_synced_way(&self, path: &[u8]) -> bool {
        match &self.synced_way {
            None => false,
            Some(last) => last.bytes() == path || is_below(path, last.bytes()),
        }
    }

    /// Makes the name of a folder durable that is there already, if this disk syncs. Folders on a
    /// way are found from the first to the last, and mostly again for the next file.
    fn sync_found(&mut self, path: &str) -> Result<(), DiskFault> {
        if !self.is_syncing || self.is_on_synced_way(path.as_bytes()) {
            return Ok(());
        }
        self.sync_names(folder_of(path))?;
        self.synced_way = Some(FilePath::new(self.alloc, path.as_bytes())?);
        Ok(())
    }

    /// Opens the file at the path.
    fn opened(&self, how: &OpenOptions, path: &str) -> Result<HostFile<F::File>, DiskFault>
        ensures { IfOk result (λ file. file ≡ path.now) }
    {
        let kept = FilePath::new(self.alloc, path.as_bytes())?;
        let file = how.open(&self.files, path).map_err(fault_of)?;
        Ok(HostFile { path: kept, file })
    }
}

/// Returns the fault of an error of the system.
pub(crate) fn fault_of(error: io::Error) -> DiskFault
    ensures { IsFaultOf (error_kind error) result }
{
    match error.kind() {
        ErrorKind::NotFound => DiskFault::NotFound,
        ErrorKind::AlreadyExists => DiskFault::Exists,
        ErrorKind::Interrupted => DiskFault::Interrupted,
        ErrorKind::OutOfMemory => DiskFault::Memory,
        _ => DiskFault::Failed,
    }
}

/// Returns the options by which a file is opened for reading only.
fn to_read() -> OpenOptions
    ensures { result ≡ with_read new_options true }
{
    let mut how = OpenOptions::new();
    how.read(true);
    how
}

/// Returns the options by which an existing file is opened for appending.
fn to_append() -> OpenOptions
    ensures { result ≡ with_append new_options true }
{
    let mut how = OpenOptions::new();
    how.append(true);
    how
}

/// Returns the options by which a file is made, for its owner only and only if nothing is there.
fn to_make() -> OpenOptions
    ensures new { asks_create_new result ≡ true }
    ensures write { asks_write result ≡ true }
{
    let mut how = OpenOptions::new();
    how.mode(0o600);
    how.write(true);
    how.create_new(true);
    how
}

/// Returns the options by which a file is made for appending, for its owner only and only if
/// nothing is there.
fn to_make_and_append() -> OpenOptions
    ensures new { asks_create_new result ≡ true }
    ensures append { asks_append result ≡ true }
{
    let mut how = to_make();
    how.append(true);
    how
}

/// Returns the folder in which the path is.
fn folder_of(path: &str) -> &str {
    match path.rsplit_once('/') {
        Some(("", _)) => "/",
        Some((folder, _)) => folder,
        None => ".",
    }
}

fn kind_of(kind: FileType) -> Kind {
    if kind.is_file() {
        Kind::File
    } else if kind.is_dir() {
        Kind::Folder
    } else if kind.is_symlink() {
        Kind::Link
    } else {
        Kind::Other
    }
}

impl<F: Files + Drop> Disk for HostDisk<F>
where
    F::File: FileExt,
{
    ghost use Rattle.std.specs.Prelude.{None};

    type File = HostFile<F::File>;

    ghost told = { λ _. None };

    ghost durable = { λ _. None };

    ghost path_of = { λ file. file };

    ghost steady = { λ _. None };

    fn find(&mut self, path: &str) -> Result<Metadata, DiskFault> {
        let metadata = fs::metadata(&self.files, path).map_err(fault_of)?;
        Ok(Metadata {
            kind: kind_of(metadata.file_type()),
            len: metadata.len(),
        })
    }

    fn open(&mut self, path: &str) -> Result<HostFile<F::File>, DiskFault> {
        self.opened(&to_read(), path)
    }

    fn open_to_append(&mut self, path: &str) -> Result<HostFile<F::File>, DiskFault> {
        self.opened(&to_append(), path)
    }

    fn create(&mut self, path: &str) -> Result<HostFile<F::File>, DiskFault> {
        self.opened(&to_make_and_append(), path)
    }

    fn is_at(&self, file: &HostFile<F::File>, path: &str) -> bool {
        file.path.bytes() == path.as_bytes()
    }

    fn read_at(
        &mut self,
        file: &HostFile<F::File>,
        buf: &mut [u8],
        at: u64,
    ) -> Result<usize, DiskFault> {
        file.file.read_at(buf, at).map_err(fault_of)
    }

    fn write(&mut self, file: &mut HostFile<F::File>, bytes: &[u8]) -> Result<usize, DiskFault> {
        file.file.write(bytes).map_err(fault_of)
    }

    fn sync_folder(&mut self, path: &str) -> Result<(), DiskFault> {
        self.sync_names(path)
    }

    fn sync(&mut self, file: &HostFile<F::File>) -> Result<(), DiskFault> {
        file.file.sync_data().map_err(fault_of)
    }
}

impl<F: Files + Drop> FileMaker for HostDisk<F> {
    ghost use Rattle.std.specs.Prelude.{None};

    type New = F::File;

    ghost nodes = { λ _. None };

    ghost is_steady = { λ _. ⊥ };

    /// Returns what is at the path. A disk that syncs makes the name of a folder durable first.
    fn look(&mut self, path: &str) -> Result<Kind, DiskFault> {
        let metadata = fs::symlink_metadata(&self.files, path).map_err(fault_of)?;
        let kind = kind_of(metadata.file_type());
        if let Kind::Folder = kind {
            self.sync_found(path)?;
        }
        Ok(kind)
    }

    fn is_empty(&self, path: &str) -> Result<bool, DiskFault> {
        let mut entries = fs::read_dir(&(&self.files, self.alloc), path).map_err(fault_of)?;
        Ok(entries.next().is_none())
    }

    fn make_folder(&mut self, path: &str) -> Result<(), DiskFault> {
        let mut how = DirBuilder::new();
        how.mode(0o700);
        how.create(&self.files, path).map_err(fault_of)?;
        if !self.is_syncing {
            return Ok(());
        }
        match self.sync_names(folder_of(path)) {
            Ok(()) => Ok(()),
            Err(fault) => {
                // Nothing is left of a folder that is refused.
                let _removed = fs::remove_dir(&self.files, path);
                Err(fault)
            }
        }
    }

    fn make_file(&mut self, path: &str) -> Result<F::File, DiskFault> {
        to_make().open(&self.files, path).map_err(fault_of)
    }

    /// Closes the file, by dropping it. A disk that syncs syncs it before.
    fn finish(&mut self, path: &str, file: F::File) -> Result<(), DiskFault> {
        if !self.is_syncing {
            return Ok(());
        }
        self.settle(path, &file)
    }

    fn remove(&mut self, path: &str) -> Result<(), DiskFault> {
        fs::remove_file(&self.files, path).map_err(fault_of)
    }
}
