//! What is durable on a disk over memory.
ghost use Rattle.std.specs.Prelude.{◌≡◌, ℕ, ◌==◌, length, bytes_eq, IfOk, OnErr, OnOk};
ghost use Rattle.std.specs.List.{list_any};
ghost use Rattle.br_model.specs.SessionHolds.{bytes_of_volume};
ghost use Rattle.br_fs.specs.Memory.{entries_in, kept_files, is_in_folder, is_named, with_synced};

use crate::file_path::FilePath;
use crate::mem::bytes_of;
use crate::mem_maker::is_below;
use std::alloc::{AllocError, Global};

/// Returns whether the name of the file at the path is durable.
fn is_named(synced: &[(FilePath, u64)], path: &[u8]) -> bool
    ensures { result ≡ is_named synced.now path.now }
{
    synced.iter().any(|s| s.0.bytes() == path)
}

/// Returns whether bytes have a slash.
fn has_slash(bytes: &[u8]) -> bool
    ensures { result ≡ list_any (λ b. b == 47) bytes.now }
{
    bytes.iter().any(|b| *b == b'/')
}

/// Returns whether the path is that of a file of the folder itself.
fn is_in_folder(folder: &[u8], path: &[u8]) -> bool
    ensures { result ≡ is_in_folder folder.now path.now }
{
    if !is_below(folder, path) {
        return false;
    }
    match path.get(folder.len() + 1..) {
        None => false,
        Some(name) => !has_slash(name),
    }
}

/// Returns entries of the files of the folder itself, of which no bytes are durable.
pub(crate) fn entries_of(
    alloc: Global,
    files: &[(FilePath, Vec<u8>)],
    folder: &[u8],
) -> Result<Vec<(FilePath, u64)>, AllocError>
    ensures { IfOk result (λ entries. entries.items ≡ entries_in folder.now (kept_files files.now)) }
{
    let mut entries = Vec::new(alloc);
    for file in files {
        if is_in_folder(folder, file.0.bytes()) {
            entries.push((FilePath::new(alloc, file.0.bytes())?, 0))?;
        }
    }
    Ok(entries)
}

/// Returns the number of bytes of the file at the path; 0 if there is no file.
pub(crate) fn len_at(files: &[(FilePath, Vec<u8>)], path: &[u8]) -> u64
    ensures { result ≡ length (bytes_of_volume (kept_files files.now) path.now) }
{
    match bytes_of(files, path) {
        None => 0,
        Some(bytes) => bytes.len() as u64,
    }
}

/// Notes that this number of bytes of a file are durable, if its name is. A refusal changes
/// nothing.
pub(crate) fn note_synced(
    alloc: Global,
    synced: &mut Vec<(FilePath, u64)>,
    path: &[u8],
    len: u64,
) -> Result<(), AllocError>
    ensures ok { OnOk result (synced.new.items ≡ with_synced path.now len synced.old.items) }
    ensures err { OnErr result (synced.new.items ≡ synced.old.items) }
{
    if is_named(synced, path) {
        synced.insert(0, (FilePath::new(alloc, path)?, len))?;
    }
    Ok(())
}
