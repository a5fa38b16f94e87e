//! Looks at the disk for the reason of a refusal.

use crate::failed_thing::{Matter, Reason, Thing};
use br_types::push_escaped;
use std::alloc::AllocError;
use std::fs::{self, DirBuilder, File, FileType, OpenOptions};
use std::io::{self, ErrorKind, Read};
use std::os::unix::fs::{DirBuilderExt, OpenOptionsExt};
use std::str;

/// Returns what has this type.
fn thing_of(kind: FileType) -> Thing {
    if kind.is_file() {
        Thing::File
    } else if kind.is_dir() {
        Thing::Folder
    } else if kind.is_symlink() {
        Thing::Link
    } else {
        Thing::Other
    }
}

/// Returns what is at a path, if anything is. A link is not followed.
fn thing_at(rt: &HostRuntime, path: &str) -> io::Result<Option<Thing>> {
    match fs::symlink_metadata(rt, path) {
        Ok(metadata) => Ok(Some(thing_of(metadata.file_type()))),
        Err(error) if error.kind() == ErrorKind::NotFound => Ok(None),
        Err(error) => Err(error),
    }
}

/// Makes a file for a moment, at a path where nothing is.
fn try_file(rt: &HostRuntime, path: &str) -> io::Result<()> {
    let mut how = OpenOptions::new();
    how.mode(0o600).write(true).create_new(true);
    let file: File = how.open(rt, path)?;
    drop(file);
    fs::remove_file(rt, path)
}

/// Makes a folder for a moment, at a path where nothing is.
fn try_folder(rt: &HostRuntime, path: &str) -> io::Result<()> {
    let mut how = DirBuilder::new();
    how.mode(0o700);
    how.create(rt, path)?;
    fs::remove_dir(rt, path)
}

/// Returns what is wrong with a folder on the way to a file, if it is not a folder.
fn matter_on_way(rt: &HostRuntime, path: &str) -> Option<Matter> {
    match thing_at(rt, path) {
        Ok(Some(Thing::Folder)) => None,
        Ok(Some(thing)) => Some(Matter::NotFolder(thing)),
        Err(error) => Some(Matter::Refused(error)),
        Ok(None) => match try_folder(rt, path) {
            Ok(()) => Some(Matter::Gone),
            Err(error) => Some(Matter::Refused(error)),
        },
    }
}

/// Returns what is wrong with the path of a file; the folders on its way are there.
fn matter_of_file(rt: &HostRuntime, path: &str) -> Matter {
    match thing_at(rt, path) {
        Ok(Some(Thing::File)) => Matter::Kept,
        Ok(Some(thing)) => Matter::NotFile(thing),
        Err(error) => Matter::Refused(error),
        Ok(None) => match try_file(rt, path) {
            Ok(()) => Matter::Unwritten,
            Err(error) => Matter::Refused(error),
        },
    }
}

/// Returns a reason. The path is escaped as in a manifest.
fn reason_at(rt: &HostRuntime, path: &[u8], matter: Matter) -> Result<Reason, AllocError> {
    let mut escaped = Vec::new(rt.alloc());
    push_escaped(&mut escaped, path)?;
    let path = String::from_utf8_lossy(rt.alloc(), &escaped)?;
    Ok(Reason { path, matter })
}

/// Returns the reason why the folder at the end of this way below a folder can't be made, if there
/// is one. Extends the path to the end of the way, or to the name that fails.
fn reason_on_way(
    rt: &HostRuntime,
    path: &mut String,
    way: &str,
) -> Result<Option<Matter>, AllocError> {
    for name in way.split('/') {
        if !name.is_empty() {
            path.push('/')?;
            path.push_str(name)?;
            if let Some(matter) = matter_on_way(rt, path.as_str()) {
                return Ok(Some(matter));
            }
        }
    }
    Ok(None)
}

/// Returns the reason why the file of this path is not below a folder. A path that ends in `/` is a
/// folder's.
fn reason_below(rt: &HostRuntime, folder: &str, text: &str) -> Result<Reason, AllocError> {
    let mut path = String::from_str(rt.alloc(), folder)?;
    let (way, name) = text.rsplit_once('/').unwrap_or(("", text));
    if let Some(matter) = reason_on_way(rt, &mut path, way)? {
        return reason_at(rt, path.as_bytes(), matter);
    }
    if name.is_empty() {
        return reason_at(rt, path.as_bytes(), Matter::Gone);
    }
    path.push('/')?;
    path.push_str(name)?;
    let matter = matter_of_file(rt, path.as_str());
    reason_at(rt, path.as_bytes(), matter)
}

/// Returns the reason why the file or the folder of this path could not be written below a folder.
pub fn reason_of_file(rt: &HostRuntime, folder: &str, path: &[u8]) -> Result<Reason, AllocError> {
    match str::from_utf8(path) {
        Ok(text) => reason_below(rt, folder, text),
        Err(_) => reason_at(rt, path, Matter::NotText),
    }
}

/// Returns what is wrong with a folder to write into.
fn matter_of_folder(rt: &HostRuntime, path: &str) -> Matter {
    match fs::read_dir(rt, path) {
        Err(error) => Matter::Refused(error),
        Ok(mut entries) => match entries.next() {
            None => Matter::Gone,
            Some(_) => Matter::NotEmpty,
        },
    }
}

/// Returns the reason why a folder to write into is refused.
pub fn reason_of_folder(rt: &HostRuntime, path: &str) -> Result<Reason, AllocError> {
    reason_at(rt, path.as_bytes(), matter_of_folder(rt, path))
}

/// Returns what is wrong with the path of a new file.
fn matter_of_new_file(rt: &HostRuntime, path: &str) -> Matter {
    match thing_at(rt, path) {
        Ok(Some(thing)) => Matter::Taken(thing),
        Err(error) => Matter::Refused(error),
        Ok(None) => match try_file(rt, path) {
            Ok(()) => Matter::Gone,
            Err(error) => Matter::Refused(error),
        },
    }
}

/// Returns the reason why a new file could not be made.
pub fn reason_of_new_file(rt: &HostRuntime, path: &str) -> Result<Reason, AllocError> {
    reason_at(rt, path.as_bytes(), matter_of_new_file(rt, path))
}

/// Reads the first byte of a file, if it has one.
fn try_reading(rt: &HostRuntime, path: &str) -> io::Result<()> {
    let mut file = File::open(rt, path)?;
    let mut first = [0; 1];
    let _len = file.read(&mut first)?;
    Ok(())
}

/// Returns what is wrong with the path of a file to read, if anything is. A link is followed.
fn matter_of_read(rt: &HostRuntime, path: &str) -> Option<Matter> {
    match fs::metadata(rt, path) {
        Err(error) => Some(Matter::Unread(error)),
        Ok(metadata) => match thing_of(metadata.file_type()) {
            Thing::File => try_reading(rt, path).err().map(Matter::Unread),
            thing => Some(Matter::NotFile(thing)),
        },
    }
}

/// Returns the reason why the file with this name in a folder can't be read, if there is one.
pub fn reason_of_read(
    rt: &HostRuntime,
    folder: &str,
    name: &[u8],
) -> Result<Option<Reason>, AllocError> {
    let Ok(name) = str::from_utf8(name) else {
        return Ok(None);
    };
    let mut path = String::from_str(rt.alloc(), folder)?;
    path.push('/')?;
    path.push_str(name)?;
    match matter_of_read(rt, path.as_str()) {
        Some(matter) => Ok(Some(reason_at(rt, path.as_bytes(), matter)?)),
        None => Ok(None),
    }
}
