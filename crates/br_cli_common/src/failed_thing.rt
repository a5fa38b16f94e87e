//! What is wrong with a path, and what to do next.

use std::fmt;
use std::io::{self, ErrorKind};

/// What is at a path.
#[derive(Clone, Copy)]
pub enum Thing {
    File,
    Folder,
    Link,
    /// A pipe, a socket or a device.
    Other,
}

impl fmt::Display for Thing {
    fn fmt<W: fmt::Write>(&self, f: &mut fmt::Formatter<W>) -> fmt::Result {
        match self {
            Thing::File => f.write_str("a file"),
            Thing::Folder => f.write_str("a folder"),
            Thing::Link => f.write_str("a link"),
            Thing::Other => f.write_str("no file and no folder"),
        }
    }
}

/// What is wrong with a path.
#[derive(Drop)]
pub enum Matter {
    /// The path is not UTF-8, and has no name in a folder.
    NotText,
    /// This is there instead of a folder.
    NotFolder(Thing),
    /// This is there instead of a file.
    NotFile(Thing),
    /// A file is there that can't be read or replaced.
    Kept,
    /// This is there, but nothing may be.
    Taken(Thing),
    /// A folder is there that is not empty.
    NotEmpty,
    /// A stream of bytes would go to a terminal.
    Terminal,
    /// The system refuses the path.
    Refused(io::Error),
    /// The system refuses to read the path.
    Unread(io::Error),
    /// A file can be made there, so its bytes could not be written.
    Unwritten,
    /// Standard output takes no more bytes of a stream.
    Untaken,
    /// Nothing that can still be seen is wrong.
    Gone,
}

impl fmt::Display for Matter {
    fn fmt<W: fmt::Write>(&self, f: &mut fmt::Formatter<W>) -> fmt::Result {
        match self {
            Matter::NotText => f.write_str("is not UTF-8, and a folder takes no such name here"),
            Matter::NotFolder(thing) => write!(f, "is {thing}, and has to be a folder"),
            Matter::NotFile(thing) => write!(f, "is {thing}, and has to be a file"),
            Matter::Kept => f.write_str("is a file that can't be read or replaced"),
            Matter::Taken(thing) => write!(f, "is {thing} already"),
            Matter::NotEmpty => f.write_str("is a folder that is not empty"),
            Matter::Terminal => f.write_str("is a terminal"),
            Matter::Refused(error) => write!(f, "is refused by the system: {error}"),
            Matter::Unread(error) => write!(f, "can't be read: {error}"),
            Matter::Unwritten => {
                f.write_str("can be made but not written: the disk is full, or it fails")
            }
            Matter::Untaken => f.write_str(
                "takes no more bytes: the program that reads it has ended, or its disk is full",
            ),
            Matter::Gone => f.write_str("is refused no more"),
        }
    }
}

/// Returns what to do after the system refused a call with an error of this kind.
fn next_after(kind: ErrorKind) -> &'static str {
    match kind {
        ErrorKind::NotFound => "Make the folder, or correct its name.",
        ErrorKind::PermissionDenied => {
            "Run the command as a user who may write there, or choose another folder."
        }
        ErrorKind::ReadOnlyFilesystem => {
            "Mount the disk for writing, or choose a folder on another disk."
        }
        ErrorKind::StorageFull | ErrorKind::QuotaExceeded => {
            "Free space, or choose a folder on another disk."
        }
        ErrorKind::NotADirectory => "Name a folder.",
        ErrorKind::InvalidFilename =>
            "The disk takes no name that long: use `--tar` for this file.",
        _ => "See what the system says of the disk.",
    }
}

/// Returns what to do after the system refused to read a file with an error of this kind.
fn next_after_reading(kind: ErrorKind) -> &'static str {
    match kind {
        ErrorKind::NotFound => "Copy it there, or correct the folder's name.",
        ErrorKind::PermissionDenied => "Run the command as a user who may read it.",
        _ => "See what the system says of the disk, or take another copy.",
    }
}

impl Matter {
    /// Returns what to do next.
    pub fn next(&self) -> &'static str {
        match self {
            Matter::NotText => "Use `--tar`, which takes every name.",
            Matter::NotFolder(_) | Matter::NotFile(_) | Matter::Kept => {
                "Move it away, or choose another folder."
            }
            Matter::Taken(_) => "Name a file that is not there.",
            Matter::NotEmpty => {
                "Choose an empty folder; `--resume` goes on with a restore that was cut off."
            }
            Matter::Terminal => "Name a file, or send the stream to another program.",
            Matter::Refused(error) => next_after(error.kind()),
            Matter::Unread(error) => next_after_reading(error.kind()),
            Matter::Unwritten => "Free space (`df` shows it), or choose a folder on another disk.",
            Matter::Untaken => "Let that program read to the end, or free space.",
            Matter::Gone => "Run the command again.",
        }
    }
}

/// A path, and what is wrong with it.
#[derive(Drop)]
pub struct Reason {
    pub path: String,
    pub matter: Matter,
}

impl fmt::Display for Reason {
    fn fmt<W: fmt::Write>(&self, f: &mut fmt::Formatter<W>) -> fmt::Result {
        let (path, matter) = (self.path.as_str(), &self.matter);
        write!(f, "{path} {matter}. Next: {}", matter.next())
    }
}
