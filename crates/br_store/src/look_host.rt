//! The files of the system. Each method is a few calls of std: no clause can state the
//! contents of a file.
ghost use Rattle.std.specs.Prelude.{◌≡◌, ◌≤◌, length, IfOk};

use crate::look_fault::LookFault;
use crate::look_sight::Sight;
use crate::look_source::Source;
use crate::look_stamp::{FileTime, Stamp};
use std::fs::{self, File, Metadata};
use std::io::{self, ErrorKind, Read};
use std::os::unix::fs::{FileExt, MetadataExt};
use std::path::PathBuf;
use std::thread;
use std::time::{Duration, Instant};

/// The length of a moment, in milliseconds.
const MOMENT: u64 = 100;

/// The time after which nothing more is waited for, in seconds.
const LONGEST: u64 = 10;

/// A file of the system to be looked at, and what lies beside it. Its path has no link in it.
///
/// Files that this process writes to under SQLite's locks must not be looked at: the system ends these
/// locks once the process closes any descriptor of the file.
#[derive(Drop)]
pub struct HostSight<'r> {
    rt: &'r HostRuntime,
    path: PathBuf,
    /// When the sight was made.
    begun: Instant,
}

/// An open file of the system, and its log.
#[derive(Drop)]
pub struct SystemFiles {
    file: File,
    log: Option<File>,
}

impl From<io::Error> for LookFault {
    fn from(error: io::Error) -> LookFault {
        match error.kind() {
            ErrorKind::OutOfMemory => LookFault::Memory,
            _ => LookFault::Unreadable,
        }
    }
}

/// Returns what was found, or none if it was not there.
fn if_there<T>(found: io::Result<T>) -> io::Result<Option<T>> {
    match found {
        Ok(found) => Ok(Some(found)),
        Err(error) if error.kind() == ErrorKind::NotFound => Ok(None),
        Err(error) => Err(error),
    }
}

/// Returns what is at the path, if something is. A link is not followed.
fn found_at(rt: &HostRuntime, path: &str) -> io::Result<Option<Metadata>> {
    if_there(fs::symlink_metadata(rt, path))
}

/// Returns whether a journal at the path has to be rolled back. One that is empty or begins with a zero has
/// not.
fn has_journal(rt: &HostRuntime, path: &str) -> io::Result<bool> {
    match found_at(rt, path)? {
        None => return Ok(false),
        Some(found) if !found.is_file() => return Ok(true),
        Some(_) => (),
    }
    let Some(mut file) = if_there(File::open(rt, path))? else {
        return Ok(false);
    };
    let mut first = [0];
    let n = file.read(&mut first)?;
    Ok(n == 1 && first[0] != 0)
}

/// Returns whether this is a regular file with one name. Another name may have its own log.
fn is_plain(found: &Metadata) -> bool {
    found.is_file() && found.nlink() == 1
}

/// Returns whether the path leads to this file, which has no other name.
fn is_at(rt: &HostRuntime, path: &str, file: &File) -> io::Result<bool> {
    match found_at(rt, path)? {
        None => Ok(false),
        Some(named) => {
            let found = file.metadata()?;
            Ok(is_plain(&found) && found.dev() == named.dev() && found.ino() == named.ino())
        }
    }
}

/// Returns whether the path leads to this log, or to nothing if there is none.
fn is_log_at(rt: &HostRuntime, path: &str, log: &Option<File>) -> io::Result<bool> {
    match log {
        None => Ok(found_at(rt, path)?.is_none()),
        Some(log) => is_at(rt, path, log),
    }
}

/// Opens what is at the path, if something is.
///
/// # Errors
///
/// `Unreadable` if it is no regular file with one name. `InUse` if another file came to the path meanwhile.
fn open_plain(rt: &HostRuntime, path: &str) -> Result<Option<File>, LookFault> {
    // A pipe is not opened, because that would wait for its writer.
    match found_at(rt, path)? {
        None => return Ok(None),
        Some(named) if !is_plain(&named) => return Err(LookFault::Unreadable),
        Some(_) => (),
    }
    let Some(file) = if_there(File::open(rt, path))? else {
        return Err(LookFault::InUse);
    };
    if !is_at(rt, path, &file)? {
        return Err(LookFault::InUse);
    }
    Ok(Some(file))
}

impl<'r> HostSight<'r> {
    /// Returns the file at the path, or where a link at the path leads.
    ///
    /// # Errors
    ///
    /// If nothing is there.
    pub fn new(rt: &'r HostRuntime, path: &str) -> Result<HostSight<'r>, LookFault> {
        Ok(HostSight {
            rt,
            path: fs::canonicalize(rt, path)?,
            begun: Instant::now(rt)?,
        })
    }
}

impl Sight for HostSight<'_> {
    ghost use Rattle.std.specs.Prelude.{None};

    type Files = SystemFiles;

    ghost told = { λ _. None };

    ghost moment = { λ _. 0 };

    fn open(&mut self) -> Result<SystemFiles, LookFault> {
        let (alloc, path) = (self.rt.alloc(), self.path.as_str());
        let Some(file) = open_plain(self.rt, path)? else {
            return Err(LookFault::Unreadable);
        };
        let log = open_plain(self.rt, format!(in alloc; "{path}-wal")?.as_str())?;
        Ok(SystemFiles { file, log })
    }

    fn has_journal(&mut self) -> Result<bool, LookFault> {
        let (alloc, path) = (self.rt.alloc(), self.path.as_str());
        Ok(has_journal(self.rt, format!(in alloc; "{path}-journal")?.as_str())?)
    }

    fn stamp(&mut self, files: &SystemFiles) -> Result<Stamp, LookFault> {
        let (alloc, path) = (self.rt.alloc(), self.path.as_str());
        let log_path = format!(in alloc; "{path}-wal")?;
        if !is_log_at(self.rt, log_path.as_str(), &files.log)?
            || !is_at(self.rt, path, &files.file)?
        {
            return Err(LookFault::InUse);
        }
        let found = files.file.metadata()?;
        Ok(Stamp {
            len: found.len(),
            device: found.dev(),
            inode: found.ino(),
            written: FileTime {
                seconds: found.mtime(),
                nanos: found.mtime_nsec(),
            },
            changed: FileTime {
                seconds: found.ctime(),
                nanos: found.ctime_nsec(),
            },
        })
    }

    fn read_header(&mut self, files: &SystemFiles, buf: &mut [u8]) -> Result<usize, LookFault> {
        match &files.log {
            None => Ok(0),
            // So few bytes at the beginning of a file are read at once.
            Some(log) => Ok(log.read_at(buf, 0)?),
        }
    }

    fn log_len(&mut self, files: &SystemFiles) -> Result<u64, LookFault> {
        match &files.log {
            None => Ok(0),
            Some(log) => Ok(log.metadata()?.len()),
        }
    }

    fn read_at(
        &mut self,
        files: &SystemFiles,
        source: Source,
        buf: &mut [u8],
        at: usize,
    ) -> Result<usize, LookFault> {
        match source {
            Source::Main => Ok(files.file.read_at(buf, at as u64)?),
            Source::Log => match &files.log {
                None => Ok(0),
                Some(log) => Ok(log.read_at(buf, at as u64)?),
            },
        }
    }

    fn wait(&mut self) -> Result<(), LookFault> {
        if self.begun.elapsed(self.rt)?.as_secs() >= LONGEST {
            return Err(LookFault::InUse);
        }
        thread::sleep(self.rt, Duration::from_millis(MOMENT));
        Ok(())
    }
}
