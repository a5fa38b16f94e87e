//! A file or standard error, to which lines are appended while a restore runs.

use std::fs::{File, OpenOptions};
use std::io::{self, ErrorKind, Write};
use std::sync::atomic::{AtomicBool, Ordering};

/// A file or standard error, to which lines are appended while a restore runs. Each part is written
/// at once, so that it is in the file even if the program is killed afterwards. At the end the file
/// is synced.
#[derive(Drop)]
pub struct Log {
    /// The file; standard error if there is none.
    pub(crate) file: Option<File>,
    /// True after a part was lost.
    is_torn: AtomicBool,
}

impl Log {
    /// Opens the file at a path to append to it, or makes it if it is not there; `-` means
    /// standard error.
    pub fn open(rt: &HostRuntime, path: &str) -> io::Result<Log> {
        let mut how = OpenOptions::new();
        how.append(true).create(true);
        let file = if path == "-" {
            None
        } else {
            Some(how.open(rt, path)?)
        };
        Ok(Log {
            file,
            is_torn: AtomicBool::new(false),
        })
    }

    /// Appends lines. A log that can't be written stops nothing: it is then torn.
    pub(crate) fn append(&self, rt: &HostRuntime, lines: &[u8]) {
        let written = match &self.file {
            Some(file) => {
                let mut file = file;
                file.write_all(lines)
            }
            None => rt.stderr().write_all(lines),
        };
        if written.is_err() {
            self.tear();
        }
    }

    /// Makes durable what was appended. A log that can't be synced is torn. One that is no file, such
    /// as a pipe, has nothing to sync.
    pub(crate) fn settle(&self) {
        let Some(file) = &self.file else {
            return;
        };
        match file.sync_data() {
            Err(error) if error.kind() != ErrorKind::InvalidInput => self.tear(),
            _ => {}
        }
    }

    /// Notes that a part was lost.
    pub(crate) fn tear(&self) {
        self.is_torn.store(true, Ordering::SeqCst);
    }

    /// Returns true if a part was lost.
    pub(crate) fn is_torn(&self) -> bool {
        self.is_torn.load(Ordering::SeqCst)
    }
}
