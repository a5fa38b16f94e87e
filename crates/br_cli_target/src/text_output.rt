//! The streams and files that a manifest and the answers of a session go to.
ghost use Rattle.std.specs.Prelude.{◌≡◌, ◌⊎◌, None, IfOk};
ghost use Rattle.std.specs.Io.KnownBytes.{Keeps};
ghost use Rattle.br_cli_target.specs.TextPlaces.{Place, Output, Errors, OwnFile, Nowhere};

use crate::told_target::log_fault;
use crate::watched_restore::refuse_log;
use br_cli_progress::Gauge;
use std::fs::{File, OpenOptions};
use std::io::{self, ErrorKind, Printer, Sink, Stderr, Write};

/// A writer of text, and where the text goes.
pub trait TextOutput: Write {
    ghost use Rattle.br_cli_target.specs.TextPlaces.{Place};

    ghost place: { Place };

    /// Makes durable what was written, if this is a regular file. What was written stays.
    fn sync(&mut self) -> io::Result<()>
        ensures bytes { Keeps (Self.contents self.old) (Self.contents self.new) };
}

impl TextOutput for Printer<'_, HostRuntime> {
    ghost place = { Output };

    fn sync(&mut self) -> io::Result<()> {
        Ok(())
    }
}

impl TextOutput for Stderr {
    ghost place = { Errors };

    fn sync(&mut self) -> io::Result<()> {
        Ok(())
    }
}

impl TextOutput for File {
    ghost place = { OwnFile };

    /// A file that is no regular one, such as a pipe, has nothing to sync.
    fn sync(&mut self) -> io::Result<()> {
        match self.sync_data() {
            Err(error) if error.kind() != ErrorKind::InvalidInput => Err(error),
            _ => Ok(()),
        }
    }
}

impl TextOutput for Sink {
    ghost place = { Nowhere };

    fn sync(&mut self) -> io::Result<()> {
        Ok(())
    }
}

/// Opens the file with this path for a manifest. What is in it is removed.
pub fn open_manifest(rt: &HostRuntime, path: &str) -> io::Result<File> {
    let mut how = OpenOptions::new();
    how.write(true).create(true).truncate(true);
    how.open(rt, path)
}

/// Makes the manifest in the file with this path durable, if it has a file. If that fails, prints why
/// to standard error and appends it to the log. Returns the exit status of a command that ends with
/// this one otherwise.
///
/// # Errors
///
/// If memory ran out or standard error failed.
pub fn end_manifest<M: TextOutput>(
    rt: &HostRuntime,
    gauge: &Gauge<'_>,
    path: Option<&str>,
    manifest: &mut M,
    status: u8,
) -> io::Result<u8>
    ensures ended { IfOk result (λ ended. (ended ≡ status) ⊎ (ended ≡ 3)) }
    ensures kept { path.entry ≡ None → IfOk result (λ ended. ended ≡ status) }
{
    if path.is_none() {
        return Ok(status);
    }
    match manifest.sync() {
        Ok(()) => Ok(status),
        Err(error) => refuse_manifest(rt, gauge, path, error),
    }
}

/// Prints to standard error that the file of a manifest failed, and appends it to the log. Returns
/// the exit status.
///
/// # Errors
///
/// If memory ran out or standard error failed.
pub fn refuse_manifest(
    rt: &HostRuntime,
    gauge: &Gauge<'_>,
    path: Option<&str>,
    error: io::Error,
) -> io::Result<u8>
    ensures { IfOk result (λ status. status ≡ 3) }
{
    log_fault(rt, gauge, path, &error)?;
    refuse_log(rt, path, error)
}
