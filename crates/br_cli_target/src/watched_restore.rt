//! Restores that show their progress at a terminal.
ghost use Rattle.std.specs.Prelude.{◌≡◌, is_some, length, IfOk};

use br_cli_common::{BAD_STREAM, Progress, Target, is_shown};
use br_cli_progress::{Gauge, Log, WatchedDrive, WatchedSink};
use std::alloc::{AllocError, Global};
use std::io::{self, ErrorKind};

/// Returns the gauge of a restore from volumes in the folder with this path to a target. It shows
/// the progress if that is asked for and standard error is a terminal, and appends to the file of a
/// log if one is given.
pub fn gauge_of<'r>(
    rt: &'r HostRuntime,
    volumes: &'r str,
    target: Target<'_>,
    progress: Progress,
    log: Option<&str>,
) -> io::Result<Gauge<'r>> {
    let log = match log {
        Some(path) => Some(Log::open(rt, path)?),
        None => None,
    };
    let gauge = Gauge::new(
        rt,
        volumes,
        target,
        matches!(progress, Progress::Shown) && is_shown(rt),
    );
    Ok(gauge.with_log(log))
}

/// Prints to standard error that the file of a log, or of a manifest, failed. Returns the exit
/// status. If memory ran out, returns the error.
pub fn refuse_log(rt: &HostRuntime, log: Option<&str>, error: io::Error) -> io::Result<u8>
    ensures { IfOk result (λ status. status ≡ 3) }
{
    match log {
        Some(path) if error.kind() != ErrorKind::OutOfMemory => {
            eprintln!(rt; "brestore: {path}: {error}")?;
            Ok(BAD_STREAM)
        }
        _ => Err(error),
    }
}

/// Returns the drives, each of which is watched.
pub(crate) fn watched_drives<'g, 'r, D: Drop>(
    alloc: Global,
    drives: Vec<D>,
    gauge: &'g Gauge<'r>,
) -> Result<Vec<WatchedDrive<'g, 'r, D>>, AllocError>
    ensures many { IfOk result (λ watched. length watched.items ≡ length drives.items) }
{
    let mut watched = Vec::with_capacity(alloc, drives.len())?;
    for drive in drives {
        watched.push_reserved(WatchedDrive::new(drive, gauge));
    }
    Ok(watched)
}

/// Returns the sink, if there is one, as a watched sink.
pub(crate) fn watched_sink<'g, 'r, S>(
    sink: Option<S>,
    gauge: &'g Gauge<'r>,
) -> Option<WatchedSink<'g, 'r, S>>
    ensures { is_some result ≡ is_some sink }
{
    match sink {
        Some(sink) => Some(WatchedSink::new(sink, gauge)),
        None => None,
    }
}
