//! Reports in words, to a terminal and a log, besides what the commands print.
ghost use Rattle.std.specs.Prelude.{◌≡◌, ◌||◌, ◌==◌, IfOk};
ghost use Rattle.std.specs.Result.{IsErr};
ghost use Rattle.br_pool.specs.Fault.{fault_number};

use crate::target_tar::TarEnd;
use br_cli_common::{
    Matter, Reason, Target, reason_of_file, reason_of_folder, reason_of_new_file, refuse_start,
};
use br_cli_progress::Gauge;
use br_engine::{RestoreCause, RestoreEnd};
use br_join::Outcome;
use br_match::{PieceCause, PieceFault};
use br_pool::PoolFault;
use br_sink::{SinkFault, StopCause};
use br_sink_folder::{others_in, push_others};
use br_types::{FileKey, Path, push_escaped};
use std::fmt;
use std::io::{self, ErrorKind};

/// The number of files whose reasons are reported.
const FILES: usize = 8;

/// The name of the stream that `--tar -` writes to.
const OUTPUT: &str = "standard output";

/// Appends a line to the log with the name of the program's stream or file that failed, if it has
/// one.
pub fn log_fault<F: fmt::Display>(
    rt: &HostRuntime,
    gauge: &Gauge<'_>,
    name: Option<&str>,
    fault: &F,
) -> io::Result<()> {
    let line = match name {
        Some(name) => format!(in rt.alloc(); "brestore: {name}: {fault}\n")?,
        None => format!(in rt.alloc(); "brestore: {fault}\n")?,
    };
    gauge.log_refusals(line.as_bytes());
    Ok(())
}

/// Prints to standard error a line for each thing in a resumed folder that is neither a file among
/// the outcomes nor a folder on the way to one, and appends it to the log. If the folder can't be
/// listed, a line says why.
pub fn tell_others(
    rt: &HostRuntime,
    gauge: &Gauge<'_>,
    folder: &str,
    outcomes: &[(FileKey, Outcome)],
) -> io::Result<()> {
    let mut lines = Vec::new(rt.alloc());
    match others_in(rt, rt.alloc(), folder, outcomes) {
        Ok(others) => push_others(&mut lines, &others)?,
        Err(error) if error.kind() == ErrorKind::OutOfMemory => return Err(error),
        Err(error) => {
            let line = format!(in rt.alloc(); "brestore: {folder}: {error}\n")?;
            lines.extend_from_slice(line.as_bytes())?;
        }
    }
    let text = String::from_utf8_lossy(rt.alloc(), &lines)?;
    eprint!(rt; "{text}")?;
    gauge.log_refusals(&lines);
    Ok(())
}

/// Returns whether a restore was given up since a volume was missing or no drive was left.
pub fn lacks_volumes(fault: &PoolFault) -> bool
    ensures { result ≡ (fault_number fault.now == 14 || fault_number fault.now == 70) }
{
    match fault {
        PoolFault::NoDriveLeft => true,
        PoolFault::Piece(PieceFault::Block { cause, .. }) => *cause == PieceCause::UnknownVolume,
        PoolFault::Piece(PieceFault::Memory) | PoolFault::Memory => false,
    }
}

/// Reports the reason of a refusal.
fn say_reason(rt: &HostRuntime, gauge: &Gauge<'_>, reason: &Reason) -> io::Result<()> {
    gauge.say(format!(in rt.alloc(); "  {reason}")?.as_str())
}

/// Reports what is wrong with a stream or its file.
fn say_stream(rt: &HostRuntime, gauge: &Gauge<'_>, path: &str, matter: Matter) -> io::Result<()> {
    let reason = Reason {
        path: String::from_str(rt.alloc(), path)?,
        matter,
    };
    say_reason(rt, gauge, &reason)
}

/// Reports why the files of these paths could not be written, for the first of them.
pub fn say_files(
    rt: &HostRuntime,
    gauge: &Gauge<'_>,
    target: Target<'_>,
    paths: &[Path],
) -> io::Result<()> {
    match target {
        Target::Folder(folder) if gauge.is_watching() => {
            for path in paths.iter().take(FILES) {
                let reason = reason_of_file(rt, folder, path.bytes())?;
                say_reason(rt, gauge, &reason)?;
            }
            Ok(())
        }
        _ => Ok(()),
    }
}

/// Reports that a stream can't be written, if the target is one.
fn say_unwritten(rt: &HostRuntime, gauge: &Gauge<'_>, target: Target<'_>) -> io::Result<()> {
    match target {
        Target::TarFile(file) => say_stream(rt, gauge, file, Matter::Unwritten),
        Target::TarOutput => say_stream(rt, gauge, OUTPUT, Matter::Untaken),
        Target::Nowhere | Target::Folder(_) => Ok(()),
    }
}

/// Reports why a sink failed at the file of a path.
fn say_failure(
    rt: &HostRuntime,
    gauge: &Gauge<'_>,
    target: Target<'_>,
    path: &Path,
) -> io::Result<()> {
    match target {
        Target::Folder(folder) => {
            say_reason(rt, gauge, &reason_of_file(rt, folder, path.bytes())?)
        }
        _ => say_unwritten(rt, gauge, target),
    }
}

/// Reports why the end of a stream could not be written, if that is so. Which files are in the
/// stream is not known then, so none counts as put.
///
/// # Errors
///
/// If memory ran out, or standard error failed.
pub fn say_unended(
    rt: &HostRuntime,
    gauge: &Gauge<'_>,
    target: Target<'_>,
    end: Option<TarEnd>,
) -> io::Result<()> {
    let Some(TarEnd::Refused(fault)) = end else {
        return Ok(());
    };
    gauge.note_unended();
    match fault {
        SinkFault::Fault if gauge.is_watching() => say_unwritten(rt, gauge, target),
        _ => Ok(()),
    }
}

/// Reports that a path conflicts with one that was written before, and what to do next.
fn say_conflict(rt: &HostRuntime, gauge: &Gauge<'_>, path: &Path, next: &str) -> io::Result<()> {
    let mut escaped = Vec::new(rt.alloc());
    push_escaped(&mut escaped, path.bytes())?;
    let shown = String::from_utf8_lossy(rt.alloc(), &escaped)?;
    let line = format!(in rt.alloc();
        "  {shown} conflicts with a path that was written before: one is a file, and the other one is below it. Next: {next}"
    )?;
    gauge.say(line.as_str())
}

/// Reports that the data of the file of a path are no longer those of the manifest.
fn say_changed(rt: &HostRuntime, gauge: &Gauge<'_>, path: &Path) -> io::Result<()> {
    let mut escaped = Vec::new(rt.alloc());
    push_escaped(&mut escaped, path.bytes())?;
    let shown = String::from_utf8_lossy(rt.alloc(), &escaped)?;
    let line = format!(in rt.alloc(); "  {shown} is no longer on the volumes as it was found")?;
    gauge.say(line.as_str())
}

/// Reports the first of the files that are left out since they conflict with an earlier one.
pub fn say_conflicts(rt: &HostRuntime, gauge: &Gauge<'_>, paths: &[Path]) -> io::Result<()> {
    if gauge.is_watching() {
        for path in paths.iter().take(FILES) {
            say_conflict(rt, gauge, path, "Restore it into another folder.")?;
        }
    }
    Ok(())
}

/// Reports why a delivery stopped at the file of a path, if it did.
pub fn say_stop(
    rt: &HostRuntime,
    gauge: &Gauge<'_>,
    target: Target<'_>,
    end: &RestoreEnd,
    path: Option<&Path>,
) -> io::Result<()> {
    match (end, path) {
        (RestoreEnd::Stopped(stop), Some(path)) if gauge.is_watching() => match stop.cause() {
            RestoreCause::Sink(StopCause::Fault) => say_failure(rt, gauge, target, path),
            RestoreCause::Sink(StopCause::Conflict) => {
                say_conflict(rt, gauge, path, "`--keep-going` leaves it out.")
            }
            RestoreCause::Changed => say_changed(rt, gauge, path),
            RestoreCause::Sink(StopCause::Memory) | RestoreCause::NoDriveLeft => Ok(()),
        },
        _ => Ok(()),
    }
}

/// Reports to a terminal, unless it is to be quiet, that no file was written if there is no target.
pub fn say_nowhere(gauge: &Gauge<'_>, target: Target<'_>) -> io::Result<()> {
    match target {
        Target::Nowhere if gauge.is_shown() => {
            gauge.say("no file was written. Next: `--into` and `--tar` say where to.")
        }
        _ => Ok(()),
    }
}

/// Reports why the target of the restored files is refused.
pub fn say_place(rt: &HostRuntime, gauge: &Gauge<'_>, target: Target<'_>) -> io::Result<()> {
    if !gauge.is_watching() {
        return Ok(());
    }
    match target {
        Target::Nowhere => Ok(()),
        Target::TarOutput => say_stream(rt, gauge, OUTPUT, Matter::Terminal),
        Target::Folder(folder) => say_reason(rt, gauge, &reason_of_folder(rt, folder)?),
        Target::TarFile(file) => say_reason(rt, gauge, &reason_of_new_file(rt, file)?),
    }
}

/// Prints a refusal to standard error before anything was read, explains it to a terminal and the
/// log, and reports why the target of the restored files is refused. Returns the exit status.
///
/// # Errors
///
/// `OutOfMemory` for the number 1, or if standard error failed.
pub fn refuse_place(
    rt: &HostRuntime,
    gauge: &Gauge<'_>,
    target: Target<'_>,
    number: u32,
) -> io::Result<u8>
    ensures status { IfOk result (λ status. status ≡ 1) }
    ensures memory { number ≡ 1 → IsErr result }
{
    gauge.log_refusals(format!(in rt.alloc(); "refused {number}\n")?.as_bytes());
    let status = refuse_start(rt, number)?;
    if number == 81 {
        say_place(rt, gauge, target)?;
    }
    Ok(status)
}
