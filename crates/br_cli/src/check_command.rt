//! The command `check`.
ghost use Rattle.std.specs.Prelude.{◌≡◌, IfErr, IfOk, OnOk};
ghost use Rattle.std.specs.Io.KnownBytes.{Appends};
ghost use Rattle.br_check.specs.Check.{end_text};
ghost use Rattle.br_check.specs.Told.{TellsMore};
ghost use Rattle.br_engine.specs.Fault.{IsFree};
ghost use Rattle.br_volume.specs.Drive.{OnlyGrows};
ghost use Rattle.br_model.specs.Meaning.{pieces_of};
ghost use Rattle.br_check.specs.Shown.{shown_between};
ghost use Rattle.br_cli.specs.CheckCommand.{ChecksFor, ChecksTask, HasSums, checked_status, run_refusal, run_status};

use crate::bootstrap_file::BootstrapFile;
use crate::extract_command::{ExtractStartFault, expect, refuse, report_stream};
use br_bsr::Bootstrap;
use br_check::{Checked, check, push_checksums};
use br_cli_common::{BAD_STREAM, CLEAN, CheckOptions, Checksums, Progress, REFUSED, Target};
use br_cli_progress::{ClearingWriter, Gauge, WatchedDrive};
use br_cli_target::{Ending, gauge_of};
use br_engine::{ExtractFault, ReadBootstrap};
use br_sink::{Flush, show};
use br_volume::{Drive, FolderDrive, HostDrive};
use std::alloc::{AllocError, Global};
use std::io;

/// Returns the exit status from the findings.
fn status_of(checked: &Checked) -> u8
    ensures { result ≡ checked_status checked.now }
{
    if checked.is_clean() { CLEAN } else { REFUSED }
}

/// Writes what follows the findings of a check, and flushes all.
fn show_end<W: Flush>(alloc: Global, writer: &mut W, checked: &Checked) -> Result<(), ExtractFault>
    ensures written { OnOk result (Appends (W.contents writer.old) (W.contents writer.new) (end_text checked.now)) }
    ensures flushed { OnOk result (W.is_flushed writer.new) }
    ensures free { IfErr result IsFree }
{
    let mut text = Vec::new(alloc);
    checked.push_end(&mut text)?;
    show(writer, &text)?;
    Ok(())
}

/// Returns the findings, and the lines of the blocks whose checksums differ. Writes each of these lines as
/// it is found.
fn with_checksums<D: Drive, W: Flush>(
    alloc: Global,
    checked: Checked,
    bootstrap: &Bootstrap,
    drive: &mut D,
    writer: &mut W,
) -> Result<Checked, ExtractFault>
    ensures sums { IfOk result (HasSums (shown_between D.Drive drive.old drive.new) (pieces_of bootstrap.now) checked) }
    ensures written { IfOk result (λ summed.
        TellsMore (W.contents writer.old) (W.contents writer.new) checked.findings.items summed.findings.items) }
    ensures grows { OnlyGrows (D.shows drive.old) (D.shows drive.new) }
    ensures free { IfErr result IsFree }
{
    let Checked {
        mut findings,
        files,
        bytes,
        memory,
    } = checked;
    push_checksums(alloc, &mut findings, bootstrap, drive, writer)?;
    Ok(Checked {
        findings,
        files,
        bytes,
        memory,
    })
}

/// Checks a bootstrap over the volumes of a drive, and the checksums of its blocks if they are to
/// be compared. The memory is that of a restore that holds at most `budget` bytes of data. Writes the
/// findings, those of the checksums as they are found.
fn checked_for<D: Drive, W: Flush>(
    alloc: Global,
    read: &ReadBootstrap,
    budget: u64,
    drive: &mut D,
    checksums: Checksums,
    writer: &mut W,
) -> Result<Checked, ExtractFault>
    ensures checked { IfOk result (ChecksFor D.Drive drive.old drive.new read.now budget checksums) }
    ensures written { IfOk result (λ checked. Appends (W.contents writer.old) (W.contents writer.new) checked.findings.items) }
    ensures grows { OnlyGrows (D.shows drive.old) (D.shows drive.new) }
    ensures free { IfErr result IsFree }
{
    let checked = check(alloc, &read.bootstrap, &read.counts, budget, drive)?;
    show(writer, &checked.findings)?;
    match checksums {
        Checksums::Passed => Ok(checked),
        Checksums::Compared => with_checksums(alloc, checked, &read.bootstrap, drive, writer),
    }
}

/// The bootstrap to check, the drive that reads its volumes, the number of bytes of data that a
/// restore would hold in memory, and whether to compare the checksums of blocks.
#[derive(Drop)]
pub struct CheckTask<'p, D> {
    bootstrap: BootstrapFile<'p>,
    drive: D,
    memory: u64,
    checksums: Checksums,
}

/// Reads the bootstrap, and makes the drive over the folder of the volumes.
pub fn set_up_check<'r, 'p>(
    rt: &'r HostRuntime,
    given: &CheckOptions<'p>,
) -> Result<CheckTask<'p, HostDrive<'r>>, ExtractStartFault>
    ensures bootstrap { IfOk result (λ task. task.bootstrap.path.now ≡ given.now.bsr.now) }
    ensures volumes { IfOk result (λ task. task.drive.path ≡ given.now.volumes.now) }
    ensures memory { IfOk result (λ task. task.memory ≡ given.now.memory) }
    ensures checksums { IfOk result (λ task. task.checksums ≡ given.now.checksums) }
{
    let bootstrap = BootstrapFile::read(rt, given.bsr)?;
    let drive = FolderDrive::new(rt.alloc(), rt, given.volumes)?;
    Ok(CheckTask {
        bootstrap,
        drive,
        memory: given.memory,
        checksums: given.checksums,
    })
}

/// Returns a task whose drive reports its progress to a gauge.
fn with_watched_drive<'g, 'r, 'p, D>(
    task: CheckTask<'p, D>,
    gauge: &'g Gauge<'r>,
) -> CheckTask<'p, WatchedDrive<'g, 'r, D>>
    ensures bootstrap { result.bootstrap ≡ task.entry.bootstrap }
    ensures drive { result.drive.inner ≡ task.entry.drive }
    ensures memory { result.memory ≡ task.entry.memory }
    ensures checksums { result.checksums ≡ task.entry.checksums }
{
    let CheckTask {
        bootstrap,
        drive,
        memory,
        checksums,
    } = task;
    CheckTask {
        bootstrap,
        drive: WatchedDrive::new(drive, gauge),
        memory,
        checksums,
    }
}

/// Carries out a task: checks the bootstrap over the volumes of the drive, and writes a line for
/// each finding, those of checksums as they are found, the memory that a restore needs, and then the
/// number of files that would be restored and of their bytes. Returns the exit status.
///
/// # Errors
///
/// The refusal of a line of the bootstrap, before anything is read or written. `Memory` if memory ran out,
/// and `Io` if the writer failed; findings may be written by then.
pub fn check_over<D: Drive, W: Flush>(
    alloc: Global,
    task: &mut CheckTask<'_, D>,
    writer: &mut W,
) -> Result<u8, ExtractFault>
    ensures checks { ChecksTask D.Drive W.Write (task.old, writer.old) (task.new, writer.new) result }
    ensures grows { OnlyGrows (D.shows task.old.drive) (D.shows task.new.drive) }
    ensures flushed { OnOk result (W.is_flushed writer.new) }
{
    let file = &task.bootstrap;
    let read = match &file.read {
        Ok(read) => read,
        Err(fault) => return Err(ExtractFault::Bootstrap(*fault)),
    };
    let (memory, checksums) = (task.memory, task.checksums);
    let checked = checked_for(alloc, read, memory, &mut task.drive, checksums, writer)?;
    show_end(alloc, writer, &checked)?;
    Ok(status_of(&checked))
}

/// Returns the exit status and the refusal line for this result.
pub fn check_ending(alloc: Global, run: &Result<u8, ExtractFault>) -> Result<Ending, AllocError>
    ensures status { IfOk result (λ ending. ending.status ≡ run_status run.now) }
    ensures refusal { IfOk result (λ ending. ending.refusal.items ≡ run_refusal run.now) }
{
    let mut refusal = Vec::new(alloc);
    let status = match run {
        Ok(status) => *status,
        Err(ExtractFault::Io(_) | ExtractFault::NoEnd(_)) => BAD_STREAM,
        Err(fault) => {
            fault.push_line(&mut refusal)?;
            REFUSED
        }
    };
    Ok(Ending { status, refusal })
}

/// Prints the end of a check to standard error. Returns the exit status.
fn report(rt: &HostRuntime, run: Result<u8, ExtractFault>) -> io::Result<u8>
    ensures status { IfOk result (λ status. status ≡ run_status run) }
{
    let ending = check_ending(rt.alloc(), &run)?;
    if let Err(fault) = &run {
        report_stream(rt, "standard output", fault)?;
    }
    let status = ending.print(rt)?;
    Ok(status)
}

/// Checks the bootstrap in a file over the volumes in a folder. Prints a line for each finding, the
/// memory that a restore needs, and then the number of files that would be restored and of their
/// bytes. Restores nothing. A terminal is shown how far the check is.
///
/// Returns the exit status: 0 if nothing was found; 1 if something was found or a line of the bootstrap was
/// refused; 3 if the bootstrap could not be read or standard output failed.
///
/// # Errors
///
/// If memory ran out or standard error failed.
pub fn check_files(rt: &HostRuntime, given: &CheckOptions<'_>) -> io::Result<u8> {
    let task = match set_up_check(rt, given) {
        Ok(task) => task,
        Err(fault) => return refuse(rt, given.bsr, fault),
    };
    let gauge = gauge_of(rt, given.volumes, Target::Nowhere, Progress::Shown, None)?;
    expect(&gauge, task.bootstrap.bootstrap());
    let mut task = with_watched_drive(task, &gauge);
    let mut writer = ClearingWriter::new(io::writer(rt), &gauge);
    let run = check_over(rt.alloc(), &mut task, &mut writer);
    gauge.clear();
    report(rt, run)
}
