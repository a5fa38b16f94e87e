//! The command `extract`.
ghost use Rattle.std.specs.Prelude.{◌≡◌, false, is_some, length, option_map, None, Some, IfOk, IfSome, IsSome, OnOk};
ghost use Rattle.br_cli_common.specs.Options.{AreFew};
ghost use Rattle.br_pool.specs.Pool.{AreDrives};
ghost use Rattle.br_volume.specs.HostDrives.{AreOver};
ghost use Rattle.br_cli_target.specs.AskedTarget.{folder_asked, stream_asked};
ghost use Rattle.br_cli.specs.ExtractEnding.{asks_in, done_status, extent, gives_nothing, run_refusal, run_status};
ghost use Rattle.br_cli.specs.ExtractEnding.{lost_status, report_status, shows_nothing, told_status};
ghost use Rattle.br_cli.specs.ExtractStarting.{start_status};
ghost use Rattle.br_cli_target.specs.TarEnding.{IsShown};
ghost use Rattle.br_cli_target.specs.TextPlaces.{manifest_place};
ghost use Rattle.br_engine.specs.Restores.{TellsDelivered, TellsStop, change};
ghost use Rattle.br_damage.specs.NarrowedBootstrap.{IsNarrowedBy};
ghost use Rattle.br_cli.specs.BootstrapFiles.{whole_of};
ghost use Rattle.br_cli.specs.ExtractTasks.{AreWantedTo, ExtractsTo, StreamsTo};
ghost use Rattle.br_cli_common.specs.declared.options.Printed.TheVariants.{Manifest};

use crate::bootstrap_file::BootstrapFile;
use crate::left_extraction::extract_left;
use br_bsr::Bootstrap;
use br_check::push_empty;
use br_cli_common::{BAD_STREAM, CLEAN, ExtractOptions, Printed, REFUSED, Target, refuse_start};
use br_cli_progress::{Gauge, WatchedDrive, WatchedSink, WatchedWriter};
use br_cli_target::{
    Channel, Ending, LeavingSink, PutExtent, Settle, Streamed, TarEnd, TarFault, TextOutput,
    ToldOutcomes, add_tar_end, advise, end_manifest, end_stream, folder_of, gauge_of, is_whole,
    lacks_volumes, leaving_over, left_out, log_fault, open_manifest, refuse_log, refuse_manifest,
    refuse_place, restore_over, say_conflicts, say_files, say_nowhere, say_stop, say_unended,
    say_volumes, tar_into, tar_output, tell_others, tell_outcomes, with_watched_drives,
    with_watched_sink,
};
use br_damage::NarrowedBootstrap;
use br_engine::{ExtractFault, Extracted, Restore, RestoreEnd, RestoreOrder};
use br_sink::{Flush, Sink};
use br_sink_folder::FolderFault;
use br_sink_tar::TarSink;
use br_types::{Gaps, Path, Start, Wanted};
use br_volume::{Drive, HostDrive};
use std::alloc::{AllocError, Global};
use std::io::{self, BufWriter, ErrorKind};
use std::sync::Wait;
use std::thread::Threads;
use thiserror::Error;

/// Returns the exit status of a restore that wrote its manifest.
fn status_of(done: &Extracted, failed: &[Path]) -> u8
    ensures { result ≡ done_status false done.now failed.now }
{
    match done.end {
        RestoreEnd::AllFiles if is_whole(done, failed) => CLEAN,
        _ => REFUSED,
    }
}

/// Returns the exit status and the lines of what is missing, left out or refused for this result.
/// `failed` are the paths of the files at which the sink failed and which are left out.
/// `asks_nothing` is true if missing files are to be reported, and the bootstrap has no group.
pub fn extract_ending(
    alloc: Global,
    asks_nothing: bool,
    run: &Result<Extracted, ExtractFault>,
    failed: &[Path],
) -> Result<Ending, AllocError>
    ensures status { IfOk result (λ ending. ending.status ≡ run_status asks_nothing run.now failed.now) }
    ensures refusal { IfOk result (λ ending. ending.refusal.items ≡ run_refusal asks_nothing run.now failed.now) }
{
    let mut refusal = Vec::new(alloc);
    let status = match run {
        Ok(done) => {
            push_empty(&mut refusal, asks_nothing)?;
            done.push_lines(failed, &mut refusal)?;
            if asks_nothing {
                REFUSED
            } else {
                status_of(done, failed)
            }
        }
        Err(ExtractFault::Io(_) | ExtractFault::NoEnd(_)) => BAD_STREAM,
        Err(fault) => {
            fault.push_line(&mut refusal)?;
            REFUSED
        }
    };
    Ok(Ending { status, refusal })
}

/// Returns true if missing files are to be reported, and the bootstrap has no group.
fn is_nothing_asked(gaps: Gaps, told: &ToldOutcomes<'_>) -> bool
    ensures { result ≡ asks_in gaps told.now.bootstrap }
{
    match gaps {
        Gaps::Reported => told.asks_nothing(),
        Gaps::Unreported => false,
    }
}

/// Returns true if a run gave no file, and none is reported as missing.
fn gives_nothing(run: &Result<Extracted, ExtractFault>) -> bool
    ensures { result ≡ gives_nothing run.now }
{
    match run {
        Ok(done) => done.outcomes.is_empty() && done.missing.is_empty(),
        Err(_) => false,
    }
}

/// What is not put of what was asked for, and the end of the stream.
#[derive(Drop)]
struct LeftOut<'a> {
    /// The paths of the files at which the sink failed.
    failed: &'a [Path],
    /// The lines of the indexes that are lost with their volumes, if volumes are.
    lost: Option<&'a [u8]>,
    /// The end of the tar stream, if there is one.
    end: Option<TarEnd>,
}

/// Returns true if there is nothing to show: no volume is lost, and nothing was asked for, or
/// `restore`, which prints words, gave no file, and none is missing.
fn shows_nothing(
    given: &ExtractOptions<'_>,
    told: &ToldOutcomes<'_>,
    run: &Result<Extracted, ExtractFault>,
    left: &LeftOut<'_>,
) -> bool
    ensures { result ≡ shows_nothing given.now told.now.bootstrap run.now (is_some left.now.lost) }
{
    let found_none = match given.printed {
        Printed::Manifest => false,
        Printed::Words(_) => gives_nothing(run),
    };
    left.lost.is_none() && (is_nothing_asked(given.wanted.gaps, told) || found_none)
}

/// Adds to an ending the lines of what is lost, if volumes are.
fn add_lost(ending: &mut Ending, lost: Option<&[u8]>) -> Result<(), AllocError>
    ensures { OnOk result (ending.new.status ≡ lost_status (is_some lost.entry) ending.old.status) }
{
    if let Some(lines) = lost {
        ending.status = ending.status.max(REFUSED);
        ending.refusal.extend_from_slice(lines)?;
    }
    Ok(())
}

/// Returns the exit status and the lines of a run, of what is lost, and of the tar stream, if there is
/// one.
fn whole_ending(
    alloc: Global,
    asks_nothing: bool,
    run: &Result<Extracted, ExtractFault>,
    left: &LeftOut<'_>,
) -> Result<Ending, AllocError>
    ensures { IfOk result (λ ending. ending.status ≡ told_status asks_nothing run.now left.now) }
{
    let mut ending = extract_ending(alloc, asks_nothing, run, left.failed)?;
    add_lost(&mut ending, left.lost)?;
    let Some(end) = left.end else {
        return Ok(ending);
    };
    add_tar_end(&mut ending, end)?;
    Ok(ending)
}

/// Prints to standard error that the stream or file with this name failed, if it did. If memory ran
/// out, returns the error.
pub(crate) fn report_stream<R: Eprint>(rt: &R, name: &str, fault: &ExtractFault) -> io::Result<()> {
    match fault {
        ExtractFault::Io(e) if e.kind() == ErrorKind::OutOfMemory => {
            Err(ErrorKind::OutOfMemory.into())
        }
        ExtractFault::Io(e) => eprintln!(rt; "brestore: {name}: {e}"),
        ExtractFault::NoEnd(e) => eprintln!(rt; "brestore: {name}: {e}"),
        _ => Ok(()),
    }
}

/// Reports to a terminal and the log why files are left out and why the delivery stopped.
fn say_done(
    rt: &HostRuntime,
    gauge: &Gauge<'_>,
    target: Target<'_>,
    done: &Extracted,
    failed: &[Path],
) -> io::Result<()> {
    say_conflicts(rt, gauge, &done.left)?;
    say_files(rt, gauge, target, failed)?;
    say_stop(rt, gauge, target, &done.end, done.stopped_at.as_ref())
}

/// Prints that the stream or file with this name failed, if it did, and appends it to the log.
fn tell_stream(
    rt: &HostRuntime,
    gauge: &Gauge<'_>,
    name: &str,
    fault: &ExtractFault,
) -> io::Result<()> {
    report_stream(rt, name, fault)?;
    match fault {
        ExtractFault::Io(_) | ExtractFault::NoEnd(_) => log_fault(rt, gauge, Some(name), fault),
        _ => Ok(()),
    }
}

/// Returns the file that the manifest goes to, if it has one of its own.
fn manifest_file<'a>(given: &ExtractOptions<'a>) -> Option<&'a str>
    ensures { given.now.printed ≡ Manifest → result ≡ None }
{
    match given.printed {
        Printed::Manifest => None,
        Printed::Words(file) => file,
    }
}

/// Prints the end of a run to standard error, and explains it to a terminal and the log. Returns
/// the exit status.
fn report(
    rt: &HostRuntime,
    gauge: &Gauge<'_>,
    given: &ExtractOptions<'_>,
    told: &ToldOutcomes<'_>,
    run: &Result<Extracted, ExtractFault>,
    left: &LeftOut<'_>,
) -> io::Result<u8>
    ensures status { IfOk result (λ status. status ≡ report_status given.now told.now.bootstrap run.now left.now) }
{
    let is_nothing = shows_nothing(given, told, run, left);
    let ending = whole_ending(rt.alloc(), is_nothing, run, left)?;
    if let Err(fault) = run {
        let name = manifest_file(given).unwrap_or("standard output");
        tell_stream(rt, gauge, name, fault)?;
    }
    gauge.log_refusals(&ending.refusal);
    let status = ending.print(rt)?;
    say_unended(rt, gauge, given.target, left.end)?;
    match run {
        Ok(done) => say_done(rt, gauge, given.target, done, left.failed)?,
        Err(ExtractFault::Piece(fault)) if lacks_volumes(fault) => {
            say_volumes(rt, gauge, given.volumes, told)?
        }
        Err(_) => {}
    }
    tell_outcomes(rt, gauge, given.volumes, told)?;
    if let Ok(done) = run {
        let conflicts = done.left.len() as u64;
        advise(rt, gauge, given.wanted, &done.outcomes, conflicts, told)?;
        say_nowhere(gauge, given.target)?;
    }
    gauge.tell_end()?;
    Ok(status)
}

/// The reason why no restore began.
#[derive(Debug, Drop, Error)]
pub enum ExtractStartFault {
    /// The folder to deliver into was refused.
    #[error("{0}")]
    Folder(FolderFault),
    /// The file to write a tar stream into was refused.
    #[error("{0}")]
    Tar(TarFault),
    /// The file of the bootstrap can't be read, or memory ran out.
    #[error("{0}")]
    Io(io::Error),
    /// Something else than a file is in the place of the bootstrap.
    #[error("no regular file; - stands for standard input")]
    NoFile,
    /// The file of the bootstrap has no end.
    #[error("{0}")]
    Text(ExtractFault),
}

impl From<FolderFault> for ExtractStartFault {
    fn from(fault: FolderFault) -> ExtractStartFault {
        ExtractStartFault::Folder(fault)
    }
}

impl From<io::Error> for ExtractStartFault {
    fn from(fault: io::Error) -> ExtractStartFault {
        ExtractStartFault::Io(fault)
    }
}

impl From<ExtractFault> for ExtractStartFault {
    fn from(fault: ExtractFault) -> ExtractStartFault {
        match fault {
            ExtractFault::Memory => ExtractStartFault::from(AllocError),
            ExtractFault::Io(e) => ExtractStartFault::Io(e),
            fault => ExtractStartFault::Text(fault),
        }
    }
}

impl From<AllocError> for ExtractStartFault {
    fn from(_e: AllocError) -> ExtractStartFault {
        ExtractStartFault::Io(ErrorKind::OutOfMemory.into())
    }
}

/// The order of `extract`: the bootstrap, and what is wanted besides the plain restore.
#[derive(Drop)]
pub struct Extraction<'p> {
    pub(crate) bootstrap: BootstrapFile<'p>,
    pub(crate) wanted: Wanted,
}

impl<'p> Extraction<'p> {
    /// Returns the order with the bootstrap narrowed to what is left of the whole one.
    pub(crate) fn with_lost(
        self,
        alloc: Global,
        flags: Vec<bool>,
        narrowed: NarrowedBootstrap,
    ) -> Extraction<'p>
        requires { IfSome (whole_of self.bootstrap) (λ w. IsNarrowedBy flags.items w narrowed.left narrowed.missing.items) }
        ensures whole { whole_of result.bootstrap ≡ whole_of self.entry.bootstrap }
        ensures wanted { result.wanted ≡ self.entry.wanted }
    {
        Extraction {
            bootstrap: self.bootstrap.with_lost(alloc, flags, narrowed),
            wanted: self.wanted,
        }
    }
}

/// The order of `extract`, and its means of restoring.
type ExtractSetup<'r, 'p, S> = (Extraction<'p>, Restore<HostDrive<'r>, S>);

/// Makes what a restore into a folder, or without a target, needs before a drive is used. The
/// folder is tested (81) before the bootstrap is read. The files that are put are reported to the
/// gauge.
pub fn set_up_extract<'g, 'r, 'p>(
    rt: &'r HostRuntime,
    gauge: &'g Gauge<'r>,
    given: &ExtractOptions<'p>,
) -> Result<ExtractSetup<'r, 'p, LeavingSink<'g, 'r>>, ExtractStartFault>
    ensures bootstrap { IfOk result (λ setup. setup.0.bootstrap.path.now ≡ given.now.bsr.now) }
    ensures whole { given.now.printed ≡ Manifest → IfOk result (λ setup. setup.0.bootstrap.lost ≡ None) }
    ensures wanted { IfOk result (λ setup. setup.0.wanted ≡ given.now.wanted) }
    ensures memory { IfOk result (λ setup. setup.1.budget.room ≡ given.now.memory) }
    ensures into { IfOk result (λ setup. option_map (λ s. s.inner.inner.folder.path) setup.1.sink ≡ folder_asked given.now.target) }
    ensures start { IfOk result (λ setup. IfSome setup.1.sink (λ s. s.inner.inner.start ≡ given.now.start)) }
    ensures stops { IfOk result (λ setup. IfSome setup.1.sink (λ s. s.stops ≡ given.now.wanted.stops)) }
    ensures drives { IfOk result (λ setup. length setup.1.drives.items ≡ given.now.drives) }
    ensures volumes { IfOk result (λ setup. AreOver given.now.volumes.now setup.1.drives.items) }
{
    let into = folder_of(given.target);
    let sink = leaving_over(
        rt,
        gauge,
        given.wanted.stops,
        given.start,
        given.syncs,
        into,
    )?;
    set_up_over(rt, gauge, given, sink)
}

/// Reads the bootstrap. If words are printed, so by `restore`, leaves out what is lost with volumes
/// that can't be read.
fn bootstrap_for<'p>(
    rt: &HostRuntime,
    gauge: &Gauge<'_>,
    given: &ExtractOptions<'p>,
) -> Result<BootstrapFile<'p>, ExtractStartFault>
    ensures path { IfOk result (λ file. file.path.now ≡ given.now.bsr.now) }
    ensures whole { given.now.printed ≡ Manifest → IfOk result (λ file. file.lost ≡ None) }
{
    let file = BootstrapFile::read(rt, given.bsr)?;
    match given.printed {
        Printed::Manifest => Ok(file),
        Printed::Words(_) => Ok(file.without_lost(rt, gauge, given.volumes)?),
    }
}

/// Makes the rest of what a restore needs before a drive is used, besides the sink.
fn set_up_over<'r, 'p, S: Drop>(
    rt: &'r HostRuntime,
    gauge: &Gauge<'_>,
    given: &ExtractOptions<'p>,
    sink: Option<S>,
) -> Result<ExtractSetup<'r, 'p, S>, ExtractStartFault>
    ensures bootstrap { IfOk result (λ setup. setup.0.bootstrap.path.now ≡ given.now.bsr.now) }
    ensures wanted { IfOk result (λ setup. setup.0.wanted ≡ given.now.wanted) }
    ensures memory { IfOk result (λ setup. setup.1.budget.room ≡ given.now.memory) }
    ensures sink { IfOk result (λ setup. setup.1.sink ≡ sink) }
    ensures whole { given.now.printed ≡ Manifest → IfOk result (λ setup. setup.0.bootstrap.lost ≡ None) }
    ensures drives { IfOk result (λ setup. length setup.1.drives.items ≡ given.now.drives) }
    ensures volumes { IfOk result (λ setup. AreOver given.now.volumes.now setup.1.drives.items) }
{
    let bootstrap = bootstrap_for(rt, gauge, given)?;
    let restore = restore_over(rt, given.volumes, given.drives, given.memory, sink)?;
    let extraction = Extraction {
        bootstrap,
        wanted: given.wanted,
    };
    Ok((extraction, restore))
}

/// Prints why no restore began to standard error. Returns the exit status.
pub(crate) fn refuse(rt: &HostRuntime, bsr: &str, fault: ExtractStartFault) -> io::Result<u8>
    ensures { IfOk result (λ status. status ≡ start_status fault) }
{
    match fault {
        ExtractStartFault::Folder(fault) => refuse_start(rt, fault.number()),
        ExtractStartFault::Tar(fault) => refuse_start(rt, fault.number()),
        ExtractStartFault::Io(e) if e.kind() == ErrorKind::OutOfMemory => Err(e),
        fault => {
            eprintln!(rt; "brestore: {bsr}: {fault}")?;
            Ok(BAD_STREAM)
        }
    }
}

/// Prints why no restore began to standard error, and explains it to a terminal and the log.
/// Returns the exit status.
fn refuse_told(
    rt: &HostRuntime,
    gauge: &Gauge<'_>,
    given: &ExtractOptions<'_>,
    fault: ExtractStartFault,
) -> io::Result<u8>
    ensures { IfOk result (λ status. status ≡ start_status fault) }
{
    match fault {
        ExtractStartFault::Folder(fault) => {
            refuse_place(rt, gauge, given.target, fault.number())
        }
        ExtractStartFault::Tar(fault) => refuse_place(rt, gauge, given.target, fault.number()),
        fault => {
            log_fault(rt, gauge, Some(given.bsr), &fault)?;
            refuse(rt, given.bsr, fault)
        }
    }
}

/// Restores. The manifest goes to the writer; then the wanted files go into the sink, if there is
/// one. If the text of the bootstrap is refused, nothing is read.
pub fn extract_over<D: Drive + Send, W: Flush, S: Sink>(
    threads: &(impl Threads + Wait + Sync),
    extraction: &Extraction<'_>,
    restore: &mut Restore<D, S>,
    writer: &mut W,
) -> Result<Extracted, ExtractFault>
    requires drives { AreDrives restore.old.drives.items }
    ensures extracts { ExtractsTo extraction.now (change D.Drive W.Write S.Sink (restore.old, writer.old) (restore.new, writer.new)) result }
    ensures wanted { AreWantedTo extraction.now (change D.Drive W.Write S.Sink (restore.old, writer.old) (restore.new, writer.new)) result }
    ensures outcomes { TellsDelivered (change D.Drive W.Write S.Sink (restore.old, writer.old) (restore.new, writer.new)) result }
    ensures stopped_at { TellsStop result }
    ensures many { length restore.new.drives.items ≡ length restore.old.drives.items }
    ensures flushed { IfOk result (λ _. W.is_flushed writer.new) }
{
    match &extraction.bootstrap.read {
        Ok(read) => {
            let order = RestoreOrder {
                asked: read.counted(),
                names: None,
                wanted: extraction.wanted,
            };
            restore.run(threads, order, writer)
        }
        Err(fault) => Err(ExtractFault::Bootstrap(*fault)),
    }
}

/// Returns the number of wanted files that a run put into its sink.
fn extent_of(run: &Result<Extracted, ExtractFault>) -> PutExtent
    ensures { result ≡ extent run.now }
{
    match run {
        Ok(
            Extracted {
                end: RestoreEnd::AllFiles | RestoreEnd::SomeFaults,
                ..
            },
        ) => PutExtent::All,
        _ => PutExtent::Part,
    }
}

/// Restores into the tar stream of a sink, and ends the stream if all files were put. The manifest goes
/// to the writer before. Returns also what was restored.
fn extract_stream<'p, D: Drive + Send, W: Flush, T: Settle + Drop>(
    threads: &(impl Threads + Wait + Sync),
    watch: (&HostRuntime, &Gauge<'_>),
    printed: Printed<'_>,
    asked: Extraction<'p>,
    restore: &mut Restore<D, WatchedSink<'_, '_, TarSink<T>>>,
    writer: &mut W,
) -> io::Result<(Extraction<'p>, Streamed<Result<Extracted, ExtractFault>, T>)>
    requires drives { AreDrives restore.old.drives.items }
    requires sink { IsSome restore.old.sink }
    ensures streams { IfOk result (λ done. StreamsTo D.Drive W.Write T.contents done.0 (restore.old, writer.old) (restore.new, writer.new) done.1) }
    ensures whole { IfOk result (λ done. whole_of done.0.bootstrap ≡ whole_of asked.entry.bootstrap) }
    ensures wanted { IfOk result (λ done. done.0.wanted ≡ asked.entry.wanted) }
    ensures stopped_at { IfOk result (λ done. TellsStop done.1.run) }
    ensures flushed { IfOk result (λ done. IfOk done.1.run (λ _. W.is_flushed writer.new)) }
    ensures shown { IfOk result (λ done. IfSome done.1.writer (λ w. IsShown (T.is_flushed w) done.1.end)) }
    ensures settled { IfOk result (λ done. IfSome done.1.writer (λ w. IsShown (T.is_settled w) done.1.end)) }
{
    let (extraction, run) = extract_left(threads, watch, printed, asked, restore, writer)?;
    let (writer, end) = end_stream(restore.sink.take(), extent_of(&run));
    Ok((extraction, Streamed { run, end, writer }))
}

/// Prints what else is in the folder of a resumed restore, if the restore wrote its manifest.
fn name_others(
    rt: &HostRuntime,
    gauge: &Gauge<'_>,
    given: &ExtractOptions<'_>,
    run: &Result<Extracted, ExtractFault>,
) -> io::Result<()> {
    match (given.start, given.target, run) {
        (Start::Resumed, Target::Folder(folder), Ok(done)) => {
            tell_others(rt, gauge, folder, &done.outcomes)
        }
        _ => Ok(()),
    }
}

/// Reports to the gauge what is to be read, if there is a bootstrap.
pub(crate) fn expect(gauge: &Gauge<'_>, bootstrap: Option<&Bootstrap>) {
    if let Some(bootstrap) = bootstrap {
        gauge.expect_volumes(bootstrap);
    }
}

/// Restores into a folder, or only writes the manifest if there is none. The manifest goes to this
/// output.
fn extract_into<'r, M: TextOutput + Drop>(
    rt: &'r HostRuntime,
    threads: &(impl Threads + Wait + Sync),
    gauge: &'r Gauge<'r>,
    given: &ExtractOptions<'_>,
    manifest: M,
) -> io::Result<u8>
    requires few { AreFew given.now.drives }
    requires asked { stream_asked given.now.target ≡ None }
    requires printed { M.place ≡ manifest_place given.now.printed given.now.target }
{
    let writer = BufWriter::new(rt.alloc(), manifest)?;
    let (extraction, restore) = match set_up_extract(rt, gauge, given) {
        Ok(setup) => setup,
        Err(fault) => return refuse_told(rt, gauge, given, fault),
    };
    let mut restore = with_watched_drives(restore, gauge)?;
    let mut writer = WatchedWriter::new(writer, gauge);
    run_into(
        threads,
        (rt, gauge),
        given,
        extraction,
        &mut restore,
        &mut writer,
    )
}

/// Runs a restore into a folder or nowhere, and reports its end. Returns the exit status.
fn run_into<M: TextOutput + Drop>(
    threads: &(impl Threads + Wait + Sync),
    watch: (&HostRuntime, &Gauge<'_>),
    given: &ExtractOptions<'_>,
    asked: Extraction<'_>,
    restore: &mut Restore<WatchedDrive<'_, '_, HostDrive<'_>>, LeavingSink<'_, '_>>,
    writer: &mut WatchedWriter<'_, '_, BufWriter<M>>,
) -> io::Result<u8>
    requires drives { AreDrives restore.old.drives.items }
{
    let (rt, gauge) = watch;
    expect(gauge, asked.bootstrap.bootstrap());
    let (extraction, run) = extract_left(threads, watch, given.printed, asked, restore, writer)?;
    gauge.clear();
    name_others(rt, gauge, given, &run)?;
    let told = ToldOutcomes::by(writer, extraction.bootstrap.bootstrap());
    let left = LeftOut {
        failed: left_out(&restore.sink),
        lost: extraction.bootstrap.lost(),
        end: None,
    };
    let status = report(rt, gauge, given, &told, &run, &left)?;
    let manifest = writer.inner.get_mut();
    end_manifest(rt, gauge, manifest_file(given), manifest, status)
}

/// Restores into the tar stream of a sink. The manifest goes to this output, which is not standard
/// output if the stream goes there.
fn extract_onto<'r, T: Channel + Drop, M: TextOutput + Drop>(
    rt: &'r HostRuntime,
    threads: &(impl Threads + Wait + Sync),
    gauge: &'r Gauge<'r>,
    given: &ExtractOptions<'_>,
    sink: TarSink<BufWriter<T>>,
    manifest: M,
) -> io::Result<u8>
    requires few { AreFew given.now.drives }
    requires asked { stream_asked given.now.target ≡ Some T.is_output }
    requires printed { M.place ≡ manifest_place given.now.printed given.now.target }
{
    let writer = BufWriter::new(rt.alloc(), manifest)?;
    let (extraction, restore) = match set_up_over(rt, gauge, given, Some(sink)) {
        Ok(setup) => setup,
        Err(fault) => return refuse_told(rt, gauge, given, fault),
    };
    let mut restore = with_watched_sink(with_watched_drives(restore, gauge)?, gauge);
    let mut writer = WatchedWriter::new(writer, gauge);
    run_onto(
        threads,
        (rt, gauge),
        given,
        extraction,
        &mut restore,
        &mut writer,
    )
}

/// Runs a restore into the tar stream of a sink, and reports its end. Returns the exit status.
fn run_onto<T: Channel + Drop, M: TextOutput + Drop>(
    threads: &(impl Threads + Wait + Sync),
    watch: (&HostRuntime, &Gauge<'_>),
    given: &ExtractOptions<'_>,
    asked: Extraction<'_>,
    restore: &mut Restore<
        WatchedDrive<'_, '_, HostDrive<'_>>,
        WatchedSink<'_, '_, TarSink<BufWriter<T>>>,
    >,
    writer: &mut WatchedWriter<'_, '_, BufWriter<M>>,
) -> io::Result<u8>
    requires drives { AreDrives restore.old.drives.items }
    requires sink { IsSome restore.old.sink }
{
    let (rt, gauge) = watch;
    expect(gauge, asked.bootstrap.bootstrap());
    let (extraction, stream) = extract_stream(
        threads,
        watch,
        given.printed,
        asked,
        restore,
        writer,
    )?;
    gauge.clear();
    let told = ToldOutcomes::by(writer, extraction.bootstrap.bootstrap());
    let left = LeftOut {
        failed: &[],
        lost: extraction.bootstrap.lost(),
        end: Some(stream.end),
    };
    let status = report(rt, gauge, given, &told, &stream.run, &left)?;
    let manifest = writer.inner.get_mut();
    end_manifest(rt, gauge, manifest_file(given), manifest, status)
}

/// Restores by the bootstrap in a file over the volumes in a folder. The manifest goes to standard
/// output, and refusals to standard error. Then the restored files are put into their target: a
/// folder, or a tar stream in a file or on standard output. In the last case the manifest goes to
/// standard error. What becomes of the files is reported in words to a terminal, and to a log if
/// one is given. If words are to be printed, they go to standard error wherever that is, and the
/// manifest goes to its file or nowhere.
///
/// A folder has to exist and be empty unless the restore is resumed, and a file must not exist;
/// else the target is refused (81) before anything is read. The file of a manifest is opened before
/// that. The manifest is written before any file is put.
///
/// Returns the exit status: 0 if nothing was refused and each outcome is a file; 1 if something was
/// refused, left out or is reported as missing, or some outcome is not a file; 3 if the bootstrap could not
/// be read, or the log or the manifest could not be written.
///
/// # Errors
///
/// If memory ran out or standard error failed.
pub fn extract_files(
    rt: &HostRuntime,
    threads: &(impl Threads + Wait + Sync),
    given: &ExtractOptions<'_>,
) -> io::Result<u8>
    requires few { AreFew given.now.drives }
{
    match gauge_of(rt, given.volumes, given.target, given.progress, given.log) {
        Ok(gauge) => {
            let gauge = gauge.with_words(matches!(given.printed, Printed::Words(_)));
            let status = match (given.printed, given.target) {
                (Printed::Manifest, Target::TarOutput) => {
                    extract_to(rt, threads, &gauge, given, rt.stderr())?
                }
                (Printed::Manifest, _) => {
                    extract_to(rt, threads, &gauge, given, io::writer(rt))?
                }
                (Printed::Words(None), _) => extract_to(rt, threads, &gauge, given, io::sink())?,
                (Printed::Words(Some(path)), _) => match open_manifest(rt, path) {
                    Ok(file) => extract_to(rt, threads, &gauge, given, file)?,
                    Err(error) => refuse_manifest(rt, &gauge, Some(path), error)?,
                },
            };
            gauge.end_log(status)
        }
        Err(error) => refuse_log(rt, given.log, error),
    }
}

/// Restores into the target, with the manifest to this output.
fn extract_to<M: TextOutput + Drop>(
    rt: &HostRuntime,
    threads: &(impl Threads + Wait + Sync),
    gauge: &Gauge<'_>,
    given: &ExtractOptions<'_>,
    manifest: M,
) -> io::Result<u8>
    requires few { AreFew given.now.drives }
    requires printed { M.place ≡ manifest_place given.now.printed given.now.target }
{
    match given.target {
        Target::Nowhere => extract_into(rt, threads, gauge, given, manifest),
        Target::Folder(_) => extract_into(rt, threads, gauge, given, manifest),
        Target::TarFile(path) => match tar_into(rt, path) {
            Ok(sink) => extract_onto(rt, threads, gauge, given, sink, manifest),
            Err(fault) => refuse_told(rt, gauge, given, ExtractStartFault::Tar(fault)),
        },
        Target::TarOutput => match tar_output(rt) {
            Ok(sink) => extract_onto(rt, threads, gauge, given, sink, manifest),
            Err(fault) => refuse_told(rt, gauge, given, ExtractStartFault::Tar(fault)),
        },
    }
}
