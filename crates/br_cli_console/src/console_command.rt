//! The command `console`, and `restore` by a catalogue.
ghost use Rattle.std.specs.Prelude.{◌≡◌, ◌++◌, length, option_map, None, Some, Ok, IfOk, IfSome, IsSome, OnOk};
ghost use Rattle.br_model.specs.Answer.{Answers};
ghost use Rattle.br_cli_common.specs.Options.{AreFew};
ghost use Rattle.br_pool.specs.Pool.{AreDrives};
ghost use Rattle.br_plan.specs.RequestWords.{cause};
ghost use Rattle.br_volume.specs.HostDrives.{AreOver};
ghost use Rattle.br_cli_console.specs.SessionJobs.{AreJobsOf, request_asked};
ghost use Rattle.br_cli_target.specs.AskedTarget.{folder_asked, stream_asked};
ghost use Rattle.br_cli_console.specs.ConsoleCommandEnding.{end_line, end_status, extent, extent_by, lines_status, put_extent, run_refusal, run_status, status_by};
ghost use Rattle.br_cli_console.specs.ConsoleStarting.{start_number};
ghost use Rattle.br_cli_target.specs.TarEnding.{IsShown};
ghost use Rattle.br_cli_target.specs.TextPlaces.{answers_place};
ghost use Rattle.br_cli_console.specs.ConsoleTasks.{IsInputOf, RunsLast, Streams, tar};
ghost use Rattle.br_cli_console.specs.declared.console_command.ConsoleStartFault.TheVariants as start;

use crate::left_session::run_left;
use crate::pattern_marks::prepare_patterns;
use crate::session_manifest::{
    ManifestFile, Outputs, SessionInput, end_file, manifest_at, told_by, watched_outputs,
};
use br_cli_common::{
    BAD_STREAM, CLEAN, ConsoleOptions, Marks, Prompted, REFUSED, Target, is_attended, with_prompt,
};
use br_cli_listing::{ChosenFiles, Helped, NamesWriter, jobs_in, tell_chosen, with_help};
use br_cli_progress::{Gauge, WatchedDrive, WatchedSink, WatchedWriter};
use br_cli_target::{
    Channel, Ending, LeavingSink, PutExtent, Settle, Streamed, TarEnd, TarFault, TextOutput,
    ToldOutcomes, add_tar_end, end_stream, folder_of, gauge_of, is_whole, lacks_volumes,
    leaving_over, left_out, log_fault, refuse_log, refuse_manifest, refuse_place, restore_over,
    say_conflicts, say_files, say_nowhere, say_stop, say_unended, say_volumes, tar_into,
    tar_output, tell_others, tell_outcomes, with_watched_drives, with_watched_sink,
};
use br_console::{ConsoleFault, ConsoleRun, End, LineVerdict};
use br_engine::{Restore, RestoreEnd};
use br_history::History;
use br_keeper::{Catalogue, CatalogueFault};
use br_plan::{JobSelection, Request, RequestFault, read_request};
use br_sink::Flush;
use br_sink_folder::FolderFault;
use br_sink_tar::TarSink;
use br_types::{Path, Start, Wanted};
use br_volume::{Drive, HostDrive};
use std::alloc::{AllocError, Global};
use std::fs::File;
use std::io::{self, BufRead, BufReader, BufWriter, IsTerminal, Printer, StdinLock};
use std::sync::Wait;
use std::thread::Threads;
use thiserror::Error;

/// The text for an operator at a terminal before the first line.
const GREETING: &str =
    "Mark files with `mark NAME`, or all with `mark *`. `ls` lists, `cd NAME` goes
into a folder. `done` restores what is marked, and `quit` restores nothing.
`help` lists all commands.";

/// Returns the exit status of lines.
fn lines_status(lines: LineVerdict) -> u8
    ensures { result ≡ lines_status lines }
{
    match lines {
        LineVerdict::AllAccepted => CLEAN,
        LineVerdict::SomeRefused => REFUSED,
    }
}

/// Returns the exit status of a restore that left nothing out, after these lines.
fn end_status(lines: LineVerdict, end: &RestoreEnd) -> u8
    ensures { result ≡ end_status lines end.now }
{
    match end {
        RestoreEnd::AllFiles => lines_status(lines),
        RestoreEnd::SomeFaults | RestoreEnd::Stopped(_) => REFUSED,
    }
}

/// Returns the exit status of a run that was not refused.
fn status_of(run: &ConsoleRun, failed: &[Path]) -> u8
    ensures { result ≡ status_by run.now.lines run.now.end failed.now }
{
    match &run.end {
        End::Quit => lines_status(run.lines),
        End::Done(done) if is_whole(done, failed) => end_status(run.lines, &done.end),
        End::Done(_) => REFUSED,
    }
}

/// Appends the lines of what is missing or left out, and of a delivery that stopped.
fn push_end(text: &mut Vec<u8>, run: &ConsoleRun, failed: &[Path]) -> Result<(), AllocError>
    ensures { OnOk result (text.new.items ≡ text.old.items ++ end_line run.now.end failed.now) }
{
    match &run.end {
        End::Quit => Ok(()),
        End::Done(done) => done.push_lines(failed, text),
    }
}

/// Returns the exit status and the lines of what is missing, left out or refused for this result,
/// after a warning or without one. `failed` are the paths of the files at which the sink failed and
/// which are left out.
pub fn console_ending(
    alloc: Global,
    run: &Result<ConsoleRun, ConsoleFault>,
    is_warned: bool,
    failed: &[Path],
) -> Result<Ending, AllocError>
    ensures status { IfOk result (λ ending. ending.status ≡ run_status is_warned run.now failed.now) }
    ensures refusal { IfOk result (λ ending. ending.refusal.items ≡ run_refusal run.now failed.now) }
{
    let mut refusal = Vec::new(alloc);
    let status = match run {
        Ok(run) => {
            push_end(&mut refusal, run, failed)?;
            if is_warned {
                REFUSED
            } else {
                status_of(run, failed)
            }
        }
        Err(ConsoleFault::Io(_) | ConsoleFault::NoEnd(_)) => BAD_STREAM,
        Err(fault) => {
            fault.push_line(&mut refusal)?;
            REFUSED
        }
    };
    Ok(Ending { status, refusal })
}

/// Returns the streams of a session, with the file of its manifest if there is one. By patterns it uses
/// that file alone.
fn streams_of(rt: &HostRuntime, given: &ConsoleOptions<'_>) -> Result<String, AllocError> {
    match (&given.marks, given.manifest) {
        (Marks::Patterns(_), Some(path)) => String::from_str(rt.alloc(), path),
        (Marks::Lines, Some(path)) => {
            format!(in rt.alloc(); "standard input or output, or {path}")
        }
        (_, None) => String::from_str(rt.alloc(), "standard input or output"),
    }
}

/// Prints to standard error that a stream failed, if one did, and appends it to the log.
fn tell_stream(
    rt: &HostRuntime,
    gauge: &Gauge<'_>,
    given: &ConsoleOptions<'_>,
    fault: &ConsoleFault,
) -> io::Result<()> {
    let streams = streams_of(rt, given)?;
    let name = streams.as_str();
    match fault {
        ConsoleFault::Io(e) => eprintln!(rt; "brestore: {name}: {e}")?,
        ConsoleFault::NoEnd(e) => eprintln!(rt; "brestore: {name}: {e}")?,
        _ => return Ok(()),
    }
    log_fault(rt, gauge, Some(name), fault)
}

/// Reports to a terminal, unless it is to be quiet, that nothing was restored.
fn say_quit(gauge: &Gauge<'_>) -> io::Result<()> {
    if gauge.is_shown() {
        return gauge.say("nothing was restored. `done` restores what is marked.");
    }
    Ok(())
}

/// Reports to a terminal and the log why files are left out and why the delivery stopped, or that
/// nothing was written. `failed` are the paths of the files at which the sink failed.
fn say_end(
    rt: &HostRuntime,
    gauge: &Gauge<'_>,
    target: Target<'_>,
    end: &End,
    failed: &[Path],
) -> io::Result<()> {
    match end {
        End::Quit => say_quit(gauge),
        End::Done(done) => {
            say_conflicts(rt, gauge, &done.left)?;
            say_files(rt, gauge, target, failed)?;
            say_stop(rt, gauge, target, &done.end, done.stopped_at.as_ref())?;
            say_nowhere(gauge, target)
        }
    }
}

/// Prints the end of a run to standard error, and explains it to a terminal and the log. The ending
/// contains the other refusals. If there was a stream, `noted` has its end. Returns the exit status.
fn report(
    rt: &HostRuntime,
    gauge: &Gauge<'_>,
    given: &ConsoleOptions<'_>,
    noted: (&ToldOutcomes<'_>, &[Path], Option<TarEnd>),
    run: &Result<ConsoleRun, ConsoleFault>,
    ending: &Ending,
) -> io::Result<u8>
    ensures { IfOk result (λ status. status ≡ ending.now.status) }
{
    let (told, failed, end) = noted;
    if let Err(fault) = run {
        tell_stream(rt, gauge, given, fault)?;
    }
    gauge.log_refusals(&ending.refusal);
    let status = ending.print(rt)?;
    say_unended(rt, gauge, given.target, end)?;
    match run {
        Ok(run) => say_end(rt, gauge, given.target, &run.end, failed)?,
        Err(ConsoleFault::Piece(fault)) if lacks_volumes(fault) => {
            say_volumes(rt, gauge, given.volumes, told)?
        }
        Err(_) => {}
    }
    tell_outcomes(rt, gauge, given.volumes, told)?;
    gauge.tell_end()?;
    Ok(status)
}

/// The reason why no session began.
#[derive(Debug, Drop, Error)]
pub enum ConsoleStartFault {
    #[error("out of memory")]
    Memory,
    /// Client, file set or moment were refused.
    #[error("{0}")]
    Request(RequestFault),
    /// The folder to deliver into was refused.
    #[error("{0}")]
    Folder(FolderFault),
    /// The file to write a tar stream into was refused.
    #[error("{0}")]
    Tar(TarFault),
    /// The catalogue was refused.
    #[error("{0}")]
    Catalogue(CatalogueFault),
}

impl From<RequestFault> for ConsoleStartFault {
    ghost from_gives = { λ fault e. e ≡ start.Request fault };

    fn from(fault: RequestFault) -> ConsoleStartFault {
        ConsoleStartFault::Request(fault)
    }
}

impl From<FolderFault> for ConsoleStartFault {
    ghost from_gives = { λ fault e. e ≡ start.Folder fault };

    fn from(fault: FolderFault) -> ConsoleStartFault {
        ConsoleStartFault::Folder(fault)
    }
}

impl From<TarFault> for ConsoleStartFault {
    ghost from_gives = { λ fault e. e ≡ start.Tar fault };

    fn from(fault: TarFault) -> ConsoleStartFault {
        ConsoleStartFault::Tar(fault)
    }
}

impl From<CatalogueFault> for ConsoleStartFault {
    ghost from_gives = { λ fault e. e ≡ start.Catalogue fault };

    fn from(fault: CatalogueFault) -> ConsoleStartFault {
        ConsoleStartFault::Catalogue(fault)
    }
}

impl From<AllocError> for ConsoleStartFault {
    ghost from_gives = { λ _ e. e ≡ start.Memory };

    fn from(_e: AllocError) -> ConsoleStartFault {
        ConsoleStartFault::Memory
    }
}

impl ConsoleStartFault {
    /// Returns the number of the refusal: 1 out of memory, 2 client or file set, 52 the moment, 81 the
    /// folder or the file of a tar stream, 45 and 47 the catalogue.
    pub fn number(&self) -> u32
        ensures { result ≡ start_number self.now }
    {
        match self {
            ConsoleStartFault::Memory => 1,
            ConsoleStartFault::Request(fault) => fault.number(),
            ConsoleStartFault::Folder(fault) => fault.number(),
            ConsoleStartFault::Tar(fault) => fault.number(),
            ConsoleStartFault::Catalogue(fault) => fault.number(),
        }
    }
}

/// The jobs of a catalogue, which of them to choose, and what is wanted besides the plain restore.
#[derive(Drop)]
pub struct ConsoleJobs {
    history: History,
    request: Request,
    wanted: Wanted,
}

impl ConsoleJobs {
    /// Chooses the jobs that a session is over.
    fn selection(&self, alloc: Global) -> JobSelection<'_>
        ensures history { result.history ≡ self.now.history }
        ensures request { result.request ≡ self.now.request }
    {
        JobSelection::new(alloc, &self.history, &self.request)
    }
}

/// The jobs and the request of a session, and its means of restoring.
type ConsoleSetup<'r, S> = (ConsoleJobs, Restore<HostDrive<'r>, S>);

/// Reads the client, the file set and the moment that were given.
fn request_of(alloc: Global, given: &ConsoleOptions<'_>) -> Result<Request, RequestFault>
    ensures asked { Answers (λ request. request) cause result (request_asked given.now) }
{
    read_request(alloc, given.client, given.fileset, given.before)
}

/// Makes what a session into a folder, or without a target, needs before it reads a line. Client
/// and file set (2), moment (52), the folder (81), and the catalogue (45, 47) are tested in this
/// order. The files that are put are reported to the gauge.
pub fn set_up_console<'g, 'r, C: Catalogue>(
    rt: &'r HostRuntime,
    catalogue: &C,
    gauge: &'g Gauge<'r>,
    given: &ConsoleOptions<'_>,
) -> Result<ConsoleSetup<'r, LeavingSink<'g, 'r>>, ConsoleStartFault>
    ensures asked { IfOk result (λ setup. request_asked given.now ≡ Ok setup.0.request) }
    ensures wanted { IfOk result (λ setup. setup.0.wanted ≡ given.now.wanted) }
    ensures into { IfOk result (λ setup. option_map (λ s. s.inner.inner.folder.path) setup.1.sink ≡ folder_asked given.now.target) }
    ensures start { IfOk result (λ setup. IfSome setup.1.sink (λ s. s.inner.inner.start ≡ given.now.start)) }
    ensures stops { IfOk result (λ setup. IfSome setup.1.sink (λ s. s.stops ≡ given.now.wanted.stops)) }
    ensures jobs { IfOk result (λ setup. AreJobsOf (C.jobs_at catalogue.now given.now.db.now) given.now.file_rows setup.0) }
    ensures memory { IfOk result (λ setup. setup.1.budget.room ≡ given.now.memory) }
    ensures drives { IfOk result (λ setup. length setup.1.drives.items ≡ given.now.drives) }
    ensures volumes { IfOk result (λ setup. AreOver given.now.volumes.now setup.1.drives.items) }
{
    let request = request_of(rt.alloc(), given)?;
    let into = folder_of(given.target);
    let sink = leaving_over(
        rt,
        gauge,
        given.wanted.stops,
        given.start,
        given.syncs,
        into,
    )?;
    set_up_over(rt, catalogue, given, request, sink)
}

/// Makes the rest of what a session needs before it reads a line, besides the request and the sink.
fn set_up_over<'r, C: Catalogue, S: Drop>(
    rt: &'r HostRuntime,
    catalogue: &C,
    given: &ConsoleOptions<'_>,
    request: Request,
    sink: Option<S>,
) -> Result<ConsoleSetup<'r, S>, ConsoleStartFault>
    ensures request { IfOk result (λ setup. setup.0.request ≡ request) }
    ensures wanted { IfOk result (λ setup. setup.0.wanted ≡ given.now.wanted) }
    ensures sink { IfOk result (λ setup. setup.1.sink ≡ sink) }
    ensures jobs { IfOk result (λ setup. AreJobsOf (C.jobs_at catalogue.now given.now.db.now) given.now.file_rows setup.0) }
    ensures memory { IfOk result (λ setup. setup.1.budget.room ≡ given.now.memory) }
    ensures drives { IfOk result (λ setup. length setup.1.drives.items ≡ given.now.drives) }
    ensures volumes { IfOk result (λ setup. AreOver given.now.volumes.now setup.1.drives.items) }
{
    let needs = ChosenFiles { request: &request };
    let history = jobs_in(rt, catalogue, given.db, given.file_rows, &needs)?;
    let restore = restore_over(rt, given.volumes, given.drives, given.memory, sink)?;
    let jobs = ConsoleJobs {
        history,
        request,
        wanted: given.wanted,
    };
    Ok((jobs, restore))
}

/// Returns the number of marked files that a run put into its sink.
fn extent_of(run: &Result<ConsoleRun, ConsoleFault>) -> PutExtent
    ensures { result ≡ extent run.now }
{
    match run {
        Ok(run) => extent_by(&run.end),
        Err(_) => PutExtent::Part,
    }
}

/// Returns the same from the end of a session. A session that was quit has no files to put.
fn extent_by(end: &End) -> PutExtent
    ensures { result ≡ extent_by end.now }
{
    match end {
        End::Quit => PutExtent::All,
        End::Done(done) => put_extent(&done.end),
    }
}

/// Returns the same from the end of a restore.
fn put_extent(end: &RestoreEnd) -> PutExtent
    ensures { result ≡ put_extent end.now }
{
    match end {
        RestoreEnd::AllFiles | RestoreEnd::SomeFaults => PutExtent::All,
        RestoreEnd::Stopped(_) => PutExtent::Part,
    }
}

/// Runs a session whose sink writes a tar stream, and ends the stream if all files were put.
fn console_stream<
    R: BufRead + Drop,
    D: Drive + Send,
    W: Flush + Drop,
    M: Flush + Drop,
    T: Settle + Drop,
>(
    threads: &(impl Threads + Wait + Sync),
    task: (&HostRuntime, &Gauge<'_>, &Marks<'_>),
    order: (&JobSelection<'_>, Wanted),
    restore: &mut Restore<D, WatchedSink<'_, '_, TarSink<T>>>,
    first: (SessionInput<R>, Vec<bool>),
    out: &mut Outputs<W, M>,
) -> io::Result<Streamed<Result<ConsoleRun, ConsoleFault>, T>>
    requires drives { AreDrives restore.old.drives.items }
    requires shown { W.is_flushed out.old.answers }
    requires fresh { IfSome out.old.manifest M.is_flushed }
    requires sink { IsSome restore.old.sink }
    ensures streams { IfOk result (Streams (RunsLast R.remaining order.entry (task.entry.2.now, first.0))
        (tar D.Drive W.Write M.Write (restore.old, out.old) (restore.new, out.new)) T.contents) }
    ensures flushed { IfOk result (λ s. OnOk s.run (W.is_flushed out.new.answers)) }
    ensures apart { IfOk result (λ s. OnOk s.run (IfSome out.new.manifest M.is_flushed)) }
    ensures shown { IfOk result (λ s. IfSome s.writer (λ w. IsShown (T.is_flushed w) s.end)) }
{
    let run = run_left(threads, task, order, restore, first, out)?;
    let (writer, end) = end_stream(restore.sink.take(), extent_of(&run));
    Ok(Streamed { run, end, writer })
}

/// Returns a writer of answers to this output. It shows names as they are if a terminal shows them.
fn answers_to<A: TextOutput + Drop>(
    rt: &HostRuntime,
    output: A,
    is_shown: bool,
) -> io::Result<NamesWriter<BufWriter<A>>> {
    let writer = BufWriter::new(rt.alloc(), output)?;
    Ok(NamesWriter::new(rt.alloc(), writer, is_shown))
}

/// Returns the lines of standard input, with a prompt before each and with answers to `help` and `dir` if an
/// operator attends to it.
fn lines_of<'a, 'j, 'r>(
    rt: &'r HostRuntime,
    asked: &'a JobSelection<'j>,
) -> io::Result<BufReader<Helped<'a, 'j, 'r, Prompted<'r, StdinLock<'r>>>>> {
    let input = with_prompt(rt, GREETING, rt.reader());
    Ok(BufReader::new(rt.alloc(), with_help(rt, asked, input))?)
}

/// The watched writer of the answers of a session to an output.
type SessionAnswers<'g, 'r, A> = WatchedWriter<'g, 'r, NamesWriter<BufWriter<A>>>;

/// What a session runs on whose lines come from standard input.
type HostInput<'a, 'j, 'r> = SessionInput<
    BufReader<Helped<'a, 'j, 'r, Prompted<'r, StdinLock<'r>>>>,
>;

/// Returns what a session by the marks that were given runs on: the lines of standard input; or the
/// plan for the paths that patterns mark, whose bootstrap goes to the writer of the answers. Returns
/// also the flags of the groups that are lost.
fn input_of<'a, 'j, 'r, A: TextOutput + Drop>(
    watch: (&'r HostRuntime, &Gauge<'_>),
    asked: &'a JobSelection<'j>,
    given: &ConsoleOptions<'_>,
    answers: &mut SessionAnswers<'_, '_, A>,
) -> io::Result<(HostInput<'a, 'j, 'r>, Vec<bool>)>
    ensures marks { IfOk result (λ input. IsInputOf asked.now given.now.marks input.0) }
{
    let (rt, gauge) = watch;
    match &given.marks {
        Marks::Lines => Ok((
            SessionInput::Lines(lines_of(rt, asked)?),
            Vec::new(rt.alloc()),
        )),
        Marks::Patterns(patterns) => {
            let volumes = given.volumes;
            let (prepared, lost) = prepare_patterns(rt, gauge, asked, volumes, patterns, answers)?;
            Ok((SessionInput::Prepared(prepared), lost))
        }
    }
}

/// Prints what else is in the folder of a resumed restore, if the session restored something.
fn name_others(
    rt: &HostRuntime,
    gauge: &Gauge<'_>,
    given: &ConsoleOptions<'_>,
    run: &Result<ConsoleRun, ConsoleFault>,
) -> io::Result<()> {
    let (Start::Resumed, Target::Folder(folder), Ok(run)) = (given.start, given.target, run) else {
        return Ok(());
    };
    match &run.end {
        End::Done(done) => tell_others(rt, gauge, folder, &done.outcomes),
        End::Quit => Ok(()),
    }
}

/// Prints why no session began, and to a terminal and the log which row of a catalogue is wrong, if
/// that is why. Returns the exit status.
fn refuse_setup<C: Catalogue>(
    rt: &HostRuntime,
    catalogue: &C,
    gauge: &Gauge<'_>,
    given: &ConsoleOptions<'_>,
    fault: &ConsoleStartFault,
) -> io::Result<u8>
    ensures { IfOk result (λ status. status ≡ 1) }
{
    let status = refuse_place(rt, gauge, given.target, fault.number())?;
    if let ConsoleStartFault::Catalogue(CatalogueFault::BadCatalogue) = fault {
        gauge.tell_lines(catalogue.wrong_rows(given.db))?;
    }
    Ok(status)
}

/// Where the answers of a session go, and the file of its manifest, if it has one.
type SessionOutputs<A> = Outputs<NamesWriter<BufWriter<A>>, File>;

/// The same outputs, which are watched.
type WatchedSession<'g, 'r, A> = Outputs<SessionAnswers<'g, 'r, A>, ManifestFile<'g, 'r>>;

/// Restores what is marked into a folder, or writes the manifest alone if there is none. The manifest
/// goes to its file if there is one.
fn restore_into<'r, C: Catalogue, A: TextOutput + Drop>(
    rt: &'r HostRuntime,
    threads: &(impl Threads + Wait + Sync),
    catalogue: &C,
    gauge: &'r Gauge<'r>,
    given: &ConsoleOptions<'_>,
    outputs: SessionOutputs<A>,
) -> io::Result<u8>
    requires few { AreFew given.now.drives }
    requires asked { stream_asked given.now.target ≡ None }
    requires apart { A.place ≡ answers_place given.now.marks given.now.target }
{
    let (jobs, restore) = match set_up_console(rt, catalogue, gauge, given) {
        Ok(setup) => setup,
        Err(fault) => return refuse_setup(rt, catalogue, gauge, given, &fault),
    };
    let mut restore = with_watched_drives(restore, gauge)?;
    let mut out = watched_outputs(rt, gauge, outputs)?;
    let asked = jobs.selection(rt.alloc());
    let order = (&asked, jobs.wanted);
    session_into(threads, (rt, gauge), given, order, &mut restore, &mut out)
}

/// Runs a session into a folder or nowhere, and reports its end. Returns the exit status.
fn session_into<A: TextOutput + Drop>(
    threads: &(impl Threads + Wait + Sync),
    watch: (&HostRuntime, &Gauge<'_>),
    given: &ConsoleOptions<'_>,
    order: (&JobSelection<'_>, Wanted),
    restore: &mut Restore<WatchedDrive<'_, '_, HostDrive<'_>>, LeavingSink<'_, '_>>,
    out: &mut WatchedSession<'_, '_, A>,
) -> io::Result<u8>
    requires drives { AreDrives restore.old.drives.items }
{
    let (rt, gauge) = watch;
    let is_warned = tell_chosen(rt, order.0, given.volumes)?;
    let input = input_of(watch, order.0, given, &mut out.answers)?;
    let task = (rt, gauge, &given.marks);
    let run = run_left(threads, task, order, restore, input, out)?;
    gauge.clear();
    name_others(rt, gauge, given, &run)?;
    let failed = left_out(&restore.sink);
    let ending = console_ending(rt.alloc(), &run, is_warned, failed)?;
    let told = told_by(out);
    let status = report(rt, gauge, given, (&told, failed, None), &run, &ending)?;
    end_file(rt, gauge, given.manifest, &mut out.manifest, status)
}

/// Makes what a session needs before it reads a line, to deliver into a new file as a tar stream.
/// The file is tested in the place of a folder.
fn set_up_tar_file<'r, C: Catalogue>(
    rt: &'r HostRuntime,
    catalogue: &C,
    given: &ConsoleOptions<'_>,
    path: &str,
) -> Result<ConsoleSetup<'r, TarSink<BufWriter<File>>>, ConsoleStartFault>
    ensures asked { IfOk result (λ setup. request_asked given.now ≡ Ok setup.0.request) }
    ensures wanted { IfOk result (λ setup. setup.0.wanted ≡ given.now.wanted) }
    ensures sink { IfOk result (λ setup. IsSome setup.1.sink) }
    ensures jobs { IfOk result (λ setup. AreJobsOf (C.jobs_at catalogue.now given.now.db.now) given.now.file_rows setup.0) }
    ensures memory { IfOk result (λ setup. setup.1.budget.room ≡ given.now.memory) }
    ensures drives { IfOk result (λ setup. length setup.1.drives.items ≡ given.now.drives) }
    ensures volumes { IfOk result (λ setup. AreOver given.now.volumes.now setup.1.drives.items) }
{
    let request = request_of(rt.alloc(), given)?;
    let sink = Some(tar_into(rt, path)?);
    set_up_over(rt, catalogue, given, request, sink)
}

/// Makes what a session needs before it reads a line, to deliver to standard output as a tar
/// stream.
fn set_up_tar_output<'r, C: Catalogue>(
    rt: &'r HostRuntime,
    catalogue: &C,
    given: &ConsoleOptions<'_>,
) -> Result<ConsoleSetup<'r, TarSink<BufWriter<Printer<'r, HostRuntime>>>>, ConsoleStartFault>
    ensures asked { IfOk result (λ setup. request_asked given.now ≡ Ok setup.0.request) }
    ensures wanted { IfOk result (λ setup. setup.0.wanted ≡ given.now.wanted) }
    ensures sink { IfOk result (λ setup. IsSome setup.1.sink) }
    ensures jobs { IfOk result (λ setup. AreJobsOf (C.jobs_at catalogue.now given.now.db.now) given.now.file_rows setup.0) }
    ensures memory { IfOk result (λ setup. setup.1.budget.room ≡ given.now.memory) }
    ensures drives { IfOk result (λ setup. length setup.1.drives.items ≡ given.now.drives) }
    ensures volumes { IfOk result (λ setup. AreOver given.now.volumes.now setup.1.drives.items) }
{
    let request = request_of(rt.alloc(), given)?;
    let sink = Some(tar_output(rt)?);
    set_up_over(rt, catalogue, given, request, sink)
}

/// Restores what is marked into the tar stream that was set up, with the answers to their writer, which is
/// not standard output if the stream goes there. The manifest goes to its file if there is one. Returns
/// the exit status.
fn restore_onto<'r, T: Channel + Drop, A: TextOutput + Drop>(
    threads: &(impl Threads + Wait + Sync),
    watch: (&'r HostRuntime, &'r Gauge<'r>),
    given: &ConsoleOptions<'_>,
    setup: ConsoleSetup<'r, TarSink<BufWriter<T>>>,
    outputs: SessionOutputs<A>,
) -> io::Result<u8>
    requires few { AreFew (length setup.1.drives.items) }
    requires sink { IsSome setup.1.sink }
    requires asked { stream_asked given.now.target ≡ Some T.is_output }
    requires apart { A.place ≡ answers_place given.now.marks given.now.target }
{
    let (rt, gauge) = watch;
    let (jobs, restore) = setup;
    let mut restore = with_watched_sink(with_watched_drives(restore, gauge)?, gauge);
    let mut out = watched_outputs(rt, gauge, outputs)?;
    let asked = jobs.selection(rt.alloc());
    let order = (&asked, jobs.wanted);
    session_onto(threads, watch, given, order, &mut restore, &mut out)
}

/// Runs a session into the tar stream of a restore, and reports its end. Returns the exit status.
fn session_onto<T: Channel + Drop, A: TextOutput + Drop>(
    threads: &(impl Threads + Wait + Sync),
    watch: (&HostRuntime, &Gauge<'_>),
    given: &ConsoleOptions<'_>,
    order: (&JobSelection<'_>, Wanted),
    restore: &mut Restore<
        WatchedDrive<'_, '_, HostDrive<'_>>,
        WatchedSink<'_, '_, TarSink<BufWriter<T>>>,
    >,
    out: &mut WatchedSession<'_, '_, A>,
) -> io::Result<u8>
    requires drives { AreDrives restore.old.drives.items }
    requires sink { IsSome restore.old.sink }
{
    let (rt, gauge) = watch;
    let is_warned = tell_chosen(rt, order.0, given.volumes)?;
    let input = input_of(watch, order.0, given, &mut out.answers)?;
    let task = (rt, gauge, &given.marks);
    let stream = console_stream(threads, task, order, restore, input, out)?;
    gauge.clear();
    let mut ending = console_ending(rt.alloc(), &stream.run, is_warned, &[])?;
    add_tar_end(&mut ending, stream.end)?;
    let told = told_by(out);
    let status = report(
        rt,
        gauge,
        given,
        (&told, &[], Some(stream.end)),
        &stream.run,
        &ending,
    )?;
    end_file(rt, gauge, given.manifest, &mut out.manifest, status)
}

/// Reads lines of standard input and answers them on standard output, over the jobs of a client's file set
/// before a moment in a catalogue. Or marks what patterns say: then only words are printed, to standard
/// error, and the manifest goes to its file or nowhere. After `done` prints the bootstrap and the manifest, and puts the restored
/// files where they are to go: into a folder, or as a tar stream into a file or to standard output. In the
/// last case all that is printed goes to standard error. If a file is given for the manifest, the manifest
/// goes there. What is refused of a line is part of the answers; any other refusal goes to standard error,
/// and so does the stop of a delivery.
///
/// The log and the file of the manifest are opened first. Client and file set (2), moment (52), the target
/// (81: a folder has to exist and be empty unless the restore is resumed, a file must not exist), and the
/// catalogue (45, 47) are tested in this order before a line is read. The manifest is written before any
/// file is put.
///
/// A line on standard error warns of each chosen job whose files are gone from the catalogue.
///
/// Returns the exit status: 0 if nothing was refused and each outcome is a file; 1 if something was
/// refused, left out or is reported as missing, some outcome is not a file, or there was a warning; 3 if
/// the log or the manifest could not be written, or standard input or output failed.
///
/// # Errors
///
/// If memory ran out or standard error failed.
pub fn restore_marked<C: Catalogue>(
    rt: &HostRuntime,
    threads: &(impl Threads + Wait + Sync),
    catalogue: &C,
    given: &ConsoleOptions<'_>,
) -> io::Result<u8>
    requires few { AreFew given.now.drives }
{
    match gauge_of(rt, given.volumes, given.target, given.progress, given.log) {
        Ok(gauge) => {
            let gauge = gauge.with_words(matches!(given.marks, Marks::Patterns(_)));
            let status = match manifest_at(rt, given.manifest) {
                Ok(file) => restore_told(rt, threads, catalogue, &gauge, given, file)?,
                Err(error) => refuse_manifest(rt, &gauge, given.manifest, error)?,
            };
            gauge.end_log(status)
        }
        Err(error) => refuse_log(rt, given.log, error),
    }
}

/// Restores as `restore_marked`, with what watches the restore and the file of the manifest, if it has
/// one.
fn restore_told<C: Catalogue>(
    rt: &HostRuntime,
    threads: &(impl Threads + Wait + Sync),
    catalogue: &C,
    gauge: &Gauge<'_>,
    given: &ConsoleOptions<'_>,
    manifest: Option<File>,
) -> io::Result<u8>
    requires few { AreFew given.now.drives }
{
    match (&given.marks, given.target) {
        (Marks::Patterns(_), _) => {
            let answers = answers_to(rt, io::sink(), false)?;
            let outputs = Outputs { answers, manifest };
            restore_to(rt, threads, catalogue, gauge, given, outputs)
        }
        (Marks::Lines, Target::TarOutput) => {
            let answers = answers_to(rt, rt.stderr(), is_attended(rt))?;
            let outputs = Outputs { answers, manifest };
            restore_to(rt, threads, catalogue, gauge, given, outputs)
        }
        (Marks::Lines, _) => {
            let is_shown = is_attended(rt) && rt.stdout().is_terminal();
            let answers = answers_to(rt, io::writer(rt), is_shown)?;
            let outputs = Outputs { answers, manifest };
            restore_to(rt, threads, catalogue, gauge, given, outputs)
        }
    }
}

/// Restores into the target, with these outputs.
fn restore_to<C: Catalogue, A: TextOutput + Drop>(
    rt: &HostRuntime,
    threads: &(impl Threads + Wait + Sync),
    catalogue: &C,
    gauge: &Gauge<'_>,
    given: &ConsoleOptions<'_>,
    outputs: SessionOutputs<A>,
) -> io::Result<u8>
    requires few { AreFew given.now.drives }
    requires apart { A.place ≡ answers_place given.now.marks given.now.target }
{
    let watch = (rt, gauge);
    match given.target {
        Target::Nowhere => restore_into(rt, threads, catalogue, gauge, given, outputs),
        Target::Folder(_) => restore_into(rt, threads, catalogue, gauge, given, outputs),
        Target::TarFile(path) => match set_up_tar_file(rt, catalogue, given, path) {
            Ok(setup) => restore_onto(threads, watch, given, setup, outputs),
            Err(fault) => refuse_setup(rt, catalogue, gauge, given, &fault),
        },
        Target::TarOutput => match set_up_tar_output(rt, catalogue, given) {
            Ok(setup) => restore_onto(threads, watch, given, setup, outputs),
            Err(fault) => refuse_setup(rt, catalogue, gauge, given, &fault),
        },
    }
}
