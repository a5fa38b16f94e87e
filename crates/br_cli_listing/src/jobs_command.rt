ghost use Rattle.std.specs.Prelude.{◌≡◌, ◌⊎◌, not, IfOk};
ghost use Rattle.br_model.specs.Answer.{AnswersAlways};
ghost use Rattle.br_model.specs.Text.{is_empty};
ghost use Rattle.br_plan.specs.Fault.{moment_number};
ghost use Rattle.br_jobs.specs.JobMarks.{marks};
ghost use Rattle.br_cli_listing.specs.ChosenJobs.{list_status, warned_status};
ghost use Rattle.br_cli_listing.specs.ListedJobs.{EndsList, before_asked, filter_asked};
ghost use Rattle.br_cli_listing.specs.LoadedJobs.{lists_all, rows_for};

use crate::loaded_jobs::jobs_in;
use crate::time_zone::SystemZones;
use br_cli_common::{
    CLEAN, Clock, FileRows, JobsOptions, REFUSED, is_shown, refuse_start, show_lines,
};
use br_history::History;
use br_jobs::{Filter, Zones, list_jobs, marked_lines};
use br_keeper::{Catalogue, CatalogueFault};
use br_plan::{BadMoment, read_moment};
use br_sink::show;
use std::io::{self, IsTerminal};

/// Reads the moment before which jobs are listed, if one is given.
fn read_before(given: Option<&str>) -> Result<Option<u64>, BadMoment>
    ensures { AnswersAlways (λ before. before) moment_number result (before_asked given.entry) }
{
    match given {
        Some(text) => {
            let moment = read_moment(text.as_bytes())?;
            Ok(Some(moment))
        }
        None => Ok(None),
    }
}

/// Returns the choice of jobs in these options.
#[tactic(auto, unfolding(crate::specs::ListedJobs::filter_asked))]
fn filter_of<'a>(given: &JobsOptions<'a>) -> Result<Filter<'a>, BadMoment>
    ensures { AnswersAlways (λ filter. filter) moment_number result (filter_asked given.now) }
{
    let before = read_before(given.before)?;
    Ok(Filter {
        client: given.client,
        fileset: given.fileset,
        before,
    })
}

/// The heads of the columns of a list, with moments in UTC alone and in the zone of the system, too.
const HEADS: &str = "MARK JOBID LEVEL STATUS DATE TIME CLIENT FILESET FILES BYTES VOLUMES";

const LOCAL_HEADS: &str =
    "MARK JOBID LEVEL STATUS DATE TIME LOCAL-DATE LOCAL-TIME CLIENT FILESET FILES BYTES VOLUMES";

/// Prints lines to standard output. If that and standard error are terminals and there is a line,
/// prints the heads of their columns to standard error before.
fn print_lines(rt: &HostRuntime, zones: &Zones<'_>, text: &[u8]) -> io::Result<()> {
    if is_shown(rt) && rt.stdout().is_terminal() && !text.is_empty() {
        match zones {
            Zones::Utc => eprintln!(rt; "{HEADS}")?,
            Zones::UtcAndLocal(_) => eprintln!(rt; "{LOCAL_HEADS}")?,
        }
    }
    show(&mut io::writer(rt), text)
}

/// Returns true if all jobs are asked for.
fn asks_for_all(filter: &Filter<'_>) -> bool
    ensures { result ≡ lists_all filter.now }
{
    filter.client.is_none() && filter.fileset.is_none() && filter.before.is_none()
}

/// Returns which rows of files are looked at: all if all jobs are asked for, since each is counted.
fn rows_for(filter: &Filter<'_>, file_rows: FileRows) -> FileRows
    ensures { result ≡ rows_for filter.now file_rows }
{
    if asks_for_all(filter) {
        FileRows::All
    } else {
        file_rows
    }
}

/// Prints to standard error why no job is listed, if there is no line and standard error is a
/// terminal.
fn tell_if_none(rt: &HostRuntime, lines: &[u8], filter: &Filter<'_>) -> io::Result<()> {
    if !lines.is_empty() || !is_shown(rt) {
        return Ok(());
    }
    if asks_for_all(filter) {
        eprintln!(rt; "The catalogue has no jobs.")
    } else {
        eprintln!(rt;
            "No job of this catalogue is asked for. Without --client, --fileset and --before all are listed."
        )
    }
}

/// Prints the warnings of purged jobs to standard error. Returns the exit status.
fn print_warnings(rt: &HostRuntime, warnings: &[u8]) -> io::Result<u8>
    ensures status { IfOk result (λ status. status ≡ warned_status (not (is_empty warnings.now))) }
{
    let shown = String::from_utf8_lossy(rt.alloc(), warnings)?;
    eprint!(rt; "{shown}")?;
    Ok(if warnings.is_empty() { CLEAN } else { REFUSED })
}

/// Prints the lines of the jobs that the filter lists, and why none is marked, if the choice was refused.
/// Warns of those marked whose files are gone from the catalogue. Returns the exit status.
fn print_jobs(
    rt: &HostRuntime,
    history: &History,
    filter: &Filter<'_>,
    zones: &Zones<'_>,
) -> io::Result<u8>
    ensures status { IfOk result (λ status. status ≡ list_status (marks history.now filter.now)) }
{
    match marked_lines(rt.alloc(), history, filter, zones) {
        Ok(text) => {
            print_lines(rt, zones, &text.lines)?;
            tell_if_none(rt, &text.lines, filter)?;
            print_warnings(rt, &text.warnings)
        }
        Err(fault) => {
            let text = list_jobs(rt.alloc(), history.jobs(), filter, zones, &[])?;
            print_lines(rt, zones, &text)?;
            refuse_start(rt, fault.number())
        }
    }
}

/// Prints the same lines with moments in UTC and in the time zone of the system. Returns the exit status.
fn print_local_jobs(rt: &HostRuntime, history: &History, filter: &Filter<'_>) -> io::Result<u8>
    ensures status { IfOk result (λ status. status ≡ list_status (marks history.now filter.now)) }
{
    let system = SystemZones::read(rt)?;
    let zones = Zones::UtcAndLocal(system.zone()?);
    print_jobs(rt, history, filter, &zones)
}

/// Prints the lines of the jobs with moments in UTC, or in UTC and in the time zone of the system.
/// Returns the exit status.
fn print_by(
    rt: &HostRuntime,
    history: &History,
    filter: &Filter<'_>,
    clock: Clock,
) -> io::Result<u8>
    ensures status { IfOk result (λ status. status ≡ list_status (marks history.now filter.now)) }
{
    match clock {
        Clock::Utc => print_jobs(rt, history, filter, &Zones::Utc),
        Clock::UtcAndLocal => print_local_jobs(rt, history, filter),
    }
}

/// Prints why a catalogue is refused, and to a terminal which of its rows is wrong, if that is why.
/// Returns the exit status.
fn refuse_catalogue<C: Catalogue>(
    rt: &HostRuntime,
    catalogue: &C,
    db: &str,
    fault: CatalogueFault,
) -> io::Result<u8>
    ensures status { IfOk result (λ status. status ≡ 1) }
{
    let status = refuse_start(rt, fault.number())?;
    if let CatalogueFault::BadCatalogue = fault {
        show_lines(rt, &catalogue.wrong_rows(db))?;
    }
    Ok(status)
}

/// Prints the jobs of a catalogue, a line for each. If client, file set and moment are given, it marks those
/// that `console` would choose; if that choice is refused, the refusal goes to standard error after the
/// jobs. A line on standard error warns of each marked job whose files are gone from the catalogue.
///
/// Returns the exit status: 1 if something was refused or there was a warning, else 0.
///
/// # Errors
///
/// If memory ran out, or a stream failed.
pub fn list<C: Catalogue>(
    rt: &HostRuntime,
    catalogue: &C,
    given: &JobsOptions<'_>,
) -> io::Result<u8>
    ensures known { IfOk result (λ status. (status ≡ 0) ⊎ (status ≡ 1)) }
    ensures status { IfOk result (EndsList (C.jobs_at catalogue.now given.now.db.now) given.now) }
{
    let filter = match filter_of(given) {
        Ok(filter) => filter,
        Err(fault) => return refuse_start(rt, fault.number()),
    };
    let file_rows = rows_for(&filter, given.file_rows);
    let history = match jobs_in(rt, catalogue, given.db, file_rows, &filter) {
        Ok(history) => history,
        Err(fault) => return refuse_catalogue(rt, catalogue, given.db, fault),
    };
    let status = print_by(rt, &history, &filter, given.clock)?;
    Ok(status)
}
