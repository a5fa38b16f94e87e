//! A history from the rows of a catalogue.

ghost use Rattle.std.specs.Prelude.{◌≡◌, ◌==◌, ℕ, [], not, map, IfOk, OnOk};
ghost use Rattle.std.specs.Ordering.{nat_cmp};
ghost use Rattle.std.specs.List.{list_any};
ghost use Rattle.std.specs.BTreeMap.{get};
ghost use Rattle.br_model.specs.Answer.{Answers, refuse_if};
ghost use Rattle.br_model.specs.Job.{JobRow as Job};
ghost use Rattle.sqlite.specs.Order.{column};
ghost use Rattle.br_history.specs.Needed.{is_one_of};
ghost use Rattle.br_catalog_rows.specs.Load as load;
ghost use Rattle.br_catalog_rows.specs.Fault.{rows_cause};
ghost use Rattle.br_catalog_rows.specs.Rows.{Rows};
ghost use Rattle.br_catalog_rows.specs.Decode.{read_job, read_span, read_file};
ghost use Rattle.br_catalog_rows.specs.Load.{read_all, by_number, read_rows, if_apart, read_loaded, read_history, group_of, has, Puts};

use crate::decode::{file_of, job_of, span_of};
use crate::fault::RowsFault;
use crate::value::{natural_at, number_at, small_at};
use br_history::{FileRow, History, JobRow, JobRows};
use br_session::Span;
use br_types::JobId;
use sqlite::Row;
use std::alloc::{AllocError, Global};
use std::collections::BTreeMap;
use std::marker::Model;

/// Returns `BadRows` unless a row shows the number 2.
#[tactic(auto, unfolding(crate::specs::Load::check_first))]
fn check_first(row: &Row) -> Result<(), RowsFault>
    ensures { Answers (λ u. u) rows_cause result (load.check_first (column row.now 0)) }
{
    if natural_at(row, 0)? != 2 {
        return Err(RowsFault::BadRows);
    }
    Ok(())
}

/// Returns `BadRows` unless there is one version, which is 2.
fn check_version(rows: &[Row]) -> Result<(), RowsFault>
    ensures { Answers (λ u. u) rows_cause result (load.check_version rows.now) }
{
    match rows {
        [row] => check_first(row),
        _ => Err(RowsFault::BadRows),
    }
}

/// Reads a job from each row.
#[tactic(auto, unfolding(crate::specs::Load::read_all))]
pub(crate) fn jobs_of(alloc: Global, rows: &[Row]) -> Result<Vec<JobRow>, RowsFault>
    ensures { Answers (λ v. v.items) rows_cause result (read_all read_job rows.now) }
{
    let mut jobs = Vec::new(alloc);
    for row in rows {
        jobs.push(job_of(alloc, row)?).map_err(AllocError::from)?;
    }
    Ok(jobs)
}

/// Reads a span from each row.
#[tactic(auto, unfolding(crate::specs::Load::read_all))]
fn spans_of(alloc: Global, rows: &[&Row]) -> Result<Vec<Span>, RowsFault>
    ensures { Answers (λ v. v.items) rows_cause result (read_all read_span (map (λ r. r.now) rows.now)) }
{
    let mut spans = Vec::new(alloc);
    for row in rows {
        spans.push(span_of(alloc, row)?).map_err(AllocError::from)?;
    }
    Ok(spans)
}

/// Reads a file from each row.
#[tactic(auto, unfolding(crate::specs::Load::read_all))]
fn files_of(alloc: Global, rows: &[&Row]) -> Result<Vec<FileRow>, RowsFault>
    ensures { Answers (λ v. v.items) rows_cause result (read_all read_file (map (λ r. r.now) rows.now)) }
{
    let mut files = Vec::new(alloc);
    for row in rows {
        files.push(file_of(alloc, row)?).map_err(AllocError::from)?;
    }
    Ok(files)
}

/// Makes an empty list of rows for each job.
pub(crate) fn places<'r>(
    alloc: Global,
    jobs: &[JobRow],
) -> Result<BTreeMap<u32, Vec<&'r Row>>, AllocError>
    ensures jobs { IfOk result (λ m. (id : ℕ) → has m id ≡ list_any (λ (j : Job). j.id == id) jobs.now) }
    ensures empty { IfOk result (λ m. (id : ℕ) → group_of m id ≡ []) }
{
    let mut places = BTreeMap::new(alloc);
    for job in jobs {
        places.insert(job.id.get(), Vec::new(alloc))?;
    }
    Ok(places)
}

/// Appends a row to those of its job. `BadRows` if there is no such job.
fn put<'r>(places: &mut BTreeMap<u32, Vec<&'r Row>>, id: u32, row: &'r Row) -> Result<(), RowsFault>
    ensures answers { Answers (λ u. u) rows_cause result (refuse_if (not (has places.old id)) 47) }
    ensures puts { OnOk result (Puts places.old id row.now places.new) }
{
    let Some(group) = places.get_mut(&id) else {
        return Err(RowsFault::BadRows);
    };
    group.push(row).map_err(AllocError::from)?;
    Ok(())
}

/// Returns the rows of each job in their order. `BadRows` if a row belongs to none of these
/// jobs.
pub(crate) fn by_job<'r>(
    alloc: Global,
    jobs: &[JobRow],
    rows: &'r [Row],
) -> Result<BTreeMap<u32, Vec<&'r Row>>, RowsFault>
    ensures { Answers group_of rows_cause result (load.by_job jobs.now rows.now) }
{
    let mut places = places(alloc, jobs)?;
    for row in rows {
        put(&mut places, small_at(row, 0)?, row)?;
    }
    Ok(places)
}

/// Reads the spans of a job.
#[tactic(auto, unfolding(crate::specs::Load::read_all))]
fn spans_at(
    alloc: Global,
    places: &BTreeMap<u32, Vec<&Row>>,
    id: u32,
) -> Result<Vec<Span>, RowsFault>
    ensures { Answers (λ v. v.items) rows_cause result (read_all read_span (group_of places.now id)) }
{
    match places.get(&id) {
        Some(rows) => spans_of(alloc, rows),
        None => Ok(Vec::new(alloc)),
    }
}

/// Reads the files of a job.
#[tactic(auto, unfolding(crate::specs::Load::read_all))]
fn files_at(
    alloc: Global,
    places: &BTreeMap<u32, Vec<&Row>>,
    id: u32,
) -> Result<Vec<FileRow>, RowsFault>
    ensures { Answers (λ v. v.items) rows_cause result (read_all read_file (group_of places.now id)) }
{
    match places.get(&id) {
        Some(rows) => files_of(alloc, rows),
        None => Ok(Vec::new(alloc)),
    }
}

/// Sorts spans by their numbers (`vol_index`); spans of one number keep their order.
fn sorted(mut spans: Vec<Span>) -> Result<Vec<Span>, AllocError>
    ensures { IfOk result (λ v. v.items ≡ by_number spans.items) }
{
    spans.sort_by_key(|span| span.vol_index)?;
    Ok(spans)
}

/// Joins a job with its spans and its files.
#[tactic(auto, unfolding(crate::specs::Load::read_rows))]
pub(crate) fn rows_of(
    alloc: Global,
    row: JobRow,
    spans: &BTreeMap<u32, Vec<&Row>>,
    files: &BTreeMap<u32, Vec<&Row>>,
) -> Result<JobRows, RowsFault>
    ensures { Answers (λ j. j) rows_cause result (read_rows (group_of spans.now) (group_of files.now) row) }
{
    let id = row.id.get();
    let spans = spans_at(alloc, spans, id)?;
    let files = files_at(alloc, files, id)?;
    Ok(JobRows::new(row, files, sorted(spans)?)?)
}

/// Joins each job with its spans and its files.
#[tactic(auto, unfolding(crate::specs::Load::read_all))]
fn whole_jobs(
    alloc: Global,
    jobs: Vec<JobRow>,
    spans: &BTreeMap<u32, Vec<&Row>>,
    files: &BTreeMap<u32, Vec<&Row>>,
) -> Result<Vec<JobRows>, RowsFault>
    ensures { Answers (λ v. v.items) rows_cause result (read_all (read_rows (group_of spans.now) (group_of files.now)) jobs.items) }
{
    let mut whole = Vec::new(alloc);
    for job in jobs {
        whole
            .push(rows_of(alloc, job, spans, files)?)
            .map_err(AllocError::from)?;
    }
    Ok(whole)
}

/// Makes a history of these jobs, in their order.
#[tactic(auto, unfolding(crate::specs::Load::if_apart))]
fn joined(alloc: Global, jobs: Vec<JobRows>) -> Result<History, RowsFault>
    ensures { Answers (λ h. h) rows_cause result (if_apart jobs.items) }
{
    let mut history = History::new(alloc);
    for job in jobs {
        history.push(job)?;
    }
    Ok(history)
}

/// Returns true if a job of these has the number.
fn has_number(jobs: &[JobId], number: u32) -> bool
    ensures { result ≡ is_one_of jobs.now number }
{
    jobs.iter().any(|job| job.get() == number)
}

/// Returns true if a row of a span or a file belongs to one of these jobs.
pub fn is_of_any(row: &Row, jobs: &[JobId]) -> bool
    ensures { result ≡ load.is_of_any jobs.now row.now }
{
    match number_at(row, 0) {
        Some(number) => has_number(jobs, number),
        None => false,
    }
}

/// Rows of a catalogue, with names in place of numbers: the versions, the jobs in order of JobId,
/// the spans in order of JobMediaId and the files in order of FileId.
#[derive(Drop)]
pub struct CatalogueRows {
    pub versions: Vec<Row>,
    pub jobs: Vec<Row>,
    pub spans: Vec<Row>,
    pub files: Vec<Row>,
}

impl Model for CatalogueRows {
    ghost Value = { Rows };

    ghost view = { λ s. record { versions = s.versions.items; jobs = s.jobs.items; spans = s.spans.items; files = s.files.items } };
}

/// Makes the history of the rows of jobs, spans and files.
#[tactic(auto, unfolding(crate::specs::Load::read_loaded))]
fn loaded(alloc: Global, jobs: &[Row], spans: &[Row], files: &[Row]) -> Result<History, RowsFault>
    ensures { Answers (λ h. h) rows_cause result (read_loaded jobs.now spans.now files.now) }
{
    let jobs = jobs_of(alloc, jobs)?;
    let spans = by_job(alloc, &jobs, spans)?;
    let files = by_job(alloc, &jobs, files)?;
    joined(alloc, whole_jobs(alloc, jobs, &spans, &files)?)
}

/// Makes the history of a catalogue's rows. It keeps the order of the rows: jobs in the order of
/// `rows.jobs`, the files of each in the order of `rows.files`, and its spans by their numbers.
///
/// # Errors
///
/// `BadRows` if the version is not 2 or the rows form no history.
#[tactic(auto, unfolding(crate::specs::Load::read_history))]
pub fn history_of(alloc: Global, rows: &CatalogueRows) -> Result<History, RowsFault>
    ensures { Answers (λ h. h) rows_cause result (read_history rows.now) }
{
    check_version(&rows.versions)?;
    loaded(alloc, &rows.jobs, &rows.spans, &rows.files)
}
