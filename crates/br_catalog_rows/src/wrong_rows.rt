//! Which row of a catalogue cannot be read, and which of its columns is wrong.

ghost use Rattle.std.specs.Prelude.{◌≡◌, ◌<◌, IfOk, IfSome, length, map};
ghost use Rattle.sqlite.specs.Order.{column};
ghost use Rattle.br_model.specs.Answer.{Answers};
ghost use Rattle.br_catalog_rows.specs.Fault.{rows_cause};
ghost use Rattle.br_catalog_rows.specs.Load.{group_of, has, read_rows};
ghost use Rattle.br_catalog_rows.specs.Wrong.{Tells, first_wrong, fits, positive, wrong_in};
ghost use Rattle.br_catalog_rows.specs.WrongRows.{IsCell, IsJob, IsJobless, IsWrong, TellsWrong, rule_of, rules_of};

use crate::decode::{digest_at, path_at, string_at};
use crate::fault::RowsFault;
use crate::load::{CatalogueRows, by_job, history_of, jobs_of, places, rows_of};
use crate::value::{letter_at, name_at, natural_at, small_at, volume_at};
use br_history::JobRow;
use sqlite::Row;
use std::alloc::{AllocError, Global};
use std::collections::BTreeMap;

/// A table of the catalogue.
#[derive(Clone, Copy)]
pub enum Table {
    Job,
    JobMedia,
    File,
}

/// What is wrong with the rows of a catalogue. Rows of a table count from 1, in the order of JobId,
/// JobMediaId or FileId.
#[derive(Clone, Copy)]
pub enum WrongRows {
    /// A column of a row cannot be read.
    Column {
        table: Table,
        row: usize,
        column: &'static str,
    },
    /// A row of spans or files has the JobId of no job.
    Jobless {
        table: Table,
        row: usize,
    },
    /// The spans and files of the job with this number do not fit together.
    Job(u32),
    /// Rows contradict each other.
    Contradiction,
}

/// What a column has to hold.
#[derive(Clone, Copy)]
pub(crate) enum ColumnKind {
    /// A number from 1 to 2^32 - 1.
    Positive,
    /// A number from 0 to 2^32 - 1.
    Small,
    /// A number from 0 on.
    Natural,
    Letter,
    /// The name of a client or a file set.
    Name,
    VolumeName,
    /// The first part of a path, whose second part is in the next column.
    Path,
    Characters,
    Digest,
}

/// A column that queries show.
#[derive(Clone, Copy)]
pub(crate) struct Column {
    pub(crate) at: u8,
    pub(crate) name: &'static str,
    pub(crate) kind: ColumnKind,
}

/// The columns of a job.
const JOB_COLUMNS: [Column; 9] = [
    Column {
        at: 0,
        name: "JobId",
        kind: ColumnKind::Positive,
    },
    Column {
        at: 1,
        name: "Type",
        kind: ColumnKind::Letter,
    },
    Column {
        at: 2,
        name: "Level",
        kind: ColumnKind::Letter,
    },
    Column {
        at: 3,
        name: "Name of its Client",
        kind: ColumnKind::Name,
    },
    Column {
        at: 4,
        name: "JobStatus",
        kind: ColumnKind::Letter,
    },
    Column {
        at: 5,
        name: "StartTime",
        kind: ColumnKind::Natural,
    },
    Column {
        at: 6,
        name: "FileSet of its FileSet",
        kind: ColumnKind::Name,
    },
    Column {
        at: 7,
        name: "VolSessionId",
        kind: ColumnKind::Small,
    },
    Column {
        at: 8,
        name: "VolSessionTime",
        kind: ColumnKind::Small,
    },
];

/// The columns of a span.
const SPAN_COLUMNS: [Column; 9] = [
    Column {
        at: 0,
        name: "JobId",
        kind: ColumnKind::Small,
    },
    Column {
        at: 1,
        name: "VolumeName of its Media",
        kind: ColumnKind::VolumeName,
    },
    Column {
        at: 2,
        name: "FirstIndex",
        kind: ColumnKind::Small,
    },
    Column {
        at: 3,
        name: "LastIndex",
        kind: ColumnKind::Small,
    },
    Column {
        at: 4,
        name: "StartFile",
        kind: ColumnKind::Small,
    },
    Column {
        at: 5,
        name: "EndFile",
        kind: ColumnKind::Small,
    },
    Column {
        at: 6,
        name: "StartBlock",
        kind: ColumnKind::Small,
    },
    Column {
        at: 7,
        name: "EndBlock",
        kind: ColumnKind::Small,
    },
    Column {
        at: 8,
        name: "VolIndex",
        kind: ColumnKind::Small,
    },
];

/// The columns of a file.
const FILE_COLUMNS: [Column; 5] = [
    Column {
        at: 0,
        name: "JobId",
        kind: ColumnKind::Small,
    },
    Column {
        at: 1,
        name: "FileIndex",
        kind: ColumnKind::Small,
    },
    Column {
        at: 2,
        name: "Path of its Path with Filename",
        kind: ColumnKind::Path,
    },
    Column {
        at: 4,
        name: "LStat",
        kind: ColumnKind::Characters,
    },
    Column {
        at: 5,
        name: "MD5",
        kind: ColumnKind::Digest,
    },
];

/// Returns true if a value was read, false if it is wrong.
fn is_right<X: Drop>(read: Result<X, RowsFault>) -> Result<bool, AllocError>
    ensures { IfOk result (λ right. Tells read right) }
{
    match read {
        Ok(_) => Ok(true),
        Err(RowsFault::BadRows) => Ok(false),
        Err(RowsFault::Memory) => Err(AllocError),
    }
}

/// Returns the number in a column, which is from 1 to 2^32 - 1.
#[tactic(auto, unfolding(crate::specs::Wrong::positive))]
fn positive_at(row: &Row, at: usize) -> Result<u32, RowsFault>
    ensures { Answers (λ n. n) rows_cause result (positive (column row.now at)) }
{
    let number = small_at(row, at)?;
    if number == 0 {
        return Err(RowsFault::BadRows);
    }
    Ok(number)
}

/// Returns true if a column of a row is of this kind.
#[tactic(auto, unfolding(crate::specs::Wrong::fits), using(crate::proofs::WrongLaws::told))]
fn fits(alloc: Global, row: &Row, column: &Column) -> Result<bool, AllocError>
    ensures { IfOk result (λ right. right ≡ fits row.now column.now) }
{
    let at = usize::from(column.at);
    match column.kind {
        ColumnKind::Positive => is_right(positive_at(row, at)),
        ColumnKind::Small => is_right(small_at(row, at)),
        ColumnKind::Natural => is_right(natural_at(row, at)),
        ColumnKind::Letter => is_right(letter_at(row, at)),
        ColumnKind::Name => is_right(name_at(alloc, row, at)),
        ColumnKind::VolumeName => is_right(volume_at(alloc, row, at)),
        ColumnKind::Path => is_right(path_at(alloc, row, at, at + 1)),
        ColumnKind::Characters => is_right(string_at(alloc, row, at)),
        ColumnKind::Digest => is_right(digest_at(row, at)),
    }
}

/// Returns the first of the columns that is wrong in a row.
#[tactic(auto, using(crate::proofs::WrongLaws::column_found, crate::proofs::WrongLaws::column_passed, crate::proofs::WrongLaws::columns_done))]
fn wrong_column(alloc: Global, row: &Row, columns: &[Column]) -> Result<Option<Column>, AllocError>
    ensures { IfOk result (λ found. found ≡ wrong_in columns.now row.now) }
{
    for column in columns {
        if !fits(alloc, row, column)? {
            return Ok(Some(*column));
        }
    }
    Ok(None)
}

/// Returns the place of the first row that is wrong, and its first column that is.
#[tactic(auto, using(crate::proofs::WrongLaws::row_found, crate::proofs::WrongLaws::row_passed, crate::proofs::WrongLaws::rows_done))]
fn first_wrong(
    alloc: Global,
    rows: &[Row],
    columns: &[Column],
) -> Result<Option<(usize, Column)>, AllocError>
    ensures inside { IfOk result (λ found. IfSome found (λ w. w.0 < length rows.now)) }
    ensures first { IfOk result (λ found. found ≡ first_wrong columns.now 0 rows.now) }
{
    for at in 0..rows.len() {
        if let Some(column) = wrong_column(alloc, &rows[at], columns)? {
            return Ok(Some((at, column)));
        }
    }
    Ok(None)
}

/// Returns the columns of a table, as queries show them.
fn columns_of(table: Table) -> &'static [Column]
    ensures { map rule_of result.now ≡ rules_of table }
{
    match table {
        Table::Job => &JOB_COLUMNS,
        Table::JobMedia => &SPAN_COLUMNS,
        Table::File => &FILE_COLUMNS,
    }
}

/// Returns the first wrong column in the rows of a table.
fn wrong_cell(alloc: Global, table: Table, rows: &[Row]) -> Result<Option<WrongRows>, AllocError>
    ensures { IfOk result (λ wrong. IfSome wrong (IsCell table rows.now)) }
{
    match first_wrong(alloc, rows, columns_of(table))? {
        Some((at, column)) => Ok(Some(WrongRows::Column {
            table,
            row: at + 1,
            column: column.name,
        })),
        None => Ok(None),
    }
}

/// Returns the first row of a table whose job has no place.
fn jobless(table: Table, places: &BTreeMap<u32, Vec<&Row>>, rows: &[Row]) -> Option<WrongRows>
    ensures { IfSome result (IsJobless (has places.now) table rows.now) }
{
    for at in 0..rows.len() {
        if let Ok(id) = small_at(&rows[at], 0) {
            if places.get(&id).is_none() {
                return Some(WrongRows::Jobless { table, row: at + 1 });
            }
        }
    }
    None
}

/// Returns the first of the jobs whose spans and files do not fit together.
fn wrong_job(
    alloc: Global,
    jobs: Vec<JobRow>,
    spans: &BTreeMap<u32, Vec<&Row>>,
    files: &BTreeMap<u32, Vec<&Row>>,
) -> Result<Option<WrongRows>, AllocError>
    ensures { IfOk result (λ wrong. IfSome wrong (IsJob (read_rows (group_of spans.now) (group_of files.now)) jobs.items)) }
{
    for job in jobs {
        let id = job.id.get();
        match rows_of(alloc, job, spans, files) {
            Ok(_) => {}
            Err(RowsFault::BadRows) => return Ok(Some(WrongRows::Job(id))),
            Err(RowsFault::Memory) => return Err(AllocError),
        }
    }
    Ok(None)
}

/// Returns what is wrong with rows that form no history.
fn wrong_among(alloc: Global, rows: &CatalogueRows) -> Result<WrongRows, RowsFault>
    ensures { IfOk result (IsWrong rows.now) }
{
    if let Some(wrong) = wrong_cell(alloc, Table::Job, &rows.jobs)? {
        return Ok(wrong);
    }
    if let Some(wrong) = wrong_cell(alloc, Table::JobMedia, &rows.spans)? {
        return Ok(wrong);
    }
    if let Some(wrong) = wrong_cell(alloc, Table::File, &rows.files)? {
        return Ok(wrong);
    }
    let jobs = jobs_of(alloc, &rows.jobs)?;
    let places = places(alloc, &jobs)?;
    if let Some(wrong) = jobless(Table::JobMedia, &places, &rows.spans) {
        return Ok(wrong);
    }
    if let Some(wrong) = jobless(Table::File, &places, &rows.files) {
        return Ok(wrong);
    }
    let spans = by_job(alloc, &jobs, &rows.spans)?;
    let files = by_job(alloc, &jobs, &rows.files)?;
    match wrong_job(alloc, jobs, &spans, &files)? {
        Some(wrong) => Ok(wrong),
        None => Ok(WrongRows::Contradiction),
    }
}

/// Returns what is wrong with the rows of a catalogue; `None` if they form a history. What comes
/// first is returned: columns of jobs, of spans and of files, rows of jobs that are not there, and
/// then jobs whose rows do not fit together.
///
/// # Errors
///
/// If memory ran out.
pub fn find_wrong(alloc: Global, rows: &CatalogueRows) -> Result<Option<WrongRows>, AllocError>
    ensures { IfOk result (TellsWrong rows.now) }
{
    match history_of(alloc, rows) {
        Ok(_) => return Ok(None),
        Err(RowsFault::Memory) => return Err(AllocError),
        Err(RowsFault::BadRows) => {}
    }
    match wrong_among(alloc, rows) {
        Ok(wrong) => Ok(Some(wrong)),
        Err(RowsFault::Memory) => Err(AllocError),
        Err(RowsFault::BadRows) => Ok(Some(WrongRows::Contradiction)),
    }
}
