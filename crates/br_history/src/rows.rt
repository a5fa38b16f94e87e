ghost use Rattle.std.specs.Prelude.{◌≡◌, true, not, ◌&&◌, ◌==◌, IfOk, OnOk};
ghost use Rattle.std.specs.List.{list_all};
ghost use Rattle.std.specs.Ordering.{nat_cmp};
ghost use Rattle.std.specs.BTreeSet.{contains};
ghost use Rattle.br_model.specs.Answer.{Answers};
ghost use Rattle.br_model.specs.Job.{is_file_row, same_file, is_span, is_numbered, overlaps, no_pair, are_rows, checked_rows};
ghost use Rattle.br_history.specs.Fault.{cause};
ghost use Rattle.br_history.specs.Seen.{Notes, reaches};

use crate::fault::HistoryFault;
use crate::row::{FileRow, JobRow};
use br_session::Span;
use std::alloc::{AllocError, Global};
use std::collections::{BTreeMap, BTreeSet};
use std::marker::Model;

/// The last second of the year 9999.
pub(crate) const MAX_START: u64 = 253_402_300_799;

/// The greatest address of a byte on a volume: 2^63 - 1.
const MAX_ADDRESS: u64 = 9_223_372_036_854_775_807;

fn are_file_rows(files: &[FileRow]) -> bool
    ensures { result ≡ list_all is_file_row files.now }
{
    files.iter().all(|row| row.is_valid())
}

/// Notes an index above 0, and returns whether it was not noted before.
fn is_new(seen: &mut BTreeSet<u32>, index: u32) -> Result<bool, AllocError>
    ensures answer { IfOk result (λ new. new ≡ not (not (index == 0) && contains nat_cmp seen.old index)) }
    ensures noted { OnOk result (Notes seen.old index seen.new) }
{
    if index == 0 {
        return Ok(true);
    }
    Ok(seen.insert(index)?)
}

/// Returns whether no two rows have one index above 0.
fn indexes_differ(alloc: Global, files: &[FileRow]) -> Result<bool, AllocError>
    ensures { IfOk result (λ differ. differ ≡ no_pair same_file files.now) }
{
    let mut seen = BTreeSet::new(alloc);
    for file in files {
        if !is_new(&mut seen, file.index)? {
            return Ok(false);
        }
    }
    Ok(true)
}

fn is_span_of(span: &Span) -> bool
    ensures { result ≡ is_span span.now }
{
    span.first <= span.last && span.start <= span.end && span.end <= MAX_ADDRESS
}

fn are_spans(spans: &[Span]) -> bool
    ensures { result ≡ list_all is_span spans.now }
{
    spans.iter().all(|span| is_span_of(span))
}

/// Returns whether the spans are numbered 1, 2, 3 and on.
fn are_numbered(spans: &[Span]) -> bool
    ensures { result ≡ is_numbered spans.now }
{
    for (i, span) in spans.iter().enumerate() {
        if span.vol_index as usize != i + 1 {
            return false;
        }
    }
    true
}

/// Returns whether an end, if there is one, is at an address or after it.
fn reaches_to(end: Option<u64>, address: u64) -> bool
    ensures { result ≡ reaches address end }
{
    match end {
        Some(end) => address <= end,
        None => false,
    }
}

/// Returns whether the spans of each volume ascend and have no byte in common.
fn spans_ascend(alloc: Global, spans: &[Span]) -> Result<bool, AllocError>
    requires { list_all is_span spans.now ≡ true }
    ensures { IfOk result (λ ascend. ascend ≡ no_pair overlaps spans.now) }
{
    let mut ends: BTreeMap<&[u8], u64> = BTreeMap::new(alloc);
    for span in spans {
        let volume = span.vol.bytes();
        if reaches_to(ends.get(volume).copied(), span.start) {
            return Ok(false);
        }
        ends.insert(volume, span.end)?;
    }
    Ok(true)
}

/// Returns whether a job's row, the rows of its files and its spans fit together.
#[tactic(auto, unfolding(br_model::specs::Job::are_rows))]
fn can_stand(
    alloc: Global,
    row: &JobRow,
    files: &[FileRow],
    spans: &[Span],
) -> Result<bool, AllocError>
    ensures { IfOk result (λ stand. stand ≡ are_rows (record { row = row.now; files = files.now; spans = spans.now })) }
{
    if row.start > MAX_START || !are_file_rows(files) || !are_spans(spans) || !are_numbered(spans) {
        return Ok(false);
    }
    Ok(indexes_differ(alloc, files)? && spans_ascend(alloc, spans)?)
}

fn copied_files(alloc: Global, files: &[FileRow]) -> Result<Vec<FileRow>, AllocError>
    ensures { IfOk result (λ copy. copy.items ≡ files.now) }
{
    let mut copy = Vec::new(alloc);
    for row in files {
        copy.push(row.copy(alloc)?)?;
    }
    Ok(copy)
}

fn copied_span(alloc: Global, span: &Span) -> Result<Span, AllocError>
    ensures { IfOk result (λ copy. copy ≡ span.now) }
{
    Ok(Span {
        vol: span.vol.copy(alloc)?,
        first: span.first,
        last: span.last,
        start: span.start,
        end: span.end,
        vol_index: span.vol_index,
    })
}

pub(crate) fn copied_spans(alloc: Global, spans: &[Span]) -> Result<Vec<Span>, AllocError>
    ensures { IfOk result (λ copy. copy.items ≡ spans.now) }
{
    let mut copy = Vec::new(alloc);
    for span in spans {
        copy.push(copied_span(alloc, span)?)?;
    }
    Ok(copy)
}

/// The rows of a job in the catalogue: its own row, the rows of its files, and its spans.
#[derive(Debug, Drop)]
pub struct JobRows {
    row: JobRow,
    files: Vec<FileRow>,
    spans: Vec<Span>,
}

impl Model for JobRows {
    ghost use Rattle.std.specs.Prelude.{◌≡◌, true};
    ghost use Rattle.br_model.specs.Job as model;

    ghost Value = { model.JobRows };

    ghost view = { λ j. record { row = j.row; files = j.files.items; spans = j.spans.items } };

    ghost invariant = { λ j. model.are_rows (record { row = j.row; files = j.files.items; spans = j.spans.items }) ≡ true };
}

impl JobRows {
    /// Joins the rows of a job that fit together: the job starts before the year 10000. Each FileIndex is below 2^31, and no two
    /// rows have one that is above 0. A row with an index above 0 has an LStat that can be read. The spans are numbered 1, 2, 3
    /// and on by VolIndex, each has its ends in order and ends below 2^63, and those of one volume ascend and have no byte in
    /// common. The order of the rows of files is kept.
    ///
    /// # Errors
    ///
    /// `BadRow` if the rows do not fit together.
    #[tactic(auto, unfolding(br_model::specs::Job::checked_rows))]
    pub fn new(row: JobRow, files: Vec<FileRow>, spans: Vec<Span>) -> Result<JobRows, HistoryFault>
        ensures { Answers (λ rows. rows) cause result (checked_rows (record { row = row; files = files.items; spans = spans.items })) }
    {
        let alloc = *files.allocator();
        if !can_stand(alloc, &row, &files, &spans)? {
            return Err(HistoryFault::BadRow);
        }
        Ok(JobRows { row, files, spans })
    }

    /// Returns the job's own row.
    pub fn row(&self) -> &JobRow
        ensures same { result.now ≡ self.now.row }
        ensures valid { are_rows self.now ≡ true }
    {
        &self.row
    }

    /// Returns the rows of its files.
    pub fn files(&self) -> &[FileRow]
        ensures same { result.now ≡ self.now.files }
        ensures valid { are_rows self.now ≡ true }
    {
        &self.files
    }

    /// Returns its spans, in the order of their numbers.
    pub fn spans(&self) -> &[Span]
        ensures same { result.now ≡ self.now.spans }
        ensures valid { are_rows self.now ≡ true }
    {
        &self.spans
    }

    /// Returns equal rows.
    pub fn copy(&self, alloc: Global) -> Result<JobRows, AllocError>
        ensures { IfOk result (λ rows. rows ≡ self.now) }
    {
        Ok(JobRows {
            row: self.row.copy(alloc)?,
            files: copied_files(alloc, &self.files)?,
            spans: copied_spans(alloc, &self.spans)?,
        })
    }
}
