ghost use Rattle.std.specs.Prelude.{◌≡◌, ◌<◌, ◌^◌, ◌++◌, [], ◌⊎◌, map, length, IfErr, IfOk, Some, None, if◌then◌else◌};
ghost use Rattle.std.specs.List.{AllByRecursion, enumerate_from};
ghost use Rattle.std.specs.String.{string_bytes};
ghost use Rattle.md5.specs.Md5.{md5};
ghost use Rattle.br_block.specs.Building.{IsBlockLimit};
ghost use Rattle.br_model.specs.Answer.{Answers, AnswersAlways};
ghost use Rattle.br_model.specs.Attribute.{write_stat};
ghost use Rattle.br_model.specs.Job.{checked_rows};
ghost use Rattle.br_model.specs.Session as model;
ghost use Rattle.br_model.specs.Session.{checked_order, rows_of};
ghost use Rattle.br_model.specs.SessionHolds.{IsToSave};
ghost use Rattle.br_session.specs.Outcome.{ArePlaces};
ghost use Rattle.br_history.specs.Fault.{cause};
ghost use Rattle.br_history.specs.Saving.{IsToCommit, IsJobWith, checked_job, of_parts, saved_job_number};
ghost use Rattle.br_history.specs.declared.fault.HistoryFault.TheVariants.{Memory};

use crate::fault::{HistoryFault, SavedJobFault};
use crate::row::{FileRow, JobRow};
use crate::rows::{JobRows, MAX_START, copied_spans};
use br_attr::Stat;
use br_session::{Place, SavedFile, Span, check_order};
use br_types::Path;
use md5::{Digest, Md5};
use std::alloc::{AllocError, Global};
use std::marker::Model;

/// Returns the numbers of a file as a row has them.
fn lstat_of(alloc: Global, stat: Stat) -> Result<String, AllocError>
    ensures { IfOk result (λ text. string_bytes text ≡ write_stat stat) }
{
    match String::from_utf8(stat.write(alloc)?) {
        Ok(text) => Ok(text),
        // The text has letters, digits, signs and spaces, so this is never reached.
        Err(_) => Err(AllocError),
    }
}

/// Returns the digest of a file, if one is written.
fn digest_of(file: &SavedFile) -> Option<[u8; 16]>
    ensures { result ≡ (if model.has_digest file.now then Some (md5 file.now.file.bytes) else None) }
{
    if file.has_digest() {
        Some(Md5::digest(file.bytes()))
    } else {
        None
    }
}

/// Returns the row of the saved file with this index.
fn saved_row(alloc: Global, index: u32, file: &SavedFile) -> Result<FileRow, AllocError>
    ensures same { IfOk result (λ row. row ≡ model.file_row (index, file.now)) }
    ensures valid { IfOk result (λ row. IsToSave file.now) }
{
    Ok(FileRow {
        path: file.path().copy(alloc)?,
        index,
        lstat: lstat_of(alloc, file.stat())?,
        md5: digest_of(file),
    })
}

/// Returns the rows of saved files, numbered from 1.
fn saved_rows(alloc: Global, files: &[SavedFile]) -> Result<Vec<FileRow>, AllocError>
    requires few { length files.now < 2 ^ 31 }
    ensures same { IfOk result (λ rows. rows.items ≡ map model.file_row (enumerate_from 1 files.now)) }
    ensures valid { IfOk result (λ rows. AllByRecursion IsToSave files.now) }
{
    let mut rows = Vec::new(alloc);
    let mut index = 0;
    for file in files {
        index += 1;
        rows.push(saved_row(alloc, index, file)?)?;
    }
    Ok(rows)
}

/// Returns the row that notes the deletion of a path.
fn deletion_row(alloc: Global, path: &Path) -> Result<FileRow, AllocError>
    ensures { IfOk result (λ row. row ≡ model.deletion_row path.now) }
{
    Ok(FileRow {
        path: path.copy(alloc)?,
        index: 0,
        lstat: String::new(alloc),
        md5: None,
    })
}

/// Returns the rows that note the deletions of paths.
fn deletion_rows(alloc: Global, deleted: &[Path]) -> Result<Vec<FileRow>, AllocError>
    ensures { IfOk result (λ rows. rows.items ≡ map model.deletion_row deleted.now) }
{
    let mut rows = Vec::new(alloc);
    for path in deleted {
        rows.push(deletion_row(alloc, path)?)?;
    }
    Ok(rows)
}

/// Returns the rows of saved files, numbered from 1, and then those of deletions.
fn file_rows(
    alloc: Global,
    files: &[SavedFile],
    deleted: &[Path],
) -> Result<Vec<FileRow>, AllocError>
    requires few { length files.now < 2 ^ 31 }
    ensures same { IfOk result (λ rows. rows.items
        ≡ map model.file_row (enumerate_from 1 files.now) ++ map model.deletion_row deleted.now) }
    ensures valid { IfOk result (λ rows. AllByRecursion IsToSave files.now) }
{
    let mut rows = saved_rows(alloc, files)?;
    let mut more = deletion_rows(alloc, deleted)?;
    rows.append(&mut more)?;
    Ok(rows)
}

/// Tests the order of a job's files.
fn check_files(files: &[SavedFile]) -> Result<(), SavedJobFault>
    ensures { AnswersAlways (λ _. files.now) saved_job_number result (checked_order files.now) }
{
    match check_order(files) {
        Ok(()) => Ok(()),
        Err(_) => Err(SavedJobFault::BadFileOrder),
    }
}

/// A job that is to be committed: its row, the files that it saves, in order of index, the paths
/// that it notes as deleted, the greatest size of its blocks, and the places for them.
#[derive(Drop)]
pub struct SavedJob {
    row: JobRow,
    files: Vec<SavedFile>,
    deleted: Vec<Path>,
    limit: u32,
    places: Vec<Place>,
}

impl Model for SavedJob {
    ghost use Rattle.br_history.specs.Saving.{ToCommit, IsToCommit, of_parts};

    ghost Value = { ToCommit };

    ghost view = { λ j. record {
      row = j.row;
      files = j.files.items;
      deleted = j.deleted.items;
      limit = j.limit;
      places = j.places.items;
    } };

    ghost invariant = { λ j. IsToCommit (of_parts j.row j.files.items j.deleted.items j.limit j.places.items) };
}

impl SavedJob {
    /// Makes the job of these parts. The conditions on the limit and the places are those of
    /// `write_session`.
    ///
    /// # Errors
    ///
    /// - `BadFileOrder` if a hard link does not name an earlier file of type 2 or 3, or there are
    ///   2^31 files or more.
    /// - `BadRow` if the job starts after the year 9999.
    #[tactic(auto, unfolding(crate::specs::Saving::checked_job))]
    pub fn new(
        row: JobRow,
        files: Vec<SavedFile>,
        deleted: Vec<Path>,
        limit: u32,
        places: Vec<Place>,
    ) -> Result<SavedJob, SavedJobFault>
        requires bounds { IsBlockLimit limit }
        requires places_are { ArePlaces places.items }
        requires some_place { places.items ≡ [] → files.items ≡ [] }
        ensures { AnswersAlways (λ j. j) saved_job_number result
            (checked_job (of_parts row files.items deleted.items limit places.items)) }
    {
        check_files(&files)?;
        if row.start > MAX_START {
            return Err(SavedJobFault::BadRow);
        }
        Ok(SavedJob {
            row,
            files,
            deleted,
            limit,
            places,
        })
    }

    /// Returns the job's rows in the catalogue, if its spans are these: the saved files in order of
    /// index, and then the deletions in their order. The row of each file agrees with the file.
    ///
    /// # Errors
    ///
    /// `BadRow` if the spans do not fit together.
    #[tactic(auto, unfolding(br_model::specs::Session::rows_of))]
    pub fn rows(&self, alloc: Global, spans: &[Span]) -> Result<JobRows, HistoryFault>
        ensures answers { Answers (λ rows. rows) cause result
            (checked_rows (rows_of self.now.row self.now.files self.now.deleted spans.now)) }
        ensures job { IfOk result (λ rows. IsJobWith self.now.files rows) }
        ensures refused { IfErr result (λ why. (why ≡ Memory) ⊎ AllByRecursion IsToSave self.now.files) }
    {
        let row = self.row.copy(alloc)?;
        let files = file_rows(alloc, &self.files, &self.deleted)?;
        JobRows::new(row, files, copied_spans(alloc, spans)?)
    }

    /// Returns the job's own row.
    pub fn row(&self) -> &JobRow
        ensures same { result.now ≡ self.now.row }
        ensures valid { IsToCommit self.now }
    {
        &self.row
    }

    /// Returns the files that it saves, in order of index.
    pub fn files(&self) -> &[SavedFile]
        ensures same { result.now ≡ self.now.files }
        ensures valid { IsToCommit self.now }
    {
        &self.files
    }

    /// Returns the paths that it notes as deleted.
    pub fn deleted(&self) -> &[Path]
        ensures { result.now ≡ self.now.deleted }
    {
        &self.deleted
    }

    /// Returns the greatest size of its blocks, in bytes.
    pub fn limit(&self) -> u32
        ensures same { result ≡ self.now.limit }
        ensures valid { IsToCommit self.now }
    {
        self.limit
    }

    /// Returns the places for its blocks.
    pub fn places(&self) -> &[Place]
        ensures same { result.now ≡ self.now.places }
        ensures valid { IsToCommit self.now }
    {
        &self.places
    }
}
