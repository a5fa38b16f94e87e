//! The queries that read the catalogue.

ghost use Rattle.std.specs.Prelude.{◌≡◌, ◌∷◌, ◌++◌, [], false, filter, IsTrue, IfOk, OnOk, OnErr};
ghost use Rattle.sqlite.specs.Held.{state};
ghost use Rattle.sqlite.specs.State.{IsUnchanged, KeepsCommit};
ghost use Rattle.br_store.specs.Calls.{CommitsNothing, IsReadable, IsSame, KeepsSettled, OnCleanDisk, ShowsVersions, Stays, StaysIdle, WhileClean};
ghost use Rattle.br_store.specs.Held.{IsCatalogue, files_of_jobs, looked_at, rows_in, versions_in};
ghost use Rattle.br_store.specs.Queries.{select_files};
ghost use Rattle.br_catalog_rows.specs.Load as load;

use crate::laws::idle_is_settled;
use br_catalog_rows::{CatalogueRows, is_of_any};
use br_types::JobId;
use sqlite::{Alter, Connection, Error, ErrorCode, Row};
use std::alloc::Global;

/// Reads the versions.
pub(crate) fn versions<S: Alter>(conn: &mut Connection<S>) -> Result<Vec<Row>, Error>
    requires { ShowsVersions S.Store conn.old }
    ensures rows { OnCleanDisk S.Store conn.old conn.new (λ old new.
        IfOk result (λ rows. rows.items ≡ versions_in old.now.trees)) }
    ensures same { OnCleanDisk S.Store conn.old conn.new (λ old new. OnOk result (IsUnchanged old new)) }
    ensures stays { OnCleanDisk S.Store conn.old conn.new KeepsSettled }
    ensures idle { StaysIdle conn.old conn.new }
    ensures kept { OnCleanDisk S.Store conn.old conn.new (λ old new. OnErr result (KeepsCommit old new)) }
    ensures survives { CommitsNothing S.Store conn.old conn.new }
{
    conn.query_all("SELECT VersionId FROM Version ORDER BY rowid", &[])
}

/// Reads the jobs with the names of their clients and file sets, in order of JobId.
fn jobs<S: Alter>(conn: &mut Connection<S>) -> Result<Vec<Row>, Error>
    requires { IsReadable S.Store conn.old }
    ensures rows { OnCleanDisk S.Store conn.old conn.new (λ old new.
        IfOk result (λ rows. rows.items ≡ (rows_in old.now.trees).jobs)) }
    ensures same { OnCleanDisk S.Store conn.old conn.new (λ old new. OnOk result (IsUnchanged old new)) }
    ensures idle { StaysIdle conn.old conn.new }
    ensures kept { OnCleanDisk S.Store conn.old conn.new (λ old new. OnErr result (KeepsCommit old new)) }
    ensures survives { CommitsNothing S.Store conn.old conn.new }
{
    conn.query_all(
        "SELECT Job.JobId, Job.Type, Job.Level, Client.Name, Job.JobStatus, Job.StartTime, FileSet.FileSet, Job.VolSessionId, Job.VolSessionTime FROM Job JOIN Client ON Client.ClientId = Job.ClientId JOIN FileSet ON FileSet.FileSetId = Job.FileSetId ORDER BY Job.JobId",
        &[],
    )
}

/// Reads the spans with the names of their volumes, in order of JobMediaId.
fn spans<S: Alter>(conn: &mut Connection<S>) -> Result<Vec<Row>, Error>
    requires { IsReadable S.Store conn.old }
    ensures rows { OnCleanDisk S.Store conn.old conn.new (λ old new.
        IfOk result (λ rows. rows.items ≡ (rows_in old.now.trees).spans)) }
    ensures same { OnCleanDisk S.Store conn.old conn.new (λ old new. OnOk result (IsUnchanged old new)) }
    ensures idle { StaysIdle conn.old conn.new }
    ensures kept { OnCleanDisk S.Store conn.old conn.new (λ old new. OnErr result (KeepsCommit old new)) }
    ensures survives { CommitsNothing S.Store conn.old conn.new }
{
    conn.query_all(
        "SELECT JobMedia.JobId, Media.VolumeName, JobMedia.FirstIndex, JobMedia.LastIndex, JobMedia.StartFile, JobMedia.EndFile, JobMedia.StartBlock, JobMedia.EndBlock, JobMedia.VolIndex FROM JobMedia JOIN Media ON Media.MediaId = JobMedia.MediaId ORDER BY JobMedia.JobMediaId",
        &[],
    )
}

/// Returns the query for all files with the fronts of their paths, in order of FileId.
fn files_text() -> &'static str
    ensures { result.now ≡ select_files }
{
    "SELECT File.JobId, File.FileIndex, Path.Path, File.Filename, File.LStat, File.MD5 FROM File JOIN Path ON Path.PathId = File.PathId ORDER BY File.FileId"
}

/// Reads all files with the fronts of their paths, in order of FileId.
fn files<S: Alter>(conn: &mut Connection<S>) -> Result<Vec<Row>, Error>
    requires { IsReadable S.Store conn.old }
    ensures rows { OnCleanDisk S.Store conn.old conn.new (λ old new.
        IfOk result (λ rows. rows.items ≡ (rows_in old.now.trees).files)) }
    ensures same { OnCleanDisk S.Store conn.old conn.new (λ old new. OnOk result (IsUnchanged old new)) }
    ensures idle { StaysIdle conn.old conn.new }
    ensures kept { OnCleanDisk S.Store conn.old conn.new (λ old new. OnErr result (KeepsCommit old new)) }
    ensures survives { CommitsNothing S.Store conn.old conn.new }
{
    conn.query_all(files_text(), &[])
}

/// Appends a copy of the row of a file, if it belongs to one of these jobs.
fn keep(kept: &mut Vec<Row>, jobs: &[JobId], row: &Row) -> Result<(), Error>
    ensures { OnOk result (kept.new.items ≡ kept.old.items ++ filter (load.is_of_any jobs.now) (row.now ∷ [])) }
{
    if is_of_any(row, jobs) {
        kept.push(row.copy()?)?;
    }
    Ok(())
}

/// Reads the files of some jobs with the fronts of their paths, in order of FileId. It walks over
/// the rows of all files, a few at a time, and keeps none of another job.
fn files_of<S: Alter>(
    alloc: Global,
    conn: &mut Connection<S>,
    jobs: &[JobId],
) -> Result<Vec<Row>, Error>
    requires { IsReadable S.Store conn.old }
    ensures rows { OnCleanDisk S.Store conn.old conn.new (λ old new.
        IfOk result (λ rows. rows.items ≡ files_of_jobs jobs.now old.now.trees)) }
    ensures same { OnCleanDisk S.Store conn.old conn.new (λ old new. OnOk result (IsUnchanged old new)) }
    ensures idle { StaysIdle conn.old conn.new }
    ensures kept { OnCleanDisk S.Store conn.old conn.new (λ old new. OnErr result (KeepsCommit old new)) }
    ensures survives { CommitsNothing S.Store conn.old conn.new }
{
    let mut kept = Vec::new(alloc);
    let mut rows = conn.query(files_text(), &[])?;
    'rows: for _ in 0..u64::MAX {
        rows.advance()?;
        let Some(row) = rows.get() else {
            return Ok(kept);
        };
        keep(&mut kept, jobs, row)?;
    }
    Err(Error::SqliteFailure(ErrorCode::TooBig))
}

/// Reads the files of some jobs with the fronts of their paths, in order of FileId. If there are no
/// jobs, it reads nothing.
fn some_files<S: Alter>(
    alloc: Global,
    conn: &mut Connection<S>,
    jobs: &[JobId],
) -> Result<Vec<Row>, Error>
    requires tables { IsReadable S.Store conn.old }
    requires open { WhileClean S.Store conn.old (λ database. IsTrue database.is_open) }
    ensures rows { OnCleanDisk S.Store conn.old conn.new (λ old new.
        IfOk result (λ rows. rows.items ≡ files_of_jobs jobs.now old.now.trees)) }
    ensures same { OnCleanDisk S.Store conn.old conn.new (λ old new. OnOk result (IsUnchanged old new)) }
    ensures idle { StaysIdle conn.old conn.new }
    ensures kept { OnCleanDisk S.Store conn.old conn.new (λ old new. OnErr result (KeepsCommit old new)) }
    ensures survives { CommitsNothing S.Store conn.old conn.new }
{
    if jobs.is_empty() {
        return Ok(Vec::new(alloc));
    }
    files_of(alloc, conn, jobs)
}

/// Reads the files that are wanted: all, or those of some jobs.
fn wanted_files<S: Alter>(
    alloc: Global,
    conn: &mut Connection<S>,
    wanted: Option<&[JobId]>,
) -> Result<Vec<Row>, Error>
    requires tables { IsReadable S.Store conn.old }
    requires open { WhileClean S.Store conn.old (λ database. IsTrue database.is_open) }
    ensures rows { OnCleanDisk S.Store conn.old conn.new (λ old new.
        IfOk result (λ rows. rows.items ≡ (looked_at wanted.entry (rows_in old.now.trees)).files)) }
    ensures same { OnCleanDisk S.Store conn.old conn.new (λ old new. OnOk result (IsUnchanged old new)) }
    ensures idle { StaysIdle conn.old conn.new }
    ensures kept { OnCleanDisk S.Store conn.old conn.new (λ old new. OnErr result (KeepsCommit old new)) }
    ensures survives { CommitsNothing S.Store conn.old conn.new }
{
    match wanted {
        Some(jobs) => some_files(alloc, conn, jobs),
        None => files(conn),
    }
}

/// Reads the rows that are looked at: all, or of files those of some jobs alone.
fn catalogue_rows<S: Alter>(
    alloc: Global,
    conn: &mut Connection<S>,
    wanted: Option<&[JobId]>,
) -> Result<CatalogueRows, Error>
    requires { IsReadable S.Store conn.old }
    ensures rows { OnCleanDisk S.Store conn.old conn.new (λ old new.
        IfOk result (λ rows. rows ≡ looked_at wanted.entry (rows_in old.now.trees))) }
    ensures same { OnCleanDisk S.Store conn.old conn.new (λ old new. OnOk result (IsUnchanged old new)) }
    ensures idle { StaysIdle conn.old conn.new }
    ensures kept { OnCleanDisk S.Store conn.old conn.new (λ old new. OnErr result (KeepsCommit old new)) }
    ensures survives { CommitsNothing S.Store conn.old conn.new }
{
    let versions = versions(conn)?;
    let jobs = jobs(conn)?;
    let spans = spans(conn)?;
    let files = wanted_files(alloc, conn, wanted)?;
    Ok(CatalogueRows {
        versions,
        jobs,
        spans,
        files,
    })
}

/// Returns an error if the database is shut.
pub(crate) fn ready<S: Alter>(conn: &mut Connection<S>) -> Result<(), Error>
    requires { conn.old.in_transaction ≡ false }
    ensures idle { conn.new.in_transaction ≡ false }
    ensures open { OnCleanDisk S.Store conn.old conn.new (λ old new. OnOk result (IsTrue new.is_open)) }
    ensures same { OnCleanDisk S.Store conn.old conn.new Stays }
    ensures survives { CommitsNothing S.Store conn.old conn.new }
{
    idle_is_settled(conn);
    let prepared = conn.prepare("SELECT VersionId FROM Version");
    idle_is_settled(conn);
    match prepared {
        Ok(_) => Ok(()),
        Err(error) => Err(error),
    }
}

/// Reads the rows that are looked at of a catalogue that may be shut.
pub(crate) fn read<S: Alter>(
    alloc: Global,
    conn: &mut Connection<S>,
    wanted: Option<&[JobId]>,
) -> Result<CatalogueRows, Error>
    requires { IsCatalogue S.Store conn.old }
    ensures catalogue { IsCatalogue S.Store conn.new }
    ensures rows { OnCleanDisk S.Store conn.old conn.new (λ old new.
        IfOk result (λ rows. rows ≡ looked_at wanted.entry (rows_in old.now.trees))) }
    ensures open { OnCleanDisk S.Store conn.old conn.new (λ old new. OnOk result (IsTrue new.is_open)) }
    ensures same { OnCleanDisk S.Store conn.old conn.new (λ old new. IsTrue new.is_open → IsSame old new) }
    ensures survives { CommitsNothing S.Store conn.old conn.new }
{
    ready(conn)?;
    idle_is_settled(conn);
    let rows = catalogue_rows(alloc, conn, wanted);
    idle_is_settled(conn);
    rows
}
