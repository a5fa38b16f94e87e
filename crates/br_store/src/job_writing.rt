//! A job written row by row, in a transaction that a caller commits.

ghost use Rattle.std.specs.Prelude.{◌≡◌, [], ◌∷◌, OnOk, OnErr};
ghost use Rattle.std.specs.List.{AllByRecursion};
ghost use Rattle.sqlite.specs.State.{KeepsCommit};
ghost use Rattle.br_catalog_rows.specs.Rows.{with_spans, with_files, with_rows};
ghost use Rattle.br_catalog_rows.specs.Inserted.{IsFileRow, IsSpan};
ghost use Rattle.br_store.specs.Calls.{AddsJob, BorrowsSame, CommitsNothing, InCatalogue, InTransaction};
ghost use Rattle.br_store.specs.Held.{Writes, WritesFileOf, WritesJob, WritesJobOf, WritesSpanOf};

use crate::name_numbers::{Dictionary, name_id};
use br_catalog_rows::{
    cut, digits_of, file_is_whole, high_half, job_is_whole, low_half, span_is_whole,
};
use br_history::{FileRow, JobRow, JobRows};
use br_session::Span;
use br_types::SessionKey;
use sqlite::types::{ToSql, ValueRef};
use sqlite::{Alter, Error, ErrorCode, Transaction};

/// The letters of a job, each as a text.
#[derive(Clone, Copy)]
struct Letters<'a> {
    kind: &'a [u8],
    level: &'a [u8],
    status: &'a [u8],
}

/// The two parts of a path: the number of the front, and the rest.
#[derive(Clone, Copy)]
struct PathParts<'a> {
    path: u32,
    rest: &'a [u8],
}

/// Adds the row of a job with these letters and this session, whose client and file set have these
/// numbers.
fn put_job_row<'a, S: Alter>(
    tx: &mut Transaction<'_, S>,
    job: &JobRow,
    letters: &'a Letters<'a>,
    session: SessionKey,
    client: u32,
    fileset: u32,
) -> Result<(), Error>
    requires kind { letters.now.kind.now ≡ job.now.kind ∷ [] }
    requires level { letters.now.level.now ≡ job.now.level ∷ [] }
    requires status { letters.now.status.now ≡ job.now.status ∷ [] }
    requires session { session ≡ job.now.session }
    ensures same_reference { BorrowsSame tx.old.conn tx.new.conn }
    ensures added { InCatalogue S.Store tx.old.conn.now tx.new.conn.now (λ old new.
        WritesJobOf job.now client fileset old new result) }
    ensures kept { InTransaction S.Store tx.old.conn.now tx.new.conn.now (λ old new.
        OnErr result (KeepsCommit old new)) }
    ensures survives { CommitsNothing S.Store tx.old.conn.now tx.new.conn.now }
{
    let Ok(start) = i64::try_from(job.start) else {
        return Err(Error::SqliteFailure(ErrorCode::TooBig));
    };
    tx.execute(
        "INSERT INTO Job (JobId, Type, Level, ClientId, JobStatus, StartTime, FileSetId, VolSessionId, VolSessionTime) VALUES (?1, ?2, ?3, ?4, ?5, ?6, ?7, ?8, ?9)",
        &[
            job.id.get().to_sql(),
            ValueRef::Text(letters.kind),
            ValueRef::Text(letters.level),
            client.to_sql(),
            ValueRef::Text(letters.status),
            ValueRef::Int(start),
            fileset.to_sql(),
            session.id.to_sql(),
            session.time.to_sql(),
        ],
    )?;
    Ok(())
}

/// Adds the row of a span whose volume has this number.
fn put_span_row<S: Alter>(
    tx: &mut Transaction<'_, S>,
    job: u32,
    span: &Span,
    media: u32,
) -> Result<(), Error>
    ensures same_reference { BorrowsSame tx.old.conn tx.new.conn }
    ensures added { InCatalogue S.Store tx.old.conn.now tx.new.conn.now (λ old new.
        WritesSpanOf job span.now media old new result) }
    ensures kept { InTransaction S.Store tx.old.conn.now tx.new.conn.now (λ old new.
        OnErr result (KeepsCommit old new)) }
    ensures survives { CommitsNothing S.Store tx.old.conn.now tx.new.conn.now }
{
    tx.execute(
        "INSERT INTO JobMedia (JobId, MediaId, FirstIndex, LastIndex, StartFile, EndFile, StartBlock, EndBlock, VolIndex) VALUES (?1, ?2, ?3, ?4, ?5, ?6, ?7, ?8, ?9)",
        &[
            job.to_sql(),
            media.to_sql(),
            span.first.to_sql(),
            span.last.to_sql(),
            high_half(span.start).to_sql(),
            high_half(span.end).to_sql(),
            low_half(span.start).to_sql(),
            low_half(span.end).to_sql(),
            span.vol_index.to_sql(),
        ],
    )?;
    Ok(())
}

/// Adds the row of a file, given the two parts of its path, and its numbers and its digest as
/// texts.
fn put_file_row<'a, S: Alter>(
    tx: &mut Transaction<'_, S>,
    job: u32,
    index: u32,
    parts: &'a PathParts<'a>,
    lstat: &'a [u8],
    digest: &'a [u8],
) -> Result<(), Error>
    ensures same_reference { BorrowsSame tx.old.conn tx.new.conn }
    ensures added { InCatalogue S.Store tx.old.conn.now tx.new.conn.now (λ old new.
        WritesFileOf job index parts.now lstat.now digest.now old new result) }
    ensures kept { InTransaction S.Store tx.old.conn.now tx.new.conn.now (λ old new.
        OnErr result (KeepsCommit old new)) }
    ensures survives { CommitsNothing S.Store tx.old.conn.now tx.new.conn.now }
{
    tx.execute(
        "INSERT INTO File (FileIndex, JobId, PathId, Filename, LStat, MD5) VALUES (?1, ?2, ?3, ?4, ?5, ?6)",
        &[
            index.to_sql(),
            job.to_sql(),
            parts.path.to_sql(),
            ValueRef::Blob(parts.rest),
            ValueRef::Text(lstat),
            ValueRef::Text(digest),
        ],
    )?;
    Ok(())
}

/// Adds the row of a job.
pub(crate) fn put_job<S: Alter>(tx: &mut Transaction<'_, S>, job: &JobRow) -> Result<(), Error>
    ensures same_reference { BorrowsSame tx.old.conn tx.new.conn }
    ensures added { InCatalogue S.Store tx.old.conn.now tx.new.conn.now (λ old new.
        OnOk result (WritesJob job.now old new)) }
    ensures kept { InCatalogue S.Store tx.old.conn.now tx.new.conn.now (λ old new. OnErr result (KeepsCommit old new)) }
    ensures survives { CommitsNothing S.Store tx.old.conn.now tx.new.conn.now }
{
    let client = name_id(tx, Dictionary::Client, job.client.bytes())?;
    let fileset = name_id(tx, Dictionary::FileSet, job.fileset.bytes())?;
    put_job_row(
        tx,
        job,
        &Letters {
            kind: &[job.kind.get()],
            level: &[job.level.get()],
            status: &[job.status.get()],
        },
        job.session,
        client,
        fileset,
    )
}

/// Adds the row of a span.
fn put_span<S: Alter>(tx: &mut Transaction<'_, S>, job: u32, span: &Span) -> Result<(), Error>
    ensures same_reference { BorrowsSame tx.old.conn tx.new.conn }
    ensures added { InCatalogue S.Store tx.old.conn.now tx.new.conn.now (λ old new.
        OnOk result (Writes (with_spans job (span.now ∷ [])) old new)) }
    ensures kept { InCatalogue S.Store tx.old.conn.now tx.new.conn.now (λ old new. OnErr result (KeepsCommit old new)) }
    ensures survives { CommitsNothing S.Store tx.old.conn.now tx.new.conn.now }
{
    let media = name_id(tx, Dictionary::Media, span.vol.bytes())?;
    put_span_row(tx, job, span, media)
}

/// Adds the row of a file.
fn put_file<S: Alter>(tx: &mut Transaction<'_, S>, job: u32, file: &FileRow) -> Result<(), Error>
    ensures same_reference { BorrowsSame tx.old.conn tx.new.conn }
    ensures added { InCatalogue S.Store tx.old.conn.now tx.new.conn.now (λ old new.
        OnOk result (Writes (with_files job (file.now ∷ [])) old new)) }
    ensures kept { InCatalogue S.Store tx.old.conn.now tx.new.conn.now (λ old new. OnErr result (KeepsCommit old new)) }
    ensures survives { CommitsNothing S.Store tx.old.conn.now tx.new.conn.now }
{
    let (front, rest) = cut(file.path.bytes());
    let path = name_id(tx, Dictionary::Path, front)?;
    let parts = PathParts { path, rest };
    let lstat = file.lstat.as_bytes();
    match file.md5 {
        Some(digest) => { put_file_row(tx, job, file.index, &parts, lstat, &digits_of(digest)) }
        None => put_file_row(tx, job, file.index, &parts, lstat, &[]),
    }
}

/// Adds the rows of spans in turn.
pub(crate) fn put_spans<S: Alter>(
    tx: &mut Transaction<'_, S>,
    job: u32,
    spans: &[Span],
) -> Result<(), Error>
    ensures same_reference { BorrowsSame tx.old.conn tx.new.conn }
    ensures added { InCatalogue S.Store tx.old.conn.now tx.new.conn.now (λ old new.
        OnOk result (Writes (with_spans job spans.now) old new)) }
    ensures whole { OnOk result (AllByRecursion IsSpan spans.now) }
    ensures kept { InCatalogue S.Store tx.old.conn.now tx.new.conn.now (λ old new. OnErr result (KeepsCommit old new)) }
    ensures survives { CommitsNothing S.Store tx.old.conn.now tx.new.conn.now }
{
    for span in spans {
        span_is_whole(span);
        put_span(tx, job, span)?;
    }
    Ok(())
}

/// Adds the rows of files in turn.
pub(crate) fn put_files<S: Alter>(
    tx: &mut Transaction<'_, S>,
    job: u32,
    files: &[FileRow],
) -> Result<(), Error>
    ensures same_reference { BorrowsSame tx.old.conn tx.new.conn }
    ensures added { InCatalogue S.Store tx.old.conn.now tx.new.conn.now (λ old new.
        OnOk result (Writes (with_files job files.now) old new)) }
    ensures whole { OnOk result (AllByRecursion IsFileRow files.now) }
    ensures kept { InCatalogue S.Store tx.old.conn.now tx.new.conn.now (λ old new. OnErr result (KeepsCommit old new)) }
    ensures survives { CommitsNothing S.Store tx.old.conn.now tx.new.conn.now }
{
    for file in files {
        file_is_whole(file);
        put_file(tx, job, file)?;
    }
    Ok(())
}

/// Adds the rows of a job, of its spans and of its files.
pub(crate) fn write_job<S: Alter>(tx: &mut Transaction<'_, S>, rows: &JobRows) -> Result<(), Error>
    ensures same_reference { BorrowsSame tx.old.conn tx.new.conn }
    ensures added { InCatalogue S.Store tx.old.conn.now tx.new.conn.now (λ old new.
        OnOk result (Writes (with_rows rows.now) old new)) }
    ensures adds { InCatalogue S.Store tx.old.conn.now tx.new.conn.now (λ old new.
        OnOk result (AddsJob rows.now old new)) }
    ensures kept { InCatalogue S.Store tx.old.conn.now tx.new.conn.now (λ old new. OnErr result (KeepsCommit old new)) }
    ensures survives { CommitsNothing S.Store tx.old.conn.now tx.new.conn.now }
{
    let id = rows.row().id.get();
    job_is_whole(rows.row());
    put_job(tx, rows.row())?;
    put_spans(tx, id, rows.spans())?;
    put_files(tx, id, rows.files())
}
