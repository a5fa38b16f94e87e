//! Facts about jobs and the rows of a catalogue. The calls do nothing: a caller makes one for
//! its clauses.

ghost use Rattle.std.specs.Prelude.{◌≡◌, ◌<◌, ◌≤◌, ◌^◌, Bool, List, Ok, true, length};
ghost use Rattle.hex.specs.Hex.{IsBytes};
ghost use Rattle.br_model.specs.Name.{is_letter, is_name};
ghost use Rattle.br_model.specs.Job.{JobRow as Job, JobRows as Whole, clash, is_job_row, no_pair};
ghost use Rattle.br_catalog_rows.specs.Decode.{IsDigest, FilesReadBack, SpansReadBack, job_row, read_job};
ghost use Rattle.br_catalog_rows.specs.Inserted.{IsFileRow, IsSpan, Tried, by_id, accepted};
ghost use Rattle.br_catalog_rows.specs.Load.{NeededLoads, read_history};
ghost use Rattle.br_catalog_rows.specs.Rows.{Rows};

use br_history::{FileRow, JobRow};
use br_session::Span;
use br_types::SessionKey;

/// States that a job, a span and a file are read back from the rows that are written for them.
pub fn rows_read_back()
    ensures job { (j : Job) → is_job_row j ≡ true → read_job (job_row j) ≡ Ok j }
    ensures span { SpansReadBack }
    ensures file { FilesReadBack }
{}

/// States which history is loaded after jobs were tried one after another on a fresh catalogue. The
/// accepted jobs have different numbers and sessions. They are loaded in order of their
/// numbers, and refused jobs change nothing.
pub fn inserted_jobs_load()
    ensures loads { (tries : List (Whole × Bool)) (rows : Rows) → Tried tries rows → read_history rows ≡ Ok (by_id (accepted tries)) }
    ensures apart { (tries : List (Whole × Bool)) (rows : Rows) → Tried tries rows → no_pair clash (accepted tries) ≡ true }
{}

/// States which history is loaded from the rows of a history if only the files that are needed are
/// read: the same jobs with the same spans, of which those alone have files whose files are needed.
pub fn needed_files_load()
    ensures { NeededLoads }
{}

fn fits_32(number: u32)
    ensures { number < 2 ^ 32 }
{}

fn fits_64(number: u64)
    ensures { number < 2 ^ 64 }
{}

fn is_digest(bytes: [u8; 16])
    ensures length { length bytes ≡ 16 }
    ensures bytes { IsBytes bytes }
{}

fn may_be_digest(digest: Option<[u8; 16]>)
    ensures { IsDigest digest }
{
    match digest {
        Some(bytes) => is_digest(bytes),
        None => {}
    }
}

fn numbers_fit(row: &JobRow)
    ensures least { 1 ≤ row.now.id }
    ensures most { row.now.id < 2 ^ 32 }
    ensures start { row.now.start < 2 ^ 64 }
{
    let id = row.id.get();
    fits_32(id);
    fits_64(row.start);
}

fn session_fits(session: SessionKey)
    ensures id { session.id < 2 ^ 32 }
    ensures time { session.time < 2 ^ 32 }
{
    fits_32(session.id);
    fits_32(session.time);
}

fn are_words(row: &JobRow)
    ensures kind { is_letter row.now.kind ≡ true }
    ensures level { is_letter row.now.level ≡ true }
    ensures status { is_letter row.now.status ≡ true }
    ensures client { is_name row.now.client ≡ true }
    ensures fileset { is_name row.now.fileset ≡ true }
{
    let _kind = row.kind.get();
    let _level = row.level.get();
    let _status = row.status.get();
    let _client = row.client.bytes();
    let _fileset = row.fileset.bytes();
}

/// States that a job's number, letters, session and names are of their types.
pub fn job_is_whole(row: &JobRow)
    ensures { is_job_row row.now ≡ true }
{
    numbers_fit(row);
    are_words(row);
    session_fits(row.session);
}

/// States that the numbers of a span and the name of its volume are of their types.
pub fn span_is_whole(span: &Span)
    ensures { IsSpan span.now }
{
    let _volume = span.vol.bytes();
    fits_32(span.first);
    fits_32(span.last);
    fits_32(span.vol_index);
    fits_64(span.start);
    fits_64(span.end);
}

/// States that the index, the path, the numbers and the digest of a file are of their types.
pub fn file_is_whole(file: &FileRow)
    ensures { IsFileRow file.now }
{
    let _path = file.path.bytes();
    fits_32(file.index);
    may_be_digest(file.md5);
}
