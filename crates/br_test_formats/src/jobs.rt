//! Jobs, the rows of their files and their spans, as fields.
//!
//! A job is `ID:TLS:START`, with one letter each for type, level and status. After `@` comes its
//! session as `ID:TIME`; without it the session is `ID:7`. After `/` come client and file set as
//! `CLIENT/FILESET`; without them they are `mars/home`. Then come the rows of its files, each as
//! `;PATH,INDEX,LSTAT` or `;PATH,INDEX,LSTAT,N` with a digest of the bytes N, and its spans, each as
//! `!VOLUME:FIRST-LAST:START-END:NUMBER`.

use br_history::{FileRow, History, HistoryFault, JobRow, JobRows};
use br_plan::Request;
use br_session::Span;
use br_test_support::Case;
use br_types::{JobId, Letter, Name, Path, SessionKey};
use std::alloc::AllocError;

/// Reads a name.
fn name_of(case: &mut Case, field: &str) -> Option<Name> {
    let text = case.bytes_of(field);
    Name::new(case.alloc(), &text).ok()
}

/// Reads a path.
pub(crate) fn path_of(case: &mut Case, field: &str) -> Option<Path> {
    let text = case.bytes_of(field);
    Path::new(case.alloc(), &text).ok()
}

/// Reads a text.
fn text_of(case: &mut Case, field: &str) -> Option<String> {
    String::from_utf8(case.bytes_of(field)).ok()
}

/// Reads a request as `CLIENT:FILESET:MOMENT`.
pub(crate) fn request_of(case: &mut Case, field: &str) -> Option<Request> {
    let (client, rest) = case.split(field, ':');
    let (fileset, moment) = case.split(rest, ':');
    let moment = case.u64_of(moment);
    Some(Request {
        client: name_of(case, client)?,
        fileset: name_of(case, fileset)?,
        moment,
    })
}

/// Returns the letters of a type, a level and a status.
fn letters_of(text: &str) -> Option<[Letter; 3]> {
    let [kind, level, status] = text.as_bytes() else {
        return None;
    };
    Some([
        Letter::new(*kind)?,
        Letter::new(*level)?,
        Letter::new(*status)?,
    ])
}

/// Reads the session of the job with this number.
fn session_of(case: &mut Case, id: u32, field: &str) -> SessionKey {
    if field.is_empty() {
        return SessionKey { id, time: 7 };
    }
    let (id, time) = case.split(field, ':');
    SessionKey {
        id: case.u32_of(id),
        time: case.u32_of(time),
    }
}

/// Reads `ID:TLS:START` of the job of a session, a client and a file set.
fn row_with(case: &mut Case, job: &str, session: &str, names: &str) -> Option<JobRow> {
    let (id, rest) = case.split(job, ':');
    let (letters, start) = case.split(rest, ':');
    let (client, fileset) = case.split(names, '/');
    let (id, start) = (case.u32_of(id), case.u64_of(start));
    let session = session_of(case, id, session);
    let [kind, level, status] = letters_of(letters)?;
    Some(JobRow {
        id: JobId::new(id)?,
        kind,
        level,
        status,
        start,
        session,
        client: name_of(case, client)?,
        fileset: name_of(case, fileset)?,
    })
}

/// Reads the row of a job.
fn row_of(case: &mut Case, field: &str) -> Option<JobRow> {
    let (job, names) = field.split_once('/').unwrap_or((field, "mars/home"));
    let (job, session) = job.split_once('@').unwrap_or((job, ""));
    let row = row_with(case, job, session, names);
    if row.is_none() {
        case.fail("a field is no row of a job");
    }
    row
}

/// Returns the LStat of a word: sizes are 0, 3 (D), 14 (O) and -7 (-H) bytes, and links are hard
/// links of 14 bytes to file 1 (B) and 2 (C), and of 80 (BQ) to file 3 (D). Any other text is an
/// LStat itself.
fn lstat_by(word: &str) -> &str {
    match word {
        "empty" => "A A IGk B A A A A A A A A A A",
        "small" => "A A IGk B A A A D A A A A A A",
        "saved" => "A A IGk B A A A O A A A A A A",
        "below" => "A A IGk B A A A -H A A A A A A",
        "link1" => "A A IGk C A A A O A A A A A B",
        "link2" => "A A IGk C A A A O A A A A A C",
        "link3" => "A A IGk C A A A BQ A A A A A D",
        _ => word,
    }
}

/// Reads an LStat.
fn lstat_of(case: &mut Case, field: &str) -> Option<String> {
    text_of(case, lstat_by(field))
}

/// Reads the row of a file.
fn file_of(case: &mut Case, field: &str) -> Option<FileRow> {
    let (path, rest) = case.split(field, ',');
    let (index, rest) = case.split(rest, ',');
    let (lstat, digest) = rest.split_once(',').unwrap_or((rest, ""));
    let index = case.u32_of(index);
    Some(FileRow {
        path: path_of(case, path)?,
        index,
        lstat: lstat_of(case, lstat)?,
        md5: digest.parse::<u8>().ok().map(|byte| [byte; 16]),
    })
}

/// Reads a span.
fn span_of(case: &mut Case, field: &str) -> Option<Span> {
    let (vol, rest) = case.split(field, ':');
    let (files, rest) = case.split(rest, ':');
    let (bytes, number) = case.split(rest, ':');
    let (first, last) = case.split(files, '-');
    let (start, end) = case.split(bytes, '-');
    Some(Span {
        vol: case.vol_of(vol)?,
        first: case.u32_of(first),
        last: case.u32_of(last),
        start: case.u64_of(start),
        end: case.u64_of(end),
        vol_index: case.u32_of(number),
    })
}

/// Adds the row of a file.
fn push_file(case: &mut Case, files: &mut Vec<FileRow>, field: &str) {
    match file_of(case, field) {
        Some(file) => case.done(files.push(file).map_err(AllocError::from)),
        None => case.fail("a field is no row of a file"),
    }
}

/// Adds a span.
fn push_span(case: &mut Case, spans: &mut Vec<Span>, field: &str) {
    match span_of(case, field) {
        Some(span) => case.done(spans.push(span).map_err(AllocError::from)),
        None => case.fail("a field is no span"),
    }
}

/// Reads rows of files with `;` between them.
fn files_of(case: &mut Case, fields: &str) -> Vec<FileRow> {
    let mut files = Vec::new(case.alloc());
    if !fields.is_empty() {
        for field in fields.split(';') {
            push_file(case, &mut files, field);
        }
    }
    files
}

/// Reads spans with `!` between them.
fn spans_of(case: &mut Case, fields: &str) -> Vec<Span> {
    let mut spans = Vec::new(case.alloc());
    if !fields.is_empty() {
        for field in fields.split('!') {
            push_span(case, &mut spans, field);
        }
    }
    spans
}

/// Makes a job, if its rows fit.
pub(crate) fn made(case: &mut Case, field: &str) -> Option<Result<JobRows, HistoryFault>> {
    let (front, spans) = field.split_once('!').unwrap_or((field, ""));
    let (row, files) = front.split_once(';').unwrap_or((front, ""));
    let row = row_of(case, row)?;
    Some(JobRows::new(row, files_of(case, files), spans_of(case, spans)))
}

/// Makes a job.
pub(crate) fn job_of(case: &mut Case, field: &str) -> Option<JobRows> {
    let job = made(case, field)?.ok();
    if job.is_none() {
        case.fail("the rows of a job are refused");
    }
    job
}

/// Adds a job to a history, whose check takes its row.
pub(crate) fn add_job(case: &mut Case, history: &mut History, field: &str) {
    if let Some(job) = job_of(case, field)
        && (history.check(job.row()).is_err() || history.push(job).is_err())
    {
        case.fail("a job is refused");
    }
}

/// Makes the history of some jobs.
pub(crate) fn history_of(case: &mut Case, fields: &[&str]) -> History {
    let mut history = History::new(case.alloc());
    for field in fields {
        add_job(case, &mut history, field);
    }
    history
}
