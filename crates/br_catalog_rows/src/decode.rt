//! Jobs, spans and files read from the rows that queries show.

ghost use Rattle.std.specs.Prelude.{◌++◌, Ok};
ghost use Rattle.std.specs.String.{string_bytes};
ghost use Rattle.sqlite.specs.Order.{column};
ghost use Rattle.br_model.specs.Answer.{Answers};
ghost use Rattle.br_catalog_rows.specs.Fault.{rows_cause};
ghost use Rattle.br_catalog_rows.specs.Decode.{address_in, characters, digest, digest_in, path_in, string_in};
ghost use Rattle.br_catalog_rows.specs.Decode.{read_file, read_job, read_span};

use crate::fault::RowsFault;
use crate::value::{blob_at, letter_at, name_at, natural_at, small_at, text_at, volume_at};
use br_history::{FileRow, JobRow};
use br_session::Span;
use br_types::{JobId, Path, SessionKey};
use sqlite::Row;
use std::alloc::Global;

/// Returns the bytes of two parts, one after the other.
fn joined(alloc: Global, front: &[u8], rest: &[u8]) -> Result<Vec<u8>, RowsFault>
    ensures { Answers (λ b. b.items) rows_cause result (Ok (front.now ++ rest.now)) }
{
    let mut bytes = Vec::from_slice(alloc, front)?;
    bytes.extend_from_slice(rest)?;
    Ok(bytes)
}

/// Returns the path whose two parts are in these columns.
#[tactic(auto, unfolding(crate::specs::Decode::path_in, br_model::specs::Name::checked_path))]
pub(crate) fn path_at(
    alloc: Global,
    row: &Row,
    front: usize,
    rest: usize,
) -> Result<Path, RowsFault>
    ensures { Answers (λ p. p) rows_cause result (path_in (column row.now front) (column row.now rest)) }
{
    let bytes = joined(alloc, blob_at(row, front)?, blob_at(row, rest)?)?;
    Ok(Path::new(alloc, &bytes)?)
}

/// Returns the digest that this text writes in lower case digits, or none if the text is empty.
#[tactic(auto, unfolding(crate::specs::Decode::digest))]
fn digest_of(text: &[u8]) -> Result<Option<[u8; 16]>, RowsFault>
    ensures { Answers (λ d. d) rows_cause result (digest text.now) }
{
    if text.is_empty() {
        return Ok(None);
    }
    let mut bytes = [0u8; 16];
    let mut written = [0u8; 32];
    if hex::decode_to_slice(text, &mut bytes).is_err() {
        return Err(RowsFault::BadRows);
    }
    if hex::encode_to_slice(bytes, &mut written).is_err() || written.as_slice() != text {
        return Err(RowsFault::BadRows);
    }
    Ok(Some(bytes))
}

/// Returns the digest in a column, or none if the text there is empty.
#[tactic(auto, unfolding(crate::specs::Decode::digest_in))]
pub(crate) fn digest_at(row: &Row, at: usize) -> Result<Option<[u8; 16]>, RowsFault>
    ensures { Answers (λ d. d) rows_cause result (digest_in (column row.now at)) }
{
    digest_of(text_at(row, at)?)
}

/// Returns the characters that these bytes encode in UTF-8.
#[tactic(auto, unfolding(crate::specs::Decode::characters))]
fn characters_of(bytes: &[u8]) -> Result<&str, RowsFault>
    ensures { Answers (λ s. s.now) rows_cause result (characters bytes.now) }
{
    match std::str::from_utf8(bytes) {
        Ok(text) => Ok(text),
        Err(_) => Err(RowsFault::BadRows),
    }
}

/// Returns the characters in a column.
#[tactic(auto, unfolding(crate::specs::Decode::string_in))]
pub(crate) fn string_at(alloc: Global, row: &Row, at: usize) -> Result<String, RowsFault>
    ensures { Answers string_bytes rows_cause result (string_in (column row.now at)) }
{
    let text = characters_of(text_at(row, at)?)?;
    Ok(String::from_str(alloc, text)?)
}

/// Returns the address whose high and low half are in these columns.
#[tactic(auto, unfolding(crate::specs::Decode::address_in))]
fn address_at(row: &Row, file: usize, block: usize) -> Result<u64, RowsFault>
    ensures { Answers (λ n. n) rows_cause result (address_in (column row.now file) (column row.now block)) }
{
    let file = small_at(row, file)?;
    let block = small_at(row, block)?;
    Ok(u64::from(file) * 4_294_967_296 + u64::from(block))
}

/// Returns the job that a row shows.
#[tactic(auto, unfolding(crate::specs::Decode::read_job))]
pub(crate) fn job_of(alloc: Global, row: &Row) -> Result<JobRow, RowsFault>
    ensures { Answers (λ j. j) rows_cause result (read_job row.now) }
{
    let Some(id) = JobId::new(small_at(row, 0)?) else {
        return Err(RowsFault::BadRows);
    };
    let kind = letter_at(row, 1)?;
    let level = letter_at(row, 2)?;
    let client = name_at(alloc, row, 3)?;
    let status = letter_at(row, 4)?;
    let start = natural_at(row, 5)?;
    let fileset = name_at(alloc, row, 6)?;
    let session = SessionKey {
        id: small_at(row, 7)?,
        time: small_at(row, 8)?,
    };
    Ok(JobRow {
        id,
        kind,
        level,
        status,
        start,
        session,
        client,
        fileset,
    })
}

/// Returns the span that a row shows.
#[tactic(auto, unfolding(crate::specs::Decode::read_span))]
pub(crate) fn span_of(alloc: Global, row: &Row) -> Result<Span, RowsFault>
    ensures { Answers (λ s. s) rows_cause result (read_span row.now) }
{
    let vol = volume_at(alloc, row, 1)?;
    let first = small_at(row, 2)?;
    let last = small_at(row, 3)?;
    let start = address_at(row, 4, 6)?;
    let end = address_at(row, 5, 7)?;
    let vol_index = small_at(row, 8)?;
    Ok(Span {
        vol,
        first,
        last,
        start,
        end,
        vol_index,
    })
}

/// Returns the file that a row shows.
#[tactic(auto, unfolding(crate::specs::Decode::read_file))]
pub(crate) fn file_of(alloc: Global, row: &Row) -> Result<FileRow, RowsFault>
    ensures { Answers (λ f. f) rows_cause result (read_file row.now) }
{
    let index = small_at(row, 1)?;
    let path = path_at(alloc, row, 2, 3)?;
    let lstat = string_at(alloc, row, 4)?;
    let md5 = digest_at(row, 5)?;
    Ok(FileRow {
        path,
        index,
        lstat,
        md5,
    })
}
