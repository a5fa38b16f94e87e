ghost use Rattle.std.specs.Prelude.{◌≡◌, filter, map, All, IfOk, IsErr, MatchOption, Err};
ghost use Rattle.br_model.specs.Answer.{Answers};
ghost use Rattle.br_model.specs.File as file;
ghost use Rattle.br_model.specs.Meaning as meaning;
ghost use Rattle.br_model.specs.Restored as model;
ghost use Rattle.br_records.specs.Making.{cause, file_fault};
ghost use Rattle.br_records.specs.Records.{fragments};
ghost use Rattle.br_join.specs.Outcome.{shown};
ghost use Rattle.br_join.specs.Plain.{plain_bytes, plain_data};
ghost use Rattle.br_join.specs.Source.{content_by};

use crate::file_source::BytesSource;
use crate::item::{Item, Outcome};
use br_data::FileBytes;
use br_match::Hit;
use br_records::{
    DIGEST, FileFault, FileRecord, MakingFault, attributes_of, checks_digest, count_in, first_in,
    has_sparse_data, records_of, refuse_unsupported, skipped_in,
};
use br_types::{FileIndex, FileKey, Path};
use std::alloc::{AllocError, Global};

/// Returns whether the digest, if there is one, is that of the bytes.
///
/// # Errors
///
/// `AllocError` if the digest is not in memory.
#[tactic(auto, unfolding(br_model::specs::File::digest_fits))]
fn digest_fits(records: &[FileRecord<'_>], bytes: &FileBytes) -> Result<bool, AllocError>
    ensures { IfOk result (λ fits. fits ≡ file.digest_fits (filter (file.is_stream 3) records.now) bytes.now) }
{
    match first_in(DIGEST, records) {
        None => Ok(true),
        Some(found) if count_in(DIGEST, records) == 1 => found.has_bytes(&bytes.digest()),
        Some(_) => Ok(false),
    }
}

/// Returns the file that its records make, with the bytes that `source` gives.
///
/// # Errors
///
/// `NoAttributes`, `BadAttributes`, `Unsupported`, then `SparseBack` or `TooLarge` for the first
/// data that does not fit, then `DigestDiffers`.
#[tactic(auto, unfolding(crate::specs::Source::content_by))]
fn content(
    alloc: Global,
    index: FileIndex,
    records: &[FileRecord<'_>],
    source: BytesSource,
) -> Result<Item, MakingFault>
    ensures { Answers (λ item. item) cause result (content_by index records.now source) }
{
    let attr = attributes_of(alloc, index, records)?;
    refuse_unsupported(records)?;
    let (kind, path, stat, link) = attr.into_parts();
    let bytes = source.file_bytes(alloc, kind, records)?;
    let checked = checks_digest(kind, records);
    if checked && !digest_fits(records, &bytes)? {
        return Err(MakingFault::File(FileFault::DigestDiffers));
    }
    Ok(Item {
        path,
        kind,
        stat,
        link,
        bytes,
        skipped: skipped_in(kind, checked, records),
    })
}

/// Returns the file that its fragments make, given in order of place.
#[tactic(auto, unfolding(br_model::specs::Restored::outcome_of, br_model::specs::File::content, crate::specs::Source::bytes_by, crate::specs::Source::content_by))]
fn file_of(alloc: Global, key: FileKey, hits: &[Hit]) -> Result<Item, MakingFault>
    requires { All (λ (h : meaning.Hit). h.key ≡ key) hits.now }
    ensures { Answers (λ item. item) cause result (model.outcome_of key (map (λ (h : meaning.Hit). h.fragment) hits.now)) }
{
    let records = records_of(alloc, key.index, hits)?;
    content(alloc, key.index, &records, BytesSource::Records)
}

/// Returns the file that its records make, if none of its data are sparse and its plain data are
/// `plain`.
///
/// # Errors
///
/// As `content`, and `Memory` if some of its data are sparse.
fn plain_content(
    alloc: Global,
    index: FileIndex,
    records: &[FileRecord<'_>],
    plain: FileBytes,
) -> Result<Item, MakingFault>
    ensures { plain ≡ plain_data records.now → Answers (λ item. item) cause result (file.content index records.now) }
{
    if has_sparse_data(records) {
        return Err(MakingFault::Memory);
    }
    content(alloc, index, records, BytesSource::Read(plain))
}

/// Returns the file that its fragments make, given in order of place, if none of its data are sparse
/// and its plain data are `plain`.
fn file_with(
    alloc: Global,
    key: FileKey,
    hits: &[Hit],
    plain: FileBytes,
) -> Result<Item, MakingFault>
    requires { All (λ (h : meaning.Hit). h.key ≡ key) hits.now }
    ensures { plain ≡ plain_bytes (fragments hits.now) → Answers (λ item. item) cause result (model.outcome_of key (fragments hits.now)) }
{
    let records = records_of(alloc, key.index, hits)?;
    plain_content(alloc, key.index, &records, plain)
}

/// Returns an outcome with this fault.
fn refused(fault: FileFault) -> Outcome
    ensures { shown result ≡ Err (file_fault fault) }
{
    Outcome::Fault {
        number: fault.number(),
        stream: fault.stream(),
    }
}

/// Returns the outcome of a file that could not be made, unless memory ran out.
fn no_file(why: MakingFault) -> Result<Outcome, AllocError>
    ensures { MatchOption (cause why) (IsErr result) (λ fault. IfOk result (λ outcome. shown outcome ≡ Err fault)) }
{
    match why {
        MakingFault::Memory => Err(AllocError),
        MakingFault::File(fault) => Ok(refused(fault)),
    }
}

/// Returns the outcome of a file from its fragments, given in order of place.
pub fn outcome_of(alloc: Global, key: FileKey, hits: &[Hit]) -> Result<Outcome, AllocError>
    requires { All (λ (h : meaning.Hit). h.key ≡ key) hits.now }
    ensures { IfOk result (λ outcome. shown outcome ≡ model.outcome_of key (map (λ (h : meaning.Hit). h.fragment) hits.now)) }
{
    match file_of(alloc, key, hits) {
        Ok(item) => Ok(Outcome::File(item)),
        Err(why) => no_file(why),
    }
}

/// Returns the outcome of a file from its fragments, given in order of place, and its plain data.
/// The fragments of plain data need not be in memory.
///
/// # Errors
///
/// `AllocError` if memory runs out, other data of the fragments are not in memory, or some are sparse.
pub fn outcome_with(
    alloc: Global,
    key: FileKey,
    hits: &[Hit],
    plain: FileBytes,
) -> Result<Outcome, AllocError>
    requires { All (λ (h : meaning.Hit). h.key ≡ key) hits.now }
    ensures { IfOk result (λ outcome. plain ≡ plain_bytes (fragments hits.now) → shown outcome ≡ model.outcome_of key (fragments hits.now)) }
{
    match file_with(alloc, key, hits, plain) {
        Ok(item) => Ok(Outcome::File(item)),
        Err(why) => no_file(why),
    }
}

/// Returns the outcome, or `NameDiffers` if the file has another path than the planned one.
#[tactic(auto, unfolding(br_model::specs::Restored::under_name))]
pub(crate) fn under_name(path: &Path, outcome: Outcome) -> Outcome
    ensures { shown result ≡ model.under_name path.now (shown outcome) }
{
    match outcome {
        Outcome::File(item) if item.path.bytes() != path.bytes() => {
            refused(FileFault::NameDiffers)
        }
        other => other,
    }
}
