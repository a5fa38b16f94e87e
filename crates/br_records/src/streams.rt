ghost use Rattle.std.specs.Prelude.{◌≡◌, length, filter, find, count_by};
ghost use Rattle.std.specs.List.{list_any};
ghost use Rattle.std.specs.Option.{option_copied};
ghost use Rattle.br_model.specs.Answer.{AnswersAlways};
ghost use Rattle.br_model.specs.File as model;
ghost use Rattle.br_records.specs.Making.{file_fault};

use crate::file_record::FileRecord;
use crate::making_fault::FileFault;

/// The stream of a file's attributes.
pub const ATTRIBUTES: u32 = 1;

/// The stream of plain data.
pub const DATA: u32 = 2;

/// The stream of the data's MD5 digest.
pub const DIGEST: u32 = 3;

/// The stream of sparse data: an address of eight bytes, the most significant first, and the bytes
/// at this address.
pub const SPARSE_DATA: u32 = 6;

/// The stream of the data's SHA-1 digest, which is skipped.
const SHA1_DIGEST: u32 = 10;

/// Returns whether a file of this type has bytes: types 2 and 3 do.
pub fn has_bytes(kind: u32) -> bool
    ensures { result ≡ model.has_bytes kind }
{
    kind == 2 || kind == 3
}

impl FileRecord<'_> {
    /// Returns whether the record is data.
    pub fn is_data(&self) -> bool
        ensures { result ≡ model.is_data self.now }
    {
        self.is_stream(DATA) || self.is_stream(SPARSE_DATA)
    }

    /// Returns whether the record is passed over: one of stream 10, or of 1000 to 1999.
    fn is_passed_over(&self) -> bool
        ensures { result ≡ model.is_passed_over self.now }
    {
        self.is_stream(SHA1_DIGEST) || (1000 <= self.stream() && self.stream() <= 1999)
    }

    /// Returns whether the record's stream is supported.
    fn is_supported(&self) -> bool
        ensures { result ≡ model.is_supported self.now }
    {
        self.is_stream(ATTRIBUTES)
            || self.is_data()
            || self.is_stream(DIGEST)
            || self.is_passed_over()
    }

    /// Returns whether the record is passed over, is data of a file without bytes, or is a digest
    /// that is not checked.
    fn is_skipped(&self, kind: u32, checked: bool) -> bool
        ensures { result ≡ model.is_skipped kind checked self.now }
    {
        self.is_passed_over()
            || (self.is_data() && !has_bytes(kind))
            || (self.is_stream(DIGEST) && !checked)
    }
}

/// Returns the first record of a stream.
pub fn first_in<'r, 'h>(stream: u32, records: &'r [FileRecord<'h>]) -> Option<&'r FileRecord<'h>>
    ensures { option_copied result ≡ find (model.is_stream stream) records.now }
{
    records.iter().find(|record| record.is_stream(stream))
}

/// Returns the number of records of a stream.
pub fn count_in(stream: u32, records: &[FileRecord<'_>]) -> usize
    ensures { result ≡ length (filter (model.is_stream stream) records.now) }
{
    records
        .iter()
        .filter(|record| record.is_stream(stream))
        .count()
}

/// Returns the number of records of a file that are skipped.
pub fn skipped_in(kind: u32, checked: bool, records: &[FileRecord<'_>]) -> u64
    ensures { result ≡ count_by (model.is_skipped kind checked) records.now }
{
    records
        .iter()
        .filter(|record| record.is_skipped(kind, checked))
        .count() as u64
}

/// Returns whether one of the records is sparse data.
pub fn has_sparse_data(records: &[FileRecord<'_>]) -> bool
    ensures { result ≡ list_any (model.is_stream 6) records.now }
{
    records.iter().any(|record| record.is_stream(SPARSE_DATA))
}

/// Returns whether the file's digest is checked: if the file has bytes and none of its data is
/// sparse.
pub fn checks_digest(kind: u32, records: &[FileRecord<'_>]) -> bool
    ensures { result ≡ model.checks_digest kind records.now }
{
    has_bytes(kind) && !has_sparse_data(records)
}

/// Returns `Unsupported` with the first stream that is not supported.
#[tactic(auto, unfolding(br_model::specs::File::unsupported))]
pub fn refuse_unsupported(records: &[FileRecord<'_>]) -> Result<(), FileFault>
    ensures { AnswersAlways (λ _. tt) file_fault result (model.unsupported records.now) }
{
    for record in records {
        if !record.is_supported() {
            return Err(FileFault::Unsupported(record.stream()));
        }
    }
    Ok(())
}
