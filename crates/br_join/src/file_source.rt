ghost use Rattle.std.specs.Prelude.{filter, []};
ghost use Rattle.br_model.specs.Answer.{Answers, refused_as};
ghost use Rattle.br_model.specs.File as model;
ghost use Rattle.br_records.specs.Making.{cause};
ghost use Rattle.br_join.specs.Data.{laid_from};
ghost use Rattle.br_join.specs.Plain.{bytes_of};
ghost use Rattle.br_join.specs.Source.{bytes_by};

use br_data::FileBytes;
use br_records::{FileFault, FileRecord, GREATEST_LEN, MakingFault, has_bytes};
use std::alloc::Global;

/// Where the bytes of a file come from.
#[derive(Drop)]
pub(crate) enum BytesSource {
    /// The data of its records, which are in memory.
    Records,
    /// These bytes: the data of its records, none of which are sparse.
    Read(FileBytes),
}

/// Returns the data of some records, or `SparseBack` or `TooLarge` at the first that does not fit.
fn data_of(alloc: Global, records: &[FileRecord<'_>]) -> Result<FileBytes, MakingFault>
    ensures { Answers (λ bytes. bytes) cause result (refused_as model.fault (laid_from [] (filter model.is_data records.now))) }
{
    let mut file = Vec::new(alloc);
    let mut end = 0;
    for record in records {
        if record.is_data() {
            end = record.push_data(&mut file, end)?;
        }
    }
    let bytes = FileBytes::from_parts(file, end)?;
    Ok(bytes)
}

/// Returns the bytes of a file of this type, in the data of its records. Only files of types 2 and 3
/// have any.
#[tactic(auto, unfolding(br_model::specs::File::file_bytes))]
fn file_bytes(
    alloc: Global,
    kind: u32,
    records: &[FileRecord<'_>],
) -> Result<FileBytes, MakingFault>
    ensures { Answers (λ bytes. bytes) cause result (refused_as model.fault (model.file_bytes kind records.now)) }
{
    if !has_bytes(kind) {
        let none = FileBytes::empty(alloc)?;
        return Ok(none);
    }
    data_of(alloc, records)
}

/// Returns the bytes of a file of this type, whose data are these, or `TooLarge`. Only files of types
/// 2 and 3 have any.
fn bytes_read(alloc: Global, kind: u32, plain: FileBytes) -> Result<FileBytes, MakingFault>
    ensures { Answers (λ bytes. bytes) cause result (refused_as model.fault (bytes_of kind plain)) }
{
    if !has_bytes(kind) {
        let none = FileBytes::empty(alloc)?;
        return Ok(none);
    }
    if plain.len() > GREATEST_LEN {
        return Err(MakingFault::File(FileFault::TooLarge));
    }
    Ok(plain)
}

impl BytesSource {
    /// Returns the bytes of a file of this type.
    ///
    /// # Errors
    ///
    /// `SparseBack` or `TooLarge` at the first data that does not fit.
    #[tactic(auto, unfolding(crate::specs::Source::bytes_by))]
    pub(crate) fn file_bytes(
        self,
        alloc: Global,
        kind: u32,
        records: &[FileRecord<'_>],
    ) -> Result<FileBytes, MakingFault>
        ensures { Answers (λ bytes. bytes) cause result (bytes_by self kind records.now) }
    {
        match self {
            BytesSource::Records => file_bytes(alloc, kind, records),
            BytesSource::Read(plain) => bytes_read(alloc, kind, plain),
        }
    }
}
