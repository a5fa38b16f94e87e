ghost use Rattle.std.specs.Prelude.{◌≡◌, filter};
ghost use Rattle.br_model.specs.Answer.{Answers, refused_as};
ghost use Rattle.br_model.specs.File as file;
ghost use Rattle.br_records.specs.Making.{cause, making_fault, read_or_64};

use crate::file_record::FileRecord;
use crate::making_fault::{FileFault, MakingFault};
use crate::streams::{ATTRIBUTES, count_in, first_in};
use br_attr::{Attr, AttrFault};
use br_types::FileIndex;
use std::alloc::Global;

/// Returns the fault of a file whose attributes were refused: `BadAttributes`, unless memory ran
/// out.
fn of_attr_fault(fault: AttrFault) -> MakingFault
    ensures { result ≡ making_fault fault }
{
    match fault {
        AttrFault::Memory => MakingFault::Memory,
        AttrFault::BadNumber
        | AttrFault::MissingField
        | AttrFault::BadName
        | AttrFault::IndexDiffers => MakingFault::File(FileFault::BadAttributes),
    }
}

/// Returns the attributes in a record's bytes, or `BadAttributes`.
fn attributes_in(alloc: Global, index: FileIndex, bytes: &[u8]) -> Result<Attr, MakingFault>
    ensures { Answers (λ attr. attr) cause result (read_or_64 bytes.now index) }
{
    match Attr::read(alloc, bytes, index) {
        Ok(attr) => Ok(attr),
        Err(fault) => Err(of_attr_fault(fault)),
    }
}

/// Returns the attributes in a record. Copies the bytes only if they are in more than one fragment.
fn attributes_of_record(
    alloc: Global,
    index: FileIndex,
    found: &FileRecord<'_>,
) -> Result<Attr, MakingFault>
    ensures { Answers (λ attr. attr) cause result (read_or_64 found.now.bytes index) }
{
    if let Some(bytes) = found.in_one_piece() {
        return attributes_in(alloc, index, bytes);
    }
    let mut bytes = Vec::new(alloc);
    found.push_to(&mut bytes, 0)?;
    attributes_in(alloc, index, &bytes)
}

/// Returns the attributes of a file.
///
/// # Errors
///
/// `NoAttributes` if no record has them, `BadAttributes` if two records do or they cannot be read.
#[tactic(auto, unfolding(br_model::specs::File::attributes_of))]
pub fn attributes_of(
    alloc: Global,
    index: FileIndex,
    records: &[FileRecord<'_>],
) -> Result<Attr, MakingFault>
    ensures { Answers (λ attr. attr) cause result (refused_as file.fault (file.attributes_of index (filter (file.is_stream 1) records.now))) }
{
    match first_in(ATTRIBUTES, records) {
        None => Err(MakingFault::File(FileFault::NoAttributes)),
        Some(found) if count_in(ATTRIBUTES, records) == 1 => {
            attributes_of_record(alloc, index, found)
        }
        Some(_) => Err(MakingFault::File(FileFault::BadAttributes)),
    }
}
