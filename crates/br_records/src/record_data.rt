ghost use Rattle.std.specs.Prelude.{◌≡◌, ◌+◌, ◌-◌, ◌≤◌, length, drop, take, IfOk};
ghost use Rattle.std.specs.Int.{w64, from_be_bytes};
ghost use Rattle.br_model.specs.Answer.{Answers, refused_as};
ghost use Rattle.br_model.specs.File as model;
ghost use Rattle.br_data.specs.BodyParts.{joined};
ghost use Rattle.br_records.specs.Data.{fitting, laid, shown_extent};
ghost use Rattle.br_records.specs.Making.{cause};
ghost use Rattle.br_records.specs.Outline as outline;

use crate::file_record::FileRecord;
use crate::making_fault::{FileFault, MakingFault};
use crate::streams::{DATA, has_bytes};
use br_data::{Part, push_gap};
use std::alloc::AllocError;

/// The greatest length of a file in bytes.
pub const GREATEST_LEN: u64 = 1_073_741_824;

/// The length in bytes of the address before sparse data.
const ADDRESS_LEN: usize = 8;

/// The place of a record's data in its file: the bytes without the first `skip`, from `start` to
/// before `end`.
#[derive(Clone, Copy)]
struct Extent {
    start: usize,
    skip: usize,
    end: usize,
}

impl FileRecord<'_> {
    /// Returns the address before sparse data, eight bytes with the most significant first;
    /// `AllocError` if it is not in memory.
    fn address(&self) -> Result<u64, AllocError>
        ensures { IfOk result (λ address. address ≡ from_be_bytes w64 (take 8 self.now.bytes)) }
    {
        Ok(u64::from_be_bytes([
            self.byte(0)?,
            self.byte(1)?,
            self.byte(2)?,
            self.byte(3)?,
            self.byte(4)?,
            self.byte(5)?,
            self.byte(6)?,
            self.byte(7)?,
        ]))
    }

    /// Returns the extent of the bytes without the first `skip`, from an address on; `TooLarge` if
    /// it ends too late.
    fn extent_at(&self, start: u64, skip: usize) -> Result<Extent, MakingFault>
        requires { skip ≤ 8 }
        ensures same { Answers (shown_extent self.now.bytes) cause result (fitting start (drop skip self.now.bytes)) }
        ensures ends { IfOk result (λ e. e.end ≡ e.start + (length self.now.bytes - e.skip)) }
        ensures begins { IfOk result (λ e. e.start ≡ start) }
    {
        let len = self.len().saturating_sub(skip as u64);
        let end = start.saturating_add(len);
        if end > GREATEST_LEN {
            return Err(MakingFault::File(FileFault::TooLarge));
        }
        Ok(Extent {
            start: start as usize,
            skip,
            end: end as usize,
        })
    }

    /// Returns the extent of the data after the end of a file.
    ///
    /// # Errors
    ///
    /// `SparseBack` if the address is missing or before the end, `TooLarge` if the file would be
    /// too large.
    #[tactic(auto, unfolding(br_model::specs::File::extent_of))]
    fn extent_after(&self, end: usize) -> Result<Extent, MakingFault>
        ensures same { Answers (shown_extent self.now.bytes) cause result (refused_as model.fault (model.extent_of end self.now)) }
        ensures ends { IfOk result (λ e. e.end ≡ e.start + (length self.now.bytes - e.skip)) }
        ensures rises { IfOk result (λ e. end ≤ e.start) }
    {
        if self.is_stream(DATA) {
            return self.extent_at(end as u64, 0);
        }
        if self.len() < ADDRESS_LEN as u64 {
            return Err(MakingFault::File(FileFault::SparseBack));
        }
        let address = self.address()?;
        if address < end as u64 {
            return Err(MakingFault::File(FileFault::SparseBack));
        }
        self.extent_at(address, ADDRESS_LEN)
    }

    /// Appends the data to the parts of a file of length `end`, after zeros up to its address.
    /// Returns the new end. No byte is copied.
    ///
    /// # Errors
    ///
    /// Those of `extent_after`.
    pub fn push_data(&self, file: &mut Vec<Part>, end: usize) -> Result<usize, MakingFault>
        requires { end ≡ length (joined file.old.items) }
        ensures same { Answers (λ _. joined file.new.items) cause result (refused_as model.fault (laid (joined file.old.items) self.now)) }
        ensures ends { IfOk result (λ end. end ≡ length (joined file.new.items)) }
    {
        let extent = self.extent_after(end)?;
        push_gap(file, extent.start - end)?;
        self.share_to(file, extent.skip)?;
        Ok(extent.end)
    }

    /// Returns the end of a file of length `end` with the record. A record that is not data
    /// changes nothing.
    ///
    /// # Errors
    ///
    /// Those of `extent_after`.
    #[tactic(auto, unfolding(crate::specs::Outline::end_after))]
    fn end_after(&self, end: usize) -> Result<usize, MakingFault>
        ensures { Answers (λ e. e) cause result (refused_as model.fault (outline.end_after end self.now)) }
    {
        if !self.is_data() {
            return Ok(end);
        }
        let extent = self.extent_after(end)?;
        Ok(extent.end)
    }
}

/// Returns the number of bytes in some records; `SparseBack` or `TooLarge` at the first that
/// does not fit.
fn end_of(records: &[FileRecord<'_>]) -> Result<usize, MakingFault>
    ensures { Answers (λ e. e) cause result (refused_as model.fault (outline.end_from 0 records.now)) }
{
    let mut end = 0;
    for record in records {
        end = record.end_after(end)?;
    }
    Ok(end)
}

/// Returns the number of bytes of a file of this type. Only files of types 2 and 3 have any.
#[tactic(auto, unfolding(crate::specs::Outline::size_of))]
pub(crate) fn size_of(kind: u32, records: &[FileRecord<'_>]) -> Result<u64, MakingFault>
    ensures { Answers (λ size. size) cause result (refused_as model.fault (outline.size_of kind records.now)) }
{
    if !has_bytes(kind) {
        return Ok(0);
    }
    let end = end_of(records)?;
    Ok(end as u64)
}
