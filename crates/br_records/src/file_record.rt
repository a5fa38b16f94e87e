ghost use Rattle.std.specs.Prelude.{◌≡◌, ◌++◌, bytes_eq, length, min, ◌-◌, ◌^◌, slice_index, drop, IfOk, IfSome, OnOk, All};
ghost use Rattle.br_model.specs.Answer.{Answers, refused_as};
ghost use Rattle.br_model.specs.File.{fault};
ghost use Rattle.br_model.specs.File as model;
ghost use Rattle.br_model.specs.Meaning as meaning;
ghost use Rattle.br_model.specs.Record.{join};
ghost use Rattle.br_data.specs.BodyParts.{joined};
ghost use Rattle.br_records.specs.Making.{cause};
ghost use Rattle.br_records.specs.Opening.{IsOpenAfter};
ghost use Rattle.br_records.specs.Records.{fragments};

use crate::making_fault::{FileFault, MakingFault};
use crate::parts::{are_bytes, byte_at, length_of, push_bytes, share_bytes};
use br_data::Part;
use br_match::Hit;
use br_types::FileIndex;
use std::alloc::{AllocError, Global};
use std::marker::Model;

/// A record of a file, as the fragments that form it.
#[derive(Drop)]
pub struct FileRecord<'h> {
    index: FileIndex,
    stream: u32,
    parts: &'h [Hit],
}

impl<'h> Model for FileRecord<'h> {
    ghost use Rattle.br_model.specs.Record as model;
    ghost use Rattle.br_records.specs.Records.{bytes_in};

    ghost Value = { model.Record };

    ghost view = { λ r. record { index = r.index; stream = r.stream; bytes = bytes_in r.parts.now } };
}

impl<'h> FileRecord<'h> {
    /// Returns the stream of the record.
    pub(crate) fn stream(&self) -> u32
        ensures { result ≡ self.now.stream }
    {
        self.stream
    }

    /// Returns whether the record is of this stream.
    pub(crate) fn is_stream(&self, stream: u32) -> bool
        ensures { result ≡ model.is_stream stream self.now }
    {
        self.stream == stream
    }

    /// Returns the number of bytes, at most 2^64 - 1.
    pub(crate) fn len(&self) -> u64
        ensures { result ≡ min (length self.now.bytes) (2 ^ 64 - 1) }
    {
        length_of(self.parts)
    }

    /// Returns the byte at a place; 0 past the last byte; `AllocError` if it is not in memory.
    pub(crate) fn byte(&self, place: usize) -> Result<u8, AllocError>
        ensures { IfOk result (λ byte. byte ≡ slice_index self.now.bytes place) }
    {
        byte_at(self.parts, place)
    }

    /// Returns whether the record has these bytes; `AllocError` if its bytes are not in memory.
    pub fn has_bytes(&self, bytes: &[u8]) -> Result<bool, AllocError>
        ensures { IfOk result (λ same. same ≡ bytes_eq self.now.bytes bytes.now) }
    {
        are_bytes(self.parts, bytes)
    }

    /// Returns the bytes, if they are in one fragment, and in memory.
    pub(crate) fn in_one_piece(&self) -> Option<&[u8]>
        ensures { IfSome result (λ bytes. bytes.now ≡ self.now.bytes) }
    {
        match self.parts {
            [part] => part.data.held(),
            _ => None,
        }
    }

    /// Appends the bytes, without the first `skip`.
    pub(crate) fn push_to(&self, bytes: &mut Vec<u8>, skip: usize) -> Result<(), AllocError>
        ensures { OnOk result (bytes.new.items ≡ bytes.old.items ++ drop skip self.now.bytes) }
    {
        push_bytes(bytes, skip, self.parts)
    }

    /// Appends the bytes, without the first `skip`, to the parts of a file. They are shared.
    pub(crate) fn share_to(&self, file: &mut Vec<Part>, skip: usize) -> Result<(), AllocError>
        ensures { OnOk result (joined file.new.items ≡ joined file.old.items ++ drop skip self.now.bytes) }
    {
        share_bytes(file, skip, self.parts)
    }
}

/// An open record: its stream, and the number of bytes that are still to come.
#[derive(Clone, Copy)]
struct Open {
    stream: u32,
    left: u64,
}

/// Returns the record after one more fragment.
///
/// # Errors
///
/// `Orphan` if it continues a record but none is open, `Torn` if it does not continue the open one,
/// `SizeDiffers` if it gives another number of bytes than are still to come.
#[tactic(auto, unfolding(br_model::specs::Record::with_fragment))]
fn with_hit(opened: Option<Open>, hit: &Hit) -> Result<Open, FileFault>
    ensures { IsOpenAfter opened hit.now result }
{
    let left = u64::from(hit.size).saturating_sub(hit.data.len() as u64);
    let stream = hit.stream.unsigned_abs();
    match opened {
        None if hit.stream < 0 => Err(FileFault::Orphan),
        None => Ok(Open { stream, left }),
        Some(record) if hit.stream >= 0 || stream != record.stream => Err(FileFault::Torn),
        Some(record) if u64::from(hit.size) != record.left => Err(FileFault::SizeDiffers),
        Some(_) => Ok(Open { stream, left }),
    }
}

/// Returns the records of one file's fragments, in order. Each record borrows its fragments.
///
/// # Errors
///
/// `Orphan`, `Torn` or `SizeDiffers` at the first fragment that does not fit, `Torn` if the last
/// record is not whole.
pub fn records_of<'h>(
    alloc: Global,
    index: FileIndex,
    hits: &'h [Hit],
) -> Result<Vec<FileRecord<'h>>, MakingFault>
    requires { All (λ (h : meaning.Hit). h.key.index ≡ index) hits.now }
    ensures { Answers (λ records. records.items) cause result (refused_as fault (join (fragments hits.now))) }
{
    let mut records = Vec::new(alloc);
    let mut opened = None;
    let mut first = 0;
    for (i, hit) in hits.iter().enumerate() {
        let next = with_hit(opened, hit)?;
        if next.left > 0 {
            opened = Some(next);
        } else {
            records
                .push(FileRecord {
                    index,
                    stream: next.stream,
                    parts: &hits[first..i + 1],
                })
                .map_err(AllocError::from)?;
            opened = None;
            first = i + 1;
        }
    }
    match opened {
        None => Ok(records),
        Some(_) => Err(MakingFault::File(FileFault::Torn)),
    }
}
