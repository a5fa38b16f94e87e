//! A part of the bytes of a file: zeros, bytes that were made, or the data of a fragment.
ghost use Rattle.std.specs.Prelude.{◌≡◌, ℕ, List, ◌++◌, drop, replicate, IfOk, OnErr, OnOk};
ghost use Rattle.std.specs.Io.KnownBytes.{Appends};
ghost use Rattle.md5.specs.Md5.{Holds};
ghost use Rattle.br_data.specs.BodyParts.{part_bytes, joined};
ghost use Rattle.br_data.specs.BodyWritten.{AppendsFront};

use crate::body_writing::{write_bytes, write_some};
use crate::data::Data;
use md5::{Digest, Md5};
use std::alloc::AllocError;
use std::io;
use std::io::Write;
use std::sync::ArcSlice;

/// The number of zeros that one call writes or digests.
const ZEROS_LEN: usize = 4096;

/// A part of the bytes of a file.
#[derive(Drop)]
pub enum Part {
    /// This number of zeros, the gap before sparse data.
    Zeros(usize),
    /// Bytes that were made, and of which no volume has a copy.
    Made(ArcSlice<u8>),
    /// The data of a fragment without the first `skip` bytes. They are shared with the fragment.
    Found { skip: usize, kept: Data },
}

/// Returns these bytes without the first `skip`.
fn without_first(bytes: &[u8], skip: usize) -> &[u8]
    ensures { result.now ≡ drop skip bytes.now }
{
    &bytes[skip.min(bytes.len())..]
}

/// Returns the data of a fragment without the first `skip` bytes.
///
/// # Errors
///
/// `AllocError` if they are not in memory.
fn held_from(kept: &Data, skip: usize) -> Result<&[u8], AllocError>
    ensures { IfOk result (λ bytes. bytes.now ≡ drop skip kept.now.bytes) }
{
    match kept.held() {
        Some(bytes) => Ok(without_first(bytes, skip)),
        None => Err(AllocError),
    }
}

/// Digests `count` zeros.
fn digest_zeros(hasher: &mut Md5, count: usize)
    ensures { (m : List ℕ) → Holds hasher.old m → Holds hasher.new (m ++ replicate count 0) }
{
    let zeros = [0; ZEROS_LEN];
    let mut left = count;
    while left > 0 {
        let next = left.min(ZEROS_LEN);
        let (some, _) = zeros.split_at(next);
        hasher.update(some);
        left -= next;
    }
}

/// Writes `count` zeros, or the first of them if a write fails.
fn write_zeros<W: Write>(writer: &mut W, count: usize) -> io::Result<()>
    ensures all { OnOk result (Appends (W.contents writer.old) (W.contents writer.new) (replicate count 0)) }
    ensures front { OnErr result (AppendsFront (W.contents writer.old) (W.contents writer.new) (replicate count 0)) }
{
    let zeros = [0; ZEROS_LEN];
    let mut left = count;
    while left > 0 {
        let next = left.min(ZEROS_LEN);
        let (some, _) = zeros.split_at(next);
        left -= write_some(writer, some)?;
    }
    Ok(())
}

/// Digests the data of a fragment without the first `skip` bytes.
fn digest_found(hasher: &mut Md5, kept: &Data, skip: usize) -> Result<(), AllocError>
    ensures { OnOk result ((m : List ℕ) → Holds hasher.old m → Holds hasher.new (m ++ drop skip kept.now.bytes)) }
{
    let bytes = held_from(kept, skip)?;
    hasher.update(bytes);
    Ok(())
}

/// Writes the data of a fragment without the first `skip` bytes. If a write fails, the first of
/// these are written.
fn write_found<W: Write>(writer: &mut W, kept: &Data, skip: usize) -> io::Result<()>
    ensures all { OnOk result (Appends (W.contents writer.old) (W.contents writer.new) (drop skip kept.now.bytes)) }
    ensures front { OnErr result (AppendsFront (W.contents writer.old) (W.contents writer.new) (drop skip kept.now.bytes)) }
{
    match held_from(kept, skip) {
        Ok(bytes) => write_bytes(writer, bytes),
        Err(error) => Err(io::Error::from(error)),
    }
}

/// Appends a copy of the data of a fragment without the first `skip` bytes.
fn push_data(bytes: &mut Vec<u8>, kept: &Data, skip: usize) -> Result<(), AllocError>
    ensures { OnOk result (bytes.new.items ≡ bytes.old.items ++ drop skip kept.now.bytes) }
{
    let more = held_from(kept, skip)?;
    bytes.extend_from_slice(more)?;
    Ok(())
}

/// Appends `count` zeros to the bytes.
pub fn push_zeros(bytes: &mut Vec<u8>, count: usize) -> Result<(), AllocError>
    ensures { OnOk result (bytes.new.items ≡ bytes.old.items ++ replicate count 0) }
{
    match bytes.len().checked_add(count) {
        Some(len) => bytes.resize(len, 0),
        None => Err(AllocError),
    }
}

impl Part {
    /// Digests the bytes of the part.
    ///
    /// # Errors
    ///
    /// `AllocError` if they are not in memory.
    pub(crate) fn digest(&self, hasher: &mut Md5) -> Result<(), AllocError>
        ensures { OnOk result ((m : List ℕ) → Holds hasher.old m → Holds hasher.new (m ++ part_bytes self.now)) }
    {
        match self {
            Part::Zeros(count) => {
                digest_zeros(hasher, *count);
                Ok(())
            }
            Part::Made(bytes) => {
                hasher.update(bytes.as_slice());
                Ok(())
            }
            Part::Found { skip, kept } => digest_found(hasher, kept, *skip),
        }
    }

    /// Writes the bytes of the part, or the first of them if a write fails.
    ///
    /// # Errors
    ///
    /// Those of the writer; `OutOfMemory` if the bytes are not in memory.
    pub(crate) fn write_to<W: Write>(&self, writer: &mut W) -> io::Result<()>
        ensures all { OnOk result (Appends (W.contents writer.old) (W.contents writer.new) (part_bytes self.now)) }
        ensures front { OnErr result (AppendsFront (W.contents writer.old) (W.contents writer.new) (part_bytes self.now)) }
    {
        match self {
            Part::Zeros(count) => write_zeros(writer, *count),
            Part::Made(bytes) => write_bytes(writer, bytes),
            Part::Found { skip, kept } => write_found(writer, kept, *skip),
        }
    }

    /// Appends a copy of the bytes of the part.
    ///
    /// # Errors
    ///
    /// `AllocError` if memory runs out, or the bytes are not in memory.
    pub(crate) fn push_to(&self, bytes: &mut Vec<u8>) -> Result<(), AllocError>
        ensures { OnOk result (bytes.new.items ≡ bytes.old.items ++ part_bytes self.now) }
    {
        match self {
            Part::Zeros(count) => push_zeros(bytes, *count),
            Part::Made(made) => bytes.extend_from_slice(made),
            Part::Found { skip, kept } => push_data(bytes, kept, *skip),
        }
    }

    /// Leaves the bytes of a fragment on their volume: they are no longer in memory.
    pub(crate) fn let_go(&mut self)
        ensures { part_bytes self.new ≡ part_bytes self.old }
    {
        if let Part::Found { kept, .. } = self {
            kept.let_go();
        }
    }

    /// Returns a part that shares the bytes of this one.
    pub(crate) fn share(&self) -> Result<Part, AllocError>
        ensures { IfOk result (λ part. part_bytes part ≡ part_bytes self.now) }
    {
        match self {
            Part::Zeros(count) => Ok(Part::Zeros(*count)),
            Part::Made(bytes) => Ok(Part::Made(bytes.clone()?)),
            Part::Found { skip, kept } => Ok(Part::Found {
                skip: *skip,
                kept: kept.share()?,
            }),
        }
    }
}

/// Appends a part.
pub(crate) fn push_part(parts: &mut Vec<Part>, part: Part) -> Result<(), AllocError>
    ensures { OnOk result (joined parts.new.items ≡ joined parts.old.items ++ part_bytes part) }
{
    parts.push(part)?;
    Ok(())
}

/// Appends a gap of this number of zeros to the parts of a file.
pub fn push_gap(parts: &mut Vec<Part>, zeros: usize) -> Result<(), AllocError>
    ensures { OnOk result (joined parts.new.items ≡ joined parts.old.items ++ replicate zeros 0) }
{
    if zeros == 0 {
        return Ok(());
    }
    push_part(parts, Part::Zeros(zeros))
}

/// Appends the data of a fragment, without the first `skip` bytes, to the parts of a file. They are
/// shared.
pub fn push_found(parts: &mut Vec<Part>, skip: usize, kept: &Data) -> Result<(), AllocError>
    ensures { OnOk result (joined parts.new.items ≡ joined parts.old.items ++ drop skip kept.now.bytes) }
{
    let kept = kept.share()?;
    push_part(parts, Part::Found { skip, kept })
}
