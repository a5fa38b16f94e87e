//! Files whose bytes are read again, part by part, while they are put.
ghost use Rattle.std.specs.Prelude.{◌≡◌, Err, IfOk, OnErr};
ghost use Rattle.std.specs.Io.KnownBytes.{Appends};
ghost use Rattle.br_model.specs.File as model;
ghost use Rattle.br_sink.specs.FileParts.{AreAlike, WritesSome, again_fault, parts_fault, parts_number, with_bytes};
ghost use Rattle.br_sink.specs.declared.file_parts.PartsFault.TheVariants as why;

use crate::fault::SinkFault;
use br_data::AgainFault;
use br_join::{FileBytes, Item};
use std::alloc::{AllocError, Global};
use std::io::Write;
use thiserror::Error;

/// The reason why a file was not put part by part.
#[derive(Clone, Copy, Debug, Error)]
pub enum PartsFault {
    #[error("out of memory")]
    Memory,
    #[error("the sink failed to put a file")]
    Fault,
    /// No drive is left that gives its bytes.
    #[error("no drive is left that gives the data of the file")]
    NoDriveLeft,
    /// Its bytes are no longer those that were found.
    #[error("a volume was changed while it was read")]
    Changed,
}

impl PartsFault {
    /// Returns the number of the refusal: 1 out of memory, 70 no drive left, 72 a volume that was
    /// changed, 80 a sink that failed.
    pub fn number(self) -> u32
        ensures { result ≡ parts_number self }
    {
        match self {
            PartsFault::Memory => 1,
            PartsFault::Fault => 80,
            PartsFault::NoDriveLeft => 70,
            PartsFault::Changed => 72,
        }
    }
}

impl From<AllocError> for PartsFault {
    ghost from_gives = { λ _ e. e ≡ why.Memory };

    fn from(_e: AllocError) -> PartsFault {
        PartsFault::Memory
    }
}

impl From<SinkFault> for PartsFault {
    ghost from_gives = { λ fault e. e ≡ parts_fault fault };

    fn from(fault: SinkFault) -> PartsFault {
        match fault {
            SinkFault::Memory => PartsFault::Memory,
            SinkFault::Fault => PartsFault::Fault,
        }
    }
}

impl From<AgainFault> for PartsFault {
    ghost from_gives = { λ fault e. e ≡ again_fault fault };

    fn from(fault: AgainFault) -> PartsFault {
        match fault {
            AgainFault::Memory => PartsFault::Memory,
            AgainFault::Failed => PartsFault::NoDriveLeft,
            AgainFault::Changed => PartsFault::Changed,
        }
    }
}

/// A source that reads the bytes of a file again, one part after another.
pub trait Parts {
    /// It gives the bytes of this file unchanged.
    ghost gives: { Self → model.Item → Type 0 };

    /// Its state before it read, and a state that it may have after that.
    ghost goes_on: { Self → Self → Type 0 };

    /// Its state before it read, and one after each of its drives failed.
    ghost loses: { Self → Self → Type 0 };

    /// Writes the bytes of the file, each part as it is read, and returns them; they are not in
    /// memory. They have the length and the digest of the item's bytes.
    ///
    /// # Errors
    ///
    /// Some bytes may be written, at most as many as the item has.
    ///
    /// - `NoDriveLeft` if each drive failed.
    /// - `Changed` if a drive gives other bytes. One that gives the bytes of the item is never refused so.
    /// - `Fault` if the writer failed.
    /// - `Memory` if memory ran out, also that of the writer.
    fn write_to<W: Write>(&mut self, item: &Item, writer: &mut W) -> Result<FileBytes, PartsFault>
        ensures all { IfOk result (λ bytes. Appends (W.contents writer.old) (W.contents writer.new) bytes) }
        ensures alike { IfOk result (λ bytes. AreAlike bytes item.now.bytes) }
        ensures same { IfOk result (λ bytes. gives self.old item.now → bytes ≡ item.now.bytes) }
        ensures front { OnErr result (WritesSome item.now.bytes (W.contents writer.old) (W.contents writer.new)) }
        ensures changed { result ≡ Err why.Changed → gives self.old item.now → ⊥ }
        ensures lost { result ≡ Err why.NoDriveLeft → loses self.old self.new }
        ensures on { goes_on self.old self.new };

    /// The state may stay the same: then nothing was read.
    ghost stays: { (x : Self) → goes_on x x };
}

/// Reads the bytes of the file into memory.
///
/// # Errors
///
/// `NoDriveLeft`, `Changed` and `Memory`, as `Parts::write_to`.
fn read_all<P: Parts>(alloc: Global, item: &Item, parts: &mut P) -> Result<Vec<u8>, PartsFault>
    ensures alike { IfOk result (λ bytes. AreAlike bytes.items item.now.bytes) }
    ensures same { IfOk result (λ bytes. P.gives parts.old item.now → bytes.items ≡ item.now.bytes) }
    ensures never { result ≡ Err why.Fault → ⊥ }
    ensures changed { result ≡ Err why.Changed → P.gives parts.old item.now → ⊥ }
    ensures lost { result ≡ Err why.NoDriveLeft → P.loses parts.old parts.new }
    ensures on { P.goes_on parts.old parts.new }
{
    let mut bytes = Vec::new(alloc);
    match parts.write_to(item, &mut bytes) {
        Ok(_) => Ok(bytes),
        Err(PartsFault::NoDriveLeft) => Err(PartsFault::NoDriveLeft),
        Err(PartsFault::Changed) => Err(PartsFault::Changed),
        Err(PartsFault::Memory | PartsFault::Fault) => Err(PartsFault::Memory),
    }
}

/// Returns the file with these bytes.
fn item_with(alloc: Global, item: &Item, bytes: Vec<u8>) -> Result<Item, AllocError>
    ensures { IfOk result (λ made. made ≡ with_bytes item.now bytes.items) }
{
    Ok(Item {
        path: item.path.copy(alloc)?,
        kind: item.kind,
        stat: item.stat,
        link: Vec::from_slice(alloc, &item.link)?,
        bytes: FileBytes::new(alloc, bytes)?,
        skipped: item.skipped,
    })
}

/// Returns the file with its bytes in memory.
///
/// # Errors
///
/// `NoDriveLeft`, `Changed` and `Memory`, as `Parts::write_to`.
pub(crate) fn whole_of<P: Parts>(
    alloc: Global,
    item: &Item,
    parts: &mut P,
) -> Result<Item, PartsFault>
    ensures made { IfOk result (λ made. made ≡ with_bytes item.now made.bytes) }
    ensures alike { IfOk result (λ made. AreAlike made.bytes item.now.bytes) }
    ensures same { IfOk result (λ made. P.gives parts.old item.now → made.bytes ≡ item.now.bytes) }
    ensures never { result ≡ Err why.Fault → ⊥ }
    ensures changed { result ≡ Err why.Changed → P.gives parts.old item.now → ⊥ }
    ensures lost { result ≡ Err why.NoDriveLeft → P.loses parts.old parts.new }
    ensures on { P.goes_on parts.old parts.new }
{
    let bytes = read_all(alloc, item, parts)?;
    let whole = item_with(alloc, item, bytes)?;
    Ok(whole)
}
