//! Windows of a file of which the plain data are read again and written.
ghost use Rattle.std.specs.Prelude.{◌≡◌, ◌+◌, ◌<◌, length, Err, IfOk, OnErr, OnOk};
ghost use Rattle.std.specs.Io.KnownBytes.{Appends};
ghost use Rattle.std.specs.IoError.{error_kind};
ghost use Rattle.std.specs.declared.io.ErrorKind.TheVariants.{OutOfMemory};
ghost use Rattle.br_join.specs.Plain.{plain_bytes};
ghost use Rattle.br_records.specs.Records.{fragments};
ghost use Rattle.br_data.specs.ManyDrives.{GoOn, HaveFailed};
ghost use Rattle.br_sink.specs.declared.file_parts.PartsFault.TheVariants as why;
ghost use Rattle.br_reread_parts.specs.FileParts.{WritesFew};
ghost use Rattle.br_reread_parts.specs.Given.{GivesHit, GivesHits};
ghost use Rattle.br_reread_parts.specs.Windows.{AppendsPlain, data_bytes};

use crate::windows::push_data;
use br_data::{Data, OverMany, standing_stays, write_bytes};
use br_match::Hit;
use br_records::DATA;
use br_sink::PartsFault;
use br_volume::Drive;
use std::alloc::Global;
use std::io;
use std::io::{ErrorKind, Write};

/// Returns the fault of a file whose writer failed: `Memory` if memory ran out, else `Fault`.
fn write_fault(error: io::Error) -> PartsFault
    ensures memory { result ≡ why.Memory → error_kind error ≡ OutOfMemory }
    ensures fault { result ≡ why.Fault → error_kind error ≡ OutOfMemory → ⊥ }
    ensures changed { result ≡ why.Changed → ⊥ }
    ensures lost { result ≡ why.NoDriveLeft → ⊥ }
{
    match error.kind() {
        ErrorKind::OutOfMemory => PartsFault::Memory,
        _ => PartsFault::Fault,
    }
}

/// Returns the data of a hit in memory.
///
/// # Errors
///
/// `NoDriveLeft` if each drive failed, `Changed` if a volume no longer has as many bytes at the place, and
/// `Memory` if memory runs out.
fn read_part<D: Drive>(
    alloc: Global,
    many: &mut OverMany<'_, D>,
    hit: &Hit,
) -> Result<Data, PartsFault>
    ensures same { IfOk result (λ read. GivesHit many.old hit.now → read.bytes ≡ hit.now.fragment.bytes) }
    ensures changed { result ≡ Err why.Changed → GivesHit many.old hit.now → ⊥ }
    ensures lost { result ≡ Err why.NoDriveLeft → HaveFailed many.old many.new }
    ensures on { GoOn many.old many.new }
{
    match many.read(alloc, hit.spot, &hit.data) {
        Ok(read) => Ok(read),
        Err(fault) => Err(PartsFault::from(fault)),
    }
}

/// Reads the data of a hit, if they are plain, and appends them to a window.
///
/// # Errors
///
/// As `read_part`, and `Memory` if memory runs out.
#[tactic(auto, using(br_data::proofs::GoOnLaws::go_itself))]
fn push_part<D: Drive>(
    alloc: Global,
    many: &mut OverMany<'_, D>,
    hit: &Hit,
    window: &mut Vec<Data>,
) -> Result<(), PartsFault>
    ensures same { OnOk result (GivesHit many.old hit.now → AppendsPlain window.old.items window.new.items hit.now.fragment) }
    ensures changed { result ≡ Err why.Changed → GivesHit many.old hit.now → ⊥ }
    ensures lost { result ≡ Err why.NoDriveLeft → HaveFailed many.old many.new }
    ensures on { GoOn many.old many.new }
{
    if hit.stream.unsigned_abs() != DATA {
        return Ok(());
    }
    let found = read_part(alloc, many, hit)?;
    push_data(window, found)?;
    Ok(())
}

/// Reads the plain data of the hits, one after another.
///
/// # Errors
///
/// As `push_part`.
#[tactic(auto, using(br_data::proofs::GoOnLaws::go_itself, br_data::proofs::GoOnLaws::go_more, br_data::proofs::GoOnLaws::failed_on))]
pub(crate) fn read_window<D: Drive>(
    alloc: Global,
    many: &mut OverMany<'_, D>,
    hits: &[Hit],
) -> Result<Vec<Data>, PartsFault>
    ensures same { IfOk result (λ read. GivesHits many.old hits.now → data_bytes read.items ≡ plain_bytes (fragments hits.now)) }
    ensures changed { result ≡ Err why.Changed → GivesHits many.old hits.now → ⊥ }
    ensures lost { result ≡ Err why.NoDriveLeft → HaveFailed many.old many.new }
    ensures on { GoOn many.old many.new }
{
    standing_stays();
    let mut window = Vec::with_capacity(alloc, hits.len())?;
    for hit in hits {
        push_part(alloc, many, hit, &mut window)?;
    }
    Ok(window)
}

/// Writes the bytes that follow.
///
/// # Errors
///
/// `Changed` if they are more than may follow. `Fault` if the writer failed, and `Memory` if memory ran out.
fn write_next<W: Write>(left: &mut u64, bytes: &[u8], writer: &mut W) -> Result<(), PartsFault>
    ensures left { OnOk result (left.new + length bytes.now ≡ left.old) }
    ensures written { OnOk result (Appends (W.contents writer.old) (W.contents writer.new) bytes.now) }
    ensures changed { result ≡ Err why.Changed → left.old < length bytes.now }
    ensures more { left.old < length bytes.now → result ≡ Err why.Changed }
    ensures lost { result ≡ Err why.NoDriveLeft → ⊥ }
    ensures front { OnErr result (WritesFew left.old (W.contents writer.old) (W.contents writer.new)) }
{
    let Some(rest) = left.checked_sub(bytes.len() as u64) else {
        return Err(PartsFault::Changed);
    };
    if let Err(error) = write_bytes(writer, bytes) {
        return Err(write_fault(error));
    }
    *left = rest;
    Ok(())
}

/// Writes data that are in memory.
///
/// # Errors
///
/// As `write_next`, and `Memory` if they are not in memory.
fn write_data<W: Write>(left: &mut u64, found: &Data, writer: &mut W) -> Result<(), PartsFault>
    ensures left { OnOk result (left.new + length found.now.bytes ≡ left.old) }
    ensures written { OnOk result (Appends (W.contents writer.old) (W.contents writer.new) found.now.bytes) }
    ensures changed { result ≡ Err why.Changed → left.old < length found.now.bytes }
    ensures lost { result ≡ Err why.NoDriveLeft → ⊥ }
    ensures front { OnErr result (WritesFew left.old (W.contents writer.old) (W.contents writer.new)) }
{
    match found.held() {
        Some(bytes) => write_next(left, bytes, writer),
        None => Err(PartsFault::Memory),
    }
}

/// Writes the data of a window.
///
/// # Errors
///
/// As `write_data`.
pub(crate) fn write_window<W: Write>(
    left: &mut u64,
    window: &[Data],
    writer: &mut W,
) -> Result<(), PartsFault>
    ensures left { OnOk result (left.new + length (data_bytes window.now) ≡ left.old) }
    ensures written { OnOk result (Appends (W.contents writer.old) (W.contents writer.new) (data_bytes window.now)) }
    ensures changed { result ≡ Err why.Changed → left.old < length (data_bytes window.now) }
    ensures lost { result ≡ Err why.NoDriveLeft → ⊥ }
    ensures front { WritesFew left.old (W.contents writer.old) (W.contents writer.new) }
{
    for found in window {
        write_data(left, found, writer)?;
    }
    Ok(())
}
