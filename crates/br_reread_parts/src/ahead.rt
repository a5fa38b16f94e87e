//! A file whose data are written a window at a time, while those of the next window are read.
ghost use Rattle.std.specs.Prelude.{◌≡◌, ◌<◌, ◌++◌, length, Err, IfErr, IfOk, OnOk};
ghost use Rattle.br_data.specs.ManyDrives.{GoOn, HaveFailed};
ghost use Rattle.br_sink.specs.FileParts.{AreAlike};
ghost use Rattle.br_sink.specs.declared.file_parts.PartsFault.TheVariants as why;
ghost use Rattle.br_reread_parts.specs.FileParts.{WritesFew};
ghost use Rattle.br_reread_parts.specs.Given.{GivesHits};
ghost use Rattle.br_reread_parts.specs.Steps.{EndsOn, FitsAhead, OpensFile, PutsOn, PutsRest, WritesOn, end_of, step_of};
ghost use Rattle.br_reread_parts.specs.Windows.{data_bytes};

use crate::file_windows::{read_window, write_window};
use crate::likeness::are_alike;
use crate::windows::{PUT, cut_window, digest_window, share_window};
use br_data::{Data, OverMany, Reading, standing_stays};
use br_join::{FileBytes, Item};
use br_match::Hit;
use br_sink::PartsFault;
use br_volume::Drive;
use std::alloc::Global;
use std::io::Write;
use std::thread::{Threads, join_mut};

/// The next data of a file, the number of bytes that may follow, these included, and the hits after
/// them.
#[derive(Drop)]
pub(crate) struct Ahead<'h> {
    pub(crate) alloc: Global,
    pub(crate) window: Vec<Data>,
    pub(crate) left: u64,
    pub(crate) rest: &'h [Hit],
}

/// Reads the first data of a file. As many bytes may follow as the item has.
///
/// # Errors
///
/// As `read_window`.
pub(crate) fn open_file<'h, D: Drive>(
    alloc: Global,
    many: &mut OverMany<'_, D>,
    hits: &'h [Hit],
    item: &Item,
) -> Result<Ahead<'h>, PartsFault>
    ensures opened { IfOk result (OpensFile many.old hits.now item.now) }
    ensures changed { result ≡ Err why.Changed → GivesHits many.old hits.now → ⊥ }
    ensures lost { result ≡ Err why.NoDriveLeft → HaveFailed many.old many.new }
    ensures on { GoOn many.old many.new }
{
    let first = cut_window(hits, PUT);
    let window = read_window(alloc, many, first.window)?;
    Ok(Ahead {
        alloc,
        window,
        left: item.bytes.len(),
        rest: first.rest,
    })
}

/// Writes the next data, and reads those after them.
///
/// # Errors
///
/// As `write_window` and `read_window`.
#[tactic(auto, using(br_data::proofs::GoOnLaws::go_itself))]
pub(crate) fn write_ahead<D: Drive, W: Write>(
    many: &mut OverMany<'_, D>,
    ahead: &mut Ahead<'_>,
    writer: &mut W,
) -> Result<(), PartsFault>
    ensures written { OnOk result (WritesOn many.old (W.contents writer.old) (W.contents writer.new) ahead.old ahead.new) }
    ensures front { WritesFew ahead.old.left (W.contents writer.old) (W.contents writer.new) }
    ensures changed { result ≡ Err why.Changed → FitsAhead many.old ahead.old → ⊥ }
    ensures lost { result ≡ Err why.NoDriveLeft → HaveFailed many.old many.new }
    ensures on { GoOn many.old many.new }
{
    let next = cut_window(ahead.rest, PUT);
    write_window(&mut ahead.left, &ahead.window, writer)?;
    let read = read_window(ahead.alloc, many, next.window)?;
    ahead.window = read;
    ahead.rest = next.rest;
    Ok(())
}

/// Writes the next data and reads those after them, while another thread digests the former.
///
/// # Errors
///
/// As `write_ahead`, and `Memory` if memory runs out.
#[tactic(auto, using(br_data::proofs::GoOnLaws::go_itself, crate::proofs::PartLaws::few_none))]
fn put_ahead_beside<D: Drive, W: Write>(
    rt: &impl Threads,
    many: &mut OverMany<'_, D>,
    reading: &mut Reading,
    ahead: &mut Ahead<'_>,
    writer: &mut W,
) -> Result<(), PartsFault>
    ensures digested { OnOk result (reading.new ≡ reading.old ++ data_bytes ahead.old.window.items) }
    ensures written { OnOk result (WritesOn many.old (W.contents writer.old) (W.contents writer.new) ahead.old ahead.new) }
    ensures front { WritesFew ahead.old.left (W.contents writer.old) (W.contents writer.new) }
    ensures changed { result ≡ Err why.Changed → FitsAhead many.old ahead.old → ⊥ }
    ensures lost { result ≡ Err why.NoDriveLeft → HaveFailed many.old many.new }
    ensures on { GoOn many.old many.new }
{
    let shared = share_window(ahead.alloc, &ahead.window)?;
    let (digested, written) = join_mut(
        rt,
        &mut || digest_window(reading, &shared),
        &mut || write_ahead(many, ahead, writer),
    );
    digested?;
    written
}

/// Digests the last data, and writes them.
///
/// # Errors
///
/// As `write_window`, and `Memory` if memory runs out.
#[tactic(auto, using(crate::proofs::PartLaws::few_none))]
fn put_last_ahead<W: Write>(
    reading: &mut Reading,
    ahead: &mut Ahead<'_>,
    writer: &mut W,
) -> Result<(), PartsFault>
    ensures put { OnOk result (EndsOn (W.contents writer.old) (W.contents writer.new) reading.old reading.new ahead.old ahead.new) }
    ensures front { WritesFew ahead.old.left (W.contents writer.old) (W.contents writer.new) }
    ensures changed { result ≡ Err why.Changed → ahead.old.left < length (data_bytes ahead.old.window.items) }
    ensures lost { result ≡ Err why.NoDriveLeft → ⊥ }
{
    digest_window(reading, &ahead.window)?;
    write_window(&mut ahead.left, &ahead.window, writer)?;
    Ok(())
}

/// Writes the rest of a file, a window at a time. The data of the last window are digested in this
/// thread.
///
/// # Errors
///
/// As `put_ahead_beside`.
#[tactic(auto, using(br_data::proofs::GoOnLaws::go_itself, br_data::proofs::GoOnLaws::go_more, br_data::proofs::GoOnLaws::failed_on))]
pub(crate) fn put_rest<D: Drive, W: Write>(
    rt: &impl Threads,
    many: &mut OverMany<'_, D>,
    reading: &mut Reading,
    ahead: &mut Ahead<'_>,
    writer: &mut W,
) -> Result<(), PartsFault>
    ensures put { OnOk result (PutsRest W.contents many.old writer.old writer.new reading.old ahead.old reading.new ahead.new) }
    ensures front { WritesFew ahead.old.left (W.contents writer.old) (W.contents writer.new) }
    ensures changed { result ≡ Err why.Changed → FitsAhead many.old ahead.old → ⊥ }
    ensures lost { result ≡ Err why.NoDriveLeft → HaveFailed many.old many.new }
    ensures on { GoOn many.old many.new }
{
    standing_stays();
    while !ahead.rest.is_empty() {
        put_ahead_beside(rt, many, reading, ahead, writer)?;
    }
    put_last_ahead(reading, ahead, writer)
}

/// Returns the bytes that were read, which are not in memory, if they have the length and the
/// digest of the item's bytes.
///
/// # Errors
///
/// `Changed` if they differ.
pub(crate) fn finish(alloc: Global, reading: Reading, item: &Item) -> Result<FileBytes, PartsFault>
    ensures bytes { IfOk result (λ bytes. bytes ≡ reading) }
    ensures changed { result ≡ Err why.Changed → reading ≡ item.now.bytes → ⊥ }
    ensures lost { result ≡ Err why.NoDriveLeft → ⊥ }
    ensures only { IfErr result (λ fault. fault ≡ why.Changed) }
    ensures alike { IfOk result (λ bytes. AreAlike bytes item.now.bytes) }
{
    let bytes = reading.finish(alloc);
    if are_alike(&bytes, &item.bytes) {
        Ok(bytes)
    } else {
        Err(PartsFault::Changed)
    }
}
