//! Two files whose data are written side by side, a window of each at a time. This thread writes
//! the data of both and reads those of the next windows, while two other threads digest the former.
ghost use Rattle.std.specs.Prelude.{◌≡◌, ◌++◌, Some, Err, IfOk};
ghost use Rattle.br_data.specs.ManyDrives.{GoOn, HaveFailed};
ghost use Rattle.br_sink.specs.declared.file_parts.PartsFault.TheVariants as why;
ghost use Rattle.br_reread_parts.specs.FileParts.{WritesFew};
ghost use Rattle.br_reread_parts.specs.Given.{GivesHits};
ghost use Rattle.br_reread_parts.specs.Steps.{FitsAhead, IfBoth, IfPut, OpensFile, PutsOn, PutsRest, PutsTo, WritesOn};
ghost use Rattle.br_reread_parts.specs.Steps.{either_fault, end_of, step_of};
ghost use Rattle.br_reread_parts.specs.TwoParts.{FitBoth};
ghost use Rattle.br_reread_parts.specs.Windows.{data_bytes};

use crate::ahead::{Ahead, open_file, put_rest, write_ahead};
use crate::windows::{digest_window, share_window};
use br_data::{OverMany, Reading, standing_stays};
use br_join::Item;
use br_match::Hit;
use br_sink::PartsFault;
use br_volume::Drive;
use std::alloc::Global;
use std::io::Write;
use std::thread::{Threads, join_mut};

/// A file without sparse data: its hits, and what was found of it.
#[derive(Drop)]
pub struct PlainFile<'h, 'i> {
    pub hits: &'h [Hit],
    pub item: &'i Item,
}

/// The digested bytes of two files.
#[derive(Drop)]
pub(crate) struct BothRead {
    pub(crate) one: Reading,
    pub(crate) other: Reading,
}

/// The next data of two files.
#[derive(Drop)]
pub(crate) struct BothAhead<'h> {
    pub(crate) one: Ahead<'h>,
    pub(crate) other: Ahead<'h>,
}

/// Reads the first data of two files.
///
/// # Errors
///
/// As `open_file`.
#[tactic(auto, using(br_data::proofs::GoOnLaws::go_more, br_data::proofs::GoOnLaws::failed_on))]
pub(crate) fn open_two<'h, D: Drive>(
    alloc: Global,
    many: &mut OverMany<'_, D>,
    one: &PlainFile<'h, '_>,
    other: &PlainFile<'h, '_>,
) -> Result<BothAhead<'h>, PartsFault>
    ensures one { IfOk result (λ next. OpensFile many.old one.now.hits.now one.now.item.now next.one) }
    ensures other { IfOk result (λ next. OpensFile many.old other.now.hits.now other.now.item.now next.other) }
    ensures changed { result ≡ Err why.Changed → GivesHits many.old one.now.hits.now → GivesHits many.old other.now.hits.now → ⊥ }
    ensures lost { result ≡ Err why.NoDriveLeft → HaveFailed many.old many.new }
    ensures on { GoOn many.old many.new }
{
    standing_stays();
    let first = open_file(alloc, many, one.hits, one.item)?;
    let second = open_file(alloc, many, other.hits, other.item)?;
    Ok(BothAhead {
        one: first,
        other: second,
    })
}

/// Writes the next data of two files, and reads those after them. Returns the fault of the second
/// file, if it failed.
///
/// # Errors
///
/// As `write_ahead` for the first file.
#[tactic(auto, using(br_data::proofs::GoOnLaws::go_more, crate::proofs::PartLaws::few_none))]
fn write_both_ahead<D: Drive, W: Write>(
    many: &mut OverMany<'_, D>,
    next: &mut BothAhead<'_>,
    first: &mut W,
    second: &mut W,
) -> Result<Option<PartsFault>, PartsFault>
    ensures one { IfOk result (λ _. WritesOn many.old (W.contents first.old) (W.contents first.new) next.old.one next.new.one) }
    ensures other { IfBoth result (WritesOn many.old (W.contents second.old) (W.contents second.new) next.old.other next.new.other) }
    ensures changed { either_fault result ≡ Some why.Changed → FitBoth many.old next.old → ⊥ }
    ensures lost { either_fault result ≡ Some why.NoDriveLeft → HaveFailed many.old many.new }
    ensures front_one { WritesFew next.old.one.left (W.contents first.old) (W.contents first.new) }
    ensures front_other { WritesFew next.old.other.left (W.contents second.old) (W.contents second.new) }
    ensures on { GoOn many.old many.new }
{
    standing_stays();
    write_ahead(many, &mut next.one, first)?;
    match write_ahead(many, &mut next.other, second) {
        Ok(()) => Ok(None),
        Err(fault) => Ok(Some(fault)),
    }
}

/// Writes the next data of two files and reads those after them, while another thread digests those
/// of the second. Returns the fault of the second file, if it failed.
///
/// # Errors
///
/// As `write_both_ahead`, and `Memory` if memory runs out.
#[tactic(auto, using(br_data::proofs::GoOnLaws::go_itself, crate::proofs::PartLaws::few_none))]
fn put_other_beside<D: Drive, W: Write>(
    rt: &impl Threads,
    many: &mut OverMany<'_, D>,
    reading: &mut Reading,
    next: &mut BothAhead<'_>,
    first: &mut W,
    second: &mut W,
) -> Result<Option<PartsFault>, PartsFault>
    ensures digested { IfOk result (λ _. reading.new ≡ reading.old ++ data_bytes next.old.other.window.items) }
    ensures one { IfOk result (λ _. WritesOn many.old (W.contents first.old) (W.contents first.new) next.old.one next.new.one) }
    ensures other { IfBoth result (WritesOn many.old (W.contents second.old) (W.contents second.new) next.old.other next.new.other) }
    ensures changed { either_fault result ≡ Some why.Changed → FitBoth many.old next.old → ⊥ }
    ensures lost { either_fault result ≡ Some why.NoDriveLeft → HaveFailed many.old many.new }
    ensures front_one { WritesFew next.old.one.left (W.contents first.old) (W.contents first.new) }
    ensures front_other { WritesFew next.old.other.left (W.contents second.old) (W.contents second.new) }
    ensures on { GoOn many.old many.new }
{
    let shared = share_window(next.other.alloc, &next.other.window)?;
    let (digested, written) = join_mut(
        rt,
        &mut || digest_window(reading, &shared),
        &mut || write_both_ahead(many, next, first, second),
    );
    digested?;
    written
}

/// Writes the next data of two files and reads those after them, while two other threads digest the
/// former. Returns the fault of the second file, if it failed.
///
/// # Errors
///
/// As `put_other_beside`.
#[tactic(auto, using(br_data::proofs::GoOnLaws::go_itself, crate::proofs::PartLaws::few_none))]
fn put_both_beside<D: Drive, W: Write>(
    rt: &impl Threads,
    many: &mut OverMany<'_, D>,
    read: &mut BothRead,
    next: &mut BothAhead<'_>,
    first: &mut W,
    second: &mut W,
) -> Result<Option<PartsFault>, PartsFault>
    ensures digested_one { IfOk result (λ _. read.new.one ≡ read.old.one ++ data_bytes next.old.one.window.items) }
    ensures digested_other { IfOk result (λ _. read.new.other ≡ read.old.other ++ data_bytes next.old.other.window.items) }
    ensures one { IfOk result (λ _. WritesOn many.old (W.contents first.old) (W.contents first.new) next.old.one next.new.one) }
    ensures other { IfBoth result (WritesOn many.old (W.contents second.old) (W.contents second.new) next.old.other next.new.other) }
    ensures changed { either_fault result ≡ Some why.Changed → FitBoth many.old next.old → ⊥ }
    ensures lost { either_fault result ≡ Some why.NoDriveLeft → HaveFailed many.old many.new }
    ensures front_one { WritesFew next.old.one.left (W.contents first.old) (W.contents first.new) }
    ensures front_other { WritesFew next.old.other.left (W.contents second.old) (W.contents second.new) }
    ensures on { GoOn many.old many.new }
{
    let shared = share_window(next.one.alloc, &next.one.window)?;
    let one = &mut read.one;
    let other = &mut read.other;
    let (digested, written) = join_mut(
        rt,
        &mut || digest_window(one, &shared),
        &mut || put_other_beside(rt, many, other, next, first, second),
    );
    digested?;
    written
}

/// Writes two files side by side, while both have hits left. Stops if the second file fails, and
/// returns its fault.
///
/// # Errors
///
/// As `put_both_beside`.
#[tactic(auto, using(br_data::proofs::GoOnLaws::go_itself, br_data::proofs::GoOnLaws::go_more))]
fn put_while_both<D: Drive, W: Write>(
    rt: &impl Threads,
    many: &mut OverMany<'_, D>,
    read: &mut BothRead,
    next: &mut BothAhead<'_>,
    first: &mut W,
    second: &mut W,
) -> Result<Option<PartsFault>, PartsFault>
    ensures one { IfOk result (λ _. PutsTo W.contents many.old first.old first.new read.old.one next.old.one read.new.one next.new.one) }
    ensures other { IfBoth result (PutsTo W.contents many.old second.old second.new read.old.other next.old.other
        read.new.other next.new.other) }
    ensures changed { either_fault result ≡ Some why.Changed → FitBoth many.old next.old → ⊥ }
    ensures lost { either_fault result ≡ Some why.NoDriveLeft → HaveFailed many.old many.new }
    ensures front_one { WritesFew next.old.one.left (W.contents first.old) (W.contents first.new) }
    ensures front_other { WritesFew next.old.other.left (W.contents second.old) (W.contents second.new) }
    ensures on { GoOn many.old many.new }
{
    standing_stays();
    while !next.one.rest.is_empty() && !next.other.rest.is_empty() {
        if let Some(fault) = put_both_beside(rt, many, read, next, first, second)? {
            return Ok(Some(fault));
        }
    }
    Ok(None)
}

/// Writes the rest of the second file. Returns its fault, if it failed.
fn put_other_rest<D: Drive, W: Write>(
    rt: &impl Threads,
    many: &mut OverMany<'_, D>,
    reading: &mut Reading,
    ahead: &mut Ahead<'_>,
    second: &mut W,
) -> Option<PartsFault>
    ensures other { IfPut result (PutsRest W.contents many.old second.old second.new reading.old ahead.old reading.new ahead.new) }
    ensures changed { result ≡ Some why.Changed → FitsAhead many.old ahead.old → ⊥ }
    ensures lost { result ≡ Some why.NoDriveLeft → HaveFailed many.old many.new }
    ensures front { WritesFew ahead.old.left (W.contents second.old) (W.contents second.new) }
    ensures on { GoOn many.old many.new }
{
    match put_rest(rt, many, reading, ahead, second) {
        Ok(()) => None,
        Err(fault) => Some(fault),
    }
}

/// Writes two files: side by side, until one of them ends, and then the other one alone. If the
/// second file fails, writes the first one alone, and returns the fault.
///
/// # Errors
///
/// As `put_both_beside`.
#[tactic(auto, using(br_data::proofs::GoOnLaws::go_more))]
pub(crate) fn put_both<D: Drive, W: Write>(
    rt: &impl Threads,
    many: &mut OverMany<'_, D>,
    read: &mut BothRead,
    next: &mut BothAhead<'_>,
    first: &mut W,
    second: &mut W,
) -> Result<Option<PartsFault>, PartsFault>
    ensures one { IfOk result (λ _. PutsRest W.contents many.old first.old first.new read.old.one next.old.one read.new.one next.new.one) }
    ensures other { IfBoth result (PutsRest W.contents many.old second.old second.new read.old.other next.old.other
        read.new.other next.new.other) }
    ensures changed { either_fault result ≡ Some why.Changed → FitBoth many.old next.old → ⊥ }
    ensures lost { either_fault result ≡ Some why.NoDriveLeft → HaveFailed many.old many.new }
    ensures front_one { WritesFew next.old.one.left (W.contents first.old) (W.contents first.new) }
    ensures front_other { WritesFew next.old.other.left (W.contents second.old) (W.contents second.new) }
    ensures on { GoOn many.old many.new }
{
    standing_stays();
    let fault = put_while_both(rt, many, read, next, first, second)?;
    put_rest(rt, many, &mut read.one, &mut next.one, first)?;
    if fault.is_some() {
        return Ok(fault);
    }
    Ok(put_other_rest(rt, many, &mut read.other, &mut next.other, second))
}
