//! Files that are put into a sink part by part.
ghost use Rattle.std.specs.Prelude.{◌≡◌, ◌<◌, ◌≤◌, Err, IfSome, OnErr, OnOk};
ghost use Rattle.br_data.specs.ManyDrives.{GoOn, HaveFailed};
ghost use Rattle.br_sink.specs.Sink.{HasMore};
ghost use Rattle.br_sink.specs.TwoParts.{AreTwoAlike, AreTwoSame, FailsTwo, LosesTwo, NotChanged, two_put};
ghost use Rattle.br_sink.specs.declared.file_parts.PartsFault.TheVariants.{Changed, Fault, NoDriveLeft};
ghost use Rattle.br_reread_parts.specs.FileParts.{GivesFile, PutsAlike};
ghost use Rattle.br_reread_parts.specs.TwoParts.{GivesPlain};

use crate::both::PlainFile;
use crate::file_parts::FileParts;
use crate::two_parts::BothParts;
use br_data::OverMany;
use br_join::Item;
use br_match::Hit;
use br_sink::{PartsFault, Sink, TwoPut};
use br_volume::Drive;
use std::alloc::Global;
use std::thread::Threads;

/// Puts a file like this one into a sink. The plain data of the hits are read again while it is put.
///
/// # Errors
///
/// The sink has what it had; one that does not report its files may hold a part of this one.
///
/// - `NoDriveLeft` if each drive failed.
/// - `Changed` if the data are no longer those that were found.
/// - `Fault` if the sink failed.
/// - `Memory` if memory ran out.
pub fn put_plain<D: Drive, S: Sink>(
    rt: &impl Threads,
    alloc: Global,
    many: &mut OverMany<'_, D>,
    hits: &[Hit],
    item: &Item,
    sink: &mut S,
) -> Result<(), PartsFault>
    ensures put { OnOk result (PutsAlike (GivesFile many.old hits.now item.now) item.now (S.has sink.old) (S.has sink.new)) }
    ensures refused { OnErr result (S.has sink.new ≡ S.has sink.old) }
    ensures counted { S.failures sink.old ≤ S.failures sink.new }
    ensures failed { result ≡ Err Fault → S.failures sink.old < S.failures sink.new }
    ensures changed { result ≡ Err Changed → GivesFile many.old hits.now item.now → ⊥ }
    ensures lost { result ≡ Err NoDriveLeft → HaveFailed many.old many.new }
    ensures on { GoOn many.old many.new }
{
    let mut parts = FileParts::new(rt, alloc, hits, many.take(alloc));
    let put = sink.put_parts(alloc, item, &mut parts);
    many.put_back(parts.into_many());
    match put {
        Ok(_bytes) => Ok(()),
        Err(fault) => Err(fault),
    }
}

/// Puts two files like these into a sink, side by side. The plain data of their hits are read again
/// while they are put. Returns `None`, and the sink has what it had, if it puts one file at a time.
///
/// The caller makes sure that the two paths differ and that neither is below the other. If the
/// first can't be put, neither is. Of a file that was not put, a sink that does not report its
/// files may hold a part.
pub fn put_two_plain<D: Drive, S: Sink>(
    rt: &impl Threads,
    alloc: Global,
    many: &mut OverMany<'_, D>,
    one: &PlainFile<'_, '_>,
    other: &PlainFile<'_, '_>,
    sink: &mut S,
) -> Option<TwoPut>
    ensures put { HasMore (two_put one.now.item.now other.now.item.now result) (S.has sink.old) (S.has sink.new) }
    ensures alike { IfSome result (AreTwoAlike one.now.item.now other.now.item.now) }
    ensures same { GivesPlain many.old one.now other.now → IfSome result (AreTwoSame one.now.item.now other.now.item.now) }
    ensures counted { S.failures sink.old ≤ S.failures sink.new }
    ensures failed { FailsTwo result → S.failures sink.old < S.failures sink.new }
    ensures changed { GivesPlain many.old one.now other.now → IfSome result NotChanged }
    ensures lost { LosesTwo result → HaveFailed many.old many.new }
    ensures on { GoOn many.old many.new }
{
    let mut parts = BothParts::new(rt, alloc, one.hits, other.hits, many.take(alloc));
    let put = sink.put_two(alloc, one.item, other.item, &mut parts);
    many.put_back(parts.into_many());
    put
}
