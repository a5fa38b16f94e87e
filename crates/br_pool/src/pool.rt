ghost use Rattle.std.specs.Prelude.{◌≡◌, map, IfOk, IfErr};
ghost use Rattle.br_pool.specs.Fault.{IsDecided, IsNoDriveLeft};
ghost use Rattle.br_pool.specs.Pool.{AreDrives, AreNumbered, OnlyIfAllFail, PoolOver, StayInPlace};

use crate::fault::PoolFault;
use crate::gate::Gate;
use crate::readers::{into_readers, out_of_readers};
use crate::rounds::{Task, run_rounds};
use crate::slots::{empty_slots, found_in_order};
use br_match::Found;
use br_piece::Piece;
use br_volume::Drive;
use std::alloc::Global;
use std::thread::Threads;

/// Returns what the drives find of the pieces, in the order of the pieces. One of the drives reads
/// each piece, as `match_piece` does. Each drive works in its own thread.
///
/// There are 1 to 16 drives, and the pieces are numbered from 0, as `split` numbers them. The gate
/// is called before and after each piece. A drive that failed reads no further piece. The drives
/// that did not fail read its piece again, in a further round. In each case the drives are in their
/// places again.
///
/// # Errors
///
/// - `Memory` if memory ran out, for any piece.
/// - `NoDriveLeft` if each drive failed before all pieces were read.
/// - `Piece` with the fault of the first piece that has one.
pub fn run_pool<D: Drive + Send, G: Gate + Sync, R: Threads + Sync>(
    rt: &R,
    alloc: Global,
    pieces: &[Piece],
    drives: &mut Vec<D>,
    gate: &G,
) -> Result<Vec<Found>, PoolFault>
    requires drives { AreDrives drives.old.items }
    requires numbered { AreNumbered pieces.now }
    ensures numbers { IfOk result (λ found. map (λ f. f.piece) found.items ≡ map (λ p. p.number) pieces.now) }
    ensures hits { PoolOver (map D.shows drives.old.items) (map D.shows drives.new.items) pieces.now result }
    ensures places { StayInPlace D.shows D.failures drives.old.items drives.new.items }
    ensures decided { IfErr result IsDecided }
    ensures failed { OnlyIfAllFail D.failures drives.old.items drives.new.items IsNoDriveLeft result }
{
    let mut slots = empty_slots(alloc, pieces.len())?;
    let mut readers = Vec::with_capacity(alloc, drives.len())?;
    into_readers(drives, &mut readers);
    let task = Task { pieces, gate };
    let run = run_rounds(rt, alloc, &task, &mut readers, &mut slots);
    out_of_readers(readers, drives);
    run?;
    found_in_order(alloc, slots)
}
