ghost use Rattle.std.specs.Prelude.{◌≡◌, ◌<◌, ◌≤◌, None, true, not, length, OnOk};
ghost use Rattle.std.specs.List.{AllByRecursion, list_any};
ghost use Rattle.br_pool.specs.Rounds.{AddsOver, AreLeftAtEnd, FilledOver, is_turn};
ghost use Rattle.br_pool.specs.Slots.{is_empty, rounds_left};
ghost use Rattle.br_pool.specs.Workers.{HaveServed, count_in, outs};

use crate::gate::Gate;
use crate::slots::{has_empty, left_of};
use crate::worker::{PieceResult, Reader, Round};
use crate::workers::{read_all, shares_for};
use br_claim::Claims;
use br_piece::Piece;
use br_volume::Drive;
use std::alloc::{AllocError, Global};
use std::thread::Threads;

/// The pieces to be read, and the gate for each.
#[derive(Drop)]
pub(crate) struct Task<'t, G: Gate> {
    pub(crate) pieces: &'t [Piece],
    pub(crate) gate: &'t G,
}

/// Reads the pieces whose slots are empty with the drives that are not out, each piece at most
/// once. A drive that fails is out, and its piece keeps an empty slot.
fn run_round<D: Drive + Send, G: Gate + Sync, R: Threads + Sync>(
    rt: &R,
    alloc: Global,
    task: &Task<'_, G>,
    readers: &mut Vec<Reader<D>>,
    slots: &mut [Option<PieceResult>],
) -> Result<(), AllocError>
    requires many { length slots.old ≡ length task.now.pieces.now }
    requires few { length readers.old.items ≤ 16 }
    requires left { list_any is_empty slots.old ≡ true }
    requires ready { 0 < count_in (outs readers.old.items) }
    ensures many { length slots.new ≡ length slots.old }
    ensures served { HaveServed D.shows D.failures readers.old.items readers.new.items }
    ensures added { OnOk result (AddsOver D.shows task.now.pieces.now readers.old.items readers.new.items slots.old slots.new) }
    ensures fewer { OnOk result (rounds_left (outs readers.new.items) slots.new < rounds_left (outs readers.old.items) slots.old) }
{
    let left = left_of(alloc, slots)?;
    let room = left.len();
    let Ok(count) = u32::try_from(room) else {
        return Err(AllocError);
    };
    let mut claims = Claims::new(alloc, count)?;
    let shares = shares_for(alloc, &mut claims, readers.len(), room)?;
    let round = Round {
        pieces: task.pieces,
        left: &left,
        claims: &claims,
        gate: task.gate,
    };
    let seats = read_all(rt, alloc, &round, readers, shares, slots)?;
    let Ok(_lists) = claims.gather(seats) else {
        return Err(AllocError);
    };
    Ok(())
}

/// Returns whether some drive is not out.
fn has_drive<D: Drive>(readers: &[Reader<D>]) -> bool
    ensures { result ≡ list_any (λ (r : Reader D). not r.out) readers.now }
{
    readers.iter().any(|reader| !reader.out)
}

/// Returns whether another round is to follow: a slot is empty, and a drive is not out.
pub(crate) fn goes_on<D: Drive>(readers: &[Reader<D>], slots: &[Option<PieceResult>]) -> bool
    ensures { result ≡ is_turn readers.now slots.now }
{
    has_empty(slots) && has_drive(readers)
}

/// Reads the pieces round by round, until each has an answer or no drive is left.
pub(crate) fn run_rounds<D: Drive + Send, G: Gate + Sync, R: Threads + Sync>(
    rt: &R,
    alloc: Global,
    task: &Task<'_, G>,
    readers: &mut Vec<Reader<D>>,
    slots: &mut [Option<PieceResult>],
) -> Result<(), AllocError>
    requires many { length slots.old ≡ length task.now.pieces.now }
    requires none { AllByRecursion (λ s. s ≡ None) slots.old }
    requires few { length readers.old.items ≤ 16 }
    ensures many { length slots.new ≡ length slots.old }
    ensures served { HaveServed D.shows D.failures readers.old.items readers.new.items }
    ensures filled { OnOk result (FilledOver D.shows task.now.pieces.now readers.old.items readers.new.items slots.new) }
    ensures left { OnOk result (AreLeftAtEnd (outs readers.new.items) slots.new) }
{
    while goes_on(readers, slots) {
        run_round(rt, alloc, task, readers, slots)?;
    }
    Ok(())
}
