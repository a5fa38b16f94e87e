ghost use Rattle.std.specs.Prelude.{◌≡◌, ◌<◌, ◌++◌, ◌∷◌, [], if◌then◌else◌, None, length, IfOk, OnOk};
ghost use Rattle.std.specs.List.{AllByRecursion, list_any};
ghost use Rattle.br_pool.specs.Slots.{AllBelow, IsListed, empties, is_empty, is_memory, with_each};

use crate::fault::PoolFault;
use crate::worker::PieceResult;
use br_match::{Found, PieceFault};
use std::alloc::{AllocError, Global};

/// Returns `count` slots without an answer.
pub(crate) fn empty_slots(
    alloc: Global,
    count: usize,
) -> Result<Vec<Option<PieceResult>>, AllocError>
    ensures many { IfOk result (λ slots. length slots.items ≡ count) }
    ensures none { IfOk result (λ slots. AllByRecursion (λ s. s ≡ None) slots.items) }
{
    let mut slots = Vec::with_capacity(alloc, count)?;
    for _place in 0..count {
        slots.push_reserved(None);
    }
    Ok(slots)
}

/// Fills the slot of each number with its answer.
pub(crate) fn fill(slots: &mut [Option<PieceResult>], answers: Vec<(u32, PieceResult)>)
    requires { AllBelow (length slots.old) answers.items }
    ensures { slots.new ≡ with_each slots.old answers.items }
{
    for (number, answer) in answers {
        slots[number as usize] = Some(answer);
    }
}

/// Returns whether the slot has no answer.
fn is_empty(slot: &Option<PieceResult>) -> bool
    ensures { result ≡ is_empty slot.now }
{
    match slot {
        Some(_) => false,
        None => true,
    }
}

/// Returns whether some slot has no answer.
pub(crate) fn has_empty(slots: &[Option<PieceResult>]) -> bool
    ensures { result ≡ list_any is_empty slots.now }
{
    slots.iter().any(is_empty)
}

/// Appends a number if it is wanted.
fn note_if(left: &mut Vec<u32>, number: u32, wanted: bool) -> Result<(), AllocError>
    ensures { OnOk result (left.new.items ≡ left.old.items ++ (if wanted then number ∷ [] else [])) }
{
    if wanted {
        left.push(number)?;
    }
    Ok(())
}

/// Returns the numbers of the empty slots, in order.
pub(crate) fn left_of(alloc: Global, slots: &[Option<PieceResult>]) -> Result<Vec<u32>, AllocError>
    ensures { IfOk result (λ left. left.items ≡ empties 0 slots.now) }
{
    let Ok(count) = u32::try_from(slots.len()) else {
        return Err(AllocError);
    };
    let mut left = Vec::new(alloc);
    for number in 0..count {
        let wanted = is_empty(&slots[number as usize]);
        note_if(&mut left, number, wanted)?;
    }
    Ok(left)
}

/// Returns whether memory ran out.
fn is_memory(slot: &Option<PieceResult>) -> bool
    ensures { result ≡ is_memory slot.now }
{
    match slot {
        Some(Err(PieceFault::Memory)) => true,
        _ => false,
    }
}

/// Returns whether memory ran out for a piece.
fn has_memory(slots: &[Option<PieceResult>]) -> bool
    ensures { result ≡ list_any is_memory slots.now }
{
    slots.iter().any(is_memory)
}

/// Returns what was found, in order. Else returns that memory ran out, or else that no drive is
/// left if a slot is empty, or else the first refusal.
pub(crate) fn found_in_order(
    alloc: Global,
    slots: Vec<Option<PieceResult>>,
) -> Result<Vec<Found>, PoolFault>
    ensures { IsListed slots.items result }
{
    if has_memory(&slots) {
        return Err(PoolFault::Memory);
    }
    if has_empty(&slots) {
        return Err(PoolFault::NoDriveLeft);
    }
    let mut founds = Vec::with_capacity(alloc, slots.len())?;
    for slot in slots {
        match slot {
            Some(Ok(found)) => founds.push_reserved(found),
            Some(Err(fault)) => return Err(PoolFault::Piece(fault)),
            None => unreachable!(),
        }
    }
    Ok(founds)
}
