ghost use Rattle.std.specs.Prelude.{◌≡◌, map, slice_get, IfOk};
ghost use Rattle.std.specs.List.{list_all};
ghost use Rattle.br_core.specs.Statuses.{address_in, is_finished, is_waiting};
ghost use Rattle.br_core.specs.declared.piece_status.Status.TheVariants.{Waiting};

use br_piece::Piece;
use std::alloc::{AllocError, Global};

/// The status of a piece.
#[derive(Clone, Copy)]
pub(crate) enum Status {
    /// Nobody reads it.
    Waiting,
    /// A walk reads it, and is before the block at this address.
    Claimed(u64),
    /// It was read to its end.
    Finished,
}

impl Status {
    /// Returns whether the piece was read to its end.
    fn is_finished(&self) -> bool
        ensures { result ≡ is_finished self.now }
    {
        match self {
            Status::Finished => true,
            _ => false,
        }
    }
}

/// Returns the status of a piece, if there is such a piece.
pub(crate) fn status_at(statuses: &[Status], piece: u32) -> Option<Status>
    ensures { result ≡ slice_get statuses.now piece }
{
    statuses.get(piece as usize).copied()
}

/// Returns whether there is such a piece, and it waits.
pub(crate) fn waits(statuses: &[Status], piece: u32) -> bool
    ensures { result ≡ is_waiting (slice_get statuses.now piece) }
{
    match status_at(statuses, piece) {
        Some(Status::Waiting) => true,
        _ => false,
    }
}

/// Returns the address before which the walk of a claimed piece is.
pub(crate) fn address_at(statuses: &[Status], piece: u32) -> Option<u64>
    ensures { result ≡ address_in (slice_get statuses.now piece) }
{
    match status_at(statuses, piece) {
        Some(Status::Claimed(addr)) => Some(addr),
        _ => None,
    }
}

/// Returns the statuses of pieces that wait.
pub(crate) fn all_waiting(alloc: Global, pieces: &[Piece]) -> Result<Vec<Status>, AllocError>
    ensures { IfOk result (λ statuses. statuses.items ≡ map (λ _. Waiting) pieces.now) }
{
    let mut statuses = Vec::new(alloc);
    for _piece in pieces {
        statuses.push(Status::Waiting)?;
    }
    Ok(statuses)
}

/// Returns whether each piece is finished.
pub(crate) fn all_finished(statuses: &[Status]) -> bool
    ensures { result ≡ list_all is_finished statuses.now }
{
    statuses.iter().all(|status| status.is_finished())
}
