ghost use Rattle.std.specs.Prelude.{◌≡◌, IfOk};
ghost use Rattle.br_volume.specs.Memory.{volumes_of};
ghost use Rattle.br_match.specs.Fault as matching;
ghost use Rattle.br_core.specs.Reading.{IsClaimed, IsReadFault, ReadsNext, ReadsPiece};

use crate::fault::StepFault;
use crate::piece_status::{Status, status_at};
use br_match::{Batch, PieceFault, Walk};
use br_piece::Piece;
use br_types::VolName;
use br_volume::BorrowedDrive;
use std::alloc::Global;

/// Returns the refusal of a read. If a block can't be read or a volume does not exist, the walk has
/// no step.
fn read_fault(fault: &PieceFault) -> StepFault
    requires { matching.fault_number fault.now ≡ 13 → ⊥ }
    ensures { IsReadFault fault.now result }
{
    match fault {
        PieceFault::Memory => StepFault::Memory,
        PieceFault::Block { .. } => StepFault::NotEnabled,
    }
}

/// Returns the hits in the block at an address of a piece's volume, and the address after it; none
/// at the walk's end.
fn next_block(
    alloc: Global,
    piece: &Piece,
    addr: u64,
    volumes: &[(VolName, Vec<u8>)],
) -> Result<Option<(Batch, u64)>, StepFault>
    ensures { ReadsNext (volumes_of volumes.now) piece.now addr result }
{
    let mut drive = BorrowedDrive::new(volumes);
    let mut buf = Vec::new(alloc);
    let mut walk = Walk::resume(alloc, piece, addr)?;
    match walk.next(alloc, &mut drive, &mut buf) {
        Ok(None) => Ok(None),
        Ok(Some(batch)) => Ok(Some((batch, walk.addr()))),
        Err(fault) => Err(read_fault(&fault)),
    }
}

/// Returns the next step of the walk of the piece with this number, if it is claimed.
pub(crate) fn next_of(
    alloc: Global,
    pieces: &[Piece],
    statuses: &[Status],
    number: u32,
    volumes: &[(VolName, Vec<u8>)],
) -> Result<Option<(Batch, u64)>, StepFault>
    ensures given { ReadsPiece pieces.now statuses.now number (volumes_of volumes.now) result }
    ensures claimed { IfOk result (λ _. IsClaimed statuses.now number) }
{
    let Some(Status::Claimed(addr)) = status_at(statuses, number) else {
        return Err(StepFault::NotEnabled);
    };
    match pieces.get(number as usize) {
        None => Err(StepFault::NotEnabled),
        Some(piece) => next_block(alloc, piece, addr, volumes),
    }
}
