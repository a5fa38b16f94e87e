ghost use Rattle.std.specs.Prelude.{◌≡◌, ◌≤◌, IfOk};
ghost use Rattle.br_match.specs.Fault.{FailsWithDrive};
ghost use Rattle.br_match.specs.Matching.{FoundOver};
ghost use Rattle.br_match.specs.Walk.{NamesReached};
ghost use Rattle.br_volume.specs.Drive.{OnlyGrows};

use crate::fault::PieceFault;
use crate::hit::Found;
use crate::walk::Walk;
use br_piece::Piece;
use br_volume::Drive;
use std::alloc::Global;

/// Returns the fragments in a volume that the piece's groups hit, in order of address and place in
/// the block. Each has the number of the first group that hits it.
///
/// The volume is walked block by block from address 0 to its end, or to the greatest address if
/// every group has addresses. A header takes one call of the drive, and a block that a group covers
/// takes a second one. If no group covers a block, only its header must exist. (The format is
/// that of Bacula's Developer's Guide, "Storage Media Output Format".)
///
/// # Errors
///
/// `BadId`, `BadBlockSize` or `Truncated` with the address of the block, `DriveFault` with the
/// address that the walk had reached, `UnknownVolume` with address 0, `Memory` if memory runs out.
pub fn match_piece<D: Drive>(
    alloc: Global,
    piece: &Piece,
    drive: &mut D,
) -> Result<Found, PieceFault>
    ensures number { IfOk result (λ found. found.piece ≡ piece.now.number) }
    ensures hits { FoundOver (D.shows drive.old) (D.shows drive.new) piece.now result }
    ensures grows { OnlyGrows (D.shows drive.old) (D.shows drive.new) }
    ensures counted { D.failures drive.old ≤ D.failures drive.new }
    ensures failed { FailsWithDrive D.failures drive.old drive.new result }
    ensures named { NamesReached D.shows drive.old drive.new piece.now result }
{
    let mut buf = Vec::new(alloc);
    let mut hits = Vec::new(alloc);
    let mut walk = Walk::new(alloc, piece)?;
    while let Some(mut batch) = walk.next(alloc, drive, &mut buf)? {
        hits.append(&mut batch.hits)?;
    }
    Ok(Found {
        piece: piece.number,
        hits,
    })
}
