//! The hits of each piece of a bootstrap, or why its volume can't be searched.
ghost use Rattle.std.specs.Prelude.{◌≡◌, ◌++◌, ◌∷◌, [], ◌≤◌, IfOk, OnOk};
ghost use Rattle.br_match.specs.Fault.{FailsWithDrive};
ghost use Rattle.br_match.specs.Matching.{FoundOver};
ghost use Rattle.br_match.specs.Walk.{NamesReached};
ghost use Rattle.br_volume.specs.Drive.{OnlyGrows};
ghost use Rattle.br_check.specs.Search.{AreSearched};
ghost use Rattle.br_check.specs.Shown.{shown_between};

use crate::light::append_light;
use br_match::{Found, PieceFault, Walk};
use br_piece::Piece;
use br_volume::Drive;
use std::alloc::{AllocError, Global};

/// Returns the fragments in a volume that the piece's groups hit, as `br_match::match_piece` does, without
/// the data that an outline does not need.
///
/// # Errors
///
/// Those of `match_piece`.
fn search_piece<D: Drive>(alloc: Global, piece: &Piece, drive: &mut D) -> Result<Found, PieceFault>
    ensures number { IfOk result (λ found. found.piece ≡ piece.now.number) }
    ensures hits { FoundOver (D.shows drive.old) (D.shows drive.new) piece.now result }
    ensures grows { OnlyGrows (D.shows drive.old) (D.shows drive.new) }
    ensures counted { D.failures drive.old ≤ D.failures drive.new }
    ensures failed { FailsWithDrive D.failures drive.old drive.new result }
    ensures named { NamesReached D.shows drive.old drive.new piece.now result }
{
    let mut buf = Vec::new(alloc);
    let mut hits = Vec::new(alloc);
    let mut walk = Walk::new(alloc, piece)?;
    while let Some(batch) = walk.next(alloc, drive, &mut buf)? {
        append_light(&mut hits, batch)?;
    }
    Ok(Found {
        piece: piece.number,
        hits,
    })
}

/// Appends what was found for a piece.
fn push_result(
    results: &mut Vec<Result<Found, PieceFault>>,
    result_of: Result<Found, PieceFault>,
) -> Result<(), AllocError>
    ensures { OnOk result (results.new.items ≡ results.old.items ++ result_of ∷ []) }
{
    results.push(result_of)?;
    Ok(())
}

/// Returns for each piece its hits, or why its volume can't be searched.
pub(crate) fn search<D: Drive>(
    alloc: Global,
    pieces: &[Piece],
    drive: &mut D,
) -> Result<Vec<Result<Found, PieceFault>>, AllocError>
    ensures searched { IfOk result (λ results. AreSearched (shown_between D.Drive drive.old drive.new) pieces.now results.items) }
    ensures grows { OnlyGrows (D.shows drive.old) (D.shows drive.new) }
    ensures counted { D.failures drive.old ≤ D.failures drive.new }
{
    let mut results = Vec::new(alloc);
    for piece in pieces {
        let found = search_piece(alloc, piece, drive);
        push_result(&mut results, found)?;
    }
    Ok(results)
}
