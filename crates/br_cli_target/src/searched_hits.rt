//! The hits of some files that a drive finds.
ghost use Rattle.std.specs.Prelude.{◌≡◌, ◌++◌, IfOk, IsPermutation, OnOk};
ghost use Rattle.std.specs.List.Sorted.{IsSorted};
ghost use Rattle.br_model.specs.Name.{key_cmp};
ghost use Rattle.br_cli_target.specs.OwnHits as model;
ghost use Rattle.br_cli_target.specs.OwnHits.{hit_among, hits_among};
ghost use Rattle.br_records.specs.Runs.{AreListed};

use br_match::{Batch, Hit, PieceFault, Walk};
use br_piece::Piece;
use br_records::settle;
use br_types::FileKey;
use br_volume::Drive;
use std::alloc::{AllocError, Global};

/// Returns the keys in order.
pub(crate) fn sorted(alloc: Global, keys: &[FileKey]) -> Result<Vec<FileKey>, AllocError>
    ensures ordered { IfOk result (λ sorted. IsSorted key_cmp sorted.items) }
    ensures same { IfOk result (λ sorted. IsPermutation keys.now sorted.items) }
{
    let mut sorted = Vec::from_slice(alloc, keys)?;
    sorted.sort_unstable();
    Ok(sorted)
}

/// Returns true if the file is one of these, which are in order.
fn is_among(keys: &[FileKey], key: FileKey) -> bool
    requires { IsSorted key_cmp keys.now }
    ensures { result ≡ model.is_among keys.now key }
{
    match keys.binary_search(&key) {
        Ok(_) => true,
        Err(_) => false,
    }
}

/// Appends the hit, if it belongs to one of these files, which are in order.
fn push_if_among(hits: &mut Vec<Hit>, keys: &[FileKey], hit: Hit) -> Result<(), AllocError>
    requires { IsSorted key_cmp keys.now }
    ensures { OnOk result (hits.new.items ≡ hits.old.items ++ hit_among keys.now hit) }
{
    if is_among(keys, hit.key) {
        hits.push(hit)?;
    }
    Ok(())
}

/// Appends the hits of a block that belong to these files, which are in order.
#[tactic(auto, unfolding(crate::specs::OwnHits::hits_among))]
fn append_among(hits: &mut Vec<Hit>, keys: &[FileKey], batch: Batch) -> Result<(), AllocError>
    requires { IsSorted key_cmp keys.now }
    ensures { OnOk result (hits.new.items ≡ hits.old.items ++ hits_among keys.now batch.hits.items) }
{
    for hit in batch.hits {
        push_if_among(hits, keys, hit)?;
    }
    Ok(())
}

/// Appends the hits of these files in a piece, block by block.
fn append_found<D: Drive>(
    alloc: Global,
    hits: &mut Vec<Hit>,
    keys: &[FileKey],
    piece: &Piece,
    drive: &mut D,
) -> Result<(), PieceFault>
    requires { IsSorted key_cmp keys.now }
{
    let mut buf = Vec::new(alloc);
    let mut walk = Walk::new(alloc, piece)?;
    while let Some(batch) = walk.next(alloc, drive, &mut buf)? {
        append_among(hits, keys, batch)?;
    }
    Ok(())
}

/// Skips a volume that can't be searched to its end.
fn passed(searched: Result<(), PieceFault>) -> Result<(), AllocError> {
    match searched {
        Err(PieceFault::Memory) => Err(AllocError),
        _ => Ok(()),
    }
}

/// Returns the hits of these files, which are in order, that a drive finds of some pieces, in order
/// of file and place. If a volume can't be searched to its end, its hits before the fault are
/// included.
pub(crate) fn hits_in<D: Drive>(
    alloc: Global,
    keys: &[FileKey],
    pieces: &[Piece],
    drive: &mut D,
) -> Result<Vec<Hit>, AllocError>
    requires { IsSorted key_cmp keys.now }
    ensures { IfOk result (λ hits. AreListed hits.items) }
{
    let mut hits = Vec::new(alloc);
    for piece in pieces {
        passed(append_found(alloc, &mut hits, keys, piece, drive))?;
    }
    settle(&mut hits)?;
    Ok(hits)
}
