ghost use Rattle.std.specs.Prelude.{◌≡◌, ◌<◌, ◌^◌, length, ℕ, List, IfOk, OnOk, IfSome};
ghost use Rattle.br_model.specs.Meaning.{pieces_of};
ghost use Rattle.br_piece.specs.Piece.{noted_place, place_in, put_at};

use crate::piece::Piece;
use br_bsr::{Bootstrap, Group};
use br_types::VolName;
use std::alloc::{AllocError, Global};
use std::collections::BTreeMap;

/// Returns the place of a volume's piece, if there is one. If there is none, it notes `next` as the
/// place from now on.
fn place_for(
    alloc: Global,
    places: &mut BTreeMap<Vec<u8>, usize>,
    vol: &VolName,
    next: usize,
) -> Result<Option<usize>, AllocError>
    ensures found { IfOk result (λ place. place ≡ place_in places.old vol.now) }
    ensures noted { OnOk result ((name : List ℕ) → place_in places.new name ≡ noted_place vol.now next name (place_in places.old name)) }
{
    match places.get(vol.bytes()).copied() {
        Some(place) => Ok(Some(place)),
        None => {
            places.insert(Vec::from_slice(alloc, vol.bytes())?, next)?;
            Ok(None)
        }
    }
}

/// Appends a copy of a group to the piece at a place, or to a new last piece if there is no place.
fn put_at(
    alloc: Global,
    pieces: &mut Vec<Piece>,
    place: Option<usize>,
    number: u32,
    group: &Group,
) -> Result<(), AllocError>
    requires few { length pieces.old.items < 2 ^ 32 }
    requires inside { IfSome place (λ k. k < length pieces.old.items) }
    ensures { OnOk result (pieces.new.items ≡ put_at place pieces.old.items (number, group.now)) }
{
    match place {
        Some(place) => pieces[place].add(alloc, number, group)?,
        None => {
            let piece = Piece::first(alloc, pieces.len() as u32, number, group)?;
            pieces.push(piece)?;
        }
    }
    Ok(())
}

/// Returns the pieces of a bootstrap: one for each volume that it names, in order of first
/// appearance and numbered from 0, with copies of the groups on that volume and their numbers in
/// the bootstrap. A bootstrap without groups has no pieces.
///
/// Bacula reads a bootstrap volume by volume: for each volume that a restore needs, its Director
/// writes one or more groups, each begun by `Volume=` (the manual's chapter on the bootstrap file).
///
/// The time is n log n in the number of groups.
pub fn split(alloc: Global, bootstrap: &Bootstrap) -> Result<Vec<Piece>, AllocError>
    ensures { IfOk result (λ pieces. pieces.items ≡ pieces_of bootstrap.now) }
{
    let mut pieces: Vec<Piece> = Vec::new(alloc);
    let mut places: BTreeMap<Vec<u8>, usize> = BTreeMap::new(alloc);
    let mut number: u32 = 0;
    for group in bootstrap.groups() {
        let place = place_for(alloc, &mut places, &group.vol, pieces.len())?;
        put_at(alloc, &mut pieces, place, number, group)?;
        number += 1;
    }
    Ok(pieces)
}
