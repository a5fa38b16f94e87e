ghost use Rattle.std.specs.Prelude.{◌≡◌, ◌≤◌, ◌++◌, map, take, drop, length, IfOk, OnOk};
ghost use Rattle.std.specs.Vec.Iter.{into_iter_items};
ghost use Rattle.br_model.specs.Session.{visits};
ghost use Rattle.br_session.specs.Spans as spans;

use crate::place::Place;
use br_types::VolName;
use std::alloc::{AllocError, Global};
use std::vec::IntoIter;

/// Returns the number of remaining blocks that a place takes: its own number, or all for the last
/// place.
pub(crate) fn share(place: &Place, more: &[Place], left: usize) -> usize
    ensures same { result ≡ spans.share place.now more.now left }
    ensures within { result ≤ left }
{
    if more.is_empty() {
        left
    } else {
        left.min(place.blocks as usize)
    }
}

/// Moves `count` blocks to a volume.
fn deal_to(
    alloc: Global,
    vol: &VolName,
    count: usize,
    blocks: &mut IntoIter<Vec<u8>>,
    placed: &mut Vec<(VolName, Vec<u8>)>,
) -> Result<(), AllocError>
    ensures placed { OnOk result (placed.new.items ≡ placed.old.items ++ map (λ b. (vol.now, b)) (take count (into_iter_items blocks.old))) }
    ensures left { OnOk result (into_iter_items blocks.new ≡ drop count (into_iter_items blocks.old)) }
{
    for _ in 0..count {
        let Some(block) = blocks.next() else {
            return Ok(());
        };
        placed.push((vol.copy(alloc)?, block))?;
    }
    Ok(())
}

/// Returns each block with its volume: the blocks are dealt out over the places.
pub(crate) fn deal(
    alloc: Global,
    blocks: Vec<Vec<u8>>,
    places: &[Place],
) -> Result<Vec<(VolName, Vec<u8>)>, AllocError>
    ensures { IfOk result (λ placed. map (λ b. (b.0, b.1.items)) placed.items
        ≡ spans.with_volumes (visits places.now (spans.bytes_of blocks.items))) }
{
    let mut placed = Vec::new(alloc);
    let mut blocks = blocks.into_iter();
    let mut left = places;
    while let Some((place, more)) = left.split_first() {
        let count = share(place, more, blocks.len());
        deal_to(alloc, &place.vol, count, &mut blocks, &mut placed)?;
        left = more;
    }
    Ok(placed)
}
