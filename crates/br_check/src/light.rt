//! Hits without the data that an outline does not need.
ghost use Rattle.std.specs.Prelude.{◌≡◌, ◌++◌, OnOk};

use br_match::{Batch, Hit};
use br_records::{DATA, DIGEST};
use std::alloc::AllocError;

/// Lets the data of a hit go if they are plain data or a digest.
fn lighten(hit: &mut Hit)
    ensures { hit.new ≡ hit.old }
{
    let stream = hit.stream.unsigned_abs();
    if stream == DATA || stream == DIGEST {
        hit.data.let_go();
    }
}

/// Drops the data that are plain data or a digest. As contracts see them, the hits are unchanged.
fn lightened(hits: Vec<Hit>) -> Vec<Hit>
    ensures { result.items ≡ hits.items }
{
    let mut light = hits;
    for i in 0..light.len() {
        lighten(&mut light[i]);
    }
    light
}

/// Appends the hits of a batch without the data that an outline does not need.
pub(crate) fn append_light(hits: &mut Vec<Hit>, batch: Batch) -> Result<(), AllocError>
    ensures { OnOk result (hits.new.items ≡ hits.old.items ++ batch.hits.items) }
{
    let mut light = lightened(batch.hits);
    hits.append(&mut light)
}
