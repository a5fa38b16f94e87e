//! Hits whose data are read again each time.
ghost use Rattle.std.specs.Prelude.{◌≡◌};

use br_match::Hit;
use br_records::{DATA, SPARSE_DATA};

/// Drops the data of a hit if they are bytes of a file.
fn lighten(hit: &mut Hit)
    ensures { hit.new ≡ hit.old }
{
    let stream = hit.stream.unsigned_abs();
    if stream == DATA || stream == SPARSE_DATA {
        hit.data.let_go();
    }
}

/// Drops the data that are bytes of a file. For contracts the hits stay the same.
pub(crate) fn lightened(hits: Vec<Hit>) -> Vec<Hit>
    ensures { result.items ≡ hits.items }
{
    let mut light = hits;
    for i in 0..light.len() {
        lighten(&mut light[i]);
    }
    light
}
