//! The memory that a restore needs.
ghost use Rattle.std.specs.Prelude.{◌≡◌, ◌≤◌, ◌^◌, map};
ghost use Rattle.br_records.specs.ShownRecords.{outlined};
ghost use Rattle.br_check.specs.Findings.{held_beside, held_of};

use br_records::Sketch;
use br_types::FileKey;

/// The number of bytes that a restore holds for each file, besides its path and its data.
const FILE: u128 = 400;

/// The number of bytes that a restore holds for each fragment, besides its data.
const FRAGMENT: u128 = 200;

/// The number of bytes that every restore holds: 64 MiB.
const ALWAYS: u128 = 64 << 20;

/// Returns the number of bytes that are held for a file besides its data.
fn held_of(sketch: &(FileKey, Sketch)) -> u128
    ensures held { result ≡ held_of (outlined sketch.now) }
    ensures small { result ≤ 2 ^ 65 }
{
    match &sketch.1 {
        Sketch::File(outline) => FILE + outline.path.bytes().len() as u128,
        Sketch::Fault(_) => FILE,
    }
}

/// Returns the number of bytes that are held besides the data.
pub(crate) fn held_beside(fragments: usize, sketches: &[(FileKey, Sketch)]) -> u128
    ensures held { result ≡ held_beside fragments (map outlined sketches.now) }
    ensures small { result ≤ 2 ^ 127 }
{
    let mut held = ALWAYS + FRAGMENT * fragments as u128;
    for sketch in sketches {
        held += held_of(sketch);
    }
    held
}
