ghost use Rattle.std.specs.Prelude.{◌≡◌, IfOk, IsPermutation};
ghost use Rattle.std.specs.Int.{is_in_range};
ghost use Rattle.std.specs.List.Sorted.{IsNonDecreasingBy};

use std::alloc::{AllocError, Global};
use std::marker::Model;

/// The numbers from `low` to `high`, inclusive.
#[derive(Clone, Copy)]
pub struct Range {
    pub low: u64,
    pub high: u64,
}

impl Model for Range {
    ghost use Rattle.br_model.specs.Bootstrap as model;

    ghost Value = { model.Range };

    ghost view = { λ r. record { low = r.low; high = r.high } };

    ghost inverse = { λ r. record { low = r.low; high = r.high } };
}

impl Range {
    /// Returns whether the number is in the range.
    pub fn contains(&self, number: u64) -> bool
        ensures { result ≡ is_in_range self.now.low self.now.high number }
    {
        self.low <= number && number <= self.high
    }
}

/// Returns the ranges in order of their low ends.
pub fn by_low(alloc: Global, ranges: &[Range]) -> Result<Vec<Range>, AllocError>
    ensures rising { IfOk result (λ v. IsNonDecreasingBy (λ r. r.low) v.items) }
    ensures same { IfOk result (λ v. IsPermutation ranges.now v.items) }
{
    let mut sorted = Vec::from_slice(alloc, ranges)?;
    sorted.sort_by_key(|range| range.low)?;
    Ok(sorted)
}
