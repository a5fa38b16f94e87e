ghost use Rattle.std.specs.Prelude.{◌≡◌, ◌≤◌, ◌<◌, ◌^◌, ℕ, false, IfOk, length};
ghost use Rattle.std.specs.List.Sorted.{IsNonDecreasingBy, IsPartitionPoint};
ghost use Rattle.br_model.specs.Bootstrap.{admits};
ghost use Rattle.br_match.specs.Groups.{IsRising};

use br_bsr::{Range, by_low};
use std::alloc::{AllocError, Global};
use std::marker::Model;

/// The numbers that a criterion admits, prepared for many look-ups.
#[derive(Drop)]
pub(crate) struct Admitted {
    /// In order of their low ends. The high end of each is the greatest so far.
    ranges: Vec<Range>,
}

impl Model for Admitted {
    ghost use Rattle.std.specs.Prelude.{List};
    ghost use Rattle.br_model.specs.Bootstrap as model;
    ghost use Rattle.br_match.specs.Groups.{IsRising};

    ghost Value = { List model.Range };

    ghost view = { λ a. a.ranges.items };

    ghost invariant = { λ a. IsRising a.ranges.items };
}

/// Returns the ranges, each of them extended to the greatest high end so far.
fn widened(alloc: Global, sorted: &[Range]) -> Result<Vec<Range>, AllocError>
    requires { IsNonDecreasingBy (λ r. r.low) sorted.now }
    ensures rising { IfOk result (λ v. IsRising v.items) }
    ensures same { IfOk result (λ v. (n : ℕ) → admits v.items n ≡ admits sorted.now n) }
{
    let mut greatest = 0;
    let mut widened = Vec::new(alloc);
    for range in sorted {
        greatest = range.high.max(greatest);
        widened.push(Range {
            low: range.low,
            high: greatest,
        })?;
    }
    Ok(widened)
}

/// Returns the number of ranges that begin at a number or before it.
fn begun(ranges: &[Range], number: u64) -> usize
    requires { IsRising ranges.now }
    ensures bound { result ≤ length ranges.now }
    ensures point { IsPartitionPoint (λ r. r.low ≤ number) (λ r. number < r.low) ranges.now result }
{
    ranges.partition_point(|range| range.low <= number)
}

/// Returns whether the ranges admit a number.
fn admits_number(ranges: &[Range], number: u64) -> bool
    requires { IsRising ranges.now }
    ensures { result ≡ admits ranges.now number }
{
    if ranges.is_empty() {
        return true;
    }
    let count = begun(ranges, number);
    if count == 0 {
        return false;
    }
    let last = ranges[count - 1];
    number <= last.high
}

/// Returns the least end of the ranges; 0 if there are none.
fn least(ranges: &[Range]) -> u64
    requires { IsRising ranges.now }
    ensures { (n : ℕ) → n < result → admits ranges.now n ≡ false }
{
    match ranges.first() {
        None => 0,
        Some(range) => range.low,
    }
}

/// Returns the greatest end of the ranges; the greatest possible number if there are none.
fn greatest(ranges: &[Range]) -> u64
    requires { IsRising ranges.now }
    ensures { (n : ℕ) → result < n → n < 2 ^ 64 → admits ranges.now n ≡ false }
{
    match ranges.last() {
        None => u64::MAX,
        Some(range) => range.high,
    }
}

impl Admitted {
    /// Prepares the numbers in the ranges, or all numbers if there are no ranges.
    pub(crate) fn new(alloc: Global, ranges: &[Range]) -> Result<Admitted, AllocError>
        ensures { IfOk result (λ a. (n : ℕ) → admits a n ≡ admits ranges.now n) }
    {
        let sorted = by_low(alloc, ranges)?;
        Ok(Admitted {
            ranges: widened(alloc, &sorted)?,
        })
    }

    /// Returns whether the number is admitted, in a time of log n in the number of ranges.
    pub(crate) fn contains(&self, number: u64) -> bool
        ensures { result ≡ admits self.now number }
    {
        admits_number(&self.ranges, number)
    }

    /// Returns a number below which none is admitted.
    pub(crate) fn least(&self) -> u64
        ensures { (n : ℕ) → n < result → admits self.now n ≡ false }
    {
        least(&self.ranges)
    }

    /// Returns a number above which none is admitted.
    pub(crate) fn greatest(&self) -> u64
        ensures { (n : ℕ) → result < n → n < 2 ^ 64 → admits self.now n ≡ false }
    {
        greatest(&self.ranges)
    }
}
