ghost use Rattle.std.specs.Prelude.{◌≡◌, ◌++◌, IfOk, OnOk};
ghost use Rattle.br_piece.specs.Gaps.{gaps, to_end, up_to};

use br_bsr::Range;
use std::alloc::{AllocError, Global};

/// Appends the range from one number to another, the second number excluded.
fn push_up_to(runs: &mut Vec<Range>, low: u64, end: u64) -> Result<(), AllocError>
    ensures { OnOk result (runs.new.items ≡ runs.old.items ++ up_to low end) }
{
    if low < end {
        runs.push(Range { low, high: end - 1 })?;
    }
    Ok(())
}

/// Appends the range from one number to another, the second number included.
fn push_to_end(runs: &mut Vec<Range>, low: u64, high: u64) -> Result<(), AllocError>
    ensures { OnOk result (runs.new.items ≡ runs.old.items ++ to_end low high) }
{
    if low <= high {
        runs.push(Range { low, high })?;
    }
    Ok(())
}

/// Returns the ranges of a range without some of its numbers, which are in order.
pub(crate) fn gaps_of(
    alloc: Global,
    range: Range,
    numbers: &[u32],
) -> Result<Vec<Range>, AllocError>
    ensures { IfOk result (λ runs. runs.items ≡ gaps range.low range.high numbers.now) }
{
    let mut runs = Vec::new(alloc);
    let mut next = range.low;
    for number in numbers {
        let number = u64::from(*number);
        push_up_to(&mut runs, next, number)?;
        next = next.max(number + 1);
    }
    push_to_end(&mut runs, next, range.high)?;
    Ok(runs)
}
