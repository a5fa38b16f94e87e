//! Counts the indexes that a bootstrap asks for and that are missing.
ghost use Rattle.std.specs.Prelude.{◌≡◌, sum_by, IfOk};
ghost use Rattle.br_cli_target.specs.AbsentCount.{absent, capped, size_of};

use br_bsr::{Group, MAX_INDEX};
use br_piece::{Gap, missing};
use br_types::FileKey;
use std::alloc::{AllocError, Global};

/// Returns the number of indexes of a run; 0 if it goes up to the greatest index, since such a
/// range asks for all files from its first on, whatever their number.
fn size_of(gap: Gap) -> u64
    ensures { result ≡ capped (size_of gap) }
{
    if gap.indexes.high < MAX_INDEX {
        gap.indexes
            .high
            .saturating_sub(gap.indexes.low)
            .saturating_add(1)
    } else {
        0
    }
}

/// Returns the number of indexes of some runs.
fn sum_of(gaps: &[Gap]) -> u64
    ensures { result ≡ capped (sum_by size_of gaps.now) }
{
    let mut count: u64 = 0;
    for gap in gaps {
        count = count.saturating_add(size_of(*gap));
    }
    count
}

/// Returns the number of indexes that the groups of a bootstrap ask for by bounded ranges of
/// FileIndex and that none of these files has, at most 2^64 - 1. A missing index that two groups
/// ask for counts twice, since each has a line in the report of what is missing.
#[tactic(auto, unfolding(crate::specs::AbsentCount::absent))]
pub fn count_absent(alloc: Global, groups: &[Group], keys: Vec<FileKey>) -> Result<u64, AllocError>
    ensures { IfOk result (λ count. count ≡ capped (absent groups.now keys.items)) }
{
    let gaps = missing(alloc, groups, keys)?;
    Ok(sum_of(&gaps))
}
