ghost use Rattle.std.specs.Prelude.{◌≡◌, Some, None, if◌then◌else◌};
ghost use Rattle.std.specs.List.{list_all};
ghost use Rattle.br_model.specs.BootstrapText.{least, greatest, is_range};
ghost use Rattle.br_bsr.specs.Statement.{criterion_of, range_between};

use crate::range::Range;

/// A number of a record or its block that a group may select by.
#[derive(Clone, Copy)]
pub enum Criterion {
    SessionId,
    SessionTime,
    VolFile,
    VolBlock,
    VolAddr,
    FileIndex,
    Stream,
}

/// The greatest number of four bytes.
const MAX_U32: u64 = 4_294_967_295;

/// The greatest index of a file, and the greatest stream: 2^31 - 1.
pub const MAX_INDEX: u64 = 2_147_483_647;

/// The greatest address of a volume: 2^63 - 1.
const MAX_ADDRESS: u64 = 9_223_372_036_854_775_807;

impl Criterion {
    /// Returns the least number in a range of the criterion.
    fn least(self) -> u64
        ensures { result ≡ least (criterion_of self) }
    {
        match self {
            Criterion::FileIndex | Criterion::Stream => 1,
            _ => 0,
        }
    }

    /// Returns the greatest number in a range of the criterion.
    fn greatest(self) -> u64
        ensures { result ≡ greatest (criterion_of self) }
    {
        match self {
            Criterion::FileIndex | Criterion::Stream => MAX_INDEX,
            Criterion::VolAddr => MAX_ADDRESS,
            _ => MAX_U32,
        }
    }

    /// Returns the range from `low` to `high`, if the criterion allows it.
    pub fn range(self, low: u128, high: u128) -> Option<Range>
        ensures { result ≡ if is_range (criterion_of self) (range_between (low, high)) then Some (range_between (low, high)) else None }
    {
        if u128::from(self.least()) <= low && low <= high && high <= u128::from(self.greatest()) {
            Some(Range {
                low: low as u64,
                high: high as u64,
            })
        } else {
            None
        }
    }

    /// Returns whether the criterion allows the range.
    pub fn takes(self, range: Range) -> bool
        ensures { result ≡ is_range (criterion_of self) range }
    {
        self.least() <= range.low && range.low <= range.high && range.high <= self.greatest()
    }

    /// Returns whether the criterion allows each of the ranges.
    pub fn takes_all(self, ranges: &[Range]) -> bool
        ensures { result ≡ list_all (is_range (criterion_of self)) ranges.now }
    {
        ranges.iter().all(|range| self.takes(*range))
    }
}
