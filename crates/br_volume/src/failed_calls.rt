//! The failed calls of a store, for contracts only.
ghost use Rattle.std.specs.Prelude.{◌≡◌};
ghost use Rattle.br_volume.specs.Store.{no_failures, one_more};

use crate::count::Count;
use br_types::VolName;
use std::marker::Model;
use std::snapshot::Snapshot;

/// The number of calls of a store that have failed, and the volume at which the last of them did.
#[derive(Drop)]
pub struct FailedCalls {
    count: Count,
    last: Option<Snapshot<VolName>>,
}

impl Model for FailedCalls {
    ghost use Rattle.std.specs.Prelude.{option_map};
    ghost use Rattle.br_volume.specs.Store.{Failures};

    ghost Value = { Failures };

    ghost view = { λ f. record { number = f.count.number; volume = option_map (λ s. s.value) f.last } };
}

impl FailedCalls {
    /// Returns no failed calls.
    pub fn none() -> FailedCalls
        ensures { result ≡ no_failures }
    {
        FailedCalls {
            count: Count::zero(),
            last: None,
        }
    }

    /// Returns these failed calls and one more, at a volume.
    pub fn and(&self, vol: &VolName) -> FailedCalls
        ensures { result ≡ one_more vol.now self.now }
    {
        FailedCalls {
            count: self.count.next(),
            last: Some(Snapshot::of(vol)),
        }
    }
}
