//! A catalogue that keeps no jobs.
use br_history::{History, JobRows};
use br_keeper::{JobStore, JobStoreFault};
use std::alloc::Global;

/// A catalogue that keeps no jobs: those that a keeper stores in it are only in the keeper's
/// history.
#[derive(Drop)]
pub struct Forgetful {
    alloc: Global,
}

impl Forgetful {
    /// Returns such a catalogue.
    pub fn new(alloc: Global) -> Forgetful {
        Forgetful { alloc }
    }
}

impl JobStore for Forgetful {
    ghost use Rattle.std.specs.Prelude.{◌≡◌, Ok, []};

    ghost inserts = { λ rows old new. new ≡ old };

    ghost refuses = { λ rows old new. ⊥ };

    ghost loads = { λ old new result. (new ≡ old) × (result ≡ Ok []) };

    fn insert_job(&mut self, _rows: &JobRows) -> Result<(), JobStoreFault> {
        Ok(())
    }

    fn load_history(&mut self) -> Result<History, JobStoreFault> {
        Ok(History::new(self.alloc))
    }
}
