//! A catalogue in memory.
use crate::job_store::{JobStore, JobStoreFault};
use br_history::{History, JobRows};
use std::alloc::Global;

/// A catalogue in memory. It has copies of the jobs that it got.
#[derive(Drop)]
pub struct MemJobs {
    alloc: Global,
    /// The jobs.
    pub history: History,
}

impl MemJobs {
    ghost use Rattle.std.specs.Prelude.{◌≡◌, []};

    /// Makes a catalogue without jobs.
    pub fn new(alloc: Global) -> MemJobs
        ensures { result.history ≡ [] }
    {
        MemJobs {
            alloc,
            history: History::new(alloc),
        }
    }
}

impl JobStore for MemJobs {
    ghost use Rattle.std.specs.Prelude.{◌≡◌, ◌++◌, ◌∷◌, [], IfOk};

    ghost inserts = { λ rows old new. new.history ≡ old.history ++ rows ∷ [] };

    ghost refuses = { λ rows old new. new.history ≡ old.history };

    ghost loads = { λ old new result. (new.history ≡ old.history) × IfOk result (λ jobs. jobs ≡ old.history) };

    /// Appends a copy of a job.
    fn insert_job(&mut self, rows: &JobRows) -> Result<(), JobStoreFault> {
        let Ok(copy) = rows.copy(self.alloc) else {
            return Err(JobStoreFault::Store);
        };
        match self.history.push(copy) {
            Ok(()) => Ok(()),
            Err(_) => Err(JobStoreFault::Store),
        }
    }

    /// Returns a copy of the jobs.
    fn load_history(&mut self) -> Result<History, JobStoreFault> {
        match self.history.copy(self.alloc) {
            Ok(history) => Ok(history),
            Err(_) => Err(JobStoreFault::Memory),
        }
    }
}
