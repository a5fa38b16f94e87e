//! Catalogues of jobs, as the keeper needs them.
ghost use Rattle.std.specs.Prelude.{OnOk, OnErr};

use br_history::{History, JobRows};
use thiserror::Error;

/// Why a job was not inserted, or the jobs were not loaded.
#[derive(Clone, Copy, Debug, Error)]
pub enum JobStoreFault {
    #[error("out of memory")]
    Memory,
    #[error("the store of the catalogue failed")]
    Store,
    #[error("the catalogue is of another version, or its rows form no history")]
    BadCatalogue,
}

/// A catalogue, to which jobs are added one at a time.
///
/// Each catalogue defines relations that state the effects of its calls. A keeper calls
/// `load_history` once, and `insert_job` once in each commit that gets that far. So its contract
/// says that the catalogue is changed just as these relations say, and not at all by a commit that
/// was refused before.
pub trait JobStore {
    ghost use Rattle.std.specs.Prelude.{List, Result};
    ghost use Rattle.br_model.specs.Job.{JobRows};
    ghost use Rattle.br_keeper.specs.declared.job_store.JobStoreFault.{JobStoreFault};

    /// The relation between a catalogue before and after a job is inserted.
    ghost inserts: { JobRows → Self → Self → Type 0 };

    /// The relation between a catalogue before and after a job is not inserted.
    ghost refuses: { JobRows → Self → Self → Type 0 };

    /// The result of loading, and the relation between the catalogue before and after.
    ghost loads: { Self → Self → Result (List JobRows) JobStoreFault → Type 0 };

    /// Adds a job with all its rows, or nothing.
    ///
    /// # Errors
    ///
    /// `Store` if the catalogue fails or has the number or the session of the job.
    fn insert_job(&mut self, rows: &JobRows) -> Result<(), JobStoreFault>
        ensures inserted { OnOk result (inserts rows.now self.old self.new) }
        ensures refused { OnErr result (refuses rows.now self.old self.new) };

    /// Loads all jobs.
    ///
    /// # Errors
    ///
    /// `Store` if the catalogue fails, `BadCatalogue` if its rows form no history, `Memory` if
    /// memory runs out.
    fn load_history(&mut self) -> Result<History, JobStoreFault>
        ensures { loads self.old self.new result };
}
