//! The catalogue of jobs, as the commands need it.
ghost use Rattle.std.specs.Prelude.{◌≡◌, IfOk, OnOk};
ghost use Rattle.br_keeper.specs.Catalogue.{AreJobs, AreNeeded, catalogue_number};

use crate::job_store::JobStore;
use br_history::{History, Needs};
use thiserror::Error;

/// Why a catalogue was not opened, or its jobs were not loaded.
#[derive(Clone, Copy, Debug, Error)]
pub enum CatalogueFault {
    #[error("out of memory")]
    Memory,
    #[error("the catalogue can't be read")]
    Unreadable,
    #[error("the catalogue is of another version, or its rows form no history")]
    BadCatalogue,
    #[error("the catalogue is of version 1")]
    OldCatalogue,
}

impl CatalogueFault {
    /// Returns the number of the refusal: 1 out of memory, 45 a catalogue that can't be read, 47 one of
    /// another version or whose rows form no history, 48 one of version 1.
    pub fn number(self) -> u32
        ensures { result ≡ catalogue_number self }
    {
        match self {
            CatalogueFault::Memory => 1,
            CatalogueFault::Unreadable => 45,
            CatalogueFault::BadCatalogue => 47,
            CatalogueFault::OldCatalogue => 48,
        }
    }
}

/// Catalogues by the paths of their files.
pub trait Catalogue {
    ghost use Rattle.std.specs.Prelude.{ℕ, List, Option};
    ghost use Rattle.br_model.specs.Job.{JobRows};

    /// A catalogue that is open, to which jobs can be added.
    type Jobs: JobStore + Drop;

    /// The jobs of the catalogue at a path, if they are told. Those in a file are not.
    ghost jobs_at: { Self → List ℕ → Option (List JobRows) };

    /// What may be opened at a path.
    ghost opens: { Self → List ℕ → Self.Jobs → Type 0 };

    /// The relation that holds once all jobs of an open catalogue are in its file.
    ghost closes: { Self → Self.Jobs → Type 0 };

    /// Opens the catalogue at the path, or makes one without jobs if there is none.
    fn open(&self, db: &str) -> Result<Self::Jobs, CatalogueFault>
        ensures opened { IfOk result (opens self.now db.now) };

    /// Ends the use of a catalogue. Afterwards its file contains all its jobs by itself.
    fn close(&self, jobs: Self::Jobs) -> Result<(), CatalogueFault>
        ensures closed { OnOk result (closes self.now jobs) };

    /// Loads all jobs of the catalogue at the path. If there is none, makes none; changes nothing.
    fn load(&self, db: &str) -> Result<History, CatalogueFault>
        ensures loaded { IfOk result (λ history. AreJobs (jobs_at self.now db.now) history) };

    /// Loads all jobs of the catalogue at the path, and the files of those jobs whose files are needed.
    /// Whatever is wrong with a row of another job's file is no reason to refuse the catalogue. If there
    /// is none, makes none; changes nothing.
    fn load_needed<N: Needs>(&self, db: &str, needs: &N) -> Result<History, CatalogueFault>
        ensures loaded { IfOk result (λ history. AreNeeded (jobs_at self.now db.now) (N.needed needs.now) history) };

    /// Returns a line for an operator that says what is wrong with the rows of the catalogue at the
    /// path; nothing if they form a history or cannot be read.
    fn wrong_rows(&self, db: &str) -> Vec<u8>;

    /// Migrates the catalogue at the path from version 1 to 2. Returns the number of its jobs.
    fn migrate(&self, db: &str) -> Result<u64, CatalogueFault>;
}
