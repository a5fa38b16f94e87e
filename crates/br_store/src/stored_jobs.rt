//! A store of jobs that a keeper owns.
ghost use Rattle.std.specs.Prelude.{◌≡◌};
ghost use Rattle.br_store.specs.Kept.{of_fault};

use crate::store::Store;
use br_catalog_rows::StoreFault;
use br_history::{History, JobRows};
use br_keeper::{JobStore, JobStoreFault};
use sqlite::Alter;
use std::marker::Model;

/// Returns a store's refusal as the keeper's.
fn kept_fault(fault: StoreFault) -> JobStoreFault
    ensures { result ≡ of_fault fault }
{
    match fault {
        StoreFault::Memory => JobStoreFault::Memory,
        StoreFault::Store(_) | StoreFault::OldCatalogue => JobStoreFault::Store,
        StoreFault::BadCatalogue => JobStoreFault::BadCatalogue,
    }
}

/// The jobs of a catalogue in a database. Contracts see them as the connection to the database.
#[derive(Drop)]
pub struct StoredJobs<S: Alter> {
    store: Store<S>,
}

impl<S: Alter> Model for StoredJobs<S> {
    ghost use Rattle.sqlite.specs.Held.{Held, held_code};

    ghost Value = { Held S };

    ghost coded = { held_code S.code };

    ghost view = { λ s. s.store };
}

impl<S: Alter> StoredJobs<S> {
    /// Returns the jobs of this store.
    pub fn new(store: Store<S>) -> StoredJobs<S>
        ensures { result ≡ store }
    {
        StoredJobs { store }
    }

    /// Returns the store.
    pub fn into_store(self) -> Store<S>
        ensures { result ≡ self }
    {
        self.store
    }
}

impl<S: Alter> JobStore for StoredJobs<S> {
    ghost use Rattle.br_store.specs.Kept.{Inserts, Refuses, Loads};

    ghost inserts = { λ rows old new. Inserts S.Store rows old new };

    ghost refuses = { λ rows old new. Refuses S.Store rows old new };

    ghost loads = { λ old new result. Loads S.Store old new result };

    /// Adds a job with all its rows, in one transaction.
    fn insert_job(&mut self, rows: &JobRows) -> Result<(), JobStoreFault> {
        match self.store.insert_job(rows) {
            Ok(()) => Ok(()),
            Err(fault) => Err(kept_fault(fault)),
        }
    }

    /// Loads the history that the rows form.
    fn load_history(&mut self) -> Result<History, JobStoreFault> {
        match self.store.load_history() {
            Ok(history) => Ok(history),
            Err(fault) => Err(kept_fault(fault)),
        }
    }
}
