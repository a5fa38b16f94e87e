//! Migrates the catalogue in a database's file.

ghost use Rattle.std.specs.Prelude.{IfOk, IsTrue};
ghost use Rattle.sqlite.specs.Held.{AreDatabases};
ghost use Rattle.sqlite.specs.Steps.{IsFresh};
ghost use Rattle.sqlite_store.specs.FileStore.{recovers, view};
ghost use Rattle.sqlite_trees.specs.View.{IsClean};
ghost use Rattle.br_catalog_files.specs.FileMigration.{IsMigratedTo};
ghost use Rattle.br_catalog_files.specs.RawFolded.{IsFolded};
ghost use Rattle.br_catalog_files.specs.RawPremises.{HaveKept};

use crate::migrating::migrate;
use crate::raw_closing::fold;
use br_catalog_rows::StoreFault;
use sqlite::{FileStore, Files};
use sqlite_disk::Disk;
use std::alloc::Global;

/// Puts all that was committed into the database file, and empties the log. Returns both files.
fn end<D: Disk + Drop>(store: FileStore<D>) -> Result<Files<D>, StoreFault>
    ensures clean { IfOk result (λ files. HaveKept D.Disk files → IsClean (view store)) }
    ensures folded { IfOk result (λ files.
        HaveKept D.Disk files → IsTrue (view store).is_numbered → AreDatabases (recovers store) → IsFolded store files) }
{
    match fold(store) {
        Ok(files) => Ok(files),
        Err(error) => Err(StoreFault::Store(error)),
    }
}

/// Migrates the catalogue of a store from version 1 to version 2, and ends the use of the store: what is
/// committed is put into the database file, and the log is emptied, even after a refusal. Returns the
/// number of jobs, and both files: while they are there, no other program opens them. If the catalogue
/// was sound, the database file alone is the one of version 2 with the same jobs (`migrated`).
///
/// # Errors
///
/// Those of `migrate`; then `Store` if the log was not copied or not emptied.
pub(crate) fn migrate_file<D: Disk + Drop>(
    alloc: Global,
    store: FileStore<D>,
) -> Result<(u64, Files<D>), StoreFault>
    requires { IsClean (view store) → IsFresh (view store) }
    ensures migrated { IfOk result (λ r. HaveKept D.Disk r.1 → IsMigratedTo store r.1 r.0) }
{
    let mut store = store;
    match migrate(alloc, &mut store) {
        Ok(jobs) => {
            let files = end(store)?;
            Ok((jobs, files))
        }
        Err(fault) => {
            let _files = end(store);
            Err(fault)
        }
    }
}
