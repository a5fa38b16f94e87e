//! Migrates the catalogue in a file.

ghost use Rattle.std.specs.Prelude.{IfOk};
ghost use Rattle.br_catalog_files.specs.Migrating.{Migrates};

use crate::fault::catalogue_fault;
use crate::file_migration::migrate_file;
use br_keeper::CatalogueFault;
use br_store::StoreFault;
use sqlite::FileStore;
use sqlite_disk::Disk;
use std::alloc::Global;

/// The stores in databases' files, by the paths of these.
pub(crate) trait Stores<D: Disk> {
    ghost use Rattle.std.specs.Prelude.{ℕ, List, IfOk};
    ghost use Rattle.sqlite.specs.Steps.{IsFresh};
    ghost use Rattle.sqlite_disk.specs.declared.Disk.{Ghosts};
    ghost use Rattle.sqlite_store.specs.FileStore.{view};
    ghost use Rattle.sqlite_store.specs.declared.store.FileStore.{FileStore as StoreOf};
    ghost use Rattle.sqlite_trees.specs.View.{IsClean};

    /// What may be opened at a path.
    ghost opens: { (g : Ghosts D) → Self → List ℕ → StoreOf D g → Type 0 };

    /// Opens the store in the file at a path, without a test of its rows.
    fn open_store(&self, db: &str) -> Result<FileStore<D>, CatalogueFault>
        ensures opened { IfOk result (opens D.Disk self.now db.now) }
        ensures fresh { IfOk result (λ store. IsClean (view store) → IsFresh (view store)) };

    /// Returns why the file at a path is refused if its rows are not those of a catalogue of version 1.
    fn refusal_of(&self, db: &str) -> CatalogueFault;
}

/// Changes the catalogue of version 1 in the file at a path to version 2. Returns the number of its
/// jobs. Afterwards the file alone is the catalogue (`migrated`), even after a refusal if nothing failed.
pub(crate) fn migrate_at<D: Disk + Drop, F: Stores<D>>(
    alloc: Global,
    stores: &F,
    db: &str,
) -> Result<u64, CatalogueFault>
    ensures migrated { IfOk result (Migrates (F.opens D.Disk stores.now db.now)) }
{
    let store = stores.open_store(db)?;
    match migrate_file(alloc, store) {
        Ok((jobs, files)) => {
            drop(files);
            Ok(jobs)
        }
        Err(StoreFault::BadCatalogue) => Err(stores.refusal_of(db)),
        Err(fault) => Err(catalogue_fault(fault)),
    }
}
