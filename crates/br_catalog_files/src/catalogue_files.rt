//! Catalogues in files of SQLite.

ghost use Rattle.std.specs.Prelude.{◌≡◌, Ok, IfOk, OnOk};
ghost use Rattle.sqlite.specs.Files.{over_files};
ghost use Rattle.sqlite.specs.Held.{state};
ghost use Rattle.sqlite.specs.Steps.{IsFresh};
ghost use Rattle.sqlite_store.specs.FileStore.{view};
ghost use Rattle.sqlite_trees.specs.View.{IsClean};
ghost use Rattle.br_catalog_files.specs.FileCatalogue.{IsClosed, IsOpened, LoadsNeeded, OfFoundRows, SaysWrong, wrong_line};
ghost use Rattle.br_catalog_rows.specs.Load.{read_history};
ghost use Rattle.br_store.specs.Calls.{IsJustOpened, WhileClean};
ghost use Rattle.br_store.specs.Made.{Finds};

use crate::fault::{catalogue_fault, look_fault};
use crate::migration::{Stores, migrate_at};
use crate::raw_files;
use br_catalog_rows::{WrongRows, push_wrong};
use br_history::{History, Needs};
use br_keeper::{Catalogue, CatalogueFault};
use br_store::{HostSight, Store, StoreFault, StoredJobs, fold, look};
use sqlite::{Alter, Connection, File, FileStore};
use sqlite_disk::{Disk, Memory};
use std::alloc::{AllocError, Global};

/// Opens the catalogue in a database, with all that was committed to it. In a database with no
/// table it makes a catalogue without jobs.
fn opened<S: Alter + Drop>(alloc: Global, conn: Connection<S>) -> Result<Store<S>, StoreFault>
    requires { IsJustOpened S.Store conn }
    ensures opened { IfOk result (λ store. IsOpened S.Store store) }
    ensures finds { IfOk result (λ store. WhileClean S.Store store (λ is. Finds (state S.Store conn).committed is.now)) }
{
    match Store::open(alloc, conn) {
        Ok(store) => Ok(store),
        Err((fault, _)) => Err(fault),
    }
}

/// Opens the catalogue in a file, or makes one without jobs in a file that is empty or not there.
fn open(rt: &HostRuntime, db: &str) -> Result<Store<FileStore<File>>, StoreFault>
    ensures { IfOk result (λ store. IsOpened over_files store) }
{
    let conn = open_file(rt, db)?;
    opened(rt.alloc(), conn)
}

/// Loads the jobs of a catalogue. Returns them and its connection.
fn load_from<S: Alter + Drop>(
    alloc: Global,
    conn: Connection<S>,
) -> Result<(History, Connection<S>), StoreFault>
    requires { IsJustOpened S.Store conn }
    ensures { IfOk result (λ r. WhileClean S.Store r.1 (λ _.
        OfFoundRows (state S.Store conn).committed (λ rows. read_history rows ≡ Ok r.0))) }
{
    let mut store = opened(alloc, conn)?;
    let history = store.load_history()?;
    Ok((history, store.into_connection()))
}

/// Loads the jobs of a catalogue, and the files of those whose files are needed. Returns them and its
/// connection.
fn load_needed_from<S: Alter + Drop, N: Needs>(
    alloc: Global,
    conn: Connection<S>,
    needs: &N,
) -> Result<(History, Connection<S>), StoreFault>
    requires { IsJustOpened S.Store conn }
    ensures { IfOk result (λ r. WhileClean S.Store r.1 (λ _. LoadsNeeded (state S.Store conn).committed (N.needed needs.now) r.0)) }
{
    let mut store = opened(alloc, conn)?;
    let history = store.load_needed(needs)?;
    Ok((history, store.into_connection()))
}

/// Shows the database in the file of a catalogue and its log. Both are only read.
fn look_at(rt: &HostRuntime, db: &str) -> Result<Connection<FileStore<Memory>>, CatalogueFault>
    ensures { IfOk result (λ c. IsJustOpened over_files c) }
{
    let mut sight = HostSight::new(rt, db).map_err(look_fault)?;
    match look(rt.alloc(), &mut sight) {
        Ok(conn) => Ok(conn),
        Err(fault) => Err(look_fault(fault)),
    }
}

/// Loads the jobs in the file of a catalogue.
fn load(rt: &HostRuntime, db: &str) -> Result<History, CatalogueFault> {
    match load_from(rt.alloc(), look_at(rt, db)?) {
        Ok((history, _conn)) => Ok(history),
        Err(fault) => Err(catalogue_fault(fault)),
    }
}

/// Loads the jobs in the file of a catalogue, and the files of those whose files are needed.
fn load_needed<N: Needs>(rt: &HostRuntime, db: &str, needs: &N) -> Result<History, CatalogueFault> {
    match load_needed_from(rt.alloc(), look_at(rt, db)?, needs) {
        Ok((history, _conn)) => Ok(history),
        Err(fault) => Err(catalogue_fault(fault)),
    }
}

/// Returns the line that says what is wrong; nothing if nothing is.
fn line_of(alloc: Global, told: Option<WrongRows>) -> Result<Vec<u8>, AllocError>
    ensures { IfOk result (λ line. line.items ≡ wrong_line told) }
{
    let mut line = Vec::new(alloc);
    if let Some(wrong) = told {
        push_wrong(&mut line, wrong)?;
        line.extend_from_slice(b"\n")?;
    }
    Ok(line)
}

/// Returns what is wrong with the rows of a catalogue, as a line; nothing if they form a history.
/// Returns its connection, too.
fn wrong_in<S: Alter + Drop>(
    alloc: Global,
    conn: Connection<S>,
) -> Result<(Vec<u8>, Connection<S>), StoreFault>
    requires { IsJustOpened S.Store conn }
    ensures { IfOk result (λ r. WhileClean S.Store r.1 (λ _.
        OfFoundRows (state S.Store conn).committed (λ rows. SaysWrong rows r.0.items))) }
{
    let mut store = opened(alloc, conn)?;
    let told = store.find_wrong()?;
    let line = line_of(alloc, told)?;
    Ok((line, store.into_connection()))
}

/// Returns what is wrong with the rows in the file of a catalogue, as a line; nothing if they form a
/// history or cannot be read.
fn wrong_rows(rt: &HostRuntime, db: &str) -> Vec<u8> {
    match look_at(rt, db) {
        Ok(conn) => match wrong_in(rt.alloc(), conn) {
            Ok((line, _conn)) => line,
            Err(_) => Vec::new(rt.alloc()),
        },
        Err(_) => Vec::new(rt.alloc()),
    }
}

/// Writes all that was committed to a catalogue into its file.
fn close(conn: Connection<FileStore<File>>) -> Result<(), CatalogueFault>
    ensures { OnOk result (IsClosed conn) }
{
    match fold(conn) {
        Ok(files) => {
            drop(files);
            Ok(())
        }
        Err(fault) => Err(look_fault(fault)),
    }
}

/// Opens the database in a file.
fn open_file(rt: &HostRuntime, db: &str) -> Result<Connection<FileStore<File>>, StoreFault>
    ensures { IfOk result (λ c. IsJustOpened over_files c) }
{
    Ok(Connection::open(rt, db)?)
}

/// Returns why `migrate` refuses a file as no catalogue of version 1: its rows may not obey its
/// tables.
fn refusal_of(rt: &HostRuntime, db: &str) -> CatalogueFault {
    match open_file(rt, db) {
        Ok(conn) => {
            let _closed = close(conn);
            CatalogueFault::BadCatalogue
        }
        Err(fault) => catalogue_fault(fault),
    }
}

/// Opens the store in a file, without a test of its rows.
fn open_store(rt: &HostRuntime, db: &str) -> Result<FileStore<File>, CatalogueFault>
    ensures { IfOk result (λ store. IsClean (view store) → IsFresh (view store)) }
{
    match raw_files::open(rt, db) {
        Ok(store) => Ok(store),
        Err(_error) => Err(CatalogueFault::Unreadable),
    }
}

/// The catalogues in files of SQLite.
#[derive(Drop)]
pub struct CatalogueFiles<'r> {
    rt: &'r HostRuntime,
}

impl<'r> CatalogueFiles<'r> {
    /// Creates the catalogues in the files of the system.
    pub fn new(rt: &'r HostRuntime) -> CatalogueFiles<'r> {
        CatalogueFiles { rt }
    }
}

impl Stores<File> for CatalogueFiles<'_> {
    ghost use Rattle.std.specs.Prelude.{⊤};

    ghost opens = { λ _ _ _ _. ⊤ };

    fn open_store(&self, db: &str) -> Result<FileStore<File>, CatalogueFault> {
        open_store(self.rt, db)
    }

    fn refusal_of(&self, db: &str) -> CatalogueFault {
        refusal_of(self.rt, db)
    }
}

impl Catalogue for CatalogueFiles<'_> {
    ghost use Rattle.std.specs.Prelude.{None, IfOk};
    ghost use Rattle.sqlite.specs.Files.{over_files};
    ghost use Rattle.br_catalog_files.specs.FileCatalogue.{IsClosed, IsOpened};
    ghost use Rattle.br_catalog_files.specs.Migrating.{Migrates};

    type Jobs = StoredJobs<FileStore<File>>;

    ghost jobs_at = { λ _ _. None };

    ghost opens = { λ _ _ jobs. IsOpened over_files jobs };

    ghost closes = { λ _ jobs. IsClosed jobs };

    fn open(&self, db: &str) -> Result<StoredJobs<FileStore<File>>, CatalogueFault> {
        match open(self.rt, db) {
            Ok(store) => Ok(StoredJobs::new(store)),
            Err(fault) => Err(catalogue_fault(fault)),
        }
    }

    fn close(&self, jobs: StoredJobs<FileStore<File>>) -> Result<(), CatalogueFault> {
        close(jobs.into_store().into_connection())
    }

    fn load(&self, db: &str) -> Result<History, CatalogueFault> {
        load(self.rt, db)
    }

    fn load_needed<N: Needs>(&self, db: &str, needs: &N) -> Result<History, CatalogueFault> {
        load_needed(self.rt, db, needs)
    }

    fn wrong_rows(&self, db: &str) -> Vec<u8> {
        wrong_rows(self.rt, db)
    }

    fn migrate(&self, db: &str) -> Result<u64, CatalogueFault>
        ensures migrated { IfOk result (Migrates (⟦<CatalogueFiles<'static> as Stores<File>>⟧.opens ⟦<File as Disk>⟧ self.now db.now)) }
    {
        migrate_at(self.rt.alloc(), self, db)
    }
}
