//! Migrates a catalogue from version 1 to version 2, in one transaction.

ghost use Rattle.std.specs.Prelude.{◌≡◌, false, IsTrue, IfErr, IfOk, OnOk, OnErr};
ghost use Rattle.sqlite.specs.Steps.{IsFresh};
ghost use Rattle.sqlite_trees.specs.View.{IsClean};
ghost use Rattle.br_catalog_files.specs.Claims.{CountsJobs, WritesNew};
ghost use Rattle.br_catalog_files.specs.Moved.{HasMigrated, IsKept, IsMoved, HasSameTrees, KeepsUnlessFailed, LeavesOnly, MayMove, Survives};
ghost use Rattle.br_catalog_files.specs.OldRead.{IsReadOld};
ghost use Rattle.br_catalog_files.specs.Refusals.{FormHistory, IsOldHistory, IsOther, RefusesRows};
ghost use Rattle.br_catalog_files.specs.MigrationSteps.{CommitsNothing, KeepsLast, OnCleanStore, Reads};

use crate::new_tables::{put_files, put_version, replace_tables};
use crate::old_files::{OldFiles, read_files};
use crate::old_history::load_jobs;
use crate::old_names::{NameTable, read_names};
use crate::old_version::{OldSchema, are_tables, check_new, find_old, read_version};
use crate::tree_cursor::{damaged, fault_of};
use br_catalog_rows::StoreFault;
use br_catalog_tables::OldLayout;
use sqlite_trees::store::{Alter, Store};
use std::alloc::Global;

/// The data that is read from a catalogue of version 1: the rowid of its version, the names and the
/// rows of its files, and the number of its jobs.
#[derive(Drop)]
pub(crate) struct Old {
    version: i64,
    names: NameTable,
    files: OldFiles,
    jobs: u64,
}

/// Reads a catalogue of version 1 with its tables in these trees, if its rows form a history.
fn read_old<S: Alter>(alloc: Global, store: &mut S, layout: &OldLayout) -> Result<Old, StoreFault>
    requires { IsClean (S.Store.view store.old) → (S.Store.view store.old).is_broken ≡ false }
    ensures old { OnCleanStore S.Store store.old store.new (λ before after. IfOk result (λ old. IsReadOld layout.now old before.trees)) }
    ensures other { OnCleanStore S.Store store.old store.new (λ old new. FormHistory layout.now old.trees → IfErr result IsOther) }
    ensures reads { OnCleanStore S.Store store.old store.new (λ old new. OnOk result (Reads old new)) }
    ensures kept { CommitsNothing S.Store store.old store.new }
{
    if !are_tables(store, layout) {
        return Err(damaged());
    }
    let version = read_version(alloc, store, layout.version)?;
    let history = load_jobs(alloc, store, layout)?;
    let paths = read_names(alloc, store, layout.path)?;
    let names = read_names(alloc, store, layout.filename)?;
    let files = read_files(alloc, store, layout.file, history.jobs(), &paths, &names)?;
    Ok(Old {
        version,
        names,
        files,
        jobs: history.len() as u64,
    })
}

/// Writes a catalogue of version 2 over the one of version 1 that was read.
fn write_new<S: Alter>(
    alloc: Global,
    store: &mut S,
    tables: &OldSchema,
    old: &Old,
) -> Result<(), StoreFault>
    requires numbered { IsClean (S.Store.view store.old) → IsTrue (S.Store.view store.old).is_numbered }
    ensures written { OnCleanStore S.Store store.old store.new (λ before after. OnOk result (WritesNew tables.now old.now before after)) }
    ensures other { IfErr result IsOther }
    ensures kept { CommitsNothing S.Store store.old store.new }
{
    let layout = &tables.layout;
    replace_tables(alloc, store, layout)?;
    put_files(alloc, store, layout.file, &old.files, &old.names)?;
    put_version(alloc, store, layout.version, old.version)?;
    check_new(alloc, store, tables)?;
    Ok(())
}

/// Reads a catalogue of version 1, and writes one of version 2. Nothing is committed. Returns the number of jobs.
fn rewrite<S: Alter>(alloc: Global, store: &mut S) -> Result<u64, StoreFault>
    requires { IsClean (S.Store.view store.old) → IsFresh (S.Store.view store.old) }
    ensures moved { OnCleanStore S.Store store.old store.new (λ old new. IfOk result (IsMoved old new)) }
    ensures other { OnCleanStore S.Store store.old store.new (λ old new. IsOldHistory old.trees → IfErr result IsOther) }
    ensures kept { CommitsNothing S.Store store.old store.new }
{
    let tables = find_old(alloc, store)?;
    let old = read_old(alloc, store, &tables.layout)?;
    write_new(alloc, store, &tables, &old)?;
    Ok(old.jobs)
}

/// Migrates a catalogue from version 1 to version 2, and commits it. Returns the number of jobs.
fn move_all<S: Alter>(alloc: Global, store: &mut S) -> Result<u64, StoreFault>
    requires { IsClean (S.Store.view store.old) → IsFresh (S.Store.view store.old) }
    ensures moved { OnCleanStore S.Store store.old store.new (λ old new. IfOk result (IsKept old new)) }
    ensures other { OnCleanStore S.Store store.old store.new (λ old new. IsOldHistory old.trees → IfErr result IsOther) }
    ensures failed { OnCleanStore S.Store store.old store.new (λ old new. OnErr result (KeepsLast old new)) }
    ensures crash { MayMove S.Store store.old store.new }
    ensures unchanged { IfErr result (KeepsUnlessFailed S.Store store.old store.new) }
{
    let jobs = rewrite(alloc, store)?;
    match store.commit() {
        Ok(()) => Ok(jobs),
        Err(error) => Err(fault_of(error)),
    }
}

/// Migrates a catalogue from version 1 to version 2, in one transaction: a row of File gets the
/// name of its file, and the table of names is dropped. Returns the number of jobs. Afterwards the
/// rows form the history that the rows of version 1 formed (`jobs`). `BadCatalogue` never refuses a
/// sound catalogue of version 1 whose rows form a history and refer to one another by integers
/// (`why`). A crash during the call leaves what it could leave before, or all of version 2
/// (`crash`); a crash after `Ok` leaves version 2 (`durable`), and one after a refusal other than
/// `Store` what it could leave before (`unchanged`).
///
/// # Errors
///
/// `BadCatalogue` if the database is empty or of version 2, the version is not the one row 1, or the rows form no
/// history; `Store`, with its cause, if the store fails or has other tables; `Memory` if memory runs out. If the store
/// is still open then, the trees are unchanged (`refused`).
///
/// A store that is still open afterwards is like one that was just opened (`fresh`).
pub(crate) fn migrate<S: Alter>(alloc: Global, store: &mut S) -> Result<u64, StoreFault>
    requires { IsClean (S.Store.view store.old) → IsFresh (S.Store.view store.old) }
    ensures migrated { OnCleanStore S.Store store.old store.new (λ old new. OnOk result (HasMigrated old new)) }
    ensures jobs { OnCleanStore S.Store store.old store.new (λ old new. IfOk result (CountsJobs old.trees new.trees)) }
    ensures why { OnCleanStore S.Store store.old store.new (λ old new. IfErr result (RefusesRows old.trees)) }
    ensures refused { OnCleanStore S.Store store.old store.new (λ old new. IsTrue new.is_open
        → OnErr result (HasSameTrees old new)) }
    ensures fresh { OnCleanStore S.Store store.old store.new (λ old new. IsTrue new.is_open → IsFresh new) }
    ensures numbered { OnCleanStore S.Store store.old store.new (λ old new. IsTrue new.is_numbered) }
    ensures crash { Survives S.Store store.old store.new }
    ensures unchanged { IfErr result (KeepsUnlessFailed S.Store store.old store.new) }
    ensures durable { OnCleanStore S.Store store.old store.new (λ old new. OnOk result (LeavesOnly S.Store store.new new.trees)) }
{
    match move_all(alloc, store) {
        Ok(jobs) => Ok(jobs),
        Err(fault) => {
            store.rollback();
            Err(fault)
        }
    }
}
