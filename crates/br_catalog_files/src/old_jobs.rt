//! The jobs and the spans of version 1, with names in place of numbers.

ghost use Rattle.std.specs.Prelude.{◌≡◌, ◌++◌, ◌∷◌, [], map, IfErr, IfOk, OnOk};
ghost use Rattle.std.specs.List.{AllByRecursion};
ghost use Rattle.sqlite_value.specs.Value.{owned};
ghost use Rattle.sqlite_trees.specs.Tree.{IsTable};
ghost use Rattle.sqlite_trees.specs.View.{IsClean};
ghost use Rattle.br_store.specs.Held.{name_at, span_shown};
ghost use Rattle.br_catalog_files.specs.Claims.{ShowJobs, ShowSpans, ShowsJob};
ghost use Rattle.br_catalog_files.specs.OldNames.{AreNames};
ghost use Rattle.br_catalog_files.specs.Refusals.{CanName, CanShowJob, CanShowJobs, CanShowSpan, IsOther};
ghost use Rattle.br_catalog_files.specs.MigrationSteps.{CommitsNothing, OnCleanStore, Reads};

use crate::old_names::NameTable;
use crate::tree_cursor::{start, step};
use br_catalog_rows::StoreFault;
use sqlite::Row as Shown;
use sqlite_exec::work::FromRow;
use sqlite_trees::store::Store;
use sqlite_value::row::Row;
use sqlite_value::value::ValueRef;
use std::alloc::{AllocError, Global};

/// Returns the name that has the number in a value. `BadCatalogue` if none has.
fn name_in<'a>(names: &'a NameTable, id: ValueRef<'_>) -> Result<ValueRef<'a>, StoreFault>
    ensures name { IfOk result (λ name. (rows : _) → AreNames names.now rows → IsTable rows → owned name ≡ name_at rows (owned id.entry)) }
    ensures other { CanName names.now (owned id.entry) → IfErr result IsOther }
{
    match id {
        ValueRef::Int(number) => names.get(number).ok_or(StoreFault::BadCatalogue),
        _ => Err(StoreFault::BadCatalogue),
    }
}

/// Returns a row of Job, with the names of its client and its file set in place of their numbers.
fn shown_job(
    alloc: Global,
    row: &Row,
    clients: &NameTable,
    filesets: &NameTable,
) -> Result<Shown, StoreFault>
    ensures shows { IfOk result (ShowsJob clients.now filesets.now row.now) }
    ensures other { CanShowJob clients.now filesets.now row.now → IfErr result IsOther }
{
    let client = name_in(clients, row.get(4))?;
    let fileset = name_in(filesets, row.get(7))?;
    let mut shown = Row::new(alloc);
    shown.push(row.get(0))?;
    shown.push(row.get(2))?;
    shown.push(row.get(3))?;
    shown.push(client)?;
    shown.push(row.get(5))?;
    shown.push(row.get(6))?;
    shown.push(fileset)?;
    shown.push(row.get(8))?;
    shown.push(row.get(9))?;
    Ok(Shown::from_row(alloc, &shown)?)
}

/// Returns a row of JobMedia, with the name of its volume in place of its number.
fn shown_span(alloc: Global, row: &Row, media: &NameTable) -> Result<Shown, StoreFault>
    ensures shows { IfOk result (λ shown. (ms : _) → AreNames media.now ms → IsTable ms → shown ≡ span_shown ms row.now) }
    ensures other { CanShowSpan media.now row.now → IfErr result IsOther }
{
    let volume = name_in(media, row.get(3))?;
    let mut shown = Row::new(alloc);
    shown.push(row.get(2))?;
    shown.push(volume)?;
    shown.push(row.get(4))?;
    shown.push(row.get(5))?;
    shown.push(row.get(6))?;
    shown.push(row.get(7))?;
    shown.push(row.get(8))?;
    shown.push(row.get(9))?;
    shown.push(row.get(10))?;
    Ok(Shown::from_row(alloc, &shown)?)
}

/// Appends a row.
pub(crate) fn keep(rows: &mut Vec<Shown>, row: Shown) -> Result<(), StoreFault>
    ensures kept { OnOk result (rows.new.items ≡ rows.old.items ++ row ∷ []) }
    ensures other { IfErr result IsOther }
{
    rows.push(row).map_err(AllocError::from)?;
    Ok(())
}

/// Reads the rows of Job, which is in this tree, with names in place of numbers.
///
/// # Errors
///
/// `BadCatalogue` if a client or a file set is missing; `Store`, with its cause, if the store fails; `Memory`
/// if memory runs out.
pub(crate) fn read_jobs<S: Store>(
    alloc: Global,
    store: &mut S,
    tree: u32,
    clients: &NameTable,
    filesets: &NameTable,
) -> Result<Vec<Shown>, StoreFault>
    ensures jobs { OnCleanStore S.Store store.old store.new (λ old new. IfOk result
        (λ jobs. ShowJobs clients.now filesets.now (old.trees tree) jobs.items)) }
    ensures other { OnCleanStore S.Store store.old store.new (λ old new.
        CanShowJobs clients.now filesets.now (old.trees tree) → IfErr result IsOther) }
    ensures reads { OnCleanStore S.Store store.old store.new (λ old new. OnOk result (Reads old new)) }
    ensures kept { CommitsNothing S.Store store.old store.new }
{
    let mut jobs = Vec::new(alloc);
    let mut row = Row::new(alloc);
    start(store, tree, &row)?;
    'rows: for _ in 0..u64::MAX {
        if !step(store, &mut row)? {
            return Ok(jobs);
        }
        let shown = shown_job(alloc, &row, clients, filesets)?;
        keep(&mut jobs, shown)?;
    }
    // No store has this many rows.
    Err(StoreFault::Memory)
}

/// Reads the rows of JobMedia, which is in this tree, with names in place of numbers.
///
/// # Errors
///
/// `BadCatalogue` if a volume is missing; `Store`, with its cause, if the store fails; `Memory` if memory
/// runs out.
pub(crate) fn read_spans<S: Store>(
    alloc: Global,
    store: &mut S,
    tree: u32,
    media: &NameTable,
) -> Result<Vec<Shown>, StoreFault>
    ensures spans { OnCleanStore S.Store store.old store.new (λ old new. IfOk result
        (λ spans. ShowSpans media.now (old.trees tree) spans.items)) }
    ensures other { OnCleanStore S.Store store.old store.new (λ old new.
        AllByRecursion (CanShowSpan media.now) (old.trees tree) → IfErr result IsOther) }
    ensures reads { OnCleanStore S.Store store.old store.new (λ old new. OnOk result (Reads old new)) }
    ensures kept { CommitsNothing S.Store store.old store.new }
{
    let mut spans = Vec::new(alloc);
    let mut row = Row::new(alloc);
    start(store, tree, &row)?;
    'rows: for _ in 0..u64::MAX {
        if !step(store, &mut row)? {
            return Ok(spans);
        }
        let shown = shown_span(alloc, &row, media)?;
        keep(&mut spans, shown)?;
    }
    // No store has this many rows.
    Err(StoreFault::Memory)
}
