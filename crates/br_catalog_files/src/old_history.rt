//! The jobs of a catalogue of version 1, without their files.

ghost use Rattle.std.specs.Prelude.{◌≡◌, [], Ok, IfErr, IfOk, OnOk};
ghost use Rattle.sqlite_trees.specs.View.{IsClean};
ghost use Rattle.br_catalog_rows.specs.Load.{read_loaded};
ghost use Rattle.br_catalog_files.specs.Claims.{AreBareJobs};
ghost use Rattle.br_catalog_files.specs.Refusals.{FormHistory, IsOther};
ghost use Rattle.br_catalog_files.specs.MigrationSteps.{CommitsNothing, OnCleanStore, Reads};

use crate::old_jobs::{keep, read_jobs, read_spans};
use crate::old_names::read_names;
use br_catalog_rows::{CatalogueRows, StoreFault, history_of};
use br_catalog_tables::OldLayout;
use br_history::History;
use sqlite::Row as Shown;
use sqlite_exec::work::FromRow;
use sqlite_trees::store::Store;
use sqlite_value::row::Row;
use sqlite_value::value::ValueRef;
use std::alloc::Global;

/// Makes the history of rows of jobs and spans. Its jobs have no files.
fn history_in(alloc: Global, jobs: Vec<Shown>, spans: Vec<Shown>) -> Result<History, StoreFault>
    ensures jobs { IfOk result (λ history. read_loaded jobs.items spans.items [] ≡ Ok history) }
    ensures other { (all : _) → read_loaded jobs.items spans.items [] ≡ Ok all → IfErr result IsOther }
{
    let mut version = Row::new(alloc);
    version.push(ValueRef::Int(2))?;
    let mut versions = Vec::new(alloc);
    keep(&mut versions, Shown::from_row(alloc, &version)?)?;
    let rows = CatalogueRows {
        versions,
        jobs,
        spans,
        files: Vec::new(alloc),
    };
    Ok(history_of(alloc, &rows)?)
}

/// Loads the jobs without their files, from the tables in these trees.
///
/// # Errors
///
/// `BadCatalogue` if they form no history; `Store`, with its cause, if the store fails; `Memory` if memory
/// runs out.
pub(crate) fn load_jobs<S: Store>(
    alloc: Global,
    store: &mut S,
    layout: &OldLayout,
) -> Result<History, StoreFault>
    ensures jobs { OnCleanStore S.Store store.old store.new (λ old new. IfOk result (AreBareJobs layout.now old.trees)) }
    ensures other { OnCleanStore S.Store store.old store.new (λ old new. FormHistory layout.now old.trees → IfErr result IsOther) }
    ensures reads { OnCleanStore S.Store store.old store.new (λ old new. OnOk result (Reads old new)) }
    ensures kept { CommitsNothing S.Store store.old store.new }
{
    let clients = read_names(alloc, store, layout.client)?;
    let filesets = read_names(alloc, store, layout.fileset)?;
    let media = read_names(alloc, store, layout.media)?;
    let jobs = read_jobs(alloc, store, layout.job, &clients, &filesets)?;
    let spans = read_spans(alloc, store, layout.job_media, &media)?;
    let history = history_in(alloc, jobs, spans)?;
    Ok(history)
}
