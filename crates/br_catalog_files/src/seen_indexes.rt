//! The indexes of files, by job.

ghost use Rattle.std.specs.Prelude.{◌≡◌, ◌==◌, ◌&&◌, ◌<◌, ◌+◌, ◌^◌, not, true, false, ℕ, IfErr, IfOk, IsTrue, OnOk};
ghost use Rattle.std.specs.Ordering.{nat_cmp};
ghost use Rattle.std.specs.List.{list_any};
ghost use Rattle.std.specs.BTreeSet.{contains};
ghost use Rattle.br_model.specs.Job.{JobRows as Job};
ghost use Rattle.br_catalog_files.specs.Refusals.{IsOther};
ghost use Rattle.br_catalog_files.specs.SeenIndexes.{Notes, Saw, has, has_index, has_job};

use br_catalog_rows::StoreFault;
use br_history::JobRows;
use std::alloc::{AllocError, Global};
use std::collections::{BTreeMap, BTreeSet};

/// The indexes of the files of a job: those from 1 up to `last`, and others. Most jobs have no others.
#[derive(Drop)]
pub(crate) struct Indexes {
    last: u32,
    others: BTreeSet<u32>,
}

/// Makes no indexes.
#[tactic(auto, unfolding(crate::specs::SeenIndexes::has))]
fn none(alloc: Global) -> Indexes
    ensures { (index : ℕ) → has result index ≡ false }
{
    Indexes {
        last: 0,
        others: BTreeSet::new(alloc),
    }
}

/// Makes no indexes for each job.
pub(crate) fn no_indexes(
    alloc: Global,
    jobs: &[JobRows],
) -> Result<BTreeMap<u32, Indexes>, AllocError>
    ensures jobs { IfOk result (λ seen. (id : ℕ) → has_job seen id ≡ list_any (λ (j : Job). j.row.id == id) jobs.now) }
    ensures empty { IfOk result (λ seen. (id index : ℕ) → has_index seen id index ≡ false) }
{
    let mut seen = BTreeMap::new(alloc);
    for job in jobs {
        seen.insert(job.row().id.get(), none(alloc))?;
    }
    Ok(seen)
}

/// Returns whether an index comes after the last one, and there are no others.
fn is_next(indexes: &Indexes, index: u32) -> bool
    ensures next { IsTrue result → index ≡ indexes.now.last + 1 }
    ensures alone { IsTrue result → (q : ℕ) → contains nat_cmp indexes.now.others q ≡ false }
{
    index > indexes.last && index - 1 == indexes.last && indexes.others.is_empty()
}

/// Notes an index above 0, and returns whether it was not noted before.
#[tactic(auto, unfolding(crate::specs::SeenIndexes::has))]
fn is_new(indexes: &mut Indexes, index: u32) -> Result<bool, AllocError>
    ensures answer { IfOk result (λ new. new ≡ not (not (index == 0) && has indexes.old index)) }
    ensures noted { OnOk result (Notes indexes.old index indexes.new) }
{
    if index == 0 {
        return Ok(true);
    }
    if index <= indexes.last {
        return Ok(false);
    }
    if is_next(indexes, index) {
        indexes.last = index;
        return Ok(true);
    }
    Ok(indexes.others.insert(index)?)
}

/// Notes an index of a file of a job. `BadCatalogue` if there is no such job, or if it has the index already.
pub(crate) fn note(
    seen: &mut BTreeMap<u32, Indexes>,
    job: u32,
    index: u32,
) -> Result<(), StoreFault>
    ensures saw { OnOk result (Saw seen.old job index seen.new) }
    ensures fits { job < 2 ^ 32 }
    ensures other { has_job seen.old job ≡ true → (not (index == 0) && has_index seen.old job index) ≡ false → IfErr result IsOther }
{
    let Some(indexes) = seen.get_mut(&job) else {
        return Err(StoreFault::BadCatalogue);
    };
    if is_new(indexes, index)? {
        return Ok(());
    }
    Err(StoreFault::BadCatalogue)
}
