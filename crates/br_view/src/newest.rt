ghost use Rattle.std.specs.Prelude.{◌≡◌, true, [], ◌∷◌, map, filter_map, option_map, IfOk, OnOk};
ghost use Rattle.br_model.specs.Job.{are_rows};
ghost use Rattle.br_view.specs.Newest as newest;
ghost use Rattle.br_view.specs.Shown.{shown, shown_pair};

use crate::entry::{Entry, shown_of};
use br_history::{FileRow, JobRows};
use br_types::Path;
use std::alloc::{AllocError, Global};
use std::collections::BTreeMap;

/// A row of a job, by reference.
type RowOfJob<'h> = (&'h JobRows, &'h FileRow);

/// Returns the key by which copies are ordered: start time and number of the job, then the index.
fn rank(job: &JobRows, row: &FileRow) -> (u64, u32, u32)
    ensures start { result.0 ≡ job.now.row.start }
    ensures number { result.1 ≡ job.now.row.id }
    ensures index { result.2 ≡ row.now.index }
{
    let job = job.row();
    (job.start, job.id.get(), row.index)
}

/// Returns whether a copy is newer than one that is kept, if there is one.
fn is_news(known: Option<RowOfJob<'_>>, job: &JobRows, row: &FileRow) -> bool
    ensures { result ≡ newest.is_news (option_map newest.copy_of known.entry) (job.now, row.now) }
{
    match known {
        Some((known_job, known_row)) => rank(known_job, known_row) < rank(job, row),
        None => true,
    }
}

/// Keeps a copy if no newer one of its path is kept.
fn note<'h>(
    kept: &mut BTreeMap<&'h [u8], RowOfJob<'h>>,
    job: &'h JobRows,
    row: &'h FileRow,
) -> Result<(), AllocError>
    ensures { OnOk result (newest.Adds kept.old ((job.now, row.now) ∷ []) kept.new) }
{
    let path = row.path.bytes();
    if is_news(kept.get(path).copied(), job, row) {
        kept.insert(path, (job, row))?;
    }
    Ok(())
}

/// Adds the newer copies of a job.
fn note_job<'h>(
    kept: &mut BTreeMap<&'h [u8], RowOfJob<'h>>,
    job: &'h JobRows,
) -> Result<(), AllocError>
    ensures kept { OnOk result (newest.Adds kept.old (newest.job_copies job.now) kept.new) }
    ensures valid { are_rows job.now ≡ true }
{
    for row in job.files() {
        note(kept, job, row)?;
    }
    Ok(())
}

/// Returns the newest copy of each path, by the bytes of the path.
pub(crate) fn newest_copies<'h>(
    alloc: Global,
    jobs: &[&'h JobRows],
) -> Result<BTreeMap<&'h [u8], RowOfJob<'h>>, AllocError>
    ensures { IfOk result (λ kept. newest.IsNewest (map (λ j. j.now) jobs.now) kept) }
{
    let mut kept = BTreeMap::new(alloc);
    for job in jobs {
        note_job(&mut kept, job)?;
    }
    Ok(kept)
}

/// Returns paths and entries of the copies that are not deletions, in byte order of the paths.
pub(crate) fn entries_of<'h>(
    alloc: Global,
    kept: &BTreeMap<&'h [u8], RowOfJob<'h>>,
) -> Result<Vec<(&'h Path, Entry)>, AllocError>
    ensures entries { IfOk result (λ entries. map shown_pair entries.items ≡ filter_map (λ e. shown (newest.copy_of e.1)) kept.now.entries) }
    ensures ordered { newest.AreOrdered kept.now }
{
    let mut entries = Vec::new(alloc);
    for (_, copy) in kept.iter() {
        let (job, row) = *copy;
        if let Some(entry) = shown_of(job, row) {
            if entries.push(entry).is_err() {
                return Err(AllocError);
            }
        }
    }
    Ok(entries)
}
