ghost use Rattle.std.specs.Prelude.{◌≡◌, not, map, filter, take, drop, IfOk};
ghost use Rattle.br_view.specs.Shown.{shown_pair};
ghost use Rattle.br_plan.specs.Selected.{file_of};
ghost use Rattle.br_plan.specs.Parts.{Rise, AreFiles, is_before, is_up_to, is_within};
ghost use Rattle.br_plan.specs.Runs.{AreRuns};

use br_session::Span;
use br_tree::Shown;
use br_types::{FileIndex, JobId};
use std::alloc::{AllocError, Global};

/// A file of a job.
pub(crate) type FileOf = (JobId, FileIndex);

/// Returns the files of the entries, in the order of the entries.
fn each_file(alloc: Global, entries: &[Shown<'_>]) -> Result<Vec<FileOf>, AllocError>
    ensures { IfOk result (λ files. files.items ≡ map (λ p. file_of (shown_pair p)) entries.now) }
{
    entries
        .iter()
        .map(|shown| (shown.1.job, shown.1.index))
        .collect(alloc)
}

/// Returns the files of the entries in order of job and index, each once.
pub(crate) fn files_of(alloc: Global, entries: &[Shown<'_>]) -> Result<Vec<FileOf>, AllocError>
    ensures { IfOk result (λ files. AreFiles (map shown_pair entries.now) files.items) }
{
    let mut files = each_file(alloc, entries)?;
    files.sort_unstable();
    files.dedup();
    Ok(files)
}

fn precedes(file: FileOf, job: JobId, first: u32) -> bool
    ensures { result ≡ is_before job first file }
{
    file.0 < job || file.0 == job && file.1.get() < first
}

fn reaches_to(file: FileOf, job: JobId, last: u32) -> bool
    ensures { result ≡ is_up_to job last file }
{
    file.0 < job || file.0 == job && file.1.get() <= last
}

/// Files in order of job and index, and for each the number of files from it on whose indexes
/// follow one another.
#[derive(Clone, Copy)]
pub(crate) struct FileRuns<'f> {
    pub(crate) files: &'f [FileOf],
    pub(crate) runs: &'f [usize],
}

/// Returns numbers without the first ones.
fn without_first(numbers: &[usize], count: usize) -> &[usize]
    ensures { result.now ≡ drop count numbers.now }
{
    &numbers[count.min(numbers.len())..]
}

/// Returns the first numbers, `count` of them, or all if these are fewer.
fn first_of(numbers: &[usize], count: usize) -> &[usize]
    ensures { result.now ≡ take count numbers.now }
{
    match numbers.get(..count) {
        None => numbers,
        Some(front) => front,
    }
}

/// Returns the files from the job's file with this index on.
fn from_first<'f>(all: FileRuns<'f>, job: JobId, first: u32) -> FileRuns<'f>
    requires rise { Rise all.files.now }
    requires runs { AreRuns all.files.now all.runs.now }
    ensures files { result.files.now ≡ filter (λ f. not (is_before job first f)) all.entry.files.now }
    ensures runs { AreRuns result.files.now result.runs.now }
{
    let place = all
        .files
        .partition_point(|file| precedes(*file, job, first));
    FileRuns {
        files: &all.files[place..],
        runs: without_first(all.runs, place),
    }
}

/// Returns the files up to the job's file with this index.
fn up_to_last<'f>(all: FileRuns<'f>, job: JobId, last: u32) -> FileRuns<'f>
    requires rise { Rise all.files.now }
    requires runs { AreRuns all.files.now all.runs.now }
    ensures files { result.files.now ≡ filter (is_up_to job last) all.entry.files.now }
    ensures runs { AreRuns result.files.now result.runs.now }
{
    let place = all
        .files
        .partition_point(|file| reaches_to(*file, job, last));
    FileRuns {
        files: &all.files[..place],
        runs: first_of(all.runs, place),
    }
}

/// Returns the files of the job that have a part in the span.
pub(crate) fn part_of<'f>(all: FileRuns<'f>, job: JobId, span: &Span) -> FileRuns<'f>
    requires rise { Rise all.files.now }
    requires runs { AreRuns all.files.now all.runs.now }
    ensures files { result.files.now ≡ filter (is_within job span.now) all.entry.files.now }
    ensures runs { AreRuns result.files.now result.runs.now }
{
    up_to_last(from_first(all, job, span.first), job, span.last)
}
