//! Runs of files whose indexes follow one another.
ghost use Rattle.std.specs.Prelude.{◌≡◌, ◌≤◌, ◌<◌, ◌+◌, ◌-◌, ◌^◌, ◌∷◌, length, drop, IfOk};
ghost use Rattle.br_plan.specs.Runs.{AreRuns, IsFirstRun, longest};

use crate::part::FileOf;
use br_types::FileIndex;
use std::alloc::{AllocError, Global};

/// Returns the length of a run that begins with a file of this index. The first index of the run
/// after it, which has the length `len`, is `next`.
fn run_len(index: FileIndex, next: u32, len: usize) -> usize
    ensures some { 0 < result }
    ensures most { result ≤ longest index next len }
{
    if index.get() + 1 == next {
        len.saturating_add(1)
    } else {
        1
    }
}

/// Returns for each file the number of files from it on whose indexes follow one another.
pub(crate) fn runs_of(alloc: Global, files: &[FileOf]) -> Result<Vec<usize>, AllocError>
    ensures { IfOk result (λ runs. AreRuns files.now runs.items) }
{
    let mut next = 0;
    let mut len = 0;
    let mut runs = Vec::new(alloc);
    for file in files.iter().rev() {
        len = run_len(file.1, next, len);
        next = file.1.get();
        runs.push(len)?;
    }
    runs.reverse();
    Ok(runs)
}

/// Files whose indexes follow one another.
#[derive(Clone, Copy)]
pub(crate) struct IndexRun {
    /// The first index.
    pub(crate) low: u64,
    /// The last one.
    pub(crate) high: u64,
    /// The place after the last file.
    pub(crate) end: usize,
}

/// Returns the file at a place.
fn file_at(files: &[FileOf], place: usize) -> FileOf
    requires { place < length files.now }
    ensures { drop place files.now ≡ result ∷ drop (place + 1) files.now }
{
    files[place]
}

/// Returns the length of the run at a place.
fn len_at(runs: &[usize], place: usize) -> usize
    requires { place < length runs.now }
    ensures { drop place runs.now ≡ result ∷ drop (place + 1) runs.now }
{
    runs[place]
}

/// Returns the place after a run of this length, or after all files if there are fewer.
fn end_of(place: usize, len: usize, count: usize) -> usize
    requires inside { place < count }
    requires some { 0 < len }
    ensures after { place < result }
    ensures fits { result ≤ len + place }
    ensures bound { result ≤ count }
{
    len.saturating_add(place).min(count)
}

/// Returns the index of a file.
fn index_of(file: FileOf) -> u64
    ensures same { result ≡ file.1 }
    ensures from_one { 1 ≤ result }
    ensures to_greatest { result < 2 ^ 31 }
{
    u64::from(file.1.get())
}

/// Returns the run that begins at a place.
pub(crate) fn run_at(files: &[FileOf], runs: &[usize], place: usize) -> IndexRun
    requires runs { AreRuns files.now runs.now }
    requires inside { place < length files.now }
    ensures first { IsFirstRun (drop place files.now) result.low result.high (result.end - place) }
    ensures after { place < result.end }
    ensures bound { result.end ≤ length files.now }
    ensures from_one { 1 ≤ result.low }
    ensures to_greatest { result.high < 2 ^ 31 }
{
    let first = file_at(files, place);
    let end = end_of(place, len_at(runs, place), files.len());
    let last = file_at(files, end.saturating_sub(1));
    IndexRun {
        low: index_of(first),
        high: index_of(last),
        end,
    }
}
