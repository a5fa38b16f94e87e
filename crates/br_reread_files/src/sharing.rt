//! Files that several drives make side by side; each drive makes some of them.
ghost use Rattle.std.specs.Prelude.{◌≡◌, ◌+◌, ◌<◌, ◌≤◌, ◌∷◌, ◌++◌, [], drop, length, map, reverse, vec_capacity, Err, IfOk, OnOk};
ghost use Rattle.std.specs.List.{AllByRecursion, AllZip};
ghost use Rattle.br_data.specs.declared.reread_fault.AgainFault.TheVariants.{Changed, Failed};
ghost use Rattle.br_join.specs.Outcome.{restored};
ghost use Rattle.br_data.specs.ManyDrives.{GoesOn, GoOn, HaveFailed, driven_by};
ghost use Rattle.br_join.specs.Runs.{file_of};
ghost use Rattle.br_reread_files.specs.Runs.{GivesRuns};
ghost use Rattle.br_reread_files.specs.Sharing.{AreBegunIfGiven, EachPairAt, HasMade, drives_from_last, many_over, runs_in};

use crate::file_pairs::make_left;
use crate::file_run::FileRun;
use crate::file_work::{Work, finish_all};
use br_bsr::Group;
use br_data::{AgainFault, OverMany, standing_stays};
use br_join::Outcome;
use br_types::FileKey;
use br_volume::Drive;
use std::alloc::{AllocError, Global};
use std::thread::Threads;
use std::{mem, thread};

/// Some of the files, and a drive to make them.
struct FileShare<'r, 'h, D: Drive> {
    drives: Vec<D>,
    work: Work<'r, 'h>,
}

impl<'r, 'h, D: Drive> FileShare<'r, 'h, D> {
    /// Makes the files with the drive, until it fails.
    fn make(&mut self, rt: &impl Threads, alloc: Global, groups: &[Group])
        ensures { HasMade D.shows D.failures groups.now self.old self.new }
    {
        let taken = mem::replace(&mut self.drives, Vec::new(alloc));
        let mut many = OverMany::new(alloc, taken, groups);
        self.work.end = make_left(
            rt,
            alloc,
            &mut many,
            self.work.runs,
            &mut self.work.made,
            false,
        );
        let none = mem::replace(&mut self.drives, many.into_drives());
        none.destroy_empty();
    }
}

/// The bytes that a file counts beside those which are read: to make it takes time, too.
const MAKING: u64 = 1 << 12;

/// Returns how many bytes of a file are read, and the ones that it counts in any case; at most
/// 2^64 - 1 are counted.
fn len_of(run: &FileRun<'_>) -> u64 {
    let mut bytes = MAKING;
    for hit in run.file.unread() {
        bytes = bytes.saturating_add(hit.data.len() as u64);
    }
    bytes
}

/// Returns how many bytes the files have; at most 2^64 - 1 are counted.
fn bytes_in(runs: &[FileRun<'_>]) -> u64 {
    let mut bytes = 0u64;
    for run in runs {
        bytes = bytes.saturating_add(len_of(run));
    }
    bytes
}

/// Returns the least number of first files that together have this number of bytes; all if there
/// are fewer bytes.
fn first_with(runs: &[FileRun<'_>], bytes: u64) -> usize
    ensures { result ≤ length runs.now }
{
    let mut seen = 0u64;
    let mut count = 0;
    while count < runs.len() && seen < bytes {
        seen = seen.saturating_add(len_of(&runs[count]));
        count += 1;
    }
    count
}

/// Returns the next files after the first `from`: together they have at least this number of bytes,
/// or they are all that are left.
fn next_with<'r, 'h>(runs: &'r [FileRun<'h>], from: usize, bytes: u64) -> &'r [FileRun<'h>]
    requires { from ≤ length runs.now }
    ensures within { from + length result.now ≤ length runs.now }
    ensures next { result.now ++ drop (from + length result.now) runs.now ≡ drop from runs.now }
{
    let (_, rest) = runs.split_at(from);
    let (next, _) = rest.split_at(first_with(rest, bytes));
    next
}

/// Cuts the files into this number of works, each with about the same number of bytes.
fn works_for<'r, 'h>(
    alloc: Global,
    count: usize,
    runs: &'r [FileRun<'h>],
) -> Result<Vec<Work<'r, 'h>>, AllocError>
    requires { 0 < count }
    ensures many { IfOk result (λ works. length works.items ≡ count) }
    ensures none { IfOk result (λ works. AllByRecursion (λ (w : Work). w.made.items ≡ []) works.items) }
    ensures runs { IfOk result (λ works. runs_in works.items ≡ runs.now) }
{
    let each = bytes_in(runs).div_ceil(count as u64);
    let mut works = Vec::with_capacity(alloc, count)?;
    let mut from = 0;
    for _place in 1..count {
        let next = next_with(runs, from, each);
        works.push_reserved(Work::new(alloc, next));
        from += next.len();
    }
    let (_, last) = runs.split_at(from);
    works.push_reserved(Work::new(alloc, last));
    Ok(works)
}

/// Makes a share from each work and a drive. The first share gets the last drive.
///
/// # Errors
///
/// `AllocError` if memory runs out. Then some of the drives are in shares.
fn into_shares<'r, 'h, D: Drive>(
    alloc: Global,
    drives: &mut Vec<D>,
    works: Vec<Work<'r, 'h>>,
    shares: &mut Vec<FileShare<'r, 'h, D>>,
) -> Result<(), AllocError>
    requires many { length drives.old.items ≡ length works.items }
    requires none { shares.old.items ≡ [] }
    requires room { length works.items ≤ vec_capacity shares.old }
    ensures none { OnOk result (drives.new.items ≡ []) }
    ensures room { vec_capacity drives.new ≡ vec_capacity drives.old }
    ensures drives { map (λ d. d ∷ []) drives.new.items ++ drives_from_last shares.new.items ≡ map (λ d. d ∷ []) drives.old.items }
    ensures works { OnOk result (map (λ (s : FileShare D). s.work) shares.new.items ≡ works.entry.items) }
{
    for work in works {
        let mut own = Vec::with_capacity(alloc, 1)?;
        own.push_reserved(drives.take_last());
        shares.push_reserved(FileShare { drives: own, work });
    }
    Ok(())
}

/// Runs the shares, each in its own thread.
fn run_shares<D: Drive + Send, R: Threads + Sync>(
    rt: &R,
    alloc: Global,
    groups: &[Group],
    shares: &mut [FileShare<'_, '_, D>],
)
    ensures { EachPairAt (HasMade D.shows D.failures groups.now) shares.old shares.new }
{
    let count = shares.len();
    if count == 0 {
        return;
    }
    thread::for_each_mut(rt, shares, count, &|_, share| share.make(rt, alloc, groups));
}

/// Runs the shares, and returns them after their run.
fn run_all<'r, 'h, D: Drive + Send, R: Threads + Sync>(
    rt: &R,
    alloc: Global,
    groups: &[Group],
    mut shares: Vec<FileShare<'r, 'h, D>>,
) -> Vec<FileShare<'r, 'h, D>>
    ensures { AllZip (HasMade D.shows D.failures groups.now) shares.entry.items result.items }
{
    run_shares(rt, alloc, groups, shares.as_mut_slice());
    shares
}

/// Takes the shares apart, the last one first. Their drives go back; their works are left.
fn out_of_shares<'r, 'h, D: Drive>(
    mut shares: Vec<FileShare<'r, 'h, D>>,
    drives: &mut Vec<D>,
    works: &mut Vec<Work<'r, 'h>>,
)
    requires one { AllByRecursion (λ (s : FileShare D). length s.drives.items ≡ 1) shares.items }
    requires none { works.old.items ≡ [] }
    requires room { (length drives.old.items + length shares.items ≤ vec_capacity drives.old) × (length shares.items ≤ vec_capacity works.old) }
    ensures drives { map (λ d. d ∷ []) drives.new.items ≡ map (λ d. d ∷ []) drives.old.items ++ drives_from_last shares.entry.items }
    ensures works { works.new.items ≡ reverse (map (λ (s : FileShare D). s.work) shares.entry.items) }
{
    while !shares.is_empty() {
        let FileShare {
            drives: mut own,
            work,
        } = shares.take_last();
        drives.push_reserved(own.take_last());
        own.destroy_empty();
        works.push_reserved(work);
    }
    shares.destroy_empty();
}

/// Makes the files of the works with the drives, one drive for each, as far as the drives do not
/// fail. Returns the works, the first one last. Each drive is then in its place again.
///
/// # Errors
///
/// `AllocError` if memory runs out. Then nothing is made.
fn run_apart<'r, 'h, D: Drive + Send>(
    rt: &(impl Threads + Sync),
    alloc: Global,
    groups: &[Group],
    drives: &mut Vec<D>,
    works: Vec<Work<'r, 'h>>,
) -> Result<Vec<Work<'r, 'h>>, AllocError>
    requires many { length drives.old.items ≡ length works.items }
    requires none { AllByRecursion (λ (w : Work). w.made.items ≡ []) works.items }
    ensures runs { IfOk result (λ done. runs_in (reverse done.items) ≡ runs_in works.entry.items) }
    ensures begun { IfOk result
        (λ done. AreBegunIfGiven (many_over D.shows D.failures groups.now drives.old.items) works.entry.items done.items) }
    ensures on { AllZip GoesOn (driven_by D.shows D.failures drives.old.items) (driven_by D.shows D.failures drives.new.items) }
{
    let mut done = Vec::with_capacity(alloc, works.len())?;
    let mut shares = Vec::with_capacity(alloc, works.len())?;
    match into_shares(alloc, drives, works, &mut shares) {
        Ok(()) => {
            let shares = run_all(rt, alloc, groups, shares);
            out_of_shares(shares, drives, &mut done);
            Ok(done)
        }
        Err(fault) => {
            out_of_shares(shares, drives, &mut done);
            Err(fault)
        }
    }
}

/// Makes the files of the works with the drives of `many`, as far as the drives do not fail.
fn run_works<'r, 'h, D: Drive + Send>(
    rt: &(impl Threads + Sync),
    alloc: Global,
    many: &mut OverMany<'_, D>,
    works: Vec<Work<'r, 'h>>,
) -> Result<Vec<Work<'r, 'h>>, AllocError>
    requires many { length many.old.drives ≡ length works.items }
    requires none { AllByRecursion (λ (w : Work). w.made.items ≡ []) works.items }
    ensures runs { IfOk result (λ done. runs_in (reverse done.items) ≡ runs_in works.entry.items) }
    ensures begun { IfOk result (λ done. AreBegunIfGiven many.old works.entry.items done.items) }
    ensures on { GoOn many.old many.new }
{
    let groups = many.groups();
    let mut drives = many.take_drives(alloc);
    let done = run_apart(rt, alloc, groups, &mut drives, works);
    many.put_drives(alloc, drives);
    done
}

/// Makes the files with the drives. Each makes some of them, in its own thread. What a drive left
/// because it failed is made afterwards with all drives, one file after another.
///
/// # Errors
///
/// Those of `many`, and `Memory` if memory runs out. Of several faults it is the first in order of
/// the files.
#[tactic(auto, using(br_data::proofs::GoOnLaws::go_itself))]
pub(crate) fn made_side_by_side<D: Drive + Send>(
    rt: &(impl Threads + Sync),
    alloc: Global,
    many: &mut OverMany<'_, D>,
    runs: &[FileRun<'_>],
) -> Result<Vec<(FileKey, Outcome)>, AgainFault>
    requires { 0 < length many.old.drives }
    ensures files { IfOk result (λ made. GivesRuns many.old runs.now → map restored made.items ≡ map file_of runs.now) }
    ensures on { GoOn many.old many.new }
    ensures changed { result ≡ Err Changed → GivesRuns many.old runs.now → ⊥ }
    ensures failed { result ≡ Err Failed → HaveFailed many.old many.new }
{
    standing_stays();
    let works = works_for(alloc, many.count(), runs)?;
    let done = run_works(rt, alloc, many, works)?;
    finish_all(rt, alloc, many, done)
}
