//! Files that are made one after another, or two long ones side by side.
ghost use Rattle.std.specs.Prelude.{◌≡◌, ◌<◌, ◌≤◌, ◌+◌, length, Err, OnOk};
ghost use Rattle.br_data.specs.declared.reread_fault.AgainFault.TheVariants.{Changed, Failed};
ghost use Rattle.br_data.specs.ManyDrives.{GoOn, HaveFailed};
ghost use Rattle.br_reread_files.specs.Runs.{GivesRuns, StayFirst};

use crate::both_digested::files_by_two;
use crate::file_run::FileRun;
use crate::made_again::{file_by, push_file};
use crate::putting::has_sparse_data;
use br_data::{AgainFault, OverMany, standing_stays};
use br_join::Outcome;
use br_reread_parts::{DIGESTED, cut_window};
use br_types::FileKey;
use br_volume::Drive;
use std::alloc::Global;
use std::thread::Threads;

/// Returns whether more data of a file are read than one window, and none are sparse.
fn is_long(run: &FileRun<'_>) -> bool {
    !cut_window(run.file.unread(), DIGESTED).rest.is_empty() && !has_sparse_data(run.file.all())
}

/// Makes the next file: the one after as many as are made.
///
/// # Errors
///
/// Those of `many`, and `Memory` if memory runs out. Then no file is made.
fn make_one<D: Drive>(
    rt: &impl Threads,
    alloc: Global,
    many: &mut OverMany<'_, D>,
    runs: &[FileRun<'_>],
    made: &mut Vec<(FileKey, Outcome)>,
) -> Result<(), AgainFault>
    requires { length made.old.items < length runs.now }
    ensures first { StayFirst many.old runs.now made.old.items made.new.items }
    ensures more { OnOk result (length made.old.items < length made.new.items) }
    ensures on { GoOn many.old many.new }
    ensures changed { result ≡ Err Changed → GivesRuns many.old runs.now → ⊥ }
    ensures failed { result ≡ Err Failed → HaveFailed many.old many.new }
{
    let next = &runs[made.len()];
    let outcome = file_by(rt, alloc, many, next)?;
    push_file(made, next.key, outcome)?;
    Ok(())
}

/// Makes the next two files side by side: the ones after as many as are made.
///
/// # Errors
///
/// Those of `many`, and `Memory` if memory runs out. Then the files before the fault are made.
fn make_two<D: Drive>(
    rt: &impl Threads,
    alloc: Global,
    many: &mut OverMany<'_, D>,
    runs: &[FileRun<'_>],
    made: &mut Vec<(FileKey, Outcome)>,
) -> Result<(), AgainFault>
    requires { length made.old.items + 1 < length runs.now }
    ensures first { StayFirst many.old runs.now made.old.items made.new.items }
    ensures more { OnOk result (length made.old.items < length made.new.items) }
    ensures on { GoOn many.old many.new }
    ensures changed { result ≡ Err Changed → GivesRuns many.old runs.now → ⊥ }
    ensures failed { result ≡ Err Failed → HaveFailed many.old many.new }
{
    let one = &runs[made.len()];
    let other = &runs[made.len() + 1];
    let both = files_by_two(rt, alloc, many, one, other)?;
    push_file(made, one.key, both.one)?;
    push_file(made, other.key, both.other)?;
    Ok(())
}

/// Makes the next two files side by side, if that is asked for and both are long, and else the next one.
///
/// # Errors
///
/// Those of `many`, and `Memory` if memory runs out. Then the files before the fault are made.
fn make_next<D: Drive>(
    rt: &impl Threads,
    alloc: Global,
    many: &mut OverMany<'_, D>,
    runs: &[FileRun<'_>],
    made: &mut Vec<(FileKey, Outcome)>,
    by_two: bool,
) -> Result<(), AgainFault>
    requires { length made.old.items < length runs.now }
    ensures first { StayFirst many.old runs.now made.old.items made.new.items }
    ensures more { OnOk result (length made.old.items < length made.new.items) }
    ensures on { GoOn many.old many.new }
    ensures changed { result ≡ Err Changed → GivesRuns many.old runs.now → ⊥ }
    ensures failed { result ≡ Err Failed → HaveFailed many.old many.new }
{
    let next = made.len();
    if by_two && next + 1 < runs.len() && is_long(&runs[next]) && is_long(&runs[next + 1]) {
        return make_two(rt, alloc, many, runs, made);
    }
    make_one(rt, alloc, many, runs, made)
}

/// Makes the files that are left: those after as many as are made. `by_two` says whether two long files are made
/// side by side.
///
/// # Errors
///
/// Those of `many`, and `Memory` if memory runs out. Then the files before the fault are made.
#[tactic(auto, using(br_data::proofs::GoOnLaws::go_itself, br_data::proofs::GoOnLaws::go_more, br_data::proofs::GoOnLaws::failed_on))]
pub(crate) fn make_left<D: Drive>(
    rt: &impl Threads,
    alloc: Global,
    many: &mut OverMany<'_, D>,
    runs: &[FileRun<'_>],
    made: &mut Vec<(FileKey, Outcome)>,
    by_two: bool,
) -> Result<(), AgainFault>
    ensures first { StayFirst many.old runs.now made.old.items made.new.items }
    ensures all { OnOk result (length runs.now ≤ length made.new.items) }
    ensures on { GoOn many.old many.new }
    ensures changed { result ≡ Err Changed → GivesRuns many.old runs.now → ⊥ }
    ensures failed { result ≡ Err Failed → HaveFailed many.old many.new }
{
    standing_stays();
    while made.len() < runs.len() {
        make_next(rt, alloc, many, runs, made, by_two)?;
    }
    Ok(())
}
