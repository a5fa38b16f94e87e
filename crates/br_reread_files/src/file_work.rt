//! Files that are made one after another, begun by one drive and gone on with by others.
ghost use Rattle.std.specs.Prelude.{◌≡◌, ◌++◌, [], Err, IfOk, OnOk};
ghost use Rattle.br_data.specs.declared.reread_fault.AgainFault.TheVariants.{Changed, Failed};
ghost use Rattle.br_data.specs.ManyDrives.{GoOn, HaveFailed};
ghost use Rattle.br_reread_files.specs.Runs.{GivesRuns};
ghost use Rattle.br_reread_files.specs.Sharing.{AppendsIfGiven, AreAllIfGiven, AreGivenBegun, EndsAsBegun, IsBegun, MakesAllIfGiven};

use crate::file_pairs::make_left;
use crate::file_run::FileRun;
use br_data::{AgainFault, OverMany, standing_stays};
use br_join::Outcome;
use br_types::FileKey;
use br_volume::Drive;
use std::alloc::{AllocError, Global};
use std::thread::Threads;

/// Files in order of key, the first of them that are made, and the fault that ended it, if one did.
#[derive(Drop)]
pub(crate) struct Work<'r, 'h> {
    pub(crate) runs: &'r [FileRun<'h>],
    pub(crate) made: Vec<(FileKey, Outcome)>,
    pub(crate) end: Result<(), AgainFault>,
}

impl<'r, 'h> Work<'r, 'h> {
    /// Returns the work of these files. None of them is made yet.
    pub(crate) fn new(alloc: Global, runs: &'r [FileRun<'h>]) -> Work<'r, 'h>
        ensures runs { result.runs.now ≡ runs.now }
        ensures none { result.made.items ≡ [] }
    {
        Work {
            runs,
            made: Vec::new(alloc),
            end: Ok(()),
        }
    }

    /// Makes the files that are left, if a drive failed meanwhile.
    ///
    /// # Errors
    ///
    /// Those of `many`, and the fault that ended the work, if no drive failed.
    #[tactic(auto, using(br_data::proofs::GoOnLaws::go_itself))]
    fn finish<D: Drive>(
        &mut self,
        rt: &impl Threads,
        alloc: Global,
        many: &mut OverMany<'_, D>,
    ) -> Result<(), AgainFault>
        ensures files { OnOk result (MakesAllIfGiven many.old self.old self.new) }
        ensures ended { EndsAsBegun self.old.end result }
        ensures on { GoOn many.old many.new }
        ensures changed { result ≡ Err Changed → GivesRuns many.old self.old.runs.now → IsBegun self.old → ⊥ }
        ensures failed { result ≡ Err Failed → HaveFailed many.old many.new }
    {
        match self.end {
            Ok(()) => Ok(()),
            Err(AgainFault::Failed) => {
                make_left(rt, alloc, many, self.runs, &mut self.made, false)
            }
            Err(AgainFault::Memory) => Err(AgainFault::Memory),
            Err(AgainFault::Changed) => Err(AgainFault::Changed),
        }
    }
}

/// Appends files. The first ones are moved, so that no copy of them is made while the files of all
/// other works are in memory.
///
/// # Errors
///
/// `AllocError` if memory runs out.
fn append_files(
    made: &mut Vec<(FileKey, Outcome)>,
    mut files: Vec<(FileKey, Outcome)>,
) -> Result<(), AllocError>
    ensures { OnOk result (made.new.items ≡ made.old.items ++ files.items) }
{
    if made.is_empty() {
        *made = files;
        return Ok(());
    }
    made.append(&mut files)?;
    Ok(())
}

/// Finishes a work, and appends its files.
///
/// # Errors
///
/// Those of `Work::finish`, and `Memory` if memory runs out.
fn push_work<D: Drive>(
    rt: &impl Threads,
    alloc: Global,
    many: &mut OverMany<'_, D>,
    mut work: Work<'_, '_>,
    made: &mut Vec<(FileKey, Outcome)>,
) -> Result<(), AgainFault>
    ensures files { OnOk result (AppendsIfGiven many.old work.entry made.old.items made.new.items) }
    ensures on { GoOn many.old many.new }
    ensures changed { result ≡ Err Changed → GivesRuns many.old work.entry.runs.now → IsBegun work.entry → ⊥ }
    ensures failed { result ≡ Err Failed → HaveFailed many.old many.new }
{
    work.finish(rt, alloc, many)?;
    append_files(made, work.made)?;
    Ok(())
}

/// Finishes works, the last one first, and returns their files.
///
/// # Errors
///
/// Those of `Work::finish`, and `Memory` if memory runs out.
#[tactic(auto, using(br_data::proofs::GoOnLaws::go_itself, br_data::proofs::GoOnLaws::go_more, br_data::proofs::GoOnLaws::failed_on))]
pub(crate) fn finish_all<D: Drive>(
    rt: &impl Threads,
    alloc: Global,
    many: &mut OverMany<'_, D>,
    mut works: Vec<Work<'_, '_>>,
) -> Result<Vec<(FileKey, Outcome)>, AgainFault>
    ensures files { IfOk result (λ made. AreAllIfGiven many.old works.entry.items made.items) }
    ensures on { GoOn many.old many.new }
    ensures changed { result ≡ Err Changed → AreGivenBegun many.old works.entry.items → ⊥ }
    ensures failed { result ≡ Err Failed → HaveFailed many.old many.new }
{
    standing_stays();
    let mut made = Vec::new(alloc);
    while !works.is_empty() {
        push_work(rt, alloc, many, works.take_last(), &mut made)?;
    }
    Ok(made)
}
