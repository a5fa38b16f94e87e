//! The files of hits, made by one drive or by several drives side by side.
ghost use Rattle.std.specs.Prelude.{◌≡◌, map, Err, IfOk};
ghost use Rattle.std.specs.Option.{option_copied};
ghost use Rattle.br_data.specs.declared.reread_fault.AgainFault.TheVariants.{Changed, Failed};
ghost use Rattle.br_join.specs.Front.{AreFronts};
ghost use Rattle.br_join.specs.Outcome.{restored};
ghost use Rattle.br_records.specs.Runs.{AreListed};
ghost use Rattle.br_join.specs.Runs.{file_of, files_of};
ghost use Rattle.br_data.specs.ManyDrives.{GoOn, HaveFailed};
ghost use Rattle.br_reread_parts.specs.Given.{GivesHits};
ghost use Rattle.br_reread_files.specs.Runs.{GivesRuns};

use crate::file_pairs::make_left;
use crate::file_run::{FileRun, with_fronts};
use crate::sharing::made_side_by_side;
use br_data::{AgainFault, OverMany};
use br_join::{Fronts, Outcome, runs_of};
use br_match::Hit;
use br_types::{FileKey, Names};
use br_volume::Drive;
use std::alloc::Global;
use std::thread::Threads;

/// Makes the files: side by side, if there are several drives and several files. One drive makes
/// two consecutive long files side by side.
///
/// # Errors
///
/// Those of `many`, and `Memory` if memory runs out.
fn made_of<D: Drive + Send>(
    rt: &(impl Threads + Sync),
    alloc: Global,
    many: &mut OverMany<'_, D>,
    runs: &[FileRun<'_>],
) -> Result<Vec<(FileKey, Outcome)>, AgainFault>
    ensures files { IfOk result (λ made. GivesRuns many.old runs.now → map restored made.items ≡ map file_of runs.now) }
    ensures on { GoOn many.old many.new }
    ensures changed { result ≡ Err Changed → GivesRuns many.old runs.now → ⊥ }
    ensures failed { result ≡ Err Failed → HaveFailed many.old many.new }
{
    if many.count() > 1 && runs.len() > 1 {
        return made_side_by_side(rt, alloc, many, runs);
    }
    let mut made = Vec::new(alloc);
    make_left(rt, alloc, many, runs, &mut made, true)?;
    Ok(made)
}

/// Makes the files of sorted hits: the planned ones if there is a plan, else those that were found.
/// What a front is made of is not read again, unless its file has sparse data.
/// Each of several drives has the data of one file at a time in memory; a single drive has those of
/// two.
///
/// # Errors
///
/// Those of `many`, and `Memory` if memory runs out.
#[tactic(auto, using(br_data::proofs::GoOnLaws::go_itself))]
pub(crate) fn files_by<D: Drive + Send>(
    rt: &(impl Threads + Sync),
    alloc: Global,
    many: &mut OverMany<'_, D>,
    hits: &[Hit],
    names: Option<&Names>,
    fronts: &Fronts,
) -> Result<Vec<(FileKey, Outcome)>, AgainFault>
    requires listed { AreListed hits.now }
    requires fronts { AreFronts fronts.now hits.now }
    ensures files { IfOk result (λ made. GivesHits many.old hits.now → map restored made.items ≡ files_of hits.now
        (option_copied names.entry)) }
    ensures on { GoOn many.old many.new }
    ensures changed { result ≡ Err Changed → GivesHits many.old hits.now → ⊥ }
    ensures failed { result ≡ Err Failed → HaveFailed many.old many.new }
{
    let runs = runs_of(alloc, hits, names)?;
    let files = with_fronts(alloc, &runs, fronts)?;
    made_of(rt, alloc, many, &files)
}
