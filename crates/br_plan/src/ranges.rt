ghost use Rattle.std.specs.Prelude.{◌≡◌, true, IfOk, OnOk};
ghost use Rattle.std.specs.List.{list_all};
ghost use Rattle.br_model.specs.Bootstrap.{FileIndex as by_index};
ghost use Rattle.br_model.specs.BootstrapText.{is_range};
ghost use Rattle.br_model.specs.Plan as model;
ghost use Rattle.br_plan.specs.Parts.{indexes_of, with_run};
ghost use Rattle.br_plan.specs.Runs.{AreRuns};

use crate::index_runs::run_at;
use crate::part::FileOf;
use br_bsr::Range;
use std::alloc::{AllocError, Global};

/// Appends a range to ranges, to the last one if it is adjacent.
fn push_run(ranges: &mut Vec<Range>, low: u64, high: u64) -> Result<(), AllocError>
    ensures { OnOk result (ranges.new.items ≡ with_run ranges.old.items low high) }
{
    if let Some(last) = ranges.last_mut() {
        if low > 0 && last.high == low - 1 {
            last.high = high;
            return Ok(());
        }
    }
    ranges.push(Range { low, high })?;
    Ok(())
}

/// Returns the indexes of files that are in order, as ranges, each as long as possible. For each
/// file `runs` has the number of files from it on whose indexes follow one another. The time is that
/// for the ranges, and not for the files.
pub(crate) fn ranges_of(
    alloc: Global,
    files: &[FileOf],
    runs: &[usize],
) -> Result<Vec<Range>, AllocError>
    requires { AreRuns files.now runs.now }
    ensures same { IfOk result (λ ranges. ranges.items ≡ model.ranges_of (indexes_of files.now)) }
    ensures valid { IfOk result (λ ranges. list_all (is_range by_index) ranges.items ≡ true) }
{
    let mut ranges = Vec::new(alloc);
    let mut place = 0;
    while place < files.len() {
        let run = run_at(files, runs, place);
        push_run(&mut ranges, run.low, run.high)?;
        place = run.end;
    }
    Ok(ranges)
}
