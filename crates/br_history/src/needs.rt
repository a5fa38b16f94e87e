//! The jobs whose files are needed, of a catalogue that has more.
ghost use Rattle.std.specs.Prelude.{◌≡◌, map, IfOk};
ghost use Rattle.br_history.specs.Needed.{numbers_in};

use crate::history::History;
use crate::rows::JobRows;
use br_types::JobId;
use std::alloc::{AllocError, Global};

/// The jobs whose files are needed.
pub trait Needs {
    ghost use Rattle.std.specs.Prelude.{ℕ, List};
    ghost use Rattle.br_model.specs.Job.{JobRows};

    /// The numbers of the jobs whose files are needed, if these are all jobs without their files.
    ghost needed: { Self → List JobRows → List ℕ };

    /// Returns the numbers of the jobs whose files are needed.
    fn needed_of(&self, alloc: Global, jobs: &History) -> Result<Vec<JobId>, AllocError>
        ensures numbers { IfOk result (λ numbers. numbers.items ≡ needed self.now jobs.now) };
}

/// Returns the number of each of these jobs.
fn each_number(alloc: Global, jobs: &[&JobRows]) -> Result<Vec<JobId>, AllocError>
    ensures { IfOk result (λ numbers. numbers.items ≡ map (λ j. j.now.row.id) jobs.now) }
{
    jobs.iter().map(|job| job.row().id).collect(alloc)
}

/// Returns the numbers of these jobs, in their order.
pub fn numbers_of(alloc: Global, jobs: &[&JobRows]) -> Result<Vec<JobId>, AllocError>
    ensures { IfOk result (λ numbers. numbers.items ≡ numbers_in (map (λ j. j.now) jobs.now)) }
{
    // The closure has a clause of its own, from which this one is proved.
    each_number(alloc, jobs)
}
