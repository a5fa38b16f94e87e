//! The files that a list of jobs needs: it counts those of the jobs that it lists.
ghost use Rattle.std.specs.Prelude.{◌≡◌, map, IfOk};
ghost use Rattle.br_jobs.specs.JobFilter.{jobs_listed};
ghost use Rattle.br_jobs.specs.ListedFiles.{ListsAlike};

use crate::job_filter::Filter;
use br_history::{History, JobRows, Needs, numbers_of};
use br_types::JobId;
use std::alloc::{AllocError, Global};

/// Returns the jobs that are listed, in their order.
fn listed_jobs<'h>(
    alloc: Global,
    jobs: &'h [JobRows],
    filter: &Filter<'_>,
) -> Result<Vec<&'h JobRows>, AllocError>
    ensures { IfOk result (λ found. map (λ j. j.now) found.items ≡ jobs_listed filter.now jobs.now) }
{
    jobs.iter().filter(|job| filter.admits(job)).collect(alloc)
}

impl Needs for Filter<'_> {
    ghost use Rattle.br_jobs.specs.ListedFiles.{needed_by};

    ghost needed = { λ f jobs. needed_by f jobs };

    fn needed_of(&self, alloc: Global, jobs: &History) -> Result<Vec<JobId>, AllocError> {
        numbers_of(alloc, &listed_jobs(alloc, jobs.jobs(), self)?)
    }
}

/// States that a list of jobs and its marks are the same if the jobs that are listed alone have their
/// files.
pub fn listed_files_list_alike()
    ensures { ListsAlike }
{}
