ghost use Rattle.std.specs.Prelude.{◌≡◌, IfOk, OnOk};
ghost use Rattle.std.specs.Ordering.{nat_cmp};
ghost use Rattle.std.specs.BTreeSet.{contains};
ghost use Rattle.br_jobs.specs.JobFilter.{jobs_listed};
ghost use Rattle.br_jobs.specs.JobNumbers.{AddsNumber, AreNumbers};
ghost use Rattle.br_jobs.specs.LocalTime.{AppendsJob, AreLinesIn};

use crate::job_filter::Filter;
use crate::listing_line::line_of;
use crate::time_zones::Zones;
use br_history::JobRows;
use std::alloc::{AllocError, Global};
use std::collections::BTreeSet;

/// Adds a number to a set.
fn add_number(numbers: &mut BTreeSet<u32>, number: u32) -> Result<(), AllocError>
    ensures { OnOk result (AddsNumber numbers.old number numbers.new) }
{
    numbers.insert(number)?;
    Ok(())
}

/// Returns the number of a job.
fn number_of(job: &JobRows) -> u32
    ensures { result ≡ job.now.row.id }
{
    job.row().id.get()
}

/// Returns the numbers of jobs.
fn numbers_of(alloc: Global, jobs: &[&JobRows]) -> Result<BTreeSet<u32>, AllocError>
    ensures { IfOk result (λ numbers. AreNumbers jobs.now numbers) }
{
    let mut numbers = BTreeSet::new(alloc);
    for job in jobs {
        add_number(&mut numbers, number_of(job))?;
    }
    Ok(numbers)
}

/// Returns true if the number of a job is in the set.
fn is_among(numbers: &BTreeSet<u32>, job: &JobRows) -> bool
    ensures { result ≡ contains nat_cmp numbers.now job.now.row.id }
{
    numbers.contains(&number_of(job))
}

/// Appends the line of a job, which is chosen or not, if it is listed.
fn push_job(
    alloc: Global,
    filter: &Filter<'_>,
    zones: &Zones<'_>,
    is_chosen: bool,
    job: &JobRows,
    text: &mut Vec<u8>,
) -> Result<(), AllocError>
    ensures { OnOk result (AppendsJob zones.now filter.now is_chosen job.now text.old.items text.new.items) }
{
    if !filter.admits(job) {
        return Ok(());
    }
    let line = line_of(alloc, zones, is_chosen, job)?;
    text.extend_from_slice(&line)?;
    Ok(())
}

/// Returns a line for each of the jobs that the filter admits, in their order, with its moment in the given
/// zones. It says of each if it is one of the chosen. The time is n log n in the number of jobs.
pub fn list_jobs(
    alloc: Global,
    jobs: &[JobRows],
    filter: &Filter<'_>,
    zones: &Zones<'_>,
    chosen: &[&JobRows],
) -> Result<Vec<u8>, AllocError>
    ensures { IfOk result (λ text. AreLinesIn zones.now chosen.now (jobs_listed filter.now jobs.now) text.items) }
{
    let numbers = numbers_of(alloc, chosen)?;
    let mut text = Vec::new(alloc);
    for job in jobs {
        let is_chosen = is_among(&numbers, job);
        push_job(alloc, filter, zones, is_chosen, job, &mut text)?;
    }
    Ok(text)
}
