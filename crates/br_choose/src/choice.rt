ghost use Rattle.std.specs.Prelude.{◌≡◌, true, ◌&&◌, ◌==◌, filter, map, IfOk};
ghost use Rattle.std.specs.Option.{option_copied};
ghost use Rattle.std.specs.List.{list_any, reduce};
ghost use Rattle.br_model.specs.Job.{is_history, no_pair};
ghost use Rattle.br_model.specs.Choice as model;
ghost use Rattle.br_choose.specs.Wanted.{Chooses, chain_of, is_wanted, jobs_of, later, request_for, wanted_jobs};

use crate::criteria::{Criteria, later_of, rank};
use crate::fault::ChooseFault;
use br_history::{History, JobRows};
use br_types::Name;
use std::alloc::{AllocError, Global};

fn has_client(jobs: &[JobRows], request: &Criteria<'_>) -> bool
    ensures { result ≡ list_any (model.is_of_client request.now.client) jobs.now }
{
    jobs.iter().any(|rows| request.names_client(rows))
}

fn has_fileset(jobs: &[JobRows], request: &Criteria<'_>) -> bool
    ensures { result ≡ list_any (λ j. model.is_of_client request.now.client j && model.is_of_fileset request.now.fileset j) jobs.now }
{
    jobs.iter().any(|rows| request.names_client(rows) && request.names_fileset(rows))
}

/// Returns the last of the wanted jobs at a level, after another job, if there is one.
fn last_wanted<'h>(
    jobs: &'h [JobRows],
    request: &Criteria<'_>,
    level: u8,
    earlier: Option<&JobRows>,
) -> Option<&'h JobRows>
    ensures { option_copied result ≡ reduce later (filter (is_wanted request.now level (option_copied earlier.entry)) jobs.now) }
{
    jobs.iter()
        .filter(|rows| request.wants(rows, level, earlier))
        .reduce(|last, rows| later_of(last, rows))
}

/// Returns the wanted jobs at a level after another one, in order of rank.
fn wanted_after<'h>(
    alloc: Global,
    jobs: &'h [JobRows],
    request: &Criteria<'_>,
    level: u8,
    earlier: &JobRows,
) -> Result<Vec<&'h JobRows>, AllocError>
    requires { is_history jobs.now ≡ true }
    ensures { IfOk result (λ found. jobs_of found ≡ wanted_jobs request.now level earlier.now jobs.now) }
{
    let mut found: Vec<&JobRows> = jobs
        .iter()
        .filter(|rows| request.wants(rows, level, Some(earlier)))
        .collect(alloc)?;
    found.sort_unstable_by_key(|rows| rank(rows));
    Ok(found)
}

/// Joins a Full, then a Differential, if there is one, then Incrementals.
fn joined<'h>(
    alloc: Global,
    full: &'h JobRows,
    differential: Option<&'h JobRows>,
    incrementals: &[&'h JobRows],
) -> Result<Vec<&'h JobRows>, AllocError>
    ensures { IfOk result (λ jobs. jobs_of jobs ≡ chain_of full.now (option_copied differential.entry) (map (λ j. j.now) incrementals.now)) }
{
    let mut jobs = Vec::new(alloc);
    jobs.push(full)?;
    if let Some(differential) = differential {
        jobs.push(differential)?;
    }
    jobs.extend_from_slice(incrementals)?;
    Ok(jobs)
}

/// Chooses the jobs from which the state of a file set of a client before a moment (in seconds since 1970) is restored. Of the
/// good jobs, which are of type `B` with the status `T` or `W`, of the client and the file set that started before the moment,
/// these are the last Full, then the last Differential after it, if there is one, and then every Incremental after the later of
/// these. The order is by start time, then by number; no two jobs have one number.
///
/// # Errors
///
/// `UnknownClient` if no job names the client, `UnknownFileSet` if none of its jobs names the file set; these count each job, good
/// or not, at any time. `NoFull` if no good Full started before the moment.
pub fn choose<'h>(
    alloc: Global,
    history: &'h History,
    client: &Name,
    fileset: &Name,
    moment: u64,
) -> Result<Vec<&'h JobRows>, ChooseFault>
    ensures answers { Chooses history.now (request_for client.now fileset.now moment) result }
    ensures distinct { IfOk result (λ jobs. no_pair (λ j k. j.row.id == k.row.id) (map (λ j. j.now) jobs.items) ≡ true) }
{
    let jobs = history.jobs();
    let request = Criteria {
        client,
        fileset,
        moment,
    };
    if !has_client(jobs, &request) {
        return Err(ChooseFault::UnknownClient);
    }
    if !has_fileset(jobs, &request) {
        return Err(ChooseFault::UnknownFileSet);
    }
    let Some(full) = last_wanted(jobs, &request, b'F', None) else {
        return Err(ChooseFault::NoFull);
    };
    let differential = last_wanted(jobs, &request, b'D', Some(full));
    let last = differential.unwrap_or(full);
    let incrementals = wanted_after(alloc, jobs, &request, b'I', last)?;
    Ok(joined(alloc, full, differential, &incrementals)?)
}
