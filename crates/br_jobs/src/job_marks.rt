//! The lines of jobs with those marked that are chosen.
ghost use Rattle.br_model.specs.Answer.{Answers};
ghost use Rattle.br_model.specs.Name.{checked_name};
ghost use Rattle.br_choose.specs.Wanted.{jobs_of};
ghost use Rattle.br_jobs.specs.ListingFault.{cause};
ghost use Rattle.br_jobs.specs.JobMarks as model;
ghost use Rattle.br_jobs.specs.JobMarks.{MarksLines};

use crate::job_filter::Filter;
use crate::job_listing::list_jobs;
use crate::listing_fault::ListingFault;
use crate::purged_jobs::purged_warnings;
use crate::time_zones::Zones;
use br_choose::choose;
use br_history::{History, JobRows};
use br_types::{Name, NameFault};
use std::alloc::Global;

/// Reads the name of a client or of a file set.
#[tactic(auto, unfolding(br_model::specs::Name::checked_name))]
fn name_of(alloc: Global, text: &str) -> Result<Name, ListingFault>
    ensures { Answers (λ name. name) cause result (checked_name text.now) }
{
    match Name::new(alloc, text.as_bytes()) {
        Ok(name) => Ok(name),
        Err(NameFault::Memory) => Err(ListingFault::Memory),
        Err(NameFault::BadName | NameFault::BadPath) => Err(ListingFault::BadName),
    }
}

/// Returns the jobs that are chosen for a client, a file set and a moment.
#[tactic(auto, unfolding(crate::specs::JobMarks::chosen_for))]
fn chosen_for<'h>(
    alloc: Global,
    history: &'h History,
    client: &str,
    fileset: &str,
    moment: u64,
) -> Result<Vec<&'h JobRows>, ListingFault>
    ensures { Answers jobs_of cause result (model.chosen_for history.now client.now fileset.now moment) }
{
    let client = name_of(alloc, client)?;
    let fileset = name_of(alloc, fileset)?;
    let jobs = choose(alloc, history, &client, &fileset, moment)?;
    Ok(jobs)
}

/// Returns the jobs that are marked: those that are chosen if client, file set and moment are given, else
/// none.
fn marked<'h>(
    alloc: Global,
    history: &'h History,
    filter: &Filter<'_>,
) -> Result<Vec<&'h JobRows>, ListingFault>
    ensures { Answers jobs_of cause result (model.marked history.now filter.now.client filter.now.fileset filter.now.before) }
{
    match (filter.client, filter.fileset, filter.before) {
        (Some(client), Some(fileset), Some(moment)) => {
            chosen_for(alloc, history, client, fileset, moment)
        }
        _ => Ok(Vec::new(alloc)),
    }
}

/// The lines of jobs of which some are marked.
#[derive(Drop)]
pub struct MarkedLines {
    /// A line for each job that is listed.
    pub lines: Vec<u8>,
    /// A line for each marked job that wrote to volumes and has no file rows.
    pub warnings: Vec<u8>,
}

/// Returns the lines of the jobs that the filter lists, with their moments in the given zones.
/// Marks those that `console` would choose, if client, file set and moment are given, and warns of
/// those of them whose files are gone from the catalogue.
///
/// # Errors
///
/// `BadName` for the client, then for the file set; then those of the choice.
pub fn marked_lines(
    alloc: Global,
    history: &History,
    filter: &Filter<'_>,
    zones: &Zones<'_>,
) -> Result<MarkedLines, ListingFault>
    ensures { MarksLines zones.now history.now filter.now result }
{
    let chosen = marked(alloc, history, filter)?;
    let lines = list_jobs(alloc, history.jobs(), filter, zones, &chosen)?;
    let warnings = purged_warnings(alloc, &chosen)?;
    Ok(MarkedLines { lines, warnings })
}
