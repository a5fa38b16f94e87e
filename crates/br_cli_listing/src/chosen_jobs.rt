//! The chosen jobs, as they are told before a session.
ghost use Rattle.std.specs.Prelude.{◌≡◌, map, Ok, IfOk};
ghost use Rattle.br_model.specs.Choice.{choose};
ghost use Rattle.br_cli_listing.specs.ChosenJobs.{has_warning};

use br_choose::ChooseFault;
use br_cli_common::{is_shown, reason_of_read};
use br_history::JobRows;
use br_jobs::{Filter, Zones, list_jobs, purged_warnings};
use br_plan::JobSelection;
use std::io::{self, ErrorKind};
use std::str;

/// The number of volumes whose reasons are told.
const VOLUMES: usize = 8;

/// Prints the chosen jobs to standard error, in the form of the command `jobs`.
fn list_chosen(rt: &HostRuntime, asked: &JobSelection<'_>, chosen: &[&JobRows]) -> io::Result<()> {
    let request = asked.request();
    let (client, fileset) = (request.client.bytes(), request.fileset.bytes());
    let (Ok(client), Ok(fileset)) = (str::from_utf8(client), str::from_utf8(fileset)) else {
        return Ok(());
    };
    let filter = Filter {
        client: Some(client),
        fileset: Some(fileset),
        before: Some(request.moment),
    };
    let jobs = asked.history().jobs();
    let Ok(text) = list_jobs(rt.alloc(), jobs, &filter, &Zones::Utc, chosen) else {
        return Ok(());
    };
    for line in text.split(|byte| *byte == b'\n') {
        if line.starts_with(b"*") {
            let shown = String::from_utf8_lossy(rt.alloc(), line)?;
            eprintln!(rt; "chosen: {shown}")?;
        }
    }
    Ok(())
}

/// Prints to standard error why volumes of the chosen jobs can't be read, for the first of them.
fn tell_unread(rt: &HostRuntime, volumes: &str, chosen: &[&JobRows]) -> io::Result<()> {
    let mut names = Vec::new(rt.alloc());
    for job in chosen {
        for span in job.spans() {
            names.push(span.vol.bytes())?;
        }
    }
    names.sort()?;
    names.dedup();
    let mut told: usize = 0;
    for name in &names {
        if told < VOLUMES {
            if let Some(reason) = reason_of_read(rt, volumes, name)? {
                eprintln!(rt; "  {reason}")?;
                told += 1;
            }
        }
    }
    Ok(())
}

/// Prints a line to standard error for each of the jobs that wrote to volumes and has no file rows.
/// Returns true if there is one.
fn warn_of_purged(rt: &HostRuntime, chosen: &[&JobRows]) -> io::Result<bool>
    ensures { IfOk result (λ warned. warned ≡ has_warning (Ok (map (λ j. j.now) chosen.now))) }
{
    let text = purged_warnings(rt.alloc(), chosen)?;
    let shown = String::from_utf8_lossy(rt.alloc(), &text)?;
    eprint!(rt; "{shown}")?;
    Ok(!text.is_empty())
}

/// Prints the chosen jobs to standard error if that is a terminal, and which of their volumes are
/// not in a folder; and a warning for each of them whose files are gone from the catalogue. Returns
/// true if there was a warning.
///
/// # Errors
///
/// If memory ran out, or standard error failed.
pub fn tell_chosen(rt: &HostRuntime, asked: &JobSelection<'_>, volumes: &str) -> io::Result<bool>
    ensures { IfOk result (λ warned. warned ≡ has_warning (choose asked.now.history asked.now.request)) }
{
    let chosen = match asked.jobs(rt.alloc()) {
        Ok(chosen) => chosen,
        Err(ChooseFault::Memory) => return Err(ErrorKind::OutOfMemory.into()),
        // Why nothing is chosen is told when the session begins.
        Err(_) => return Ok(false),
    };
    if is_shown(rt) {
        list_chosen(rt, asked, &chosen)?;
        tell_unread(rt, volumes, &chosen)?;
    }
    warn_of_purged(rt, &chosen)
}
