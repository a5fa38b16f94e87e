//! Jobs whose file rows are gone from a catalogue, as after Bacula pruned them. None of their files
//! can be marked. An older copy is restored in place of each, if an older job has one.
ghost use Rattle.std.specs.Prelude.{◌≡◌, ◌++◌, IfOk, OnOk};
ghost use Rattle.br_jobs.specs.PurgedJobs as model;
ghost use Rattle.br_jobs.specs.PurgedJobs.{WarnsOf, lost, remedy, warning};

use br_history::JobRows;
use br_types::push_number;
use std::alloc::{AllocError, Global};

/// Returns true if a job wrote to volumes and has no file rows.
fn is_purged(job: &JobRows) -> bool
    ensures { result ≡ model.is_purged job.now }
{
    job.files().is_empty() && !job.spans().is_empty()
}

/// Appends what is wrong with a job.
#[tactic(auto, unfolding(crate::specs::PurgedJobs::lost))]
fn push_lost(text: &mut Vec<u8>) -> Result<(), AllocError>
    ensures { OnOk result (text.new.items ≡ text.old.items ++ lost) }
{
    text.extend_from_slice(b": no files of this job are in the catalogue")
}

/// Appends what comes of it, and what to do.
#[tactic(auto, unfolding(crate::specs::PurgedJobs::remedy))]
fn push_remedy(text: &mut Vec<u8>) -> Result<(), AllocError>
    ensures { OnOk result (text.new.items ≡ text.old.items ++ remedy) }
{
    text.extend_from_slice(b", so older copies may come back; its bootstrap restores them")
}

/// Appends the line that warns of a job.
fn push_warning(text: &mut Vec<u8>, job: &JobRows) -> Result<(), AllocError>
    ensures { OnOk result (text.new.items ≡ text.old.items ++ warning job.now) }
{
    text.extend_from_slice(b"purged ")?;
    push_number(text, u64::from(job.row().id.get()))?;
    push_lost(text)?;
    push_remedy(text)?;
    text.push(b'\n')?;
    Ok(())
}

/// Returns a line for each of the jobs that is purged.
pub fn purged_warnings(alloc: Global, jobs: &[&JobRows]) -> Result<Vec<u8>, AllocError>
    ensures { IfOk result (λ text. WarnsOf jobs.now text.items) }
{
    let mut text = Vec::new(alloc);
    for job in jobs {
        if is_purged(job) {
            push_warning(&mut text, job)?;
        }
    }
    Ok(text)
}
