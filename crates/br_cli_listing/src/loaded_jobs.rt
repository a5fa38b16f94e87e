//! The jobs of a catalogue, with the files that a command needs.
ghost use Rattle.std.specs.Prelude.{IfOk};
ghost use Rattle.br_cli_listing.specs.LoadedJobs.{AreLoaded};

use br_choose::ChooseFault;
use br_cli_common::FileRows;
use br_history::{History, Needs, numbers_of};
use br_keeper::{Catalogue, CatalogueFault};
use br_plan::{JobSelection, Request};
use br_types::JobId;
use std::alloc::{AllocError, Global};
use std::fs;

/// The files that a session needs: those of the jobs that its request chooses.
#[derive(Clone, Copy)]
pub struct ChosenFiles<'r> {
    /// The request.
    pub request: &'r Request,
}

impl Needs for ChosenFiles<'_> {
    ghost use Rattle.br_history.specs.Needed.{needed_for};

    ghost needed = { λ c jobs. needed_for c.request.now jobs };

    fn needed_of(&self, alloc: Global, jobs: &History) -> Result<Vec<JobId>, AllocError> {
        match JobSelection::new(alloc, jobs, self.request).jobs(alloc) {
            Ok(chosen) => numbers_of(alloc, &chosen),
            Err(ChooseFault::Memory) => Err(AllocError),
            Err(ChooseFault::NoFull | ChooseFault::UnknownClient | ChooseFault::UnknownFileSet) => {
                Ok(Vec::new(alloc))
            }
        }
    }
}

/// Loads the jobs of a catalogue with all files, or with those that are needed.
fn load<C: Catalogue, N: Needs>(
    catalogue: &C,
    db: &str,
    file_rows: FileRows,
    needs: &N,
) -> Result<History, CatalogueFault>
    ensures jobs { IfOk result (λ history. AreLoaded (C.jobs_at catalogue.now db.now) file_rows (N.needed needs.now) history) }
{
    match file_rows {
        FileRows::All => catalogue.load(db),
        FileRows::Needed => catalogue.load_needed(db, needs),
    }
}

/// Loads the jobs in the file of a catalogue with all files, or with those that are needed, if the
/// file is there and has bytes: a catalogue has tables, and a file without bytes has none.
///
/// # Errors
///
/// `Unreadable` if there is no file or it stays without bytes, and those of the catalogue.
pub fn jobs_in<C: Catalogue, N: Needs>(
    rt: &HostRuntime,
    catalogue: &C,
    db: &str,
    file_rows: FileRows,
    needs: &N,
) -> Result<History, CatalogueFault>
    ensures jobs { IfOk result (λ history. AreLoaded (C.jobs_at catalogue.now db.now) file_rows (N.needed needs.now) history) }
{
    // No catalogue is opened for a file that does not exist.
    if fs::metadata(rt, db).is_err() {
        return Err(CatalogueFault::Unreadable);
    }
    let history = load(catalogue, db, file_rows, needs)?;
    // While a catalogue is made, its file may be empty: the load waits for that.
    let len = fs::metadata(rt, db).map_or(0, |found| found.len());
    if len == 0 {
        Err(CatalogueFault::Unreadable)
    } else {
        Ok(history)
    }
}
