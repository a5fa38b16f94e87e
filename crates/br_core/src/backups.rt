//! The committed jobs, and the volumes after each commit.
ghost use Rattle.std.specs.Prelude.{◌≡◌, length, option_map, slice_get, OnErr, OnOk};
ghost use Rattle.br_model.specs.Answer.{Answers};
ghost use Rattle.br_model.specs.Job.{pushed};
ghost use Rattle.br_model.specs.PlanMeaning.{rows_of_jobs};
ghost use Rattle.br_volume.specs.Memory.{volumes_of};
ghost use Rattle.br_history.specs.Fault.{cause};
ghost use Rattle.br_history.specs.Committing.{AreWhole};
ghost use Rattle.br_core.specs.Machine.{stages_of};
ghost use Rattle.br_core.specs.Reached.{nothing};
ghost use Rattle.br_core.specs.Backups.{AddsJob};
ghost use Rattle.br_core.specs.Committing.{AppendsSession, CommitsTo};

use crate::committing::{appended, lengths, prepared};
use br_history::{History, HistoryFault, JobRows, SavedJob};
use br_types::VolName;
use br_volume::MemStore;
use std::alloc::Global;
use std::marker::Model;
use std::mem;

/// A committed job, and the volumes before it.
#[derive(Drop)]
struct Committed {
    job: SavedJob,
    before: Vec<(VolName, Vec<u8>)>,
}

impl Model for Committed {
    ghost use Rattle.br_volume.specs.Memory.{volumes_of};
    ghost use Rattle.br_core.specs.Backups as backups;

    ghost Value = { backups.Committed };

    ghost view = { λ c. record { job = c.job; before = volumes_of c.before.items } };
}

impl Committed {
    /// Returns the volumes before the commit.
    fn before(&self) -> &[(VolName, Vec<u8>)]
        ensures { volumes_of result.now ≡ self.now.before }
    {
        &self.before
    }
}

/// The committed jobs, and the volumes, now and before each commit.
#[derive(Drop)]
pub(crate) struct Backups {
    alloc: Global,
    history: History,
    /// In the order of the history.
    commits: Vec<Committed>,
    volumes: MemStore,
}

impl Model for Backups {
    ghost use Rattle.std.specs.Coded.{codes};
    ghost use Rattle.br_join.specs.Code.{coded_hits};
    ghost use Rattle.br_core.specs.Machine.{World};
    ghost use Rattle.br_core.specs.Backups.{AreBackups, backups_of};

    ghost Value = { World };

    ghost coded = { Prim.hlevel (codes, coded_hits) };

    ghost view = { λ b. backups_of b.history b.commits.items b.volumes.volumes };

    ghost invariant = { λ b. AreBackups b.history b.commits.items b.volumes.volumes };
}

/// Adds a job with its rows, and replaces the volumes by those that hold it. After a refusal
/// nothing has changed.
fn add(
    history: &mut History,
    commits: &mut Vec<Committed>,
    volumes: &mut MemStore,
    rows: JobRows,
    job: SavedJob,
    later: MemStore,
) -> Result<(), HistoryFault>
    ensures answers { Answers (λ _. history.new) cause result (pushed history.old rows) }
    ensures ok { OnOk result (AddsJob rows job later history.old commits.old.items volumes.old
        history.new commits.new.items volumes.new) }
    ensures err { OnErr result ((history.new ≡ history.old) × (commits.new.items ≡ commits.old.items)
        × (volumes.new.volumes ≡ volumes.old.volumes)) }
{
    commits.reserve(1)?;
    history.push(rows)?;
    let before = mem::replace(volumes, later).into_volumes();
    // There is room.
    let _ = commits.push(Committed { job, before });
    Ok(())
}

impl Backups {
    /// Returns the state without jobs and volumes. It keeps the allocator, by which both grow.
    pub(crate) fn new(alloc: Global) -> Backups
        ensures { result ≡ nothing }
    {
        Backups {
            alloc,
            history: History::new(alloc),
            commits: Vec::new(alloc),
            volumes: MemStore::new(alloc),
        }
    }

    /// Commits a job: its session is written to the volumes, and its rows are added to the history.
    /// After a refusal nothing has changed.
    pub(crate) fn commit(&mut self, job: SavedJob) -> Result<(), HistoryFault>
        ensures committed { CommitsTo self.old job self.new result }
        ensures appends { OnOk result (AppendsSession self.old.volumes job self.new.volumes) }
        ensures each { length self.old.jobs ≡ length self.old.earlier }
        ensures whole { AreWhole self.new.volumes }
    {
        let starts = lengths(self.alloc, self.volumes.volumes())?;
        let (rows, blocks) = prepared(self.alloc, &self.history, &starts, &job)?;
        let later = appended(self.alloc, &self.volumes, &blocks)?;
        add(
            &mut self.history,
            &mut self.commits,
            &mut self.volumes,
            rows,
            job,
            later,
        )
    }

    /// Returns the rows of the jobs, in the order of their commits.
    pub(crate) fn history(&self) -> &History
        ensures { result.now ≡ rows_of_jobs self.now.jobs }
    {
        &self.history
    }

    /// Returns the number of commits.
    pub(crate) fn len(&self) -> u64
        ensures earlier { result ≡ length self.now.earlier }
        ensures jobs { result ≡ length self.now.jobs }
        ensures whole { AreWhole self.now.volumes }
    {
        self.commits.len() as u64
    }

    /// Returns the volumes after this number of commits, if there were as many.
    pub(crate) fn volumes_after(&self, commits: u64) -> Option<&[(VolName, Vec<u8>)]>
        ensures { option_map (λ volumes. volumes_of volumes.now) result ≡ slice_get (stages_of self.now) commits }
    {
        let place = commits as usize;
        if place == self.commits.len() {
            return Some(self.volumes.volumes());
        }
        match self.commits.get(place) {
            None => None,
            Some(one) => Some(one.before()),
        }
    }
}
