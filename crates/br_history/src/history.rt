ghost use Rattle.std.specs.Prelude.{◌≡◌, true, false, ◌∷◌, ◌++◌, [], length, slice_get, IfOk, OnOk, OnErr};
ghost use Rattle.std.specs.Option.{option_copied};
ghost use Rattle.std.specs.Ordering.{nat_cmp};
ghost use Rattle.std.specs.BTreeSet.{contains};
ghost use Rattle.br_model.specs.Answer.{Answers, AnswersAlways};
ghost use Rattle.br_model.specs.Job.{is_history, pushed};
ghost use Rattle.br_history.specs.Fault.{cause, fault_number};
ghost use Rattle.br_history.specs.Taken.{AddsId, AddsSession, SameIds, SameSessions, admitted};

use crate::fault::HistoryFault;
use crate::row::JobRow;
use crate::rows::JobRows;
use br_types::{JobId, SessionKey};
use std::alloc::{AllocError, Global};
use std::collections::BTreeSet;
use std::marker::Model;

/// Inserts a number that is not there and a session into their sets. If memory runs out, both sets
/// are unchanged.
fn insert_both(
    ids: &mut BTreeSet<JobId>,
    sessions: &mut BTreeSet<SessionKey>,
    id: JobId,
    session: SessionKey,
) -> Result<(), AllocError>
    requires { contains nat_cmp ids.old id ≡ false }
    ensures ids { OnOk result (AddsId ids.old id ids.new) }
    ensures sessions { OnOk result (AddsSession sessions.old session sessions.new) }
    ensures same_ids { OnErr result (SameIds ids.old ids.new) }
    ensures same_sessions { OnErr result (SameSessions sessions.old sessions.new) }
{
    ids.insert(id)?;
    if let Err(refused) = sessions.insert(session) {
        ids.remove(&id);
        return Err(AllocError::from(refused));
    }
    Ok(())
}

/// The committed jobs, in the order of their commits. No two have one number or one session.
#[derive(Drop)]
pub struct History {
    jobs: Vec<JobRows>,
    ids: BTreeSet<JobId>,
    sessions: BTreeSet<SessionKey>,
}

impl Model for History {
    ghost use Rattle.std.specs.Prelude.{List};
    ghost use Rattle.br_model.specs.Job as model;
    ghost use Rattle.br_history.specs.Taken.{AreTaken};

    ghost Value = { List model.JobRows };

    ghost view = { λ h. h.jobs.items };

    ghost invariant = { λ h. AreTaken h.jobs.items h.ids h.sessions };
}

impl History {
    /// Makes a history without jobs, which grows by this allocator.
    pub fn new(alloc: Global) -> History
        ensures { result ≡ [] }
    {
        History {
            jobs: Vec::new(alloc),
            ids: BTreeSet::new(alloc),
            sessions: BTreeSet::new(alloc),
        }
    }

    /// Tests whether a job with this row can be appended. It takes no memory.
    ///
    /// # Errors
    ///
    /// `DuplicateJob` if another job has its number, `DuplicateSession` if another has its session.
    #[tactic(auto, unfolding(crate::specs::Taken::admitted))]
    pub fn check(&self, row: &JobRow) -> Result<(), HistoryFault>
        ensures { AnswersAlways (λ _. self.now) fault_number result (admitted self.now row.now) }
    {
        if self.ids.contains(&row.id) {
            return Err(HistoryFault::DuplicateJob);
        }
        if self.sessions.contains(&row.session) {
            return Err(HistoryFault::DuplicateSession);
        }
        Ok(())
    }

    /// Appends a job. If it is refused or memory runs out, nothing changes.
    ///
    /// # Errors
    ///
    /// `DuplicateJob` if another job has its number, `DuplicateSession` if another has its session.
    #[tactic(auto, unfolding(br_model::specs::Job::pushed))]
    pub fn push(&mut self, rows: JobRows) -> Result<(), HistoryFault>
        ensures answers { Answers (λ _. self.new) cause result (pushed self.old rows) }
        ensures ok { OnOk result (self.new ≡ self.old ++ rows ∷ []) }
        ensures err { OnErr result (self.new ≡ self.old) }
    {
        let row = rows.row();
        let id = row.id;
        let session = row.session;
        if self.ids.contains(&id) {
            return Err(HistoryFault::DuplicateJob);
        }
        if self.sessions.contains(&session) {
            return Err(HistoryFault::DuplicateSession);
        }
        self.jobs.push(rows).map_err(AllocError::from)?;
        if let Err(fault) = insert_both(&mut self.ids, &mut self.sessions, id, session) {
            let _ = self.jobs.pop();
            return Err(HistoryFault::from(fault));
        }
        Ok(())
    }

    /// Returns the number of jobs.
    pub fn len(&self) -> usize
        ensures { result ≡ length self.now }
    {
        self.jobs.len()
    }

    /// Returns the job at a place, counted from 0.
    pub fn get(&self, i: usize) -> Option<&JobRows>
        ensures { option_copied result ≡ slice_get self.now i }
    {
        self.jobs.get(i)
    }

    /// Returns all jobs.
    pub fn jobs(&self) -> &[JobRows]
        ensures same { result.now ≡ self.now }
        ensures valid { is_history self.now ≡ true }
    {
        &self.jobs
    }

    /// Returns an equal history.
    pub fn copy(&self, alloc: Global) -> Result<History, AllocError>
        ensures { IfOk result (λ history. history ≡ self.now) }
    {
        copied(alloc, &self.jobs)
    }
}

/// Makes the history with these jobs.
fn copied(alloc: Global, jobs: &[JobRows]) -> Result<History, AllocError>
    ensures { IfOk result (λ history. history ≡ jobs.now) }
{
    let mut history = History::new(alloc);
    for rows in jobs {
        if history.push(rows.copy(alloc)?).is_err() {
            return Err(AllocError);
        }
    }
    Ok(history)
}
