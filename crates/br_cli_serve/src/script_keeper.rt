//! A keeper, and the session that takes the snapshots of a script.
ghost use Rattle.std.specs.Prelude.{◌≡◌, IfSome, None};
ghost use mathlib.Core.List.{IsPrefix};
ghost use Rattle.br_keeper.specs.Keeping.{shelf_of};
ghost use Rattle.br_cli_serve.specs.ScriptKeeper.{CommitsAt, IsOwn, SeesMore, TakesSnapshot};

use br_history::SavedJob;
use br_keeper::{JobStore, Keeper, KeeperFault, Session, Snapshot};
use br_types::JobId;
use br_volume::VolumeStore;
use std::sync::Wait;

/// A keeper, and a session that learns the receipts of its commits.
pub(crate) struct Desk<C: JobStore, W: VolumeStore> {
    pub(crate) keeper: Keeper<C, W>,
    /// Missing only while a snapshot of it is held.
    pub(crate) session: Option<Session>,
}

impl<C: JobStore, W: VolumeStore> Desk<C, W> {
    /// Commits a job. Returns its number.
    #[tactic(auto, using(br_keeper::proofs::OutcomeLaws::commits_of, crate::proofs::DeskLaws::own_after))]
    pub(crate) fn commit<T: Wait>(&mut self, rt: &T, job: SavedJob) -> Result<JobId, KeeperFault>
        requires own { IsOwn self.old.session self.old.keeper }
        ensures own { IsOwn self.new.session self.new.keeper }
        ensures sees { SeesMore self.old.session self.new.session }
        ensures commits { CommitsAt C.inserts C.refuses (shelf_of W.holds W.failures) job self.old.keeper self.new.keeper self.new.session result }
    {
        let receipt = self.keeper.commit(rt, job)?;
        let Some(session) = self.session.take() else {
            unreachable!()
        };
        self.session = Some(session.learn(&receipt));
        Ok(receipt.job())
    }

    /// Takes a snapshot of the published jobs; `None` if none can be taken. The session is missing
    /// until the snapshot is released.
    pub(crate) fn snapshot(&mut self) -> Option<Snapshot>
        requires own { IsOwn self.old.session self.old.keeper }
        ensures keeper { self.new.keeper ≡ self.old.keeper }
        ensures seen { TakesSnapshot self.old.session self.new.session result }
        ensures own { IfSome result (λ view. view.book ≡ self.new.keeper.list.book) }
    {
        let Some(session) = self.session.take() else {
            unreachable!()
        };
        match session.snapshot() {
            Ok(snapshot) => Some(snapshot),
            Err(session) => {
                self.session = Some(session);
                None
            }
        }
    }
}
