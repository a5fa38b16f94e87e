//! The running machine.
ghost use Rattle.std.specs.Prelude.{◌≡◌, IfOk, OnOk};
ghost use Rattle.br_core.specs.Committing.{AppendsIfCommit};
ghost use Rattle.br_core.specs.Happening.{event_of, reply_of};
ghost use Rattle.br_core.specs.Reached.{IsReached, nothing};
ghost use Rattle.br_core.specs.Running.{AllHaveHits, GivesSelected, HoweverReached};
ghost use Rattle.br_core.specs.Stepping.{TakesStep};

use crate::backups::Backups;
use crate::event::{Event, Reply};
use crate::fault::StepFault;
use crate::open_restore::OpenRestore;
use crate::steps::take_step;
use std::alloc::Global;
use std::marker::Model;
use std::thread::Threads;

/// The committed jobs, the volumes after each commit, and the planned restores under their numbers.
#[derive(Drop)]
pub struct World {
    alloc: Global,
    backups: Backups,
    /// None for a restore that is over.
    restores: Vec<Option<OpenRestore>>,
}

impl Model for World {
    ghost use Rattle.std.specs.Coded.{codes};
    ghost use Rattle.br_join.specs.Code.{coded_hits};
    ghost use Rattle.br_core.specs.Machine as machine;
    ghost use Rattle.br_core.specs.Reached.{IsReached};
    ghost use Rattle.br_core.specs.Stepping.{world_with};

    ghost Value = { machine.World };

    ghost coded = { Prim.hlevel (codes, coded_hits) };

    ghost view = { λ w. world_with w.backups w.restores.items };

    ghost invariant = { λ w. IsReached (world_with w.backups w.restores.items) };
}

impl World {
    /// Returns a machine without jobs, volumes and restores. It keeps the allocator, by which it
    /// grows.
    pub fn new(alloc: Global) -> World
        ensures { result ≡ nothing }
    {
        World {
            alloc,
            backups: Backups::new(alloc),
            restores: Vec::new(alloc),
        }
    }

    /// Takes the step of an event. After a refusal nothing has changed.
    ///
    /// # Errors
    ///
    /// The numbers of the refusals are those of [`StepFault::number`]. An event of a restore is not
    /// enabled if the restore does not exist or is over, or does not meet the event's conditions.
    pub fn step(&mut self, rt: &(impl Threads + Sync), event: Event) -> Result<Reply, StepFault>
        ensures step { TakesStep self.old (event_of event) self.new result }
        ensures appends { OnOk result (AppendsIfCommit self.old.volumes (event_of event) self.new.volumes) }
        ensures reached { IsReached self.new }
        ensures delivers { IfOk result (λ reply. HoweverReached self.old (GivesSelected self.old (event_of event) (reply_of reply))) }
        ensures hits { HoweverReached self.new (AllHaveHits self.new) }
    {
        // The clauses over the parts of the state, from which these are proved.
        take_step(rt, self.alloc, &mut self.backups, &mut self.restores, event)
    }
}
