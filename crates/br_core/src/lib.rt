//! The machine of restores and backups; the main theorem is proved over it for every schedule.
#![tactic(auto)]

mod backups;
mod committing;
mod event;
mod fault;
mod machine_runs;
mod open_restore;
mod piece_status;
mod planning;
mod reading;
mod restores;
mod steps;
mod world;

ghost use Rattle.br_core.specs.Laws.{Headline, HitsOfARun, JobsHold};

pub use committing::prepared;
pub use event::{Event, Reply};
pub use fault::StepFault;
pub use machine_runs::run;
pub use world::World;

/// States that at every point of every run the hits of a restore are hits that its bootstrap means.
pub fn hits_of_a_run()
    ensures { HitsOfARun }
{}

/// States that each delivery of a run has a plan before it and gives what that plan selected.
pub fn headline()
    ensures { Headline }
{}

/// States that volumes only grow. Those of a later state hold the jobs of the first state that the
/// first volumes held, and all jobs that were committed since.
pub fn jobs_hold()
    ensures { JobsHold }
{}
