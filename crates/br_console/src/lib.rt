//! The restore console.
//!
//! The console leads from the history of some jobs and a dialogue to a bootstrap, to the files that
//! it gives and their manifest, and into a sink if there is one: `run_console`. Its parts are
//! `prepare`, which calls `converse`, and `finish`, which calls `restore_plan`.
//!
//! Without a dialogue `plan_paths` makes the plan for paths that patterns name, which `restore_plan`
//! restores.
#![tactic(auto)]

mod console_fault;
mod ending;
mod marked_paths;
mod reply;
mod running;
mod selecting;
mod talking;

pub use console_fault::ConsoleFault;
pub use ending::{ConsoleRun, End, LineVerdict, SessionEnd, SessionOutcome};
pub use marked_paths::plan_paths;
pub use running::{finish, prepare, restore_plan, run_console};
pub use selecting::{
    drives_stand_for_plans, runs_depend_on_choice, runs_mean_selection, runs_restore_selection,
};
pub use talking::converse;
