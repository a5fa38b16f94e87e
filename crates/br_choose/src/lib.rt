//! Chooses the jobs for a restore: of a client's backups of a file set before a moment the last
//! Full, the last Differential after it, and every Incremental after the later of the two.
//!
//! Contracts see the chosen jobs, which borrow from a history, as the list of the rows of these
//! jobs.
#![tactic(auto)]

mod choice;
mod criteria;
mod fault;

pub use choice::choose;
pub use fault::ChooseFault;
