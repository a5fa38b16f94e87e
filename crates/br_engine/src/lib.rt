//! The engine of a restore: from a bootstrap and the volumes of some drives to the files, to their
//! manifest, and into a sink if there is one.
//!
//! A `Wanted` holds what an operator may want besides: only the newest of several copies of a path
//! is delivered; files that conflict are left out; and a report names the indexes that the
//! bootstrap asks for without an outcome, and the groups with fewer outcomes than they count.
#![tactic(auto)]

mod bootstrap_text;
mod budget;
mod chosen_outcomes;
mod delivered_again;
mod delivering;
mod extracted;
mod extracting;
mod fault;
mod made;
mod newest_flags;
mod older_counts;
mod restore;
mod restore_end;
mod restore_order;
mod restore_stop;
mod restoring;
mod stopping_path;
mod turns;

pub use bootstrap_text::read_text;
pub use budget::Budget;
pub use extracted::Extracted;
pub use fault::{ExtractFault, push_pool_line, push_refused_line};
pub use newest_flags::{flags_of_newest, keep_flagged};
pub use older_counts::{OlderCopies, older_copies};
pub use restore::{Restore, run_extract};
pub use restore_end::RestoreEnd;
pub use restore_order::{CountedBootstrap, ReadBootstrap, RestoreOrder};
pub use restore_stop::{RestoreCause, RestoreStop};
pub use turns::{NoEnd, Turns};
