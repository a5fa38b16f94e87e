//! Joining: makes files of the fragments that drives found.
//!
//! `Joiner` gathers what drives find of the pieces of a bootstrap, piece by piece or block by
//! block, and makes an `Outcome` for each file. If it let data go, it returns its hits, and fronts
//! of files: digests of their first data. br_reread_files makes the files of them, with data that
//! are read again.
#![tactic(auto)]

mod begun;
mod fault;
mod file_source;
mod floor;
mod front;
mod fronts;
mod held;
mod item;
mod joiner;
mod making;
mod room;
mod runs;
mod waiting;

pub use br_data::FileBytes;
pub use fault::{JoinFault, Refused};
pub use front::Front;
pub use fronts::Fronts;
pub use item::{Item, Outcome};
pub use joiner::{Joined, Joiner};
pub use making::{outcome_of, outcome_with};
pub use runs::{Run, named, runs_of};
