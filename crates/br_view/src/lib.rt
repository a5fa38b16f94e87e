//! The view of some jobs: the newest copy of each of their paths.
//!
//! Contracts see a `View` as the model's list of entries, each with its path.
#![tactic(auto)]

mod entry;
mod newest;
mod view;

pub use entry::Entry;
pub use view::View;
