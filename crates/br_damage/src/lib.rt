//! What of damaged volumes can be read.
//!
//! If volumes are lost, `NarrowedBootstrap` asks for the files of which they have no part.
#![tactic(auto)]

mod group_sessions;
mod left_indexes;
mod lost_files;
mod narrowed_bootstrap;

pub use group_sessions::name_sessions;
pub use narrowed_bootstrap::{NarrowedBootstrap, with_volume};
