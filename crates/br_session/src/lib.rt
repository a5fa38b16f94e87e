//! Writes saved files as the blocks of a session.
//!
//! `write_session` packs the records of saved files into blocks, deals the blocks out to volumes,
//! and returns the span of each volume that they take. The formats are those of Bacula's
//! Developer's Guide ("Storage Media Output Format").
//!
//! Any call that returns a `Result` with `AllocError`, or an enum with `Memory`, may also fail
//! because memory ran out.
#![tactic(auto)]

mod deal;
mod fault;
mod indexes;
mod lengths;
mod order;
mod packing;
mod place;
mod records;
mod saved;
mod span;
mod spans;
mod write;

pub use fault::SessionFault;
pub use order::check_order;
pub use packing::{Record, pack};
pub use place::Place;
pub use saved::SavedFile;
pub use span::Span;
pub use write::{Written, write_session};
