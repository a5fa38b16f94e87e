//! A bootstrap split into pieces, and the files that are missing for it.
//!
//! `split` makes pieces of it, one for each volume that it names. A piece has the groups on its
//! volume with their numbers in the bootstrap, so that each volume can be read alone.
//!
//! `missing` finds the files that a bootstrap asks for by their indexes and that are not there,
//! `got_of` the number of files that each group gets, and `report` writes both as lines.
#![tactic(auto)]

mod file_counts;
mod gaps;
mod lacking;
mod missing_lines;
mod near_ranges;
mod piece;
mod splitting;

pub use file_counts::got_of;
pub use lacking::{Gap, admits_session, missing};
pub use missing_lines::report;
pub use piece::Piece;
pub use splitting::split;
