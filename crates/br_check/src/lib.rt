//! A check of a bootstrap over its volumes: what a restore would meet, without the bytes of its
//! files.
//!
//! `check` reads each block that the bootstrap asks for, and keeps only record headers and
//! attributes. It returns a line for each finding, the number of the files and of their bytes, and
//! the memory that a restore needs. `push_checksums` appends a line for each block whose checksum
//! is not that of its bytes.
//!
//! Any call that returns a `Result` may also fail because memory ran out.
#![tactic(auto)]

mod checksum_lines;
mod checksum_pieces;
mod checksum_walk;
mod conflict_lines;
mod copies;
mod findings;
mod label;
mod laws;
mod light;
mod long;
mod memory;
mod name_lines;
mod run;
mod search;

pub use checksum_pieces::push_checksums;
pub use findings::push_empty;
pub use laws::{conflicts_stop, results_hold_throughout};
pub use run::{Checked, check};
