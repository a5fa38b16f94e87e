//! The hits that a joiner gathered without all their data, and the files that are made from them.
//!
//! A `Gathered` has the hits of a restore, of which data may have been let go. It makes the files
//! from data that drives read again; each drive makes some of them. Their bytes are digested and
//! not kept. For a delivery it makes some of the files once more, and compares them with those that
//! it made before.
#![tactic(auto)]

mod both_digested;
mod digesting;
mod file_hits;
mod file_pairs;
mod file_run;
mod file_work;
mod files_once_more;
mod gathered;
mod light_hits;
mod likeness;
mod made_again;
mod making;
mod putting;
mod rereading;
mod sharing;
mod two_files;

pub use gathered::Gathered;
pub use two_files::{KeyedItem, TwoDone};
