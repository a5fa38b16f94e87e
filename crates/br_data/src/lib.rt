//! The data of files: the bytes of fragments that were found, kept in memory or left on their
//! volumes, and the bodies of files that are made from them.
//!
//! Volumes only grow, so a fragment that was found can be reread from the place at which it was
//! found. For contracts a `Data` is its bytes, in memory or not. A `Fetch` returns these
//! bytes: `InMemory` those in memory, and `OverMany` those that the drives of a restore
//! reread from the volumes of its bootstrap, by one of the drives, and by the next one if that one
//! failed.
//!
//! A `Part` is zeros, bytes that were made, or the data of a fragment, with which they are shared.
//! A `FileBytes` is all bytes of a file: in parts that are in memory, or read part by part by a
//! `Reading`, which digests them and keeps none. `write_bytes` writes bytes, or the first of them
//! if a write fails.
#![tactic(auto)]

mod body_part;
mod body_reading;
mod body_writing;
mod data;
mod data_place;
mod data_spans;
mod fetch;
mod file_bytes;
mod found_bytes;
mod many_drives;
mod read_bytes;
mod reread_blocks;
mod reread_data;
mod reread_fault;
mod reread_fragment;
mod spot;

ghost use Rattle.br_data.specs.StandingHits.{HitsStand, StandingStays, StandsOnce};

pub use body_part::{Part, push_found, push_gap, push_zeros};
pub use body_reading::Reading;
pub use body_writing::write_bytes;
pub use data::Data;
pub use data_place::FragmentPlace;
pub use fetch::{Fetch, InMemory};
pub use file_bytes::FileBytes;
pub use many_drives::OverMany;
pub use reread_blocks::Again;
pub use reread_fault::AgainFault;
pub use spot::Spot;

/// States that each hit of a piece is at its place on the piece's volume: the block at its
/// address is valid, and of its fragments the one with the hit's ordinal is the hit's.
pub fn hits_stand()
    ensures { HitsStand }
{}

/// States that what is at a place stays there while volumes grow.
pub fn standing_stays()
    ensures { StandingStays }
{}

/// States that there is one fragment at a place.
pub fn stands_once()
    ensures { StandsOnce }
{}
