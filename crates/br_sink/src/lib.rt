//! The results of a restore: its files, put into a sink, their manifest, and their totals.
//!
//! `Sink` is the trait of what takes files, and `MemSink` a sink in memory. `deliver` puts the
//! files of a restore into a sink in their order, and stops at the first path that conflicts with
//! one already put.
//!
//! A delivery may leave out files. Before it, `keep_apart` finds the files that are left out since
//! their paths conflict. `Leaving` is a sink around another sink: it goes on after a file at which
//! that one fails.
#![tactic(auto)]

mod apart_laws;
mod conflicts_apart;
mod delivered_files;
mod delivery;
mod fault;
mod file_parts;
mod flushing;
mod keep_going;
mod keep_going_delivery;
mod left_out;
mod left_out_lines;
mod manifest_line;
mod manifest_parts;
mod manifest_text;
mod manifest_whole;
mod mem_sink;
mod report;
mod sink;
mod two_parts;

pub use apart_laws::{apart_goes_on, apart_stay_whole, kept_are_apart};
pub use br_join::Item;
pub use conflicts_apart::{Apart, keep_apart};
pub use delivered_files::DeliveredFiles;
pub use delivery::{deliver, stand_apart};
pub use fault::{SinkFault, SinkStop, StopCause};
pub use file_parts::{Parts, PartsFault};
pub use flushing::{Flush, show};
pub use keep_going::Leaving;
pub use left_out::file_at;
pub use left_out_lines::push_left;
pub use manifest_parts::{manifest_room, write_manifest};
pub use manifest_whole::manifest;
pub use mem_sink::{MemSink, copy_of};
pub use report::{Report, totals};
pub use sink::Sink;
pub use two_parts::{TwoParts, TwoPut};
