//! The progress of a restore or a check, in one line on a terminal that is rewritten while the restore runs,
//! and what became of its files, in words at a terminal and in a log.
//!
//! A `WatchedDrive`, a `WatchedWriter` and a `WatchedSink` do what the drive, the writer and the sink
//! inside them do, and report it to the `Gauge` that they share. A `ClearingWriter` makes room for what
//! it writes.
#![tactic(auto)]

mod clearing_writer;
mod expecting;
mod gauge;
mod gauge_words;
mod log;
mod outcome_line;
mod passed_faults;
mod passed_lines;
mod progress_counts;
mod progress_line;
mod watched_drive;
mod watched_sink;
mod watched_writer;

pub use clearing_writer::ClearingWriter;
pub use gauge::Gauge;
pub use log::Log;
pub use passed_faults::{Faults, push_key};
pub use progress_line::{Putting, Standing, seconds_left};
pub use watched_drive::WatchedDrive;
pub use watched_sink::WatchedSink;
pub use watched_writer::WatchedWriter;
