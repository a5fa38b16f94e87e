//! The output of `brestore jobs`: a line for each job of a history. The jobs that `console` would
//! choose are marked.
//!
//! Any call that returns a `Result` may also fail because memory ran out.
#![tactic(auto)]

mod job_filter;
mod job_listing;
mod job_marks;
mod job_volumes;
mod listed_files;
mod listing_fault;
mod listing_line;
mod local_time;
mod purged_jobs;
mod saved_sums;
mod time_zones;
mod utc_moment;

pub use job_filter::Filter;
pub use job_listing::list_jobs;
pub use job_marks::{MarkedLines, marked_lines};
pub use listed_files::listed_files_list_alike;
pub use listing_fault::ListingFault;
pub use purged_jobs::purged_warnings;
pub use time_zones::Zones;
pub use utc_moment::moment_text;
