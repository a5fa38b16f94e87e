//! The catalogue in an SQLite file: jobs with the rows of their files and spans. Each job is
//! written in one transaction, and all jobs are loaded as a `History`.
//!
//! Contracts see a `Store` as its connection; `state` is the database of a connection. What they
//! state about rows holds if the disk returns what was written to it, or the store is in memory
//! (`HasCleanDisk`).
//!
//! `StoredJobs` is a `Store` that a keeper owns. It defines the relations that the contracts
//! of a keeper name: the effect of an insertion on the database, and the databases that a
//! crash may leave.
//!
//! `look` copies the file of a catalogue and its log into memory and opens the copies as a
//! database, so that nothing is written or made, also while another program commits. `Sight` is
//! what it needs of the system: `HostSight` is that of the system, as thin as it can be, and
//! `MemSight` one over memory, for tests. `fold` ends the use of a catalogue that was written to:
//! its file alone has what was committed. `emptied` is the last step of it.
#![tactic(auto)]

mod crash_laws;
mod job_writing;
mod laws;
mod look_fault;
mod look_file;
mod look_folding;
mod look_host;
mod look_mem;
mod look_sight;
mod look_source;
mod look_stamp;
mod name_numbers;
mod opening;
mod queries;
mod store;
mod stored_jobs;
mod tables;
mod version;

pub use br_catalog_rows::{StoreFault, inserted_jobs_load};
pub use crash_laws::{commits_outlive_crashes, crashes_leave_found_jobs, refused_jobs_are_whole};
pub use look_fault::LookFault;
pub use look_file::look;
pub use look_folding::{emptied, fold};
pub use look_host::{HostSight, SystemFiles};
pub use look_mem::{MemSight, files_in_memory_are_kept};
pub use look_sight::Sight;
pub use look_source::Source;
pub use look_stamp::{FileTime, Stamp};
pub use opening::create;
pub use store::Store;
pub use stored_jobs::StoredJobs;
