//! The keeper: it commits jobs to a catalogue and to volumes, and publishes them while others read.
//!
//! A commit writes the session of a job to the volumes, makes these durable, inserts its rows into
//! the catalogue, and then publishes them. So a crash leaves the blocks of each job of which it
//! leaves the rows. Sessions take snapshots of what is published, and wait for nobody.
//!
//! The keeper vouches for the length of each volume: one past the end of its last span in the
//! catalogue, or the end of a commit's last complete append. If a volume is longer, or an append to
//! it or its sync failed, nothing is written to it any more.
//!
//! A `Publisher` has all jobs. It adds and publishes a job, and returns a receipt. A session
//! learns the receipt: from then on its snapshots have the receipt's job. There are two copies of
//! the history: readers have one, and each job that is added goes into the other before the two
//! change places. So the cost of a job depends on its rows, not on the history.
//!
//! `serve` is a keeper that serves requests from a channel, so that many threads can commit jobs
//! through one keeper. Each reply has the receipt of the requested job, or the refusal.
//!
//! Contracts see a keeper as its catalogue, its volumes, the lengths that it vouches for, and the
//! published list. They name the catalogue by the trait `JobStore`, and the volumes by
//! `VolumeStore`. A session knows a beginning of the published list, and a snapshot is the jobs
//! before the list and then a beginning of it. `Catalogue` opens a `JobStore` by the path
//! of a file; `MemJobs` is one in memory.
#![tactic(auto)]

mod appending;
mod beginnings;
mod catalogue;
mod channel;
mod fault;
mod job_store;
mod keeper;
mod laws;
mod mem_jobs;
mod prepared;
mod published;
mod publisher;
mod sessions;
mod stored_jobs;
mod vouched_lengths;

pub use br_history::SavedJob;
pub use catalogue::{Catalogue, CatalogueFault};
pub use channel::{Ask, Naming, Reply, serve};
pub use fault::KeeperFault;
pub use job_store::{JobStore, JobStoreFault};
pub use keeper::Keeper;
pub use laws::{
    commits_outlast, commits_stand, crashes_leave_jobs, held_volumes_are_whole, receipts_are_shown,
};
pub use mem_jobs::MemJobs;
pub use publisher::Publisher;
pub use sessions::{Receipt, Session, Snapshot};
