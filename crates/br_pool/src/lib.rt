//! Several drives with one result: workers read pieces in threads, each worker with its own drive.
//!
//! `run_pool` returns what one drive would find of each piece, whichever worker reads it.
//! `run_pool_streaming` gives the hits to a joiner block by block, as they are found, so that only
//! a few batches wait in a queue. The volumes of the drives may grow meanwhile, and drives may fail
//! as long as one is left.
#![tactic(auto)]

mod batch_queue;
mod fault;
mod gate;
mod gathering;
mod outlet;
mod pool;
mod readers;
mod round_course;
mod rounds;
mod sender;
mod senders;
mod slots;
mod streaming;
mod thread_memory;
mod worker;
mod workers;

pub use fault::PoolFault;
pub use gate::{Gate, OpenGate};
pub use pool::run_pool;
pub use streaming::{Streaming, run_pool_streaming};
