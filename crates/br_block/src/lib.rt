//! Reads Bacula's blocks and writes those of the level BB02: the header of a block and the
//! fragments of records in it, which borrow from the block. `Crc` is the CRC-32 that a header's
//! checksum is.
//!
//! In a block of the level BB02 all records are of the session in its header. In one of the older
//! level BB01 each record has its own, so one block may contain records of several sessions.
//!
//! The format is that of Bacula's Developer's Guide, "Storage Media Output Format". All numbers are
//! in network byte order. The checksum is the CRC-32 of ISO 3309, zlib and PNG; `Crc` has a table
//! of eight rows, by which eight bytes are taken in at once.
//!
//! Contracts see a header as its record of the model, a block as the list of its bytes, a fragment
//! as the model's fragment, and `Fragments` as the list of the fragments that are left. They see a
//! `BlockBuilder` as its limit, its number, its session and its fragments so far. Reading takes no
//! memory.
#![tactic(auto)]

mod block;
mod builder;
mod crc;
mod crc_shift;
mod fault;
mod fragments;
mod head;
mod numbers;

pub use block::Block;
pub use builder::BlockBuilder;
pub use crc::Crc;
pub use fault::BlockFault;
pub use fragments::{Fragment, Fragments};
pub use head::BlockHead;
