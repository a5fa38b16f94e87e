//! Numbers and attribute records of files, as backups store them: base 64 numbers, the 14 numbers
//! of a file, and the record that names a file and its numbers.
//!
//! Any call that returns a `Result` with `AllocError`, or an enum with `Memory`, may also fail
//! because memory ran out.
#![tactic(auto)]

mod attr;
mod fault;
mod number64;
mod stat;

pub use attr::{Attr, write_attributes};
pub use fault::AttrFault;
pub use number64::{read_number, write_number};
pub use stat::Stat;
