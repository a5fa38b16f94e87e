//! Reads and writes bootstraps: texts that select the records to restore, as Bacula's Director
//! writes them.
//!
//! A `Bootstrap` is read from its text and written as its canonical text, and its groups say which
//! records they select. `counts_of` reads the `Count` of each group, the number of files that the
//! group asks for; reading the bootstrap ignores it. `first_line`, `without_comment`
//! and `cut` take a text apart as the reader does.
//!
//! Any call that returns a `Result` may also fail because memory ran out.
#![tactic(auto)]

mod bootstrap;
mod count_laws;
mod counts;
mod criterion;
mod digits;
mod fault;
mod group;
mod keyword;
mod range;
mod range_text;
mod read;
mod scan;
mod statement;
mod write;

pub use bootstrap::Bootstrap;
pub use count_laws::each_group_has_one;
pub use counts::counts_of;
pub use criterion::MAX_INDEX;
pub use fault::BsrFault;
pub use group::{Group, admits_number};
pub use range::{Range, by_low};
pub use read::read_bootstrap;
pub use scan::{cut, first_line, without_comment};
pub use statement::MAX_LINE;
pub use write::{push_range, write_bootstrap};
