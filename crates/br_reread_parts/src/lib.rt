//! Files whose plain data are read again while they are put, a window at a time.
#![tactic(auto)]

mod ahead;
mod both;
mod file_parts;
mod file_windows;
mod likeness;
mod putting;
mod two_parts;
mod windows;

pub use both::PlainFile;
pub use likeness::are_alike;
pub use putting::{put_plain, put_two_plain};
pub use windows::{Cut, DIGESTED, cut_window, digest_window, push_data};
