//! Names, paths, keys and numbers, which every other crate uses: what they are, how they are printed
//! and read, and how they compare.
//!
//! - `Name`, `VolName`, `Path`, `FileKey`, `SessionKey` and `Names` are the values themselves.
//! - `push_escaped`, `push_number` and what is like them print them; `cut`, `read_bytes` and
//!   `read_number` read the fields of a line of a script.
//! - `Ways` finds whether a path conflicts with one of some paths: a file where another file's
//!   folder has to be, or the reverse.
//! - `NewestCopies` returns for each path the newest of its copies: that of the session with the
//!   latest time, then with the greatest number, then the one with the greatest index.
//! - `Wanted` says which copies, conflicts and gaps an operator asks a restore to handle.
//!
//! Contracts see each type as its value of the model: a name or a path as its bytes, a number as a
//! number, a key as the record of its numbers, `Names` as a finite map.
//!
//! Any call that returns a `Result` may also fail because memory ran out.
#![tactic(auto)]

mod blanks;
mod bytes;
mod conflicts;
mod decimal;
mod decimal_field;
mod escape;
mod fault;
mod fields;
mod hexadecimal;
mod key;
mod line_fault;
mod name;
mod names;
mod newest;
mod newest_laws;
mod number;
mod path;
mod wanted;

pub use blanks::trimmed;
pub use bytes::{are_digits, has_no_nul, is_directory_path, place_of};
pub use conflicts::{Ways, add_folders, add_path, is_next};
pub use decimal::{push_number, push_wide};
pub use decimal_field::read_number;
pub use escape::{escaped_reads_back, push_escaped, unescape};
pub use fault::{EscapeFault, NameFault};
pub use fields::{cut, read_bytes};
pub use hexadecimal::{byte_by, push_hexadecimal};
pub use key::{FileKey, SessionKey};
pub use line_fault::LineFault;
pub use name::{Name, VolName};
pub use names::Names;
pub use newest::NewestCopies;
pub use newest_laws::{newest_has_each_path, newest_has_each_path_once, planned_are_newest};
pub use number::{FileIndex, JobId, Letter, MAX_INDEX};
pub use path::{Path, is_path_of};
pub use wanted::{Copies, Gaps, Start, Stops, Wanted};
