//! Rows: tests written as data. A program reads them from standard input, carries out each one, and
//! prints the rows that gave something else than expected (`Rows`).
//!
//! A row is `CALL FIELD FIELD .. = WANTED`. A line that begins with `## ` names the rows after it.
//! Other lines that are empty or begin with `#` are only for the reader.
//!
//! A field of bytes is `-` for no bytes, or parts with `+` between them. A part is a text as names
//! are printed, `3*ab` for that text three times, or `#6162` for bytes in hexadecimal. A text of
//! lines is such a field, too; in it, `_` is a blank and `|` a line feed.
//!
//! No call here returns an error: a [`Case`] remembers the first error, and its row fails.
#![tactic(auto)]

mod case;
mod rows;
mod texts;

pub use case::Case;
pub use rows::{Row, Rows, fields_of};
