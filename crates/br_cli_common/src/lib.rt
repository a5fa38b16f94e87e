//! What the commands have in common: their options as plain values, the exit statuses, and what
//! they print at a terminal besides what the formats fix.
//!
//! `refusals_below_50` and `refusals_from_50` return the table of the refusal numbers and the numbers
//! of outcomes: for each its name, what it means and what to do next. `explain` looks up a number,
//! `push_refusals` writes rows as text, and `push_words` the two lines that are printed beside a refusal. `specs/RefusalRows.antt`
//! and the table of docs/REFUSALS.md have the same words.
//!
//! `reason_of_file` and similar functions say in words why a file or a folder could not be written
//! or read, as the disk shows it after the refusal. A sink reports only the file at which it
//! failed. So the steps that it took are tried once more, one system call each, and what was made
//! is removed again. A caller asks for few files, and only if somebody reads the answer.
#![tactic(auto)]

mod failed_thing;
mod failure_reason;
mod options;
mod prompt;
mod refusal;
mod refusal_lines;
mod refusal_table;
mod refusal_text;
mod refusal_words;
mod status;

pub use failed_thing::{Matter, Reason, Thing};
pub use failure_reason::{reason_of_file, reason_of_folder, reason_of_new_file, reason_of_read};
pub use options::{
    CheckOptions, Checksums, Clock, ConsoleOptions, ExtractOptions, FileRows, Invocation,
    JobsOptions, Marks, Printed, Progress, ServeOptions, Syncs, Target,
};
pub use prompt::{Prompted, greet, is_attended, with_prompt};
pub use refusal::{Refusal, explain, refusals_below_50, refusals_from_50};
pub use refusal_lines::{push_with_words, push_words, refused_number};
pub use refusal_text::push_refusals;
pub use refusal_words::{is_shown, show_lines, tell_refusal, tell_refusals};
pub use status::{BAD_COMMAND, BAD_STREAM, CLEAN, REFUSED, refuse_start};
