//! The commands of the program except those over a catalogue alone, which are in br_cli_console and
//! br_cli_listing: what each reads, does and prints, and its exit status.
//!
//! `extract`, `restore` and `check` restore and check by a bootstrap. `restore` goes on without
//! volumes that can't be read.
#![tactic(auto)]

mod bootstrap_file;
mod check_command;
mod explain_command;
mod extract_command;
mod left_extraction;

pub use br_cli_target::{Ending, TarFault};
pub use check_command::{CheckTask, check_ending, check_files, check_over, set_up_check};
pub use explain_command::{explain_all, explain_number};
pub use extract_command::{
    ExtractStartFault, Extraction, extract_ending, extract_files, extract_over, set_up_extract,
};
