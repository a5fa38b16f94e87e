//! The command line: a table of the commands and their options, and the command that the words of a
//! command line ask for. The words are read by clap.
#![tactic(auto)]

mod byte_size;
mod command_row;
mod command_table;
mod option_row;
mod restore_words;
mod words;

pub use words::read_words;
