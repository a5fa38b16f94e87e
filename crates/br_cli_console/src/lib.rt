//! The command `console`, and `restore` by a catalogue: what they read, do and print, and their exit
//! status.
//!
//! Patterns may mark the paths in the place of the lines of a session; so `restore` does. The caller
//! provides the jobs of a catalogue, as a `Catalogue` of br_keeper.
#![tactic(auto)]

mod alike_sessions;
mod console_command;
mod left_session;
mod pattern_marks;
mod session_manifest;

pub use alike_sessions::sessions_are_alike;
pub use console_command::{
    ConsoleJobs, ConsoleStartFault, console_ending, restore_marked, set_up_console,
};
