//! What the commands list of a catalogue: its jobs, the chosen ones, and the names of a folder.
//!
//! `jobs` lists the jobs, and marks those that `restore` and `console` would choose; `tell_chosen`
//! tells these before a session. `jobs_in` loads the jobs of a catalogue, with the files that a
//! command needs. The caller provides the jobs, as a `Catalogue` of br_keeper.
//!
//! An operator at a terminal may also enter `help`, and `dir` for the names of the folder with size
//! and moment. A reader around that of the console takes these lines out and answers them on
//! standard error. So the console sees none of them, and standard output has nothing of them.
//! `NamesWriter` shows names that are UTF-8 as they are.
#![tactic(auto)]

mod chosen_jobs;
mod dir_lines;
mod help_text;
mod helped_reader;
mod jobs_command;
mod loaded_jobs;
mod local_command;
mod shown_names;
mod time_zone;
mod working_folder;

pub use chosen_jobs::tell_chosen;
pub use dir_lines::{Named, push_name};
pub use helped_reader::{Helped, with_help};
pub use jobs_command::list;
pub use loaded_jobs::{ChosenFiles, jobs_in};
pub use local_command::{LocalCommand, asked_of};
pub use shown_names::NamesWriter;
