//! The console of a restore: commands that walk through the view of some jobs and mark what is to
//! be restored.
//!
//! A line is read as a `Command`, and a `Console` runs it. Contracts see a `Console` as the view
//! beside the model's console, which has the directory and the marked paths.
#![tactic(auto)]

mod answer;
mod command;
mod console;
mod console_lines;
mod fault;
mod marks;
mod shows;
mod working_folder;

pub use answer::Answer;
pub use command::Command;
pub use console::Console;
pub use fault::MarkFault;
