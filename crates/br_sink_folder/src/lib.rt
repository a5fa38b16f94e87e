//! The delivery of files into a folder. `FolderSink` is the sink; its files come from any maker
//! that defines how several of them are written.
//!
//! `Resuming` is a sink over a folder that may hold files of an earlier delivery: files that are
//! there already stay as they are. `others_in` names what a folder has besides the files of a
//! delivery, and `push_others` appends a line for each.
#![tactic(auto)]

mod below_folder;
mod fault;
mod file_parts;
mod files_there;
mod folder_files;
mod folder_sink;
mod known_paths;
mod other_lines;
mod other_paths;
mod remover;
mod resume;
mod resumed_delivery;
mod single_file;
mod target_path;
mod two_files;
mod window;

pub use fault::FolderFault;
pub use folder_sink::FolderSink;
pub use known_paths::{Known, known_of};
pub use other_lines::push_others;
pub use other_paths::others_in;
pub use remover::Remover;
pub use resume::Resuming;
pub use window::{Made, ManyWriter};
