//! The commands that write a catalogue: `serve`, which runs scripts, and `migrate`. A script fills
//! volumes, commits jobs and restores.
//!
//! A script restores by bootstraps and by dialogues with the console, line by line. `run_script`
//! works in memory, and `run_script_over` with any catalogue and any store of volumes that has
//! readers. The reader of such a `DrivenStore` restores with a `DriveCount` of drives, each of which
//! shows all of its volumes, and does not borrow the store. A store in memory has one: each of its
//! drives is a `FixedDrive`, over volumes that stay as they are.
//!
//! `serve` works over a catalogue in a file and volumes in a folder, or in memory: `set_up_serve`
//! makes a keeper of both, `serve_over` runs a script over it, and `FolderVolumes` are the volumes,
//! which a `FolderReader` reads. The caller provides the jobs of a catalogue, as a `Catalogue` of
//! br_keeper.
#![tactic(auto)]

mod drive_count;
mod driven_store;
mod fixed_drive;
mod folder_volumes;
mod forgetful;
mod memory_script;
mod migrate_command;
mod restore_line;
mod script;
mod script_fault;
mod script_input;
mod script_jobs;
mod script_keeper;
mod script_line;
mod script_restores;
mod script_run;
mod script_text;
mod serve_command;

pub use drive_count::{DriveCount, drives_over};
pub use driven_store::{DrivenRestore, DrivenStore, VolumeReader, restore_by};
pub use fixed_drive::FixedDrive;
pub use folder_volumes::{FolderReader, FolderVolumes, HostVolumes};
pub use forgetful::Forgetful;
pub use memory_script::{answer, serve_memory};
pub use migrate_command::migrate_catalogue;
pub use script::ScriptEnd;
pub use script_fault::ScriptFault;
pub use script_run::{run_script, run_script_over};
pub use serve_command::{
    ServeSetup, ServeStartFault, serve_by_lines, serve_files, serve_over, set_up_serve,
};
