//! Drives, which read volumes block by block, and stores, which append to them.
//!
//! `Drive` is the trait of drives. `MemDrive` is a drive over memory, and `BorrowedDrive` one over
//! volumes in memory that their owner keeps. Code that reads volumes is generic over the trait. Its
//! clauses say what each call returns, when a call may fail, and that volumes only grow.
//! `VolumeStore` is the trait of stores, and `MemStore` a store over memory.
//!
//! `FolderDrive` and `FolderStore` read and append volumes in a folder of a disk: each volume is
//! the file with its name. If the disk tells its files, the clauses of `Drive` and `VolumeStore`
//! hold for them completely. `drives_over` makes drives over a folder of the system.
#![tactic(auto)]

mod borrowed;
mod count;
mod drive;
mod failed_calls;
mod fault;
mod folder;
mod folder_drive;
mod folder_store;
mod host_drives;
mod mem;
mod mem_store;
mod volume_store;

pub use borrowed::BorrowedDrive;
pub use count::Count;
pub use drive::{Drive, Got};
pub use failed_calls::FailedCalls;
pub use fault::{DriveFault, VolumeFault};
pub use folder_drive::FolderDrive;
pub use folder_store::{FolderStore, open_or_make};
pub use host_drives::{HostDrive, drives_over};
pub use mem::MemDrive;
pub use mem_store::MemStore;
pub use volume_store::{VolumeStore, appends_add_up};
