//! Files and folders, by two traits whose clauses state the effect of each call.
//!
//! `Disk` reads files, appends to them and syncs them. `MemDisk` is a disk over memory, which tells
//! its files and what a crash leaves of them, and `HostDisk` is the system's, as thin as possible.
//! `read_from` and `append` are generic over the trait: the first reads just the bytes that the
//! file has, the second appends all bytes or the first of them.
//!
//! `FileMaker` makes files and folders, whose new files can be written side by side. `MemMaker` is
//! one over memory, and `HostDisk` that of the system. `enter_folder`, `clear_path` and `put_file`
//! are generic over it.
//!
//! `has_alike` returns whether a file has given bytes, which are known by their number and their
//! MD5 digest. It reads the file in parts. `Comparer` is a maker of files that compares.
#![tactic(auto)]

mod comparer;
mod crash_laws;
mod disk;
mod fault;
mod file_appending;
mod file_digests;
mod file_path;
mod file_reading;
mod host;
mod kind;
mod maker;
mod maker_steps;
mod mem;
mod mem_maker;
mod mem_synced;

pub use comparer::Comparer;
pub use crash_laws::crashes_leave_fronts;
pub use disk::Disk;
pub use fault::DiskFault;
pub use file_appending::append;
pub use file_digests::has_alike;
pub use file_path::FilePath;
pub use file_reading::read_from;
pub use host::{HostDisk, HostFile};
pub use kind::{Kind, Metadata};
pub use maker::FileMaker;
pub use maker_steps::{clear_path, enter_folder, put_file};
pub use mem::MemDisk;
pub use mem_maker::{MemMaker, MemNew};
