//! Catalogues in files of SQLite, as the commands use them.
//!
//! `CatalogueFiles` is the `Catalogue` of br_keeper over the files of the system: it opens a
//! catalogue, looks at one, and migrates one of version 1 to version 2, by the calls of its store,
//! which is opened without a test of its rows. So the commands are proved without SQLite.
#![tactic(auto)]

mod catalogue_files;
mod fault;
mod file_migration;
mod migrating;
mod migration;
mod new_tables;
mod old_digest;
mod old_files;
mod old_history;
mod old_jobs;
mod old_names;
mod old_version;
mod raw_closing;
mod raw_files;
mod raw_store;
mod seen_indexes;
mod tree_cursor;

pub use catalogue_files::CatalogueFiles;
