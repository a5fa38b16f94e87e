//! The tables of the catalogue, and those of version 1: whether the schema of a database has them, and
//! what a migration leaves of it.
#![tactic(auto)]

mod old_schema;
mod schema;
mod schema_shape;

pub use old_schema::{OldLayout, is_moved, old_layout, version_tree};
pub use schema::{has_version, is_empty, is_ours};
