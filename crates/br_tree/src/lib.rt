//! The tree of a view: what a directory contains, and which paths are marked.
//!
//! Contracts see a `Tree` as the view's entries and the marked paths in byte order.
#![tactic(auto)]

mod change;
mod child;
mod child_names;
mod cut;
mod flags;
mod list;
mod meant_run;
mod path_spans;
mod pattern;
mod shown_paths;
mod sign;
mod sums;
mod tree;
mod tree_walk;

pub use child::{Child, Sign};
pub use list::{flag_at, keep_if, pair_at};
pub use pattern::{bare_name, matches};
pub use shown_paths::Shown;
pub use tree::Tree;
