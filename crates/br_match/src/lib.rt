//! Matching: the records of one volume that a bootstrap asks for, as read by a drive.
//!
//! `match_piece` walks the volume of a piece and returns the hits. `Walk` does the same block by
//! block: each `Batch` has the hits in one block. Meanwhile the volumes of the drive may grow.
#![tactic(auto)]

mod admitted;
mod block_hits;
mod fault;
mod hit;
mod matcher;
mod matchers;
mod matching;
mod walk;

ghost use Rattle.br_match.specs.Come.{ComeIsMeant, ComeIsReached};

pub use br_data::Spot;
pub use fault::{PieceCause, PieceFault};
pub use hit::{Batch, Found, Hit};
pub use matching::match_piece;
pub use walk::{Walk, bound_for};

/// States that a hit in a block that a walk of a bootstrap comes to is one that the walk reaches,
/// whatever follows the block.
pub fn come_hits_are_reached()
    ensures { ComeIsReached }
{}

/// States that such a hit is one of the bootstrap's meaning, if there is one.
pub fn come_hits_are_meant()
    ensures { ComeIsMeant }
{}
