//! Two files whose bytes are read again, side by side, while both are put.
ghost use Rattle.std.specs.Prelude.{◌≡◌};
ghost use Rattle.br_model.specs.File as model;
ghost use Rattle.br_sink.specs.TwoParts.{AreTwoAlike, AreTwoSame, IsLost, NotChanged, WritesTwo, held_by, why_of};

use crate::file_parts::PartsFault;
use br_join::{FileBytes, Item};
use std::io::Write;

/// The result of putting two files side by side.
#[derive(Drop)]
pub enum TwoPut {
    /// Both were put; these are their bytes, which are not in memory.
    Both { one: FileBytes, other: FileBytes },
    /// The first one was put, and these are its bytes. The other was not.
    One { one: FileBytes, why: PartsFault },
    /// Neither was put.
    Neither { why: PartsFault },
}

impl TwoPut {
    /// Returns the reason why a file was not put, if there is one.
    pub fn why(&self) -> Option<PartsFault>
        ensures { result ≡ why_of self.now }
    {
        match self {
            TwoPut::Both { .. } => None,
            TwoPut::One { why, .. } | TwoPut::Neither { why } => Some(*why),
        }
    }
}

/// A source that reads the bytes of two files again, side by side.
pub trait TwoParts {
    /// It gives the bytes of these two files unchanged.
    ghost gives: { Self → model.Item → model.Item → Type 0 };

    /// Its state before it read, and a state that it may have after that.
    ghost goes_on: { Self → Self → Type 0 };

    /// Its state before it read, and one after each of its drives failed.
    ghost loses: { Self → Self → Type 0 };

    /// Writes the bytes of two files, each part as it is read, and returns them; they are not in
    /// memory. They have the lengths and the digests of the items' bytes.
    ///
    /// Stops at the first of the two files, in their order, whose bytes are not all written. Of a
    /// file that is not put some bytes may be written, at most as many as the item has. The reason
    /// is
    ///
    /// - `NoDriveLeft` if each drive failed.
    /// - `Changed` if a drive gives other bytes. Those that give the bytes of both are never refused so.
    /// - `Fault` if the writer failed.
    /// - `Memory` if memory ran out, also that of the writer.
    fn write_both<W: Write>(
        &mut self,
        one: &Item,
        other: &Item,
        first: &mut W,
        second: &mut W,
    ) -> TwoPut
        ensures written { WritesTwo one.now other.now (held_by W.contents first.old second.old) (held_by W.contents first.new second.new) result }
        ensures alike { AreTwoAlike one.now other.now result }
        ensures same { gives self.old one.now other.now → AreTwoSame one.now other.now result }
        ensures changed { gives self.old one.now other.now → NotChanged result }
        ensures lost { IsLost result → loses self.old self.new }
        ensures on { goes_on self.old self.new };

    /// The state may stay the same: then nothing was read.
    ghost stays: { (x : Self) → goes_on x x };
}
