ghost use Rattle.std.specs.Prelude.{◌≡◌, ◌+◌, ◌*◌, ◌≤◌, Ok, length};
ghost use Rattle.br_model.specs.Answer.{AnswersAlways};
ghost use Rattle.br_model.specs.Block.{read_header, read_block, fragments_of, AreFragments};
ghost use Rattle.br_model.specs.Text.{AreBytes};
ghost use Rattle.br_block.specs.Fault.{fault_number};

use crate::fault::BlockFault;
use crate::fragments::Fragments;
use crate::head::{BlockHead, header_len};
use br_model::fragments_are_exact;
use std::marker::Model;

/// A whole block: its header and the records that follow it, in the bytes from which it was read.
#[derive(Clone, Drop)]
pub struct Block<'a> {
    head: BlockHead,
    bytes: &'a [u8],
}

impl<'a> Model for Block<'a> {
    ghost use Rattle.std.specs.Prelude.{◌≡◌, Ok, List, ℕ, length};
    ghost use Rattle.br_model.specs.Text.{AreBytes};
    ghost use Rattle.br_model.specs.Block.{read_header};

    ghost Value = { List ℕ };

    ghost view = { λ b. b.bytes.now };

    ghost invariant = { λ b. (read_header b.bytes.now ≡ Ok b.head) × (length b.bytes.now ≡ b.head.size) × AreBytes b.bytes.now };
}

impl<'a> Block<'a> {
    /// Reads the block at the front of the bytes. What follows the block is ignored.
    ///
    /// # Errors
    ///
    /// - Those of `BlockHead::read`.
    /// - `Truncated` if there are fewer bytes than the header says.
    #[tactic(auto, unfolding(br_model::specs::Block::read_block))]
    pub fn read(bytes: &'a [u8]) -> Result<Block<'a>, BlockFault>
        ensures { AnswersAlways (λ block. block) fault_number result (read_block bytes.now) }
    {
        let head = BlockHead::read(bytes)?;
        let size = head.size as usize;
        if bytes.len() < size {
            return Err(BlockFault::Truncated);
        }
        Ok(Block {
            head,
            bytes: &bytes[..size],
        })
    }

    /// Returns the header.
    pub fn head(&self) -> BlockHead
        ensures header { read_header self.now ≡ Ok result }
        ensures whole { length self.now ≡ result.size }
        ensures least { 16 ≤ result.size }
        ensures most { result.size ≤ 4194304 }
    {
        self.head
    }

    /// Returns the bytes of the block, with its header.
    pub fn bytes(&self) -> &'a [u8]
        ensures same { result.now ≡ self.now }
        ensures bytes { AreBytes self.now }
    {
        self.bytes
    }

    /// Returns the fragments of the block in order. The block is its header, these, and a rest that
    /// is shorter than a record's header: fewer than 12 bytes, or 20 for the level BB01.
    pub fn fragments(&self) -> Fragments<'a>
        ensures read { result ≡ fragments_of self.now }
        ensures exact { AreFragments self.now result }
        ensures few { 16 + 12 * length result ≤ length self.now }
        ensures most { length self.now ≤ 4194304 }
    {
        fragments_are_exact();
        let head = self.head();
        let bytes = self.bytes();
        let (_, rest) = bytes.split_at(header_len(head.session));
        Fragments::new(head.session, rest)
    }
}
