ghost use Rattle.std.specs.Prelude.{◌≡◌, ◌+◌, ◌++◌, ◌∷◌, ◌^◌, ◌<◌, ◌≤◌, FitsSigned, [], length, drop, is_some, true, IfOk, OnOk, OnErr, Ok};
ghost use Rattle.std.specs.Int.{w32};
ghost use Rattle.std.specs.List.{AllByRecursion};
ghost use Rattle.br_model.specs.Block.{fragment_bytes, header_bytes, fragments_of, read_block, read_header};
ghost use Rattle.br_model.specs.Session.{block_size, written_block};
ghost use Rattle.br_block.specs.Building.{IsBlockLimit};

use crate::fragments::{Fragment, RECORD_HEADER_LEN};
use crate::head::{BlockHead, HEADER_LEN};
use br_types::SessionKey;
use std::alloc::{AllocError, Global};
use std::marker::Model;

/// A block of the level BB02 under construction: fragments of records are added one after another, and closing it
/// writes its header before them.
#[derive(Drop)]
pub struct BlockBuilder {
    session: SessionKey,
    limit: u32,
    number: u32,
    /// Room for the header, and the fragments after it.
    bytes: Vec<u8>,
}

impl Model for BlockBuilder {
    ghost use Rattle.br_block.specs.Building.{Building, fragments_after, IsBuilding};

    ghost Value = { Building };

    ghost view = { λ b. record {
      session = b.session;
      limit = b.limit;
      number = b.number;
      fragments = fragments_after b.session b.bytes.items;
    } };

    ghost invariant = { λ b. IsBuilding b.session b.limit b.number b.bytes.items };
}

/// Returns the record header that precedes the fragment's data in a block of the level BB02.
#[tactic(auto, unfolding(br_model::specs::Block::fragment_bytes))]
fn record_header(fragment: &Fragment<'_>) -> [u8; 12]
    ensures text { result ++ fragment.now.bytes ≡ fragment_bytes fragment.now }
    ensures index { FitsSigned w32 fragment.now.index }
    ensures stream { FitsSigned w32 fragment.now.stream }
    ensures size { fragment.now.size < 2 ^ 32 }
{
    let (index, stream, size) = (fragment.index, fragment.stream, fragment.size);
    let [i0, i1, i2, i3] = index.to_be_bytes();
    let [s0, s1, s2, s3] = stream.to_be_bytes();
    let [d0, d1, d2, d3] = size.to_be_bytes();
    [i0, i1, i2, i3, s0, s1, s2, s3, d0, d1, d2, d3]
}

/// Writes a header over the first 24 bytes.
fn put_header(bytes: &mut [u8], head: BlockHead)
    requires room { 24 ≤ length bytes.old }
    requires session { is_some head.session ≡ true }
    ensures text { bytes.new ≡ header_bytes head ++ drop 24 bytes.old }
    ensures reads_back { 24 ≤ head.size → head.size ≤ 4194304 → read_header bytes.new ≡ Ok head }
{
    let mut header = [0; HEADER_LEN];
    head.write(&mut header);
    bytes[..HEADER_LEN].copy_from_slice(&header);
}

impl BlockBuilder {
    /// Makes a block of a session, with this number and without fragments. `limit` is the most bytes
    /// that the block may have.
    pub fn new(
        alloc: Global,
        session: SessionKey,
        limit: u32,
        number: u32,
    ) -> Result<BlockBuilder, AllocError>
        requires bounds { IsBlockLimit limit }
        ensures { IfOk result (λ block. block ≡ record { session = session; limit = limit; number = number; fragments = [] }) }
    {
        let mut bytes = Vec::with_capacity(alloc, limit as usize)?;
        bytes.extend_from_slice(&[0; HEADER_LEN])?;
        Ok(BlockBuilder {
            session,
            limit,
            number,
            bytes,
        })
    }

    /// Returns the number of bytes that are left up to the limit.
    pub fn room(&self) -> u32
        ensures { result + block_size self.now.fragments ≡ self.now.limit }
    {
        self.limit - self.bytes.len() as u32
    }

    /// Appends a fragment of the session. Each fragment so far has all its data: one with less is
    /// the last of its block. If memory runs out, nothing was added.
    pub fn add(&mut self, fragment: &Fragment<'_>) -> Result<(), AllocError>
        requires fits { block_size self.old.fragments + 12 + length fragment.now.bytes ≤ self.old.limit }
        requires within { length fragment.now.bytes ≤ fragment.now.size }
        requires whole { AllByRecursion (λ f. length f.bytes ≡ f.size) self.old.fragments }
        requires of_session { fragment.now.session ≡ self.old.session }
        ensures ok { OnOk result (self.new ≡ record self.old { fragments = self.old.fragments ++ fragment.now ∷ [] }) }
        ensures err { OnErr result (self.new ≡ self.old) }
    {
        self.bytes
            .reserve(RECORD_HEADER_LEN + fragment.bytes.len())?;
        let header = record_header(fragment);
        self.bytes.extend_from_slice(&header)?;
        self.bytes.extend_from_slice(fragment.bytes)?;
        Ok(())
    }

    /// Returns the bytes of the block: its header, with CheckSum 0, and the fragments.
    pub fn close(self) -> Vec<u8>
        ensures block { result.items ≡ written_block self.session (self.number, self.fragments) }
        ensures whole { read_block result.items ≡ Ok result.items }
        ensures reads_back { fragments_of result.items ≡ self.fragments }
    {
        let BlockBuilder {
            session,
            number,
            mut bytes,
            ..
        } = self;
        let head = BlockHead {
            checksum: 0,
            size: bytes.len() as u32,
            number,
            session: Some(session),
        };
        put_header(&mut bytes, head);
        bytes
    }
}
