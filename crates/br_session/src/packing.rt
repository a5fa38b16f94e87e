ghost use Rattle.std.specs.Prelude.{◌≡◌, ◌≤◌, ◌<◌, ◌^◌, true, map, length, IfOk};
ghost use Rattle.std.specs.List.{AllByRecursion};
ghost use Rattle.br_model.specs.Session.{block_size, ArePacked};
ghost use Rattle.br_block.specs.Building.{IsBlockLimit};
ghost use Rattle.br_session.specs.Spans.{bytes_of};
ghost use Rattle.br_session.specs.Whole.{are_whole};

use br_block::{BlockBuilder, Fragment};
use br_types::{FileIndex, SessionKey};
use std::alloc::{AllocError, Global};
use std::marker::Model;
use std::mem;

/// The number of bytes of a block's header.
const BLOCK_HEADER_LEN: u32 = 24;

/// The number of bytes of a record's header, which is never cut.
const RECORD_HEADER_LEN: u32 = 12;

/// A record of a file, as a session contains it.
#[derive(Drop)]
pub struct Record {
    /// The number of the file in its session.
    pub index: FileIndex,
    /// The kind of the data: 1 for the file's attributes, 2 for its bytes, 3 for their MD5 digest.
    pub stream: u32,
    /// The data.
    pub bytes: Vec<u8>,
}

impl Model for Record {
    ghost use Rattle.br_model.specs.Record as model;

    ghost Value = { model.Record };

    ghost view = { λ r. record { index = r.index; stream = r.stream; bytes = r.bytes.items } };
}

/// Packs the records of a session in order into blocks, each of at most `limit` bytes.
///
/// A record begins in a block only if its header fits, with a byte of its data if it has any. Else
/// the block is closed first. A record that is longer than the room left fills its block up to the
/// limit and continues in the next one, after a header with the negated stream and the number of
/// bytes that are left. Blocks are not padded.
#[derive(Drop)]
pub(crate) struct Packer {
    alloc: Global,
    session: SessionKey,
    limit: u32,
    /// The closed blocks.
    blocks: Vec<Vec<u8>>,
    /// The number of the current block: blocks are numbered from 0, modulo 2^32.
    number: u32,
    /// The current block. It is without fragments only before the first record.
    current: BlockBuilder,
    ghost bounds: { IsBlockLimit limit },
    ghost same_session: { current.session ≡ session },
    ghost same_limit: { current.limit ≡ limit },
    ghost whole: { block_size current.fragments < limit → are_whole current.fragments ≡ true },
}

impl Packer {
    ghost use Rattle.std.specs.Prelude.{◌≡◌, ◌+◌, ◌∷◌, [], ◌≤◌, ◌<◌, ◌^◌, true, min, length, IfOk, OnOk, List};
    ghost use Rattle.std.specs.Int.{is_negative};
    ghost use Rattle.br_model.specs.Block as model;
    ghost use Rattle.br_model.specs.Session.{block_size};
    ghost use Rattle.br_block.specs.Building.{IsBlockLimit};
    ghost use Rattle.br_session.specs.Packing.{AreBlocksOf, HasPut, HasPutPart, HasRoom, Packs, PacksMore};
    ghost use Rattle.br_session.specs.Spans.{bytes_of};

    /// Makes a packer without records.
    pub(crate) fn new(alloc: Global, session: SessionKey, limit: u32) -> Result<Packer, AllocError>
        requires bounds { IsBlockLimit limit }
        ensures packs { IfOk result (λ packer. Packs packer []) }
        ensures session { IfOk result (λ packer. packer.session ≡ session) }
        ensures limit { IfOk result (λ packer. packer.limit ≡ limit) }
    {
        let current = BlockBuilder::new(alloc, session, limit, 0)?;
        Ok(Packer {
            alloc,
            session,
            limit,
            blocks: Vec::new(alloc),
            number: 0,
            current,
        })
    }

    /// Closes the current block if a fragment with this size in its header may not begin in it.
    fn make_room(&mut self, size: u32) -> Result<(), AllocError>
        ensures room { OnOk result (block_size self.new.current.fragments + 12 + min 1 size ≤ self.new.limit) }
        ensures follows { OnOk result ((fragments : List model.Fragment) → HasPut self.old fragments
            → HasRoom self.new self.old.current.fragments fragments size) }
        ensures session { self.new.session ≡ self.old.session }
        ensures limit { self.new.limit ≡ self.old.limit }
    {
        if RECORD_HEADER_LEN + size.min(1) <= self.current.room() {
            return Ok(());
        }
        let number = self.number.wrapping_add(1);
        let next = BlockBuilder::new(self.alloc, self.session, self.limit, number)?;
        self.number = number;
        let full = mem::replace(&mut self.current, next);
        self.blocks.push(full.close())?;
        Ok(())
    }

    /// Adds a fragment with this header and as much of the data as fits. Returns the number of
    /// bytes added. A fragment that continues a record begins a block, so the block before it is
    /// full.
    fn put(&mut self, index: FileIndex, stream: i32, left: &[u8]) -> Result<usize, AllocError>
        requires size { length left.now < 2 ^ 32 }
        requires filled { is_negative stream ≡ true → block_size self.old.current.fragments ≡ self.old.limit }
        ensures within { IfOk result (λ taken. taken ≤ length left.now) }
        ensures some { IfOk result (λ taken. 0 < length left.now → 0 < taken) }
        ensures full { IfOk result (λ taken. taken < length left.now → block_size self.new.current.fragments ≡ self.new.limit) }
        ensures follows { IfOk result (λ taken. HasPutPart self.old self.new index stream left.now taken) }
        ensures session { self.new.session ≡ self.old.session }
        ensures limit { self.new.limit ≡ self.old.limit }
    {
        let size = left.len() as u32;
        self.make_room(size)?;
        let taken = size.min(self.current.room() - RECORD_HEADER_LEN) as usize;
        self.current.add(&Fragment {
            session: self.session,
            index: index.get() as i32,
            stream,
            size,
            bytes: &left[..taken],
        })?;
        Ok(taken)
    }

    /// Packs one more record. If memory runs out, nothing is known of the blocks any more.
    pub(crate) fn add(
        &mut self,
        index: FileIndex,
        stream: u32,
        bytes: &[u8],
    ) -> Result<(), AllocError>
        requires stream_from { 1 ≤ stream }
        requires stream_to { stream < 2 ^ 31 }
        requires size { length bytes.now < 2 ^ 32 }
        ensures packs { OnOk result
            (PacksMore self.old self.new (record { index = index; stream = stream; bytes = bytes.now } ∷ [])) }
        ensures session { self.new.session ≡ self.old.session }
        ensures limit { self.new.limit ≡ self.old.limit }
    {
        let stream = stream as i32;
        let taken = self.put(index, stream, bytes)?;
        let (_, mut left) = bytes.split_at(taken);
        while !left.is_empty() {
            let taken = self.put(index, -stream, left)?;
            let (_, rest) = left.split_at(taken);
            left = rest;
        }
        Ok(())
    }

    /// Returns the blocks of the records. Without records there are none.
    pub(crate) fn finish(self) -> Result<Vec<Vec<u8>>, AllocError>
        ensures { IfOk result (λ blocks. AreBlocksOf self (bytes_of blocks.items)) }
    {
        let Packer {
            limit,
            mut blocks,
            current,
            ..
        } = self;
        if current.room() == limit - BLOCK_HEADER_LEN {
            return Ok(blocks);
        }
        blocks.push(current.close())?;
        Ok(blocks)
    }
}

/// Packs the records of a session in order into blocks of at most `limit` bytes each, numbered from
/// 0, modulo 2^32. The format is that of Bacula's Developer's Guide, "Storage Media Output Format".
pub fn pack(
    alloc: Global,
    records: &[Record],
    session: SessionKey,
    limit: u32,
) -> Result<Vec<Vec<u8>>, AllocError>
    requires bounds { IsBlockLimit limit }
    requires streams { AllByRecursion (λ r. (1 ≤ r.stream) × (r.stream < 2 ^ 31)) records.now }
    requires sizes { AllByRecursion (λ r. length r.bytes < 2 ^ 32) records.now }
    ensures { IfOk result (λ blocks. ArePacked limit session records.now (bytes_of blocks.items)) }
{
    let mut packer = Packer::new(alloc, session, limit)?;
    for record in records {
        packer.add(record.index, record.stream, &record.bytes)?;
    }
    packer.finish()
}
