//! The register of the CRC-32, by a table.
ghost use Rattle.std.specs.Prelude.{◌≡◌, ◌+◌, ◌*◌, ◌/◌, ◌%◌, ◌<◌, ◌≤◌, length, drop, take, bit_xor};
ghost use Rattle.std.specs.Int.{from_le_bytes, w64};
ghost use Rattle.br_block.specs.Crc as model;
ghost use Rattle.br_block.specs.Crc.{after, crc32, next};

use crate::crc_shift::entry;
use std::alloc::{AllocError, Global};
use std::marker::Model;

/// The number of entries of the table: 256 for each of eight bytes.
const ENTRIES: u32 = 2048;

/// A table for CRC-32.
#[derive(Drop)]
pub struct Crc {
    entries: Vec<u32>,
}

impl Model for Crc {
    ghost use Rattle.std.specs.Prelude.{List, ℕ};
    ghost use Rattle.br_block.specs.Crc.{AreEntries};

    ghost Value = { List ℕ };

    ghost view = { λ c. c.entries.items };

    ghost invariant = { λ c. AreEntries c.entries.items 2048 };
}

/// Returns the eight bytes from a place on as a number, the lowest byte first.
fn word_at(bytes: &[u8], at: usize) -> u64
    requires { at + 8 ≤ length bytes.now }
    ensures { result ≡ from_le_bytes w64 (take 8 (drop at bytes.now)) }
{
    let (_, rest) = bytes.split_at(at);
    let (b, _) = rest.split_at(8);
    u64::from_le_bytes([b[0], b[1], b[2], b[3], b[4], b[5], b[6], b[7]])
}

impl Crc {
    /// Makes the table.
    ///
    /// # Errors
    ///
    /// `AllocError` if memory runs out.
    pub fn new(alloc: Global) -> Result<Crc, AllocError> {
        let mut entries = Vec::with_capacity(alloc, ENTRIES as usize)?;
        for place in 0..ENTRIES {
            entries.push(entry(place))?;
        }
        Ok(Crc { entries })
    }

    /// Returns what the lowest byte of a number becomes after the bits of `row + 1` bytes.
    fn entry(&self, row: usize, number: u64) -> u32
        requires { row < 8 }
        ensures { result ≡ model.shifted_by (8 * (row + 1)) (number % 256) }
    {
        self.entries[row * 256 + (number % 256) as usize]
    }

    /// Returns what a number of 64 bits becomes after all its bits.
    fn shifted_word(&self, word: u64) -> u32
        ensures { result ≡ model.shifted_by 64 word }
    {
        let mut register = 0;
        let mut left = word;
        for row in 0..8 {
            register ^= self.entry(7 - row, left);
            left >>= 8;
        }
        register
    }

    /// Returns the register after it took in a byte.
    #[tactic(auto, using(crate::proofs::ShiftLaws::byte_taken_in))]
    fn next(&self, register: u32, byte: u8) -> u32
        ensures { result ≡ next register byte }
    {
        let number = register ^ u32::from(byte);
        (number >> 8) ^ self.entry(0, u64::from(number))
    }

    /// Returns the register after it took in eight bytes at a place.
    fn next_word(&self, register: u32, bytes: &[u8], at: usize) -> u32
        requires { at + 8 ≤ length bytes.now }
        ensures { result ≡ after register (take 8 (drop at bytes.now)) }
    {
        self.shifted_word(u64::from(register) ^ word_at(bytes, at))
    }

    /// Returns the register after the whole words of some bytes.
    fn after_words(&self, register: u32, bytes: &[u8]) -> u32
        ensures { result ≡ after register (take (length bytes.now / 8 * 8) bytes.now) }
    {
        let mut taken = register;
        for place in 0..bytes.len() / 8 {
            taken = self.next_word(taken, bytes, place * 8);
        }
        taken
    }

    /// Returns the register after some bytes, one by one.
    fn after_bytes(&self, register: u32, bytes: &[u8]) -> u32
        ensures { result ≡ after register bytes.now }
    {
        let mut taken = register;
        for byte in bytes {
            taken = self.next(taken, *byte);
        }
        taken
    }

    /// Returns the CRC-32 of some bytes.
    pub fn of(&self, bytes: &[u8]) -> u32
        ensures { result ≡ crc32 bytes.now }
    {
        let (words, rest) = bytes.split_at(bytes.len() / 8 * 8);
        self.after_bytes(self.after_words(u32::MAX, words), rest) ^ u32::MAX
    }
}
