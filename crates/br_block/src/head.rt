ghost use Rattle.std.specs.Prelude.{◌≡◌, ◌^◌, ◌<◌, ◌≤◌, length, IfOk, Ok, is_some, true};
ghost use Rattle.br_model.specs.Answer.{AnswersAlways};
ghost use Rattle.br_model.specs.Block.{has_letters, header_bytes, header_length, letters, older_letters, read_header};
ghost use Rattle.br_model.specs.Block as model;
ghost use Rattle.br_block.specs.Fault.{fault_number};

use crate::fault::BlockFault;
use crate::numbers::u32_from;
use br_types::SessionKey;
use std::marker::Model;

/// The number of bytes of a block's header.
pub(crate) const HEADER_LEN: usize = 24;

/// The number of bytes of the header of a block of the level BB01.
const OLDER_HEADER_LEN: usize = 16;

/// The greatest number of bytes of a block.
const MAX_SIZE: u32 = 4_194_304;

/// The header of a block: CheckSum, BlockSize, BlockNumber and the letters of the level, four bytes
/// each. After the letters `BB02` come VolSessionId and VolSessionTime, after `BB01` nothing.
#[derive(Clone, Copy, Debug)]
pub struct BlockHead {
    /// The checksum, which is not verified.
    pub checksum: u32,
    /// The number of bytes of the whole block, with its header.
    pub size: u32,
    /// The number of the block in its session.
    pub number: u32,
    /// The session of all records of the block; none for the level BB01, where each record has its
    /// own.
    pub session: Option<SessionKey>,
}

impl Model for BlockHead {
    ghost use Rattle.br_model.specs.Block as model;

    ghost Value = { model.Header };

    ghost view = { λ h. record { checksum = h.checksum; size = h.size; number = h.number; session = h.session } };

    ghost inverse = { λ h. record { checksum = h.checksum; size = h.size; number = h.number; session = h.session } };
}

/// Returns whether the letters are those of the level BB01.
fn is_older(bytes: &[u8]) -> bool
    requires { 16 ≤ length bytes.now }
    ensures { result ≡ has_letters older_letters bytes.now }
{
    &bytes[12..16] == b"BB01".as_slice()
}

/// Returns whether the letters are those of the level BB02.
fn is_newer(bytes: &[u8]) -> bool
    requires { 16 ≤ length bytes.now }
    ensures { result ≡ has_letters letters bytes.now }
{
    &bytes[12..16] == b"BB02".as_slice()
}

/// Returns the number of bytes of the header with these letters.
fn len_at(bytes: &[u8]) -> usize
    requires { 16 ≤ length bytes.now }
    ensures same { result ≡ header_length (model.session_of bytes.now) }
    ensures least { 16 ≤ result }
{
    if is_older(bytes) {
        OLDER_HEADER_LEN
    } else {
        HEADER_LEN
    }
}

/// Returns the session in the header; none if the letters are those of the level BB01.
fn session_of(bytes: &[u8]) -> Option<SessionKey>
    requires lettered { 16 ≤ length bytes.now }
    requires long { header_length (model.session_of bytes.now) ≤ length bytes.now }
    ensures { result ≡ model.session_of bytes.now }
{
    if is_older(bytes) {
        return None;
    }
    Some(SessionKey {
        id: u32_from(bytes, 16),
        time: u32_from(bytes, 20),
    })
}

/// Returns the number of bytes of the header of a block with this session, or without one.
pub(crate) fn header_len(session: Option<SessionKey>) -> usize
    ensures { result ≡ header_length session }
{
    match session {
        None => OLDER_HEADER_LEN,
        Some(_) => HEADER_LEN,
    }
}

/// States that the numbers are below 2^32.
fn have_32_bits(checksum: u32, number: u32, id: u32, time: u32)
    ensures checksum { checksum < 2 ^ 32 }
    ensures number { number < 2 ^ 32 }
    ensures id { id < 2 ^ 32 }
    ensures time { time < 2 ^ 32 }
{}

impl BlockHead {
    /// Reads the header at the front of the bytes. It does not test whether the whole block
    /// follows.
    ///
    /// # Errors
    ///
    /// - `Truncated` if there are fewer than 16 bytes.
    /// - `BadId` for other letters than `BB01` and `BB02`.
    /// - `Truncated` for the letters `BB02` if there are fewer than 24 bytes.
    /// - `BadBlockSize` for a size below that of the header, which has 16 bytes with the letters
    ///   `BB01` and 24 with `BB02`, or above 4,194,304.
    #[tactic(auto, unfolding(br_model::specs::Block::read_header))]
    pub fn read(bytes: &[u8]) -> Result<BlockHead, BlockFault>
        ensures exact { AnswersAlways (λ head. head) fault_number result (read_header bytes.now) }
        ensures least { IfOk result (λ head. 16 ≤ head.size) }
        ensures most { IfOk result (λ head. head.size ≤ 4194304) }
    {
        if bytes.len() < OLDER_HEADER_LEN {
            return Err(BlockFault::Truncated);
        }
        if !is_older(bytes) && !is_newer(bytes) {
            return Err(BlockFault::BadId);
        }
        let len = len_at(bytes);
        if bytes.len() < len {
            return Err(BlockFault::Truncated);
        }
        let size = u32_from(bytes, 4);
        if (size as usize) < len || size > MAX_SIZE {
            return Err(BlockFault::BadBlockSize);
        }
        Ok(BlockHead {
            checksum: u32_from(bytes, 0),
            size,
            number: u32_from(bytes, 8),
            session: session_of(bytes),
        })
    }

    /// Writes the 24 bytes of the header of a block with a session, which is of the level BB02.
    /// `read` reads it back if its size is from 24 to 4,194,304.
    #[tactic(auto, unfolding(br_model::specs::Block::header_bytes))]
    pub fn write(&self, bytes: &mut [u8; 24])
        requires session { is_some self.now.session ≡ true }
        ensures text { bytes.new ≡ header_bytes self.now }
        ensures reads_back { 24 ≤ self.now.size → self.now.size ≤ 4194304 → read_header bytes.new ≡ Ok self.now }
    {
        let Some(SessionKey { id, time }) = self.session else {
            unreachable!()
        };
        let BlockHead {
            checksum,
            size,
            number,
            ..
        } = *self;
        have_32_bits(checksum, number, id, time);
        let [c0, c1, c2, c3] = checksum.to_be_bytes();
        let [s0, s1, s2, s3] = size.to_be_bytes();
        let [n0, n1, n2, n3] = number.to_be_bytes();
        let [i0, i1, i2, i3] = id.to_be_bytes();
        let [t0, t1, t2, t3] = time.to_be_bytes();
        *bytes = [
            c0, c1, c2, c3, s0, s1, s2, s3, n0, n1, n2, n3, b'B', b'B', b'0', b'2', i0, i1, i2, i3,
            t0, t1, t2, t3,
        ];
    }
}
