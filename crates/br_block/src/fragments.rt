ghost use Rattle.std.specs.Prelude.{◌≡◌, ◌/◌, ◌≤◌, length, take, drop};
ghost use Rattle.std.specs.Iterator.{YieldsFirst, item_count};
ghost use Rattle.br_model.specs.Block.{u32_at, record_header_length, fragment_under, behind_fragment, first_fragment};
ghost use Rattle.br_model.specs.Block.{behind_first, behind_session, fragments_in, record_session};

use crate::numbers::{i32_from, u32_from};
use br_types::SessionKey;
use std::marker::Model;

/// The number of bytes of a record's header.
pub(crate) const RECORD_HEADER_LEN: usize = 12;

/// The number of bytes of a session, which in a block of the level BB01 precedes each record's
/// header.
const SESSION_LEN: usize = 8;

/// A record in a block, or the part of it that the block contains. The record's header is
/// FileIndex, Stream and DataSize, four bytes each, and its data follows. In a block of the level
/// BB01 VolSessionId and VolSessionTime precede these.
#[derive(Clone, Drop)]
pub struct Fragment<'a> {
    /// The session of the block, or of the record alone in a block of the level BB01.
    pub session: SessionKey,
    /// The number of the file in its session; 0 and below for a label.
    pub index: i32,
    /// The kind of the data; negative if it continues a record of an earlier block.
    pub stream: i32,
    /// The number of bytes of data that the header gives.
    pub size: u32,
    /// The data in this block: fewer than `size` bytes if the record continues in a later block.
    pub bytes: &'a [u8],
}

impl<'a> Model for Fragment<'a> {
    ghost use Rattle.br_model.specs.Block as model;

    ghost Value = { model.Fragment };

    ghost view = { λ f. record { session = f.session; index = f.index; stream = f.stream; size = f.size; bytes = f.bytes.now } };
}

/// The fragments of a block that are left.
#[derive(Clone, Drop)]
pub struct Fragments<'a> {
    /// The session of the block; none if each record has its own.
    session: Option<SessionKey>,
    rest: &'a [u8],
}

impl<'a> Model for Fragments<'a> {
    ghost use Rattle.std.specs.Prelude.{◌/◌, List, length};
    ghost use Rattle.br_model.specs.Block as model;

    ghost Value = { List model.Fragment };

    ghost view = { λ f. model.fragments_in f.session (length f.rest.now / 12) f.rest.now };
}

/// Returns the first `size` bytes, or all if there are fewer, and the bytes after them.
fn cut(bytes: &[u8], size: usize) -> (&[u8], &[u8])
    ensures front { result.0.now ≡ take size bytes.now }
    ensures rest { result.1.now ≡ drop size bytes.now }
{
    bytes.split_at(size.min(bytes.len()))
}

/// Returns the number of bytes of a record's header in a block with this session, or without one.
fn record_header_len(session: Option<SessionKey>) -> usize
    ensures { result ≡ record_header_length session }
{
    match session {
        None => SESSION_LEN + RECORD_HEADER_LEN,
        Some(_) => RECORD_HEADER_LEN,
    }
}

/// Reads the session of the record at the front of the bytes, which is that of the block if it has
/// one. Returns it and the bytes after it.
fn session_at(session: Option<SessionKey>, bytes: &[u8]) -> (SessionKey, &[u8])
    requires { record_header_length session ≤ length bytes.now }
    ensures session { result.0 ≡ record_session session bytes.now }
    ensures rest { result.1.now ≡ behind_session session bytes.now }
{
    match session {
        None => {
            let id = u32_from(bytes, 0);
            let time = u32_from(bytes, 4);
            let (_, rest) = bytes.split_at(SESSION_LEN);
            (SessionKey { id, time }, rest)
        }
        Some(session) => (session, bytes),
    }
}

/// Reads the fragment of a session at the front of the bytes. Returns it and the bytes after it.
fn fragment_of(session: SessionKey, bytes: &[u8]) -> (Fragment<'_>, &[u8])
    requires { 12 ≤ length bytes.now }
    ensures first { result.0 ≡ fragment_under session bytes.now }
    ensures rest { result.1.now ≡ behind_fragment bytes.now }
{
    let index = i32_from(bytes, 0);
    let stream = i32_from(bytes, 4);
    let size = u32_from(bytes, 8);
    let (_, rest) = bytes.split_at(RECORD_HEADER_LEN);
    let (front, left) = cut(rest, size as usize);
    let fragment = Fragment {
        session,
        index,
        stream,
        size,
        bytes: front,
    };
    (fragment, left)
}

/// Reads the fragment at the front of the bytes. Returns it and the bytes after it.
fn first_of(session: Option<SessionKey>, bytes: &[u8]) -> (Fragment<'_>, &[u8])
    requires { record_header_length session ≤ length bytes.now }
    ensures first { result.0 ≡ first_fragment session bytes.now }
    ensures rest { result.1.now ≡ behind_first session bytes.now }
{
    let (session, rest) = session_at(session, bytes);
    fragment_of(session, rest)
}

impl<'a> Fragments<'a> {
    /// Returns the fragments in the bytes after a block's header.
    pub(crate) fn new(session: Option<SessionKey>, rest: &'a [u8]) -> Fragments<'a>
        ensures { result ≡ fragments_in session (length rest.now / 12) rest.now }
    {
        Fragments { session, rest }
    }
}

impl<'a> Iterator for Fragments<'a> {
    type Item = Fragment<'a>;

    ghost next_gives = { YieldsFirst (λ left. left) };

    ghost remaining = { item_count (λ left. left) };

    fn next(&mut self) -> Option<Fragment<'a>> {
        let rest = self.rest;
        if rest.len() < record_header_len(self.session) {
            return None;
        }
        let (fragment, left) = first_of(self.session, rest);
        self.rest = left;
        Some(fragment)
    }
}
