//! Where the data of the fragments of a block are among its bytes.
ghost use Rattle.std.specs.Prelude.{◌≡◌, ◌+◌, ◌≤◌, length, take, drop, Ok, IfOk, option_map};
ghost use Rattle.br_model.specs.Block.{fragments_of, header_length, read_block, record_header_length, session_of};
ghost use Rattle.br_data.specs.DataSpans.{AreDataIn, data_in};

use br_block::Block;
use std::alloc::{AllocError, Global};

/// The place of the data of a fragment among the bytes of its block.
#[derive(Clone, Copy)]
pub(crate) struct DataSpan {
    pub(crate) start: usize,
    pub(crate) len: usize,
}

/// Returns the number of bytes of the header of a block.
fn header_len(block: &Block<'_>) -> usize
    ensures same { result ≡ header_length (session_of block.now) }
    ensures within { result ≤ length block.now }
{
    let head = block.head();
    match head.session {
        None => 16,
        Some(_) => 24,
    }
}

/// Returns the number of bytes of the header of a record in a block.
fn record_header_len(block: &Block<'_>) -> usize
    ensures { result ≡ record_header_length (session_of block.now) }
{
    let head = block.head();
    match head.session {
        None => 20,
        Some(_) => 12,
    }
}

/// Returns the place of data after a record's header, which begins where the record before it
/// ends.
fn next_span(end: usize, header: usize, bytes: &[u8]) -> DataSpan
    requires { end + header + length bytes.now ≤ 4194304 }
    ensures start { result.start ≡ end + header }
    ensures len { result.len ≡ length bytes.now }
{
    DataSpan {
        start: end + header,
        len: bytes.len(),
    }
}

/// Returns where data end.
fn end_of(span: DataSpan) -> usize
    requires { span.start + span.len ≤ 4194304 }
    ensures { result ≡ span.start + span.len }
{
    span.start + span.len
}

/// Returns where the data of the fragments of a block are, in order.
fn spans_in(alloc: Global, block: &Block<'_>) -> Result<Vec<DataSpan>, AllocError>
    ensures { IfOk result (λ spans. AreDataIn block.now spans.items (fragments_of block.now)) }
{
    let header = record_header_len(block);
    let mut end = header_len(block);
    let mut spans = Vec::new(alloc);
    for fragment in block.fragments() {
        let span = next_span(end, header, fragment.bytes);
        spans.push(span)?;
        end = end_of(span);
    }
    Ok(spans)
}

/// Returns where the data of the fragments are in the bytes of a block.
pub(crate) fn spans_of(alloc: Global, bytes: &[u8]) -> Result<Vec<DataSpan>, AllocError>
    requires { read_block bytes.now ≡ Ok bytes.now }
    ensures { IfOk result (λ spans. AreDataIn bytes.now spans.items (fragments_of bytes.now)) }
{
    match Block::read(bytes) {
        Ok(block) => spans_in(alloc, &block),
        Err(_) => unreachable!(),
    }
}

/// Returns the bytes at a place.
fn bytes_at(bytes: &[u8], span: DataSpan) -> &[u8]
    requires { span.start + span.len ≤ length bytes.now }
    ensures { result.now ≡ take span.len (drop span.start bytes.now) }
{
    bytes.split_at(span.start).1.split_at(span.len).0
}

/// Returns the data of the fragment of a block with this number of fragments before it, if there is
/// one. The places are those of the data of its fragments.
pub(crate) fn data_at<'a>(bytes: &'a [u8], spans: &[DataSpan], ordinal: u32) -> Option<&'a [u8]>
    requires { AreDataIn bytes.now spans.now (fragments_of bytes.now) }
    ensures { option_map (λ d. d.now) result ≡ data_in bytes.now ordinal }
{
    match spans.get(ordinal as usize) {
        None => None,
        Some(span) => Some(bytes_at(bytes, *span)),
    }
}
