//! The blocks that a record is packed into.
ghost use Rattle.std.specs.Prelude.{◌≡◌, ◌<◌, ◌^◌, length, IfOk};

use crate::sessions::{Head, head_of};
use br_session::{Record, pack};
use br_test_support::Case;
use br_types::FileIndex;
use std::alloc::{AllocError, Global};

/// Makes a record of file 1, of the stream 2.
fn record(alloc: Global, bytes: &[u8]) -> Result<Record, AllocError>
    ensures stream { IfOk result (λ made. made.stream ≡ 2) }
    ensures bytes { IfOk result (λ made. made.bytes ≡ bytes.now) }
{
    let index = FileIndex::new(1).ok_or(AllocError)?;
    let bytes = Vec::from_slice(alloc, bytes)?;
    Ok(Record {
        index,
        stream: 2,
        bytes,
    })
}

/// Packs a record.
fn packed(alloc: Global, head: &Head, bytes: &[u8]) -> Result<Vec<Vec<u8>>, AllocError>
    requires { length bytes.now < 2 ^ 32 }
{
    let records = [record(alloc, bytes)?];
    pack(alloc, &records, head.session, head.limit)
}

/// Packs a record of at most 1,000 bytes, and prints the blocks.
pub(crate) fn run(case: &mut Case, head: &str, bytes: &str) {
    let bytes = case.bytes_of(bytes);
    if let Some(head) = head_of(case, head)
        && bytes.len() <= 1000
    {
        match packed(case.alloc(), &head, &bytes) {
            Ok(blocks) => {
                for block in &blocks {
                    case.bytes(block);
                    case.text(" ");
                }
            }
            Err(_fault) => case.fail("out of memory"),
        }
    }
}
