ghost use Rattle.std.specs.Prelude.{◌≡◌, ◌++◌, ◌-◌, ◌^◌, drop, length, min, bytes_eq, slice_index, IfOk, OnOk};
ghost use Rattle.br_data.specs.BodyParts.{joined};
ghost use Rattle.br_records.specs.Records.{bytes_in};

use br_data::{Part, push_found};
use br_match::Hit;
use std::alloc::AllocError;

/// Returns the number of bytes of a fragment.
fn len_of(part: &Hit) -> usize
    ensures { result ≡ length part.now.fragment.bytes }
{
    part.data.len()
}

/// Returns the data of a fragment.
///
/// # Errors
///
/// `AllocError` if they are not in memory.
fn bytes_of(part: &Hit) -> Result<&[u8], AllocError>
    ensures { IfOk result (λ bytes. bytes.now ≡ part.now.fragment.bytes) }
{
    match part.data.held() {
        Some(bytes) => Ok(bytes),
        None => Err(AllocError),
    }
}

/// Returns the number of bytes of the parts together, at most 2^64 - 1.
pub(crate) fn length_of(parts: &[Hit]) -> u64
    ensures { result ≡ min (length (bytes_in parts.now)) (2 ^ 64 - 1) }
{
    let mut len: u64 = 0;
    for part in parts {
        len = len.saturating_add(len_of(part) as u64);
    }
    len
}

/// Returns the byte at a place of the parts together; 0 past the last byte.
///
/// # Errors
///
/// `AllocError` if it is not in memory.
pub(crate) fn byte_at(parts: &[Hit], place: usize) -> Result<u8, AllocError>
    ensures { IfOk result (λ byte. byte ≡ slice_index (bytes_in parts.now) place) }
{
    let mut left = place;
    for part in parts {
        let held = bytes_of(part)?;
        if left < held.len() {
            return Ok(held[left]);
        }
        left -= held.len();
    }
    Ok(0)
}

/// Appends the bytes of the parts, without the first `skip`.
pub(crate) fn push_bytes(bytes: &mut Vec<u8>, skip: usize, parts: &[Hit]) -> Result<(), AllocError>
    ensures { OnOk result (bytes.new.items ≡ bytes.old.items ++ drop skip (bytes_in parts.now)) }
{
    let mut left = skip;
    for part in parts {
        let held = bytes_of(part)?;
        let skipped = left.min(held.len());
        let (_, more) = held.split_at(skipped);
        bytes.extend_from_slice(more)?;
        left -= skipped;
    }
    Ok(())
}

/// Appends the data of a fragment, without the first `skip` bytes, to the parts of a file. It is
/// shared.
fn share_one(file: &mut Vec<Part>, skip: usize, part: &Hit) -> Result<(), AllocError>
    ensures { OnOk result (joined file.new.items ≡ joined file.old.items ++ drop skip part.now.fragment.bytes) }
{
    push_found(file, skip, &part.data)
}

/// Appends the bytes of the fragments, without the first `skip`, to the parts of a file. They are
/// shared.
pub(crate) fn share_bytes(
    file: &mut Vec<Part>,
    skip: usize,
    parts: &[Hit],
) -> Result<(), AllocError>
    ensures { OnOk result (joined file.new.items ≡ joined file.old.items ++ drop skip (bytes_in parts.now)) }
{
    let mut left = skip;
    for part in parts {
        let skipped = left.min(len_of(part));
        share_one(file, skipped, part)?;
        left -= skipped;
    }
    Ok(())
}

/// Returns whether the parts together have these bytes.
///
/// # Errors
///
/// `AllocError` if they are not in memory.
pub(crate) fn are_bytes(parts: &[Hit], bytes: &[u8]) -> Result<bool, AllocError>
    ensures { IfOk result (λ same. same ≡ bytes_eq (bytes_in parts.now) bytes.now) }
{
    let mut rest = bytes;
    for part in parts {
        let held = bytes_of(part)?;
        if rest.len() < held.len() {
            return Ok(false);
        }
        let (front, more) = rest.split_at(held.len());
        if held != front {
            return Ok(false);
        }
        rest = more;
    }
    Ok(rest.is_empty())
}
