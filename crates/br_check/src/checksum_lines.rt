//! Checksums of blocks, and their lines.
ghost use Rattle.std.specs.Prelude.{◌≡◌, ◌++◌, ◌≤◌, drop, length, OnOk};
ghost use Rattle.br_model.specs.Block.{u32_at};
ghost use Rattle.br_check.specs.ChecksumBlocks as model;
ghost use Rattle.br_check.specs.ChecksumBlocks.{differing_line, sum_line};
ghost use Rattle.br_check.specs.ChecksumPieces.{failed_line};

use br_block::Crc;
use br_types::{VolName, push_escaped, push_number};
use std::alloc::AllocError;

/// Returns the checksum at the beginning of a block.
fn checksum(block: &[u8]) -> u32
    requires { 4 ≤ length block.now }
    ensures { result ≡ u32_at 0 block.now }
{
    let (b, _) = block.split_at(4);
    u32::from_be_bytes([b[0], b[1], b[2], b[3]])
}

/// Returns the CRC-32 of the bytes of a block after its checksum.
fn sum(crc: &Crc, block: &[u8]) -> u32
    requires { 4 ≤ length block.now }
    ensures { result ≡ model.sum_of block.now }
{
    let (_, bytes) = block.split_at(4);
    crc.of(bytes)
}

/// Returns if the checksum of a block is not 0, and is not the CRC-32 of the bytes after it.
fn differs(crc: &Crc, block: &[u8]) -> bool
    requires { 4 ≤ length block.now }
    ensures { result ≡ model.differs block.now }
{
    let checksum = checksum(block);
    checksum != 0 && checksum != sum(crc, block)
}

/// Appends the line of a block whose checksum differs.
fn push_line(text: &mut Vec<u8>, vol: &VolName, addr: u64) -> Result<(), AllocError>
    ensures { OnOk result (text.new.items ≡ text.old.items ++ sum_line vol.now addr) }
{
    text.extend_from_slice(b"checksum ")?;
    push_escaped(text, vol.bytes())?;
    text.push(b' ')?;
    push_number(text, addr)?;
    text.push(b'\n')?;
    Ok(())
}

/// Appends the line of a block, if its checksum differs.
pub(crate) fn push_differing(
    crc: &Crc,
    text: &mut Vec<u8>,
    vol: &VolName,
    addr: u64,
    block: &[u8],
) -> Result<(), AllocError>
    requires { 4 ≤ length block.now }
    ensures { OnOk result (text.new.items ≡ text.old.items ++ differing_line vol.now addr block.now) }
{
    if differs(crc, block) {
        return push_line(text, vol, addr);
    }
    Ok(())
}

/// Appends the line of a volume that the drive failed to read at this address.
pub(crate) fn push_failed(text: &mut Vec<u8>, vol: &VolName, addr: u64) -> Result<(), AllocError>
    ensures { OnOk result (text.new.items ≡ text.old.items ++ failed_line vol.now addr) }
{
    text.extend_from_slice(b"volume 13 ")?;
    push_escaped(text, vol.bytes())?;
    text.push(b' ')?;
    push_number(text, addr)?;
    text.push(b'\n')?;
    Ok(())
}
