//! The register of the CRC-32, bit by bit.
ghost use Rattle.std.specs.Prelude.{◌≡◌, ◌<◌};
ghost use Rattle.br_block.specs.Crc as model;

/// The generator without its highest power. The lowest power is in the highest bit.
const GENERATOR: u32 = 0xEDB8_8320;

/// Returns the register after one bit.
#[tactic(auto, unfolding(crate::specs::Crc::shifted))]
fn shifted(register: u32) -> u32
    ensures { result ≡ model.shifted register }
{
    if register % 2 == 1 {
        (register >> 1) ^ GENERATOR
    } else {
        register >> 1
    }
}

/// Returns the register after a number of bits.
fn shifted_by(bits: u32, register: u32) -> u32
    ensures { result ≡ model.shifted_by bits register }
{
    let mut left = register;
    for _ in 0..bits {
        left = shifted(left);
    }
    left
}

/// Returns the entry at a place of the table.
pub(crate) fn entry(place: u32) -> u32
    requires { place < 2048 }
    ensures { result ≡ model.entry place }
{
    shifted_by(8 * (place / 256 + 1), place % 256)
}
