ghost use Rattle.std.specs.Prelude.{◌≡◌, ◌++◌, decimal, OnOk};

use itoa::Buffer;
use std::alloc::AllocError;

/// Appends a number in decimal, without leading zeros.
pub fn push_number(text: &mut Vec<u8>, number: u64) -> Result<(), AllocError>
    ensures { OnOk result (text.new.items ≡ text.old.items ++ decimal number) }
{
    let mut buffer = Buffer::new();
    text.extend_from_slice(buffer.format(number).as_bytes())
}

/// Appends a number of 128 bits in decimal, without leading zeros.
pub fn push_wide(text: &mut Vec<u8>, number: u128) -> Result<(), AllocError>
    ensures { OnOk result (text.new.items ≡ text.old.items ++ decimal number) }
{
    let mut digits = Buffer::new();
    text.extend_from_slice(digits.format(number).as_bytes())
}
