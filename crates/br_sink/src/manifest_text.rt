ghost use Rattle.std.specs.Prelude.{◌≡◌, ◌∷◌, ◌++◌, decimal, OnOk};
ghost use Rattle.br_model.specs.Text.{signed_decimal};

use br_types::push_number;
use itoa::Buffer;
use std::alloc::AllocError;

/// Appends a space and a number in decimal.
pub(crate) fn push_field(text: &mut Vec<u8>, number: u64) -> Result<(), AllocError>
    ensures { OnOk result (text.new.items ≡ text.old.items ++ 32 ∷ decimal number) }
{
    text.push(b' ')?;
    push_number(text, number)
}

/// Appends an integer in decimal, with a minus if it is negative.
pub(crate) fn push_signed(text: &mut Vec<u8>, number: i64) -> Result<(), AllocError>
    ensures { OnOk result (text.new.items ≡ text.old.items ++ signed_decimal number) }
{
    let mut buffer = Buffer::new();
    text.extend_from_slice(buffer.format(number).as_bytes())
}
