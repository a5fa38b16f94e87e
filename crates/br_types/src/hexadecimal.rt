//! Bytes as hexadecimal digits in lower case. The kit's `hex` reads and writes the digits; it reads capital letters, too.
ghost use Rattle.std.specs.Prelude.{◌≡◌, ◌++◌, ◌∷◌, ◌/◌, ◌%◌, [], OnOk};
ghost use Rattle.std.specs.Char.{is_ascii_uppercase};
ghost use Rattle.std.specs.List.{list_any};
ghost use Rattle.hex.specs.Hex.{encode_lower};
ghost use Rattle.br_model.specs.Text.{hex_digit, hexadecimal};
ghost use Rattle.br_types.specs.Escape.{byte_of, digit_value};

use hex::FromHex;
use std::alloc::AllocError;

/// Returns the digits of a byte, as the kit writes them.
fn encoded(byte: u8) -> [u8; 2]
    ensures { result ≡ encode_lower (byte ∷ []) }
{
    let mut digits = [0u8; 2];
    let _ = hex::encode_to_slice([byte], &mut digits);
    digits
}

/// Returns the two hexadecimal digits of a byte, in lower case.
#[tactic(auto, using(crate::proofs::SpellingLaws::high_is, crate::proofs::SpellingLaws::low_is))]
pub(crate) fn digits_of(byte: u8) -> (u8, u8)
    ensures high { result.0 ≡ hex_digit (byte / 16) }
    ensures low { result.1 ≡ hex_digit (byte % 16) }
{
    let digits = encoded(byte);
    (digits[0], digits[1])
}

/// Appends bytes as two hexadecimal digits each, in lower case.
#[tactic(auto, unfolding(br_model::specs::Text::hexadecimal))]
pub fn push_hexadecimal(text: &mut Vec<u8>, bytes: &[u8]) -> Result<(), AllocError>
    ensures { OnOk result (text.new.items ≡ text.old.items ++ hexadecimal bytes.now) }
{
    for byte in bytes {
        let (high, low) = digits_of(*byte);
        text.extend_from_slice(&[high, low])?;
    }
    Ok(())
}

/// Returns whether a text has a capital letter, which no digit in lower case is.
pub(crate) fn has_capital(text: &[u8]) -> bool
    ensures { result ≡ list_any is_ascii_uppercase text.now }
{
    text.iter().any(|byte| byte.is_ascii_uppercase())
}

/// Returns the byte that two hexadecimal digits in lower case spell; `None` if one is not a digit.
pub fn byte_by(high: u8, low: u8) -> Option<u8>
    ensures { result ≡ byte_of (digit_value high) (digit_value low) }
{
    if has_capital(&[high, low]) {
        return None;
    }
    match <[u8; 1] as FromHex>::from_hex([high, low]) {
        Ok(byte) => Some(byte[0]),
        Err(_) => None,
    }
}
