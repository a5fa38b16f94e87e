ghost use Rattle.std.specs.Prelude.{◌≡◌};
ghost use Rattle.br_model.specs.Answer.{Answers, some_or};
ghost use Rattle.br_types.specs.LineFault.{line_cause, of_hex_fault};
ghost use Rattle.br_types.specs.DecimalSpelling.{IsCut, bytes_spelled, pairs_read};

use crate::bytes::place_of;
use crate::hexadecimal::has_capital;
use crate::line_fault::LineFault;
use hex::FromHexError;
use std::alloc::Global;

/// Returns the text before the first space and, if there is a space, the text after it.
#[tactic(auto, unfolding(crate::specs::DecimalSpelling::fields_of))]
pub fn cut(text: &[u8]) -> (&[u8], Option<&[u8]>)
    ensures { IsCut text.now result.0.now result.1 }
{
    match place_of(text, b' ') {
        Some(at) => (&text[..at], Some(&text[at + 1..])),
        None => (text, None),
    }
}

/// Returns the refusal of a field whose digits were refused.
fn refused_by(fault: FromHexError) -> LineFault
    ensures { result ≡ of_hex_fault fault }
{
    match fault {
        FromHexError::OutOfMemory => LineFault::Memory,
        _ => LineFault::BadScript,
    }
}

/// Reads the bytes that pairs of hexadecimal digits in lower case spell.
fn read_pairs(alloc: Global, text: &[u8]) -> Result<Vec<u8>, LineFault>
    ensures { Answers (λ bytes. bytes.items) line_cause result (some_or (pairs_read text.now) tt) }
{
    if has_capital(text) {
        return Err(LineFault::BadScript);
    }
    match hex::decode(alloc, text) {
        Ok(bytes) => Ok(bytes),
        Err(fault) => Err(refused_by(fault)),
    }
}

/// Reads the bytes that a field spells: `-` is no bytes, else pairs of hexadecimal digits in lower case, at least one.
///
/// # Errors
///
/// `BadScript` for any other text.
#[tactic(auto, unfolding(crate::specs::DecimalSpelling::bytes_spelled))]
pub fn read_bytes(alloc: Global, text: &[u8]) -> Result<Vec<u8>, LineFault>
    ensures { Answers (λ bytes. bytes.items) line_cause result (some_or (bytes_spelled text.now) tt) }
{
    if text == b"-".as_slice() {
        return Ok(Vec::new(alloc));
    }
    if text.is_empty() {
        return Err(LineFault::BadScript);
    }
    read_pairs(alloc, text)
}
