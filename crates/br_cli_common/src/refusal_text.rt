ghost use Rattle.std.specs.Prelude.{◌≡◌, ◌+◌, ◌<◌, ◌≤◌, [], ◌∷◌, ◌++◌, MatchOption, OnOk, codes, flat_map, length};
ghost use Rattle.br_cli_common.specs.RefusalText.{field_text, heading_text, is_break, refusal_text, word_len, wrapped};

use crate::refusal::Refusal;
use br_types::{place_of, push_number};
use std::alloc::AllocError;

/// The greatest number of columns of a line that ends between two words.
const MAX_COLUMN: usize = 79;

/// The column at which the words of a field begin.
const FIRST_COLUMN: usize = 9;

/// Returns the number of bytes before the first space.
#[tactic(auto, unfolding(crate::specs::RefusalText::word_len))]
fn first_word_len(text: &[u8]) -> usize
    ensures len { result ≡ word_len text.now }
    ensures at_most { result ≤ length text.now }
{
    match place_of(text, b' ') {
        Some(at) => at,
        None => text.len(),
    }
}

/// Returns true if a new line replaces this byte; `rest` comes after it.
fn is_break(column: usize, byte: u8, rest: &[u8]) -> bool
    requires { column + length rest.now ≤ usize.MAX }
    ensures { result ≡ is_break column byte rest.now }
{
    byte == b' ' && MAX_COLUMN <= column + first_word_len(rest)
}

/// Returns the first byte and the bytes after it.
fn first_of(text: &[u8]) -> Option<(u8, &[u8])>
    ensures { MatchOption result (text.now ≡ []) (λ p. text.now ≡ p.0 ∷ p.1.now) }
{
    match text {
        [] => None,
        [byte, rest @ ..] => Some((*byte, rest)),
    }
}

/// Appends words from column 9 on. A word that would end after column 79 begins a new line, also at
/// column 9.
fn push_wrapped(text: &mut Vec<u8>, words: &[u8]) -> Result<(), AllocError>
    ensures { OnOk result (text.new.items ≡ text.old.items ++ wrapped 9 words.now) }
{
    let (mut column, mut left) = (FIRST_COLUMN, words);
    while let Some((byte, rest)) = first_of(left) {
        if is_break(column, byte, rest) {
            text.extend_from_slice(b"\n         ")?;
            column = FIRST_COLUMN;
        } else {
            text.push(byte)?;
            column += 1;
        }
        left = rest;
    }
    Ok(())
}

/// Appends a field: its label of nine columns, then its words.
fn push_field(text: &mut Vec<u8>, label: &[u8], words: &str) -> Result<(), AllocError>
    ensures { OnOk result (text.new.items ≡ text.old.items ++ field_text label.now words.now) }
{
    text.extend_from_slice(label)?;
    push_wrapped(text, words.as_bytes())?;
    text.extend_from_slice(b"\n")
}

/// Appends `refused` or, for the outcome of a file, `outcome`, and the number and the name.
fn push_heading(text: &mut Vec<u8>, refusal: &Refusal) -> Result<(), AllocError>
    ensures { OnOk result (text.new.items ≡ text.old.items ++ heading_text refusal.now) }
{
    if refusal.is_outcome() {
        text.extend_from_slice(b"outcome ")?;
    } else {
        text.extend_from_slice(b"refused ")?;
    }
    push_number(text, u64::from(refusal.number))?;
    text.extend_from_slice(b"  ")?;
    text.extend_from_slice(refusal.name.as_bytes())?;
    text.extend_from_slice(b"\n")
}

/// Appends a row.
fn push_refusal(text: &mut Vec<u8>, refusal: &Refusal) -> Result<(), AllocError>
    ensures { OnOk result (text.new.items ≡ text.old.items ++ refusal_text refusal.now) }
{
    push_heading(text, refusal)?;
    push_field(text, b"  means: ", refusal.meaning)?;
    push_field(text, b"  next:  ", refusal.next)
}

/// Appends rows: for each a line with its number and name, then what it means and what to do next,
/// in lines of at most 79 columns.
pub fn push_refusals(text: &mut Vec<u8>, refusals: &[Refusal]) -> Result<(), AllocError>
    ensures { OnOk result (text.new.items ≡ text.old.items ++ flat_map refusal_text refusals.now) }
{
    for refusal in refusals {
        push_refusal(text, refusal)?;
    }
    Ok(())
}
