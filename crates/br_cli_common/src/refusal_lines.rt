ghost use Rattle.std.specs.Prelude.{◌≡◌, ◌++◌, OnOk};
ghost use Rattle.br_cli_common.specs.RefusalRows.{row_of};
ghost use Rattle.br_cli_common.specs.RefusalLines.{words, words_of};

use crate::refusal::{Refusal, explain};
use br_types::read_number;
use std::alloc::AllocError;

/// Appends what a refusal or an outcome means, and what to do next.
fn push_row(text: &mut Vec<u8>, refusal: &Refusal) -> Result<(), AllocError>
    ensures { OnOk result (text.new.items ≡ text.old.items ++ words (row_of refusal.now)) }
{
    text.extend_from_slice(b"  ")?;
    text.extend_from_slice(refusal.name.as_bytes())?;
    text.extend_from_slice(b": ")?;
    text.extend_from_slice(refusal.meaning.as_bytes())?;
    text.extend_from_slice(b"\n  Next: ")?;
    text.extend_from_slice(refusal.next.as_bytes())?;
    text.extend_from_slice(b"\n")
}

/// Appends what the refusal or the outcome with this number means and what to do next, in two lines. Appends
/// nothing if there is none with this number.
pub fn push_words(text: &mut Vec<u8>, number: u32) -> Result<(), AllocError>
    ensures { OnOk result (text.new.items ≡ text.old.items ++ words_of number) }
{
    match explain(number) {
        Some(refusal) => push_row(text, refusal),
        None => Ok(()),
    }
}

/// Returns the number in a line `refused N`, which may have more fields.
pub fn refused_number(line: &[u8]) -> Option<u32> {
    let rest = line.strip_prefix(b"refused ")?;
    let digits = rest.split(|byte| *byte == b' ').next()?;
    let number = read_number(digits, u64::from(u32::MAX))?;
    u32::try_from(number).ok()
}

/// Appends the lines of a text, and after each line `refused N` what it means and what to do next.
pub fn push_with_words(text: &mut Vec<u8>, lines: &[u8]) -> Result<(), AllocError> {
    for line in lines.split(|byte| *byte == b'\n') {
        if !line.is_empty() {
            text.extend_from_slice(line)?;
            text.extend_from_slice(b"\n")?;
        }
        if let Some(number) = refused_number(line) {
            push_words(text, number)?;
        }
    }
    Ok(())
}
