ghost use Rattle.std.specs.Prelude.{◌≡◌, IfOk, OnOk};
ghost use Rattle.br_bsr.specs.Counts as model;
ghost use Rattle.br_bsr.specs.Counts.{counts};

use crate::keyword::is_word;
use crate::scan::{cut, first_line, without_comment};
use br_types::{read_number, trimmed};
use std::alloc::{AllocError, Global};

/// Gives the last group this number.
fn set_last(counts: &mut Vec<Option<u64>>, number: u64)
    ensures { counts.new.items ≡ model.with_last number counts.old.items }
{
    if let Some(last) = counts.last_mut() {
        *last = Some(number);
    }
}

/// Sets the count of the last group to the number that a value spells, if it spells one.
fn set_value(counts: &mut Vec<Option<u64>>, value: &[u8])
    ensures { counts.new.items ≡ model.with_value value.now counts.old.items }
{
    if let Some(number) = read_number(value, u64::MAX) {
        set_last(counts, number);
    }
}

/// Applies the value that a line assigns to the keyword with this name.
fn take_in(counts: &mut Vec<Option<u64>>, word: &[u8], value: &[u8]) -> Result<(), AllocError>
    ensures { OnOk result (counts.new.items ≡ model.with_word word.now value.now counts.old.items) }
{
    if is_word(word, b"volume") {
        counts.push(None)?;
    } else if is_word(word, b"count") {
        set_value(counts, value);
    }
    Ok(())
}

/// Applies the contents of a line.
fn take_line(counts: &mut Vec<Option<u64>>, line: &[u8]) -> Result<(), AllocError>
    ensures { OnOk result (counts.new.items ≡ model.with_line counts.old.items line.now) }
{
    match cut(trimmed(without_comment(line)), b'=') {
        Some((word, value)) => take_in(counts, trimmed(word), trimmed(value)),
        None => Ok(()),
    }
}

/// Returns for each group of a bootstrap's text its `Count`, in the order of the groups; `None` if it has none.
///
/// The last `Count` of a group counts that is a decimal number of at most 2^64 - 1. Any other value
/// is ignored, and so is a `Count` before the first `Volume`.
#[tactic(auto, unfolding(crate::specs::Counts::counts))]
pub fn counts_of(alloc: Global, text: &[u8]) -> Result<Vec<Option<u64>>, AllocError>
    ensures { IfOk result (λ found. found.items ≡ counts text.now) }
{
    let mut found = Vec::new(alloc);
    let mut rest = text;
    while !rest.is_empty() {
        let (line, following) = first_line(rest);
        take_line(&mut found, line)?;
        rest = following;
    }
    Ok(found)
}
