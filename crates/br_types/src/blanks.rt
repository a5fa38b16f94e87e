//! Texts without the blanks at their ends.
ghost use Rattle.std.specs.Prelude.{◌≡◌};
ghost use Rattle.br_model.specs.Text.{is_blank, trim_by};
ghost use Rattle.br_types.specs.Trim.{trimmed_end, trimmed_front};

use crate::bytes::is_blank_byte;
use bstr::ByteSlice;

/// The blanks: a space and a tab.
const BLANKS: &[u8] = b" \t";

/// Returns the text without the blanks at its beginning.
fn without_front(text: &[u8]) -> &[u8]
    ensures { result.now ≡ trimmed_front text.now }
{
    match text.find_not_byteset(BLANKS) {
        Some(first) => &text[first..],
        None => &[],
    }
}

/// Returns the text without the blanks at its end.
fn without_end(text: &[u8]) -> &[u8]
    ensures { result.now ≡ trimmed_end text.now }
{
    let mut left = text;
    while let Some((last, front)) = left.split_last() {
        if !is_blank_byte(*last) {
            return left;
        }
        left = front;
    }
    left
}

/// Returns the text without the blanks at its ends.
#[tactic(auto, unfolding(br_model::specs::Text::trim_by))]
pub fn trimmed(text: &[u8]) -> &[u8]
    ensures { result.now ≡ trim_by is_blank text.now }
{
    without_end(without_front(text))
}
