ghost use Rattle.std.specs.Prelude.{◌≡◌, ◌<◌, ◌++◌, [], length, take, Some, None, MatchOption, IfOk, IfErr, IfSome, OnOk, OnErr};
ghost use Rattle.br_model.specs.Answer.{Answers, some_or};
ghost use Rattle.br_model.specs.Text.{escaped, escaped_byte};
ghost use Rattle.br_types.specs.Escape.{EscapedReadsBack, escape_cause, in_front, unescaped};
ghost use Rattle.br_types.specs.declared.fault.EscapeFault.TheVariants.{BadEscape};

use crate::fault::EscapeFault;
use crate::hexadecimal::{byte_by, digits_of};
use std::alloc::{AllocError, Global};

/// States the law that escaped bytes are read back.
pub fn escaped_reads_back()
    ensures { EscapedReadsBack }
{}

#[tactic(auto, unfolding(br_model::specs::Text::hexadecimal))]
fn push_escaped_byte(text: &mut Vec<u8>, byte: u8) -> Result<(), AllocError>
    ensures ok { OnOk result (text.new.items ≡ text.old.items ++ escaped_byte byte) }
    ensures err { OnErr result (text.new.items ≡ text.old.items) }
{
    if b'!' <= byte && byte <= b'~' && byte != b'\\' {
        text.extend_from_slice(&[byte])
    } else {
        let (high, low) = digits_of(byte);
        let escape = [b'\\', b'x', high, low];
        text.extend_from_slice(&escape)
    }
}

/// Appends a name or a path as it is printed: each byte from `!` to `~` other than `\` as it is,
/// and every other as `\x` and two hexadecimal digits in lower case. `unescape` reads it back.
///
/// If memory runs out, a part of the name may have been appended.
pub fn push_escaped(text: &mut Vec<u8>, name: &[u8]) -> Result<(), AllocError>
    ensures ok { OnOk result (text.new.items ≡ text.old.items ++ escaped name.now) }
    ensures err { OnErr result (take (length text.old.items) text.new.items ≡ text.old.items) }
    ensures reads_back { unescaped (escaped name.now) ≡ Some name.now }
{
    escaped_reads_back();
    for byte in name {
        push_escaped_byte(text, *byte)?;
    }
    Ok(())
}

/// Reads the first byte of an escaped text. Returns it and the rest; `None` if the text is empty.
#[tactic(auto, unfolding(crate::specs::Escape::unescaped, crate::specs::Escape::in_front))]
fn first_byte(text: &[u8]) -> Result<Option<(u8, &[u8])>, EscapeFault>
    ensures read { IfOk result (λ f. MatchOption f (text.now ≡ []) (λ p. unescaped text.now ≡ in_front (Some p.0) (unescaped p.1.now))) }
    ensures shorter { IfOk result (λ first. IfSome first (λ p. length p.1.now < length text.now)) }
    ensures bad { IfErr result (λ e. (e ≡ BadEscape) × (unescaped text.now ≡ None)) }
{
    match text {
        [] => Ok(None),
        [b'\\', b'x', high, low, rest @ ..] => {
            let byte = byte_by(*high, *low).ok_or(EscapeFault::BadEscape)?;
            Ok(Some((byte, rest)))
        }
        [b'\\', ..] => Err(EscapeFault::BadEscape),
        [byte, rest @ ..] => Ok(Some((*byte, rest))),
    }
}

/// Reads an escaped text: `\x` and two hexadecimal digits in lower case are one byte, and every
/// byte but `\` is itself. So a byte may be escaped without need, and may lack an escape that
/// `push_escaped` writes.
///
/// # Errors
///
/// `BadEscape` if the text contains any other `\`.
pub fn unescape(alloc: Global, text: &[u8]) -> Result<Vec<u8>, EscapeFault>
    ensures { Answers (λ bytes. bytes.items) escape_cause result (some_or (unescaped text.now) tt) }
{
    let mut bytes = Vec::new(alloc);
    let mut left = text;
    while let Some((byte, rest)) = first_byte(left)? {
        bytes.extend_from_slice(&[byte])?;
        left = rest;
    }
    Ok(bytes)
}
