//! Reads the text of a bootstrap, and stops at a line without an end.
ghost use Rattle.std.specs.Prelude.{◌≡◌, ◌+◌, ◌^◌, ◌<◌, false, length, IfOk, IfErr, OnOk};
ghost use Rattle.std.specs.List.{list_any};
ghost use Rattle.std.specs.Io.KnownBytes.{Consumes, IsAtEnd};
ghost use Rattle.br_engine.specs.Fault.{EndlessAfterAll, IsUnread};
ghost use Rattle.br_engine.specs.BootstrapText.{GrowsAsRead, GrowsBy, ReadsAs, StopsInTime, has_long_end, is_line_end};

use crate::fault::ExtractFault;
use crate::turns::Turns;
use br_bsr::MAX_LINE;
use std::alloc::Global;
use std::io::{ErrorKind, Read};

/// The number of bytes without LF that make a line too long whatever follows. The last byte of a
/// line may be a CR that belongs to its end.
const LONG_END: usize = MAX_LINE + 2;

/// The number of bytes that one turn reads at most.
const MAX_PART: usize = 8192;

/// Makes one turn of reading, and appends the bytes to a text. Returns false at the end of the
/// input.
fn read_part<R: Read>(
    reader: &mut R,
    turns: &mut Turns,
    buffer: &mut [u8],
    text: &mut Vec<u8>,
) -> Result<bool, ExtractFault>
    requires room { 0 < length buffer.old }
    ensures turn { OnOk result (turns.new ≡ turns.old + 1) }
    ensures few { OnOk result (turns.old < 2 ^ 40) }
    ensures read { GrowsAsRead (R.remaining reader.old) (R.remaining reader.new) text.old.items text.new.items result }
    ensures part { OnOk result (GrowsBy (length buffer.old) text.old.items text.new.items) }
    ensures end { IfOk result (λ more. more ≡ false → IsAtEnd (R.remaining reader.new)) }
    ensures unread { IfErr result IsUnread }
    ensures endless { IfErr result EndlessAfterAll }
{
    turns.take()?;
    match reader.read(buffer) {
        Ok(0) => Ok(false),
        Ok(n) => {
            text.extend_from_slice(&buffer[..n])?;
            Ok(true)
        }
        Err(e) => {
            if e.kind() != ErrorKind::Interrupted {
                return Err(ExtractFault::Io(e));
            }
            Ok(true)
        }
    }
}

/// Returns true if a part of a text contains LF.
fn has_ended(part: &[u8]) -> bool
    ensures { result ≡ list_any is_line_end part.now }
{
    part.contains(&b'\n')
}

/// Returns true if the last line of a text has no LF yet and is too long even if the next byte is
/// LF.
#[tactic(auto, unfolding(crate::specs::BootstrapText::has_long_end))]
fn has_long_end(text: &[u8]) -> bool
    ensures { result ≡ has_long_end text.now }
{
    text.len() >= LONG_END && !has_ended(&text[text.len() - LONG_END..])
}

/// Reads the text of a bootstrap to the end of a reader. Stops as soon as the last line is too long
/// whatever follows: the text is then refused at this line or an earlier one, as the whole input
/// would be.
///
/// # Errors
///
/// - `Memory` if memory ran out.
/// - `Io` if the reader failed.
/// - `NoEnd` if the reader has not ended after 2^40 reads.
pub fn read_text<R: Read>(alloc: Global, reader: &mut R) -> Result<Vec<u8>, ExtractFault>
    ensures alike { IfOk result (λ text. ReadsAs text.items (R.remaining reader.old)) }
    ensures read { IfOk result (λ text. Consumes (R.remaining reader.old) (R.remaining reader.new) text.items) }
    ensures stops { IfOk result (λ text. StopsInTime text.items) }
    ensures unread { IfErr result IsUnread }
    ensures endless { IfErr result EndlessAfterAll }
{
    let mut text = Vec::new(alloc);
    let mut buffer = [0u8; MAX_PART];
    let mut turns = Turns::new();
    loop {
        if !read_part(reader, &mut turns, &mut buffer, &mut text)? {
            return Ok(text);
        }
        if has_long_end(&text) {
            return Ok(text);
        }
    }
}
