//! The manifest, written in parts, so that no more than one part of it is in memory.
ghost use Rattle.std.specs.Prelude.{◌≡◌, [], map, flat_map, IfOk, OnOk};
ghost use Rattle.std.specs.Io.KnownBytes.{Appends};
ghost use Rattle.br_model.specs.Manifest as model;
ghost use Rattle.br_join.specs.Outcome.{restored};
ghost use Rattle.br_sink.specs.ManifestParts.{Writes, WritesPart};

use crate::manifest_line::push_line;
use crate::manifest_whole::push_totals;
use crate::report::totals;
use br_join::Outcome;
use br_types::FileKey;
use std::alloc::{AllocError, Global};
use std::io;
use std::io::Write;

/// The number of bytes from which a part is written.
const PART_LEN: usize = 64 * 1024;

/// The greatest number of bytes of a line besides its path and its link text.
const NUMBERS_LEN: usize = 512;

/// Returns the greatest number of bytes that the line of an outcome may have.
fn greatest_len(outcome: &Outcome) -> usize {
    match outcome {
        Outcome::File(item) => {
            let texts = item.path.bytes().len().saturating_add(item.link.len());
            NUMBERS_LEN.saturating_add(texts.saturating_mul(4))
        }
        Outcome::Fault { .. } => NUMBERS_LEN,
    }
}

/// Returns an empty text that has room for a part of the manifest of these outcomes.
pub fn manifest_room(alloc: Global, outcomes: &[(FileKey, Outcome)]) -> Result<Vec<u8>, AllocError>
    ensures { IfOk result (λ text. text.items ≡ []) }
{
    let mut longest = NUMBERS_LEN;
    for (_, outcome) in outcomes {
        longest = longest.max(greatest_len(outcome));
    }
    Vec::with_capacity(alloc, PART_LEN.saturating_add(longest))
}

/// Writes the text and empties it, if it has reached the length of a part.
fn write_if_long<W: Write>(writer: &mut W, text: &mut Vec<u8>) -> io::Result<()>
    ensures { OnOk result (WritesPart (W.contents writer.old) (W.contents writer.new) text.new.items text.old.items) }
{
    if text.len() < PART_LEN {
        return Ok(());
    }
    writer.write_all(text)?;
    text.clear();
    Ok(())
}

/// Appends the line of an outcome to the text, and writes the text if it has the length of a part.
fn write_line<W: Write>(
    writer: &mut W,
    text: &mut Vec<u8>,
    key: FileKey,
    outcome: &Outcome,
) -> io::Result<()>
    ensures { OnOk result (Writes W.contents writer.old writer.new text.old.items text.new.items
        (model.file_line (restored (key, outcome.now)))) }
{
    push_line(text, key, outcome)?;
    write_if_long(writer, text)
}

/// Appends the lines of outcomes to the text, and writes it part by part. The last part stays in
/// the text.
fn write_lines<W: Write>(
    writer: &mut W,
    text: &mut Vec<u8>,
    outcomes: &[(FileKey, Outcome)],
) -> io::Result<()>
    ensures { OnOk result (Writes W.contents writer.old writer.new text.old.items text.new.items
        (flat_map model.file_line (map restored outcomes.now))) }
{
    for (key, outcome) in outcomes {
        write_line(writer, text, *key, outcome)?;
    }
    Ok(())
}

/// Writes the manifest of a restore, as `manifest` makes it, in parts of a little more than 64 KiB.
/// If the text is from `manifest_room`, no memory is taken.
///
/// # Errors
///
/// Those of the writer, which may have taken a part of the manifest, and `OutOfMemory` if the text
/// has no room and memory runs out.
pub fn write_manifest<W: Write>(
    writer: &mut W,
    mut text: Vec<u8>,
    outcomes: &[(FileKey, Outcome)],
) -> io::Result<()>
    requires { text.items ≡ [] }
    ensures { OnOk result (Appends (W.contents writer.old) (W.contents writer.new) (model.manifest (map restored outcomes.now))) }
{
    write_lines(writer, &mut text, outcomes)?;
    push_totals(&mut text, totals(outcomes))?;
    writer.write_all(&text)?;
    Ok(())
}
