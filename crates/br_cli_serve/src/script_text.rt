//! Texts of several lines in a script: bootstraps, and dialogues with the console.
ghost use Rattle.std.specs.Prelude.{◌≡◌, ◌≤◌, true, IfOk, OnOk};

use crate::script_fault::ScriptFault;
use crate::script_input::{InputLines, LineReading};
use br_history::MAX_LINE;
use br_mark::Command;
use std::alloc::Global;
use std::io::BufRead;

/// The number of bytes that are kept of each line of a text. They make the line too long in a
/// bootstrap, where the last one may be a CR of the line's end, and in a dialogue. So a line
/// without an end takes no more memory, and the text is refused as the whole one would be.
const MAX_KEPT: usize = MAX_LINE + 2;

/// A text of several lines, as far as a script has read it.
pub(crate) enum Text {
    /// The whole text.
    Whole(Vec<u8>),
    /// The whole text was read, but memory ran out for it.
    NoMemory,
    /// The input ended before the text did.
    Unended,
}

/// What a text of several lines is.
#[derive(Clone, Copy)]
pub(crate) enum TextKind {
    /// A bootstrap. A line `.` ends it and is no part of it.
    Bootstrap,
    /// A dialogue. A line `done` or `quit` ends it and belongs to it.
    Dialogue,
}

/// Tests whether a line ends a dialogue with the console.
fn ends_dialogue(alloc: Global, line: &[u8]) -> bool {
    matches!(
        Command::read(alloc, line),
        Ok(Command::Done | Command::Quit)
    )
}

impl TextKind {
    /// Tests whether a line is the last of such a text.
    fn is_last(self, alloc: Global, line: &[u8]) -> bool {
        match self {
            TextKind::Bootstrap => line == b".".as_slice(),
            TextKind::Dialogue => ends_dialogue(alloc, line),
        }
    }
}

/// Appends a line and its LF. Returns false if memory ran out, for this line or its reading.
fn push_line(text: &mut Vec<u8>, line: &[u8], reading: LineReading) -> bool {
    reading == LineReading::Line && text.extend_from_slice(line).is_ok() && text.push(b'\n').is_ok()
}

/// Returns the text, unless memory ran out for it.
fn text_of(text: Vec<u8>, has_memory: bool) -> Text
    ensures { result ≡ Text.Unended → ⊥ }
{
    if has_memory {
        Text::Whole(text)
    } else {
        Text::NoMemory
    }
}

/// Reads lines up to the last one of a text of this kind, or the end of input. Only the first part
/// of a line that is too long is kept. Room for the last line is made at the start: a line for
/// which memory runs out is not kept, so the end of the text could be missed. Without that room no
/// line is read.
pub(crate) fn read_text<R: BufRead>(
    alloc: Global,
    lines: &mut InputLines<R>,
    kind: TextKind,
) -> Result<Text, ScriptFault>
    ensures turns { OnOk result (lines.old.turns ≤ lines.new.turns) }
    ensures unended { IfOk result (λ text. text ≡ Text.Unended → lines.new.has_ended ≡ true) }
{
    let Ok(mut line) = Vec::with_capacity(alloc, MAX_LINE) else {
        return Ok(Text::NoMemory);
    };
    let mut text = Vec::new(alloc);
    let mut has_memory = true;
    loop {
        let reading = lines.read(&mut line, MAX_KEPT)?;
        if reading == LineReading::End {
            return Ok(Text::Unended);
        }
        let is_last = reading == LineReading::Line && kind.is_last(alloc, &line);
        if !is_last || kind == TextKind::Dialogue {
            has_memory = has_memory && push_line(&mut text, &line, reading);
        }
        if is_last {
            return Ok(text_of(text, has_memory));
        }
    }
}

/// Skips the lines up to and including the one that ends a dialogue, or to the end of input. If
/// memory runs out for that line, skips none.
pub(crate) fn skip_dialogue<R: BufRead>(
    alloc: Global,
    lines: &mut InputLines<R>,
) -> Result<(), ScriptFault>
    ensures { OnOk result (lines.old.turns ≤ lines.new.turns) }
{
    let Ok(mut line) = Vec::with_capacity(alloc, MAX_LINE) else {
        return Ok(());
    };
    loop {
        match lines.read(&mut line, MAX_KEPT)? {
            LineReading::End => return Ok(()),
            LineReading::Line if ends_dialogue(alloc, &line) => return Ok(()),
            _ => {}
        }
    }
}
