ghost use Rattle.std.specs.Prelude.{◌≡◌, ◌+◌, ◌^◌, ◌<◌, true, IfOk, OnOk};

use crate::script_fault::ScriptFault;
use br_engine::Turns;
use bstr::ByteSlice;
use std::io::{BufRead, ErrorKind};

/// The result of reading a line.
#[derive(Clone, Copy)]
pub(crate) enum LineReading {
    /// A line, which is now in the buffer.
    Line,
    /// Memory ran out for the line, which is skipped.
    NoMemory,
    /// The end of input.
    End,
}

impl LineReading {
    /// Returns the result for a line that was read in part or whole.
    fn begun(self) -> LineReading
        ensures { result ≡ LineReading.End → ⊥ }
    {
        match self {
            LineReading::Line | LineReading::End => LineReading::Line,
            LineReading::NoMemory => LineReading::NoMemory,
        }
    }
}

/// The result of one turn of reading.
enum LinePart {
    /// The turn was interrupted.
    Nothing,
    /// Bytes of a line that continues.
    More,
    /// The last bytes of a line, and its LF.
    LineEnd,
    InputEnd,
}

/// The lines of an input. A line ends only at LF, which the last line may lack.
#[derive(Drop)]
pub(crate) struct InputLines<R> {
    reader: R,
    turns: Turns,
    number: u64,
    /// Whether the reader has ended.
    has_ended: bool,
}

/// Appends bytes to a line, up to `most` bytes in all. Returns false if memory ran out.
fn keep(line: &mut Vec<u8>, part: &[u8], most: usize) -> bool {
    let room = most.saturating_sub(line.len()).min(part.len());
    line.extend_from_slice(&part[..room]).is_ok()
}

impl<R: BufRead> InputLines<R> {
    pub(crate) fn new(reader: R) -> InputLines<R> {
        InputLines {
            reader,
            turns: Turns::new(),
            number: 0,
            has_ended: false,
        }
    }

    /// Returns the number of the line that was read last, from 1.
    pub(crate) fn number(&self) -> u64
        ensures { result ≡ self.now.number }
    {
        self.number
    }

    /// Makes one turn of reading: appends to `line` what the reader has of it at hand, up to `most`
    /// bytes in all. Returns the result, and false if memory ran out.
    fn read_part(
        &mut self,
        line: &mut Vec<u8>,
        most: usize,
    ) -> Result<(LinePart, bool), ScriptFault>
        ensures turn { OnOk result (self.new.turns ≡ self.old.turns + 1) }
        ensures few { OnOk result (self.old.turns < 2 ^ 40) }
    {
        self.turns.take()?;
        let available = match self.reader.fill_buf() {
            Ok(available) => available,
            Err(e) if e.kind() == ErrorKind::Interrupted => return Ok((LinePart::Nothing, true)),
            Err(e) => return Err(ScriptFault::Io(e)),
        };
        let (part, used, is_kept) = match available.find_byte(b'\n') {
            Some(at) => (
                LinePart::LineEnd,
                at + 1,
                keep(line, &available[..at], most),
            ),
            None if available.is_empty() => (LinePart::InputEnd, 0, true),
            None => (LinePart::More, available.len(), keep(line, available, most)),
        };
        self.reader.consume(used);
        Ok((part, is_kept))
    }

    /// Reads the next line into `line`, without its LF. Keeps at most `most` bytes of it. There is no
    /// line only if the reader has ended.
    pub(crate) fn read(
        &mut self,
        line: &mut Vec<u8>,
        most: usize,
    ) -> Result<LineReading, ScriptFault>
        ensures turns { OnOk result (self.old.turns < self.new.turns) }
        ensures few { OnOk result (self.old.turns < 2 ^ 40) }
        ensures ended { IfOk result (λ reading. reading ≡ LineReading.End → self.new.has_ended ≡ true) }
    {
        line.clear();
        let (mut most, mut reading) = (most, LineReading::End);
        loop {
            let (part, is_kept) = self.read_part(line, most)?;
            if !is_kept {
                (most, reading) = (0, LineReading::NoMemory);
            }
            match part {
                LinePart::Nothing => {}
                LinePart::More => reading = reading.begun(),
                LinePart::LineEnd => return Ok(self.counted(reading.begun())),
                LinePart::InputEnd => {
                    self.has_ended = true;
                    return Ok(self.counted(reading));
                }
            }
        }
    }

    /// Counts the line that was read, if there was one.
    fn counted(&mut self, reading: LineReading) -> LineReading
        ensures turns { self.new.turns ≡ self.old.turns }
        ensures ended { self.new.has_ended ≡ self.old.has_ended }
        ensures same { result ≡ reading }
    {
        if reading != LineReading::End {
            self.number = self.number.saturating_add(1);
        }
        reading
    }
}
