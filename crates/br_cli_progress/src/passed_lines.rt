//! The lines that pass a writer.

use crate::gauge::Gauge;
use crate::outcome_line::OutcomeLine;
use crate::passed_faults::Faults;
use br_cli_common::refused_number;
use br_types::FileKey;
use std::alloc::Global;

/// The greatest number of bytes of a line that are kept. A line of an outcome that is no file is
/// shorter, and these bytes contain the numbers of any other outcome.
const START_LEN: usize = 64;

/// The part of a line that has passed.
#[derive(Clone, Copy)]
struct LineStart {
    /// Its first bytes; others may follow them.
    bytes: [u8; START_LEN],
    len: usize,
}

impl LineStart {
    /// Adds a byte.
    fn push(&mut self, byte: u8) {
        if let Some(place) = self.bytes.get_mut(self.len) {
            *place = byte;
        }
        self.len = self.len.saturating_add(1);
    }

    /// Returns the line, or only its start if it is long.
    fn text(&self) -> &[u8] {
        match self.bytes.get(..self.len) {
            Some(text) => text,
            None => &self.bytes,
        }
    }
}

/// The numbers that the last two words of the part of a line that has passed begin with; 0 for words
/// that begin with something else.
#[derive(Clone, Copy)]
struct LastWords {
    before: u64,
    last: u64,
    /// Only digits have passed in the last word.
    is_number: bool,
}

impl LastWords {
    /// Those of an empty line.
    const NONE: LastWords = LastWords {
        before: 0,
        last: 0,
        is_number: true,
    };

    /// Adds a byte.
    fn push(&mut self, byte: u8) {
        if byte == b' ' {
            *self = LastWords {
                before: self.last,
                ..LastWords::NONE
            };
        } else if self.is_number && byte.is_ascii_digit() {
            let digit = u64::from(byte.saturating_sub(b'0'));
            self.last = self.last.saturating_mul(10).saturating_add(digit);
        } else {
            self.is_number = false;
        }
    }
}

/// What is noted of the lines that pass a writer: replies of the console, a bootstrap and the
/// manifest.
#[derive(Drop)]
pub(crate) struct PassedLines {
    start: LineStart,
    words: LastWords,
    /// The outcomes that are no files.
    pub(crate) faults: Faults,
    /// The keys of the outcomes, unless memory ran out.
    pub(crate) keys: Option<Vec<FileKey>>,
    /// The number in the last line `refused N`, until it is taken.
    pub(crate) refused: Option<u32>,
}

/// Adds a key, or drops all keys if memory runs out.
fn add_key(keys: &mut Option<Vec<FileKey>>, key: FileKey) {
    let is_added = match keys {
        Some(keys) => keys.push(key).is_ok(),
        None => false,
    };
    if !is_added {
        *keys = None;
    }
}

impl PassedLines {
    /// Creates the notes before the first line.
    pub(crate) fn new(alloc: Global) -> PassedLines {
        PassedLines {
            start: LineStart {
                bytes: [0; START_LEN],
                len: 0,
            },
            words: LastWords::NONE,
            faults: Faults::new(alloc),
            keys: Some(Vec::new(alloc)),
            refused: None,
        }
    }

    /// Notes an outcome. Reports a file of the manifest, or a line of an outcome that is no file,
    /// to the gauge.
    fn note_outcome(&mut self, gauge: &Gauge<'_>, outcome: &OutcomeLine) {
        add_key(&mut self.keys, outcome.key);
        match outcome.why {
            // The line of a file ends with the number of its bytes and their digest.
            None => gauge.note_file(self.words.before),
            Some(why) => {
                gauge.note_lost();
                gauge.log_fault(self.start.text());
                // If memory runs out for an outcome, it is not reported at the end.
                let _noted = self.faults.note(gauge.alloc(), outcome.key, why);
            }
        }
    }

    /// Notes what a line is, at its end.
    fn end_line(&mut self, gauge: &Gauge<'_>) {
        let line = self.start.text();
        if let Some(outcome) = OutcomeLine::read(line) {
            self.note_outcome(gauge, &outcome);
        } else if let Some(number) = refused_number(line) {
            self.refused = Some(number);
        }
        self.start.len = 0;
        self.words = LastWords::NONE;
    }

    /// Notes a text that passes.
    pub(crate) fn pass(&mut self, gauge: &Gauge<'_>, text: &[u8]) {
        for byte in text {
            if *byte == b'\n' {
                self.end_line(gauge);
            } else {
                self.start.push(*byte);
                self.words.push(*byte);
            }
        }
    }
}
