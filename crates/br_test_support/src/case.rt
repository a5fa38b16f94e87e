use br_types::{FileIndex, VolName, byte_by, push_escaped, unescape};
use std::alloc::{AllocError, Global};
use std::io::Write;

/// A running row. It holds what the row gave so far, and remembers the first error, so that the
/// functions that read its fields and print into it need not return errors.
#[derive(Drop)]
pub struct Case {
    alloc: Global,
    gave: Vec<u8>,
    fault: Option<&'static str>,
}

/// Appends a text a number of times.
fn push_times(bytes: &mut Vec<u8>, count: u32, text: &[u8]) -> Result<(), AllocError> {
    if let [byte] = text {
        return Ok(bytes.resize(bytes.len().saturating_add(count as usize), *byte)?);
    }
    for _ in 0..count {
        bytes.extend_from_slice(text)?;
    }
    Ok(())
}

/// Returns the byte that a pair of hexadecimal digits spells.
fn byte_of(pair: &[u8]) -> Option<u8> {
    match pair {
        [high, low] => byte_by(*high, *low),
        _ => None,
    }
}

impl Case {
    /// Makes a row that has not given anything yet.
    pub fn new(alloc: Global) -> Case {
        Case {
            alloc,
            gave: Vec::new(alloc),
            fault: None,
        }
    }

    /// Returns the allocator.
    pub fn alloc(&self) -> Global {
        self.alloc
    }

    /// Returns the output of the row.
    pub fn gave(&self) -> &[u8] {
        &self.gave
    }

    /// Returns the buffer to print into.
    pub fn out(&mut self) -> &mut Vec<u8> {
        &mut self.gave
    }

    /// Returns the first error.
    pub fn fault(&self) -> Option<&'static str> {
        self.fault
    }

    /// Marks the row as failed, for this reason if it is the first.
    pub fn fail(&mut self, fault: &'static str) {
        if self.fault.is_none() {
            self.fault = Some(fault);
        }
    }

    /// Marks the row as failed if memory ran out.
    pub fn done(&mut self, done: Result<(), AllocError>) {
        if done.is_err() {
            self.fail("out of memory");
        }
    }

    /// Prints a text.
    pub fn text(&mut self, text: &str) {
        let done = self.gave.extend_from_slice(text.as_bytes());
        self.done(done);
    }

    /// Prints a number.
    pub fn number(&mut self, number: u64) {
        let printed = write!(self.gave, "{number}");
        if printed.is_err() {
            self.fail("out of memory");
        }
    }

    /// Prints a number that may be negative.
    pub fn signed(&mut self, number: i64) {
        let printed = write!(self.gave, "{number}");
        if printed.is_err() {
            self.fail("out of memory");
        }
    }

    /// Prints numbers, with a blank after each.
    pub fn numbers(&mut self, numbers: &[i64]) {
        for number in numbers {
            self.signed(*number);
            self.text(" ");
        }
    }

    /// Prints a number, or `none`.
    pub fn number_or_none(&mut self, number: Option<u64>) {
        match number {
            Some(number) => self.number(number),
            None => self.text("none"),
        }
    }

    /// Prints `true` or `false`.
    pub fn test(&mut self, holds: bool) {
        self.text(if holds { "true" } else { "false" });
    }

    /// Prints bytes as a field.
    pub fn bytes(&mut self, bytes: &[u8]) {
        if bytes.is_empty() {
            self.text("-");
        } else {
            let done = push_escaped(&mut self.gave, bytes);
            self.done(done);
        }
    }

    /// Prints bytes as a field, or `none`.
    pub fn bytes_or_none(&mut self, bytes: Option<&[u8]>) {
        match bytes {
            Some(bytes) => self.bytes(bytes),
            None => self.text("none"),
        }
    }

    /// Prints the bytes that a call returned.
    pub fn made(&mut self, bytes: Result<Vec<u8>, AllocError>) {
        match bytes {
            Ok(bytes) => self.bytes(&bytes),
            Err(_fault) => self.fail("out of memory"),
        }
    }

    /// Prints a refusal with this number.
    pub fn refused(&mut self, number: u32) {
        self.text("refused ");
        self.number(u64::from(number));
    }

    /// Reads a number of 64 bits.
    pub fn u64_of(&mut self, field: &str) -> u64 {
        match field.parse::<u64>() {
            Ok(number) => number,
            Err(_fault) => {
                self.fail("a field is no number");
                0
            }
        }
    }

    /// Reads a number of 64 bits that may be negative.
    pub fn i64_of(&mut self, field: &str) -> i64 {
        match field.parse::<i64>() {
            Ok(number) => number,
            Err(_fault) => {
                self.fail("a field is no number");
                0
            }
        }
    }

    /// Reads a number of 32 bits.
    pub fn u32_of(&mut self, field: &str) -> u32 {
        match field.parse::<u32>() {
            Ok(number) => number,
            Err(_fault) => {
                self.fail("a field is no number");
                0
            }
        }
    }

    /// Reads a number of 32 bits that may be negative.
    pub fn i32_of(&mut self, field: &str) -> i32 {
        match field.parse::<i32>() {
            Ok(number) => number,
            Err(_fault) => {
                self.fail("a field is no number");
                0
            }
        }
    }

    /// Reads the index of a file.
    pub fn index_of(&mut self, field: &str) -> Option<FileIndex> {
        let index = FileIndex::new(self.u32_of(field));
        if index.is_none() {
            self.fail("a field is no index of a file");
        }
        index
    }

    /// Reads the name of a volume.
    pub fn vol_of(&mut self, field: &str) -> Option<VolName> {
        let name = VolName::new(self.alloc, field.as_bytes()).ok();
        if name.is_none() {
            self.fail("a field is no name of a volume");
        }
        name
    }

    /// Splits a field at this character.
    pub fn split<'f>(&mut self, field: &'f str, at: char) -> (&'f str, &'f str) {
        match field.split_once(at) {
            Some(parts) => parts,
            None => {
                self.fail("a field has a part too few");
                (field, "")
            }
        }
    }

    /// Appends the bytes that pairs of hexadecimal digits spell.
    fn push_pairs(&mut self, bytes: &mut Vec<u8>, digits: &[u8]) {
        for pair in digits.chunks(2) {
            match byte_of(pair) {
                Some(byte) => self.done(bytes.push(byte).map_err(AllocError::from)),
                None => self.fail("a field has no pairs of digits"),
            }
        }
    }

    /// Appends an escaped text a number of times.
    fn push_text(&mut self, bytes: &mut Vec<u8>, count: u32, text: &str) {
        match unescape(self.alloc, text.as_bytes()) {
            Ok(text) => self.done(push_times(bytes, count, &text)),
            Err(_fault) => self.fail("a field is no escaped text"),
        }
    }

    /// Appends the bytes of a part of a field.
    fn push_part(&mut self, bytes: &mut Vec<u8>, part: &str) {
        if let Some(digits) = part.strip_prefix('#') {
            return self.push_pairs(bytes, digits.as_bytes());
        }
        let (count, text) = part.split_once('*').unwrap_or(("1", part));
        let count = self.u32_of(count);
        self.push_text(bytes, count, text);
    }

    /// Reads the bytes of a field.
    pub fn bytes_of(&mut self, field: &str) -> Vec<u8> {
        let mut bytes = Vec::new(self.alloc);
        if field != "-" {
            for part in field.split('+') {
                self.push_part(&mut bytes, part);
            }
        }
        bytes
    }
}
