//! Fields that are texts of lines: `_` is a blank, and `|` a line feed.

use crate::Case;
use std::alloc::AllocError;

/// Returns the meaning of a byte of a field.
fn read(byte: u8) -> u8 {
    match byte {
        b'_' => b' ',
        b'|' => b'\n',
        _ => byte,
    }
}

/// Returns the byte that is printed for a byte.
fn printed(byte: u8) -> u8 {
    match byte {
        b' ' => b'_',
        b'\n' => b'|',
        _ => byte,
    }
}

impl Case {
    /// Appends a byte.
    fn push(&mut self, bytes: &mut Vec<u8>, byte: u8) {
        self.done(bytes.push(byte).map_err(AllocError::from));
    }

    /// Reads the text of a field. Its parts are those of a field of bytes.
    pub fn text_of(&mut self, field: &str) -> Vec<u8> {
        let mut text = Vec::new(self.alloc());
        for byte in &self.bytes_of(field) {
            self.push(&mut text, read(*byte));
        }
        text
    }

    /// Prints a text as such a field, and a blank.
    pub fn lines(&mut self, text: &[u8]) {
        let mut shown = Vec::new(self.alloc());
        for byte in text {
            self.push(&mut shown, printed(*byte));
        }
        self.bytes(&shown);
        self.text(" ");
    }
}
