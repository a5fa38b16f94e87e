//! Names at a terminal: those that are UTF-8 are shown as they are, and escapes are read.
ghost use Rattle.std.specs.Prelude.{◌≡◌, ◌<◌, length, cond, None, IfSome, OnOk};
ghost use Rattle.std.specs.Io.KnownBytes.{Keeps};

use crate::local_command::without_feed;
use br_sink::Flush;
use br_types::{push_escaped, unescape};
use std::alloc::{AllocError, Global};
use std::io::{self, Write};

/// The first bytes of a planned bootstrap's text.
const VOLUME: &[u8] = b"Volume=\"";

/// The lowest byte that is no ASCII.
const NO_ASCII: u8 = 0x80;

/// Returns the value of a hexadecimal digit in lower case.
fn digit_of(digit: u8) -> Option<u8> {
    match digit {
        b'0'..=b'9' => Some(digit - b'0'),
        b'a'..=b'f' => Some(digit - b'a' + 10),
        _ => None,
    }
}

/// Returns the byte of an escape that a text begins with, and the rest of the text, if the byte is no
/// ASCII.
fn escape_at(text: &[u8]) -> Option<(u8, &[u8])>
    ensures shorter { IfSome result (λ p. length p.1.now < length text.now) }
{
    let [b'\\', b'x', high, low, rest @ ..] = text else {
        return None;
    };
    let high = digit_of(*high)?;
    let byte = high.saturating_mul(16).saturating_add(digit_of(*low)?);
    if byte < NO_ASCII {
        return None;
    }
    Some((byte, rest))
}

/// Returns true if a terminal shows a character as itself. Others would be invisible, or change the
/// place or the direction of those around them.
fn is_shown(character: char) -> bool {
    !matches!(
        u32::from(character),
        0..=0xa0
            | 0xad
            | 0x61c
            | 0x180e
            | 0x200b..=0x200f
            | 0x2028..=0x202e
            | 0x2060..=0x206f
            | 0xe000..=0xf8ff
            | 0xfdd0..=0xfdef
            | 0xfeff
            | 0xfff0..=0xffff
            | 0xe0000..=0x10_ffff
    )
}

/// Returns true if bytes are UTF-8, and a terminal shows each of their characters.
fn are_shown(bytes: &[u8]) -> bool {
    let Ok(text) = std::str::from_utf8(bytes) else {
        return false;
    };
    for character in text.chars() {
        if !is_shown(character) {
            return false;
        }
    }
    true
}

/// Appends bytes that are no ASCII: as they are if a terminal shows them, else escaped.
fn push_run(text: &mut Vec<u8>, run: &[u8]) -> Result<(), AllocError> {
    if are_shown(run) {
        text.extend_from_slice(run)
    } else {
        push_escaped(text, run)
    }
}

/// Returns an answer of the console as a terminal shows it. Escapes of bytes that are no ASCII and
/// follow one another are one word of it, which is UTF-8 or stays escaped.
pub(crate) fn shown_text(alloc: Global, answer: &[u8]) -> Result<Vec<u8>, AllocError> {
    let mut text = Vec::new(alloc);
    let mut run = Vec::new(alloc);
    let mut left = answer;
    while let Some((first, rest)) = left.split_first() {
        if let Some((byte, after)) = escape_at(left) {
            run.push(byte)?;
            left = after;
        } else {
            push_run(&mut text, &run)?;
            run.clear();
            text.push(*first)?;
            left = rest;
        }
    }
    push_run(&mut text, &run)?;
    Ok(text)
}

/// A writer of the answers of a session. At a terminal it shows names that are UTF-8 as they are. The
/// bootstrap and what follows it are written as they come.
#[derive(Drop)]
pub struct NamesWriter<W> {
    pub inner: W,
    alloc: Global,
    /// True if a terminal shows what is written.
    is_shown: bool,
    /// True once the bootstrap was written.
    is_planned: bool,
}

impl<W: Flush> NamesWriter<W> {
    /// Creates a writer that writes as this one does; except for names, if a terminal shows them.
    pub fn new(alloc: Global, inner: W, is_shown: bool) -> NamesWriter<W>
        ensures inner { result.inner ≡ inner }
        ensures shown { result.is_shown ≡ is_shown }
    {
        NamesWriter {
            inner,
            alloc,
            is_shown,
            is_planned: false,
        }
    }

    /// Writes a text as a terminal shows it. Without memory it stays as it is.
    fn write_shown(&mut self, text: &[u8]) -> io::Result<()>
        ensures shown { self.new.is_shown ≡ self.old.is_shown }
    {
        self.is_planned = self.is_planned || text.starts_with(VOLUME);
        if self.is_planned {
            return self.inner.write_all(text);
        }
        match shown_text(self.alloc, text) {
            Ok(shown) => self.inner.write_all(&shown),
            Err(_) => self.inner.write_all(text),
        }
    }
}

impl<W: Flush> Write for NamesWriter<W> {
    ghost contents = { λ w. cond w.is_shown None (W.contents w.inner) };

    fn write(&mut self, buf: &[u8]) -> io::Result<usize> {
        if !self.is_shown {
            return self.inner.write(buf);
        }
        self.write_shown(buf)?;
        Ok(buf.len())
    }

    fn flush(&mut self) -> io::Result<()>
        ensures bytes { Keeps (cond self.old.is_shown None (W.contents self.old.inner)) (cond self.new.is_shown None (W.contents self.new.inner)) }
        ensures flushed { OnOk result (W.is_flushed self.new.inner) }
    {
        self.inner.flush_all()
    }

    fn write_all(&mut self, buf: &[u8]) -> io::Result<()> {
        if !self.is_shown {
            return self.inner.write_all(buf);
        }
        self.write_shown(buf)
    }
}

/// Returns a line that was typed with the bytes that its escapes stand for, if it has some and is one
/// line then. Without memory it stays as it was typed.
pub(crate) fn typed(alloc: Global, line: &[u8]) -> Option<Vec<u8>> {
    if !line.contains(&b'\\') {
        return None;
    }
    let front = without_feed(line);
    let mut bytes = unescape(alloc, front).ok()?;
    if bytes.contains(&b'\n') {
        return None;
    }
    if line.ends_with(b"\n") {
        bytes.push(b'\n').ok()?;
    }
    Some(bytes)
}
