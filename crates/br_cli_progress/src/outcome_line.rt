//! Lines of the manifest, read as they pass.

use br_types::{FileIndex, FileKey, SessionKey, read_number};

/// The first number of an outcome that is no file, and the last.
const NUMBERS: (u64, u64) = (60, 69);

/// Why an outcome is no file.
#[derive(Clone, Copy)]
pub(crate) struct Why {
    pub(crate) number: u32,
    /// The stream that is not supported, for 65.
    pub(crate) stream: Option<u32>,
}

/// The outcome in a line of the manifest.
#[derive(Clone, Copy)]
pub(crate) struct OutcomeLine {
    pub(crate) key: FileKey,
    /// Not about a file.
    pub(crate) why: Option<Why>,
}

/// Reads a number of 32 bits.
fn read_word(word: Option<&[u8]>) -> Option<u32> {
    let number = read_number(word?, u64::from(u32::MAX))?;
    u32::try_from(number).ok()
}

/// Reads a number of an outcome that is no file.
fn read_why(word: Option<&[u8]>) -> Option<u32> {
    let number = read_number(word?, NUMBERS.1)?;
    if number < NUMBERS.0 {
        return None;
    }
    u32::try_from(number).ok()
}

/// Reads VolSessionId, VolSessionTime and FileIndex.
fn read_key(id: Option<&[u8]>, time: Option<&[u8]>, index: Option<&[u8]>) -> Option<FileKey> {
    Some(FileKey {
        session: SessionKey {
            id: read_word(id)?,
            time: read_word(time)?,
        },
        index: FileIndex::new(read_word(index)?)?,
    })
}

impl OutcomeLine {
    /// Reads a line `F ID TIME INDEX ..`, `X ID TIME INDEX NUMBER` or one with a stream after the number.
    pub(crate) fn read(line: &[u8]) -> Option<OutcomeLine> {
        let mut words = line.split(|byte| *byte == b' ');
        let kind = words.next()?;
        let key = read_key(words.next(), words.next(), words.next())?;
        if kind == b"F".as_slice() {
            return Some(OutcomeLine { key, why: None });
        }
        if kind != b"X".as_slice() {
            return None;
        }
        let why = Why {
            number: read_why(words.next())?,
            stream: read_word(words.next()),
        };
        Some(OutcomeLine {
            key,
            why: Some(why),
        })
    }
}
