//! The outcomes that are no files, noted as their lines of the manifest pass.

ghost use Rattle.std.specs.Prelude.{◌≡◌, ◌++◌, OnOk};
ghost use Rattle.br_cli_progress.specs.Telling.{key_text};

use crate::outcome_line::Why;
use br_cli_common::push_words;
use br_types::{FileKey, push_number};
use std::alloc::{AllocError, Global};

/// The greatest number of outcomes that the line of one number names.
const TOLD_LEN: usize = 8;

/// An outcome that is no file, and the stream that is not supported.
#[derive(Clone, Copy)]
struct PassedFault {
    key: FileKey,
    stream: Option<u32>,
}

impl PassedFault {
    /// Appends its key, and its stream if it has one.
    fn push(&self, text: &mut Vec<u8>) -> Result<(), AllocError> {
        push_key(text, self.key)?;
        if let Some(stream) = self.stream {
            text.extend_from_slice(b" (stream ")?;
            push_number(text, u64::from(stream))?;
            text.extend_from_slice(b")")?;
        }
        Ok(())
    }
}

/// Appends VolSessionId, VolSessionTime and FileIndex.
pub fn push_key(text: &mut Vec<u8>, key: FileKey) -> Result<(), AllocError>
    ensures { OnOk result (text.new.items ≡ text.old.items ++ key_text key) }
{
    push_number(text, u64::from(key.session.id))?;
    text.push(b' ')?;
    push_number(text, u64::from(key.session.time))?;
    text.push(b' ')?;
    push_number(text, u64::from(key.index.get()))
}

/// The outcomes of one number.
#[derive(Drop)]
struct FaultTally {
    number: u32,
    count: u64,
    /// The first of them.
    told: Vec<PassedFault>,
    /// The keys of all of them, except those for which memory ran out.
    keys: Vec<FileKey>,
}

impl FaultTally {
    /// Notes an outcome. It is counted even if memory runs out for its key.
    fn note(&mut self, told: PassedFault) -> Result<(), AllocError> {
        self.count = self.count.saturating_add(1);
        self.keys.push(told.key)?;
        if self.told.len() < TOLD_LEN {
            self.told.push(told)?;
        }
        Ok(())
    }

    /// Appends the first of them, with commas between them.
    fn push_told(&self, text: &mut Vec<u8>) -> Result<(), AllocError> {
        for (place, told) in self.told.iter().enumerate() {
            if place > 0 {
                text.extend_from_slice(b", ")?;
            }
            told.push(text)?;
        }
        Ok(())
    }

    /// Appends the count and the first of them, and what the number means.
    fn push(&self, text: &mut Vec<u8>) -> Result<(), AllocError> {
        text.extend_from_slice(b"outcome ")?;
        push_number(text, u64::from(self.number))?;
        text.extend_from_slice(b" of ")?;
        push_number(text, self.count)?;
        text.extend_from_slice(if self.count == 1 {
            b" file: "
        } else {
            b" files: "
        })?;
        self.push_told(text)?;
        if self.count > self.told.len() as u64 {
            text.extend_from_slice(b", ..")?;
        }
        text.extend_from_slice(b"\n")?;
        push_words(text, self.number)
    }
}

/// The outcomes that are no files: for each number the count, the first eight of them, and the keys
/// of all.
#[derive(Drop)]
pub struct Faults {
    kinds: Vec<FaultTally>,
}

impl Faults {
    /// Creates the notes without outcomes.
    pub(crate) fn new(alloc: Global) -> Faults {
        Faults {
            kinds: Vec::new(alloc),
        }
    }

    /// Notes an outcome that is no file. It is counted even if memory runs out for its key.
    pub(crate) fn note(&mut self, alloc: Global, key: FileKey, why: Why) -> Result<(), AllocError> {
        let told = PassedFault {
            key,
            stream: why.stream,
        };
        for kind in &mut self.kinds {
            if kind.number == why.number {
                return kind.note(told);
            }
        }
        self.kinds.push(FaultTally {
            number: why.number,
            count: 0,
            told: Vec::new(alloc),
            keys: Vec::new(alloc),
        })?;
        match self.kinds.last_mut() {
            Some(kind) => kind.note(told),
            None => Ok(()),
        }
    }

    /// Returns true if each outcome is a file.
    pub fn are_none(&self) -> bool {
        self.kinds.is_empty()
    }

    /// Returns the keys of the outcomes, number by number. The numbers, and the keys of each, are
    /// in the order in which they were first noted.
    pub fn keys(&self, alloc: Global) -> Result<Vec<FileKey>, AllocError> {
        let mut keys = Vec::new(alloc);
        for kind in &self.kinds {
            keys.extend_from_slice(&kind.keys)?;
        }
        Ok(keys)
    }

    /// Appends for each number the count and the first outcomes, what it means and what to do next.
    pub fn push(&self, text: &mut Vec<u8>) -> Result<(), AllocError> {
        for kind in &self.kinds {
            kind.push(text)?;
        }
        Ok(())
    }
}
