//! The texts and volumes that rows keep for those after them. A part `$NAME` of a field is the text
//! of that name.

use br_test_support::Case;
use br_types::VolName;
use std::alloc::{AllocError, Global};

/// The greatest number of bytes that are printed in full.
const MAX_SHOWN: usize = 10_000;

/// Texts, each after its name, and volumes.
#[derive(Drop)]
pub(crate) struct Shelf {
    texts: Vec<(Vec<u8>, Vec<u8>)>,
    volumes: Vec<(VolName, Vec<u8>)>,
}

/// Copies bytes.
fn copy_of(case: &mut Case, bytes: &[u8]) -> Vec<u8> {
    let mut copy = Vec::new(case.alloc());
    case.done(copy.extend_from_slice(bytes));
    copy
}

/// Appends a volume.
fn push_volume(case: &mut Case, volumes: &mut Vec<(VolName, Vec<u8>)>, vol: &[u8], bytes: Vec<u8>) {
    match VolName::new(case.alloc(), vol) {
        Ok(vol) => case.done(volumes.push((vol, bytes)).map_err(AllocError::from)),
        Err(_fault) => case.fail("a field is no name of a volume"),
    }
}

impl Shelf {
    /// Makes a shelf without texts and volumes.
    pub(crate) fn new(alloc: Global) -> Shelf {
        Shelf {
            texts: Vec::new(alloc),
            volumes: Vec::new(alloc),
        }
    }

    /// Appends a part of a text.
    fn push_part(&self, case: &mut Case, text: &mut Vec<u8>, part: &str) {
        let Some(name) = part.strip_prefix('$') else {
            let bytes = if part.contains('*') {
                case.bytes_of(part)
            } else {
                case.text_of(part)
            };
            return case.done(text.extend_from_slice(&bytes));
        };
        match self
            .texts
            .iter()
            .find(|named| named.0.as_slice() == name.as_bytes())
        {
            Some(found) => case.done(text.extend_from_slice(&found.1)),
            None => case.fail("there is no text of this name"),
        }
    }

    /// Reads a text.
    pub(crate) fn text_of(&self, case: &mut Case, field: &str) -> Vec<u8> {
        let mut text = Vec::new(case.alloc());
        for part in field.split('+') {
            self.push_part(case, &mut text, part);
        }
        text
    }

    /// Adds a text, and prints its length.
    pub(crate) fn add_text(&mut self, case: &mut Case, name: &str, text: &str) {
        let text = self.text_of(case, text);
        case.number(text.len() as u64);
        let name = copy_of(case, name.as_bytes());
        case.done(self.texts.push((name, text)).map_err(AllocError::from));
    }

    /// Replaces the volumes by those of fields `VOLUME:BYTES`, and prints their lengths.
    pub(crate) fn set_volumes(&mut self, case: &mut Case, fields: &[&str]) {
        let mut volumes = Vec::new(case.alloc());
        for field in fields {
            let (vol, bytes) = case.split(field, ':');
            let bytes = self.text_of(case, bytes);
            case.number(bytes.len() as u64);
            case.text(" ");
            push_volume(case, &mut volumes, vol.as_bytes(), bytes);
        }
        self.volumes = volumes;
    }

    /// Returns a copy of the volumes.
    pub(crate) fn volumes(&self, case: &mut Case) -> Vec<(VolName, Vec<u8>)> {
        let mut volumes = Vec::new(case.alloc());
        for (vol, bytes) in &self.volumes {
            let bytes = copy_of(case, bytes);
            push_volume(case, &mut volumes, vol.bytes(), bytes);
        }
        volumes
    }

    /// Prints the name of a text. Returns false if it has none.
    fn push_name(&self, case: &mut Case, text: &[u8]) -> bool {
        match self.texts.iter().find(|named| named.1.as_slice() == text) {
            Some(found) => {
                case.text("$");
                case.bytes(&found.0);
                true
            }
            None => false,
        }
    }

    /// Prints the name of a text, else the text, or its length if it is long; then a blank.
    pub(crate) fn push_text(&self, case: &mut Case, text: &[u8]) {
        if self.push_name(case, text) {
            case.text(" ");
        } else if text.len() > MAX_SHOWN {
            case.number(text.len() as u64);
            case.text(" bytes ");
        } else {
            case.lines(text);
        }
    }

    /// Prints the result of a call, or the name of that text.
    pub(crate) fn push_gave(&self, case: &mut Case, gave: &[u8]) {
        if !self.push_name(case, gave) {
            let done = case.out().extend_from_slice(gave);
            case.done(done);
        }
    }
}
