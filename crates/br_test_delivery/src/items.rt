//! Files and faults.
//!
//! A file is `PATH,TYPE,BYTES`, or `PATH,TYPE,BYTES,NUMBERS,LINK,SKIPPED`; `!NUMBER:STREAM` is a fault.

use crate::texts::text_of;
use br_attr::Stat;
use br_join::{FileBytes, Item, Outcome};
use br_test_support::Case;
use br_types::{FileIndex, FileKey, Path, SessionKey};
use std::alloc::AllocError;

/// The numbers, the link and the skipped records of a file whose field has none.
const PLAIN: &str = "A_A_A_A_A_A_A_A_A_A_A_A_A,-,0";

/// Returns the key of the file with this index, of session 1, 100.
pub(crate) fn key_of(case: &mut Case, index: u32) -> Option<FileKey> {
    let session = SessionKey { id: 1, time: 100 };
    match FileIndex::new(index) {
        Some(index) => Some(FileKey { session, index }),
        None => {
            case.fail("a field is no index of a file");
            None
        }
    }
}

/// Reads a path.
fn path_of(case: &mut Case, field: &str) -> Option<Path> {
    let text = text_of(case, field);
    let path = Path::new(case.alloc(), &text).ok();
    if path.is_none() {
        case.fail("a field is no path");
    }
    path
}

/// Reads the bytes of a file.
fn file_bytes(case: &mut Case, field: &str) -> Option<FileBytes> {
    let text = text_of(case, field);
    let bytes = FileBytes::new(case.alloc(), text).ok();
    if bytes.is_none() {
        case.fail("out of memory");
    }
    bytes
}

/// Reads a file of this type; this number of its records was skipped.
fn item_with(
    case: &mut Case,
    (kind, skipped): (u32, u64),
    [path, bytes, stat, link]: [&str; 4],
) -> Option<Item> {
    let Ok(stat) = Stat::read(&text_of(case, stat)) else {
        case.fail("a field has no numbers of a file");
        return None;
    };
    let path = path_of(case, path)?;
    let bytes = file_bytes(case, bytes)?;
    let link = text_of(case, link);
    Some(Item {
        path,
        kind,
        stat,
        link,
        bytes,
        skipped,
    })
}

/// Reads a file.
pub(crate) fn item_of(case: &mut Case, field: &str) -> Option<Item> {
    let (path, rest) = case.split(field, ',');
    let (kind, rest) = case.split(rest, ',');
    let (bytes, rest) = rest.split_once(',').unwrap_or((rest, PLAIN));
    let (stat, rest) = case.split(rest, ',');
    let (link, skipped) = case.split(rest, ',');
    let numbers = (case.u32_of(kind), case.u64_of(skipped));
    item_with(case, numbers, [path, bytes, stat, link])
}

/// Reads a file or a fault.
fn outcome_of(case: &mut Case, field: &str) -> Option<Outcome> {
    let Some(fault) = field.strip_prefix('!') else {
        return Some(Outcome::File(item_of(case, field)?));
    };
    let (number, stream) = case.split(fault, ':');
    Some(Outcome::Fault {
        number: case.u32_of(number),
        stream: case.u32_of(stream),
    })
}

/// Reads outcomes; the indexes of their files begin with 1.
pub(crate) fn outcomes_of(case: &mut Case, field: &str) -> Vec<(FileKey, Outcome)> {
    let mut outcomes = Vec::new(case.alloc());
    let mut index = 1u32;
    for part in field.split(';') {
        if let Some(key) = key_of(case, index)
            && let Some(outcome) = outcome_of(case, part)
        {
            case.done(outcomes.push((key, outcome)).map_err(AllocError::from));
        }
        index = index.saturating_add(1);
    }
    outcomes
}
