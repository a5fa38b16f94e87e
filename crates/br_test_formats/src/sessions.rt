//! Files that can be saved, and the blocks and the span that a long file is written as.
ghost use Rattle.std.specs.Prelude.{◌≡◌, true, []};
ghost use Rattle.br_block.specs.Building.{IsBlockLimit};
ghost use Rattle.br_session.specs.Outcome.{ArePlaces};

use crate::printing::shown;
use br_attr::Stat;
use br_session::{Place, SavedFile, SessionFault, Written, write_session};
use br_test_support::Case;
use br_types::{Path, SessionKey};
use std::alloc::AllocError;

/// Makes the file of the fields `PATH,TYPE,NUMBERS,LINK,BYTES,DIGEST`, if it can be saved.
fn made(case: &mut Case, fields: &[&str]) -> Option<Result<SavedFile, SessionFault>> {
    let [path, kind, numbers, link, bytes, digest] = fields else {
        return None;
    };
    let numbers = case.bytes_of(numbers);
    let (kind, stat) = (case.u32_of(kind), Stat::read(&numbers).ok()?);
    let path = Path::new(case.alloc(), path.as_bytes()).ok()?;
    let (link, bytes) = (case.bytes_of(link), case.bytes_of(bytes));
    let has_digest = *digest == "digest";
    Some(SavedFile::new(path, kind, stat, link, bytes, has_digest))
}

/// Makes the file of a field, if it can be saved.
fn file_of(case: &mut Case, field: &str) -> Option<Result<SavedFile, SessionFault>> {
    let fields: Result<Vec<&str>, AllocError> = field.split(',').collect(case.alloc());
    let file = match fields {
        Ok(fields) => made(case, &fields),
        Err(_fault) => None,
    };
    if file.is_none() {
        case.fail("a field is no file");
    }
    file
}

/// Makes a file, and prints whether it needs a digest.
fn file(case: &mut Case, field: &str) {
    match file_of(case, field) {
        Some(Ok(file)) => case.test(file.digest()),
        Some(Err(fault)) => case.refused(fault.number()),
        None => {}
    }
}

/// Returns one place, which takes all blocks.
fn one_place(case: &mut Case) -> Vec<Place> {
    let mut places = Vec::new(case.alloc());
    if let Some(vol) = case.vol_of("V") {
        let place = Place { vol, blocks: 0 };
        case.done(places.push(place).map_err(AllocError::from));
    }
    places
}

/// Returns whether it is one place.
fn is_one(places: &[Place]) -> bool
    ensures some { result ≡ true → places.now ≡ [] → ⊥ }
    ensures are { result ≡ true → ArePlaces places.now }
{
    match places {
        [_place] => true,
        _ => false,
    }
}

/// Prints bytes; if they are many, only the first and the last.
fn push_long(case: &mut Case, bytes: &[u8]) {
    match (bytes.get(..90), bytes.get(bytes.len().saturating_sub(16)..)) {
        (Some(front), Some(end)) if 200 < bytes.len() => {
            case.bytes(front);
            case.text("..");
            case.bytes(end);
        }
        _ => case.bytes(bytes),
    }
}

/// Prints the volume, the length and the bytes of each block of a session, and its spans.
fn push_written(case: &mut Case, written: &Written) {
    for (vol, bytes) in &written.blocks {
        case.bytes(vol.bytes());
        case.text(":");
        case.number(bytes.len() as u64);
        case.text(":");
        push_long(case, bytes);
        case.text(" ");
    }
    shown(case, &written.spans);
}

/// The header of a session: its number and time, and the greatest length of its blocks.
#[derive(Drop)]
pub(crate) struct Head {
    pub(crate) session: SessionKey,
    pub(crate) limit: u32,
    ghost bounds: { IsBlockLimit limit },
}

/// Makes such a header, if the limit is valid.
fn head_with(session: SessionKey, limit: u32) -> Option<Head> {
    if 64 <= limit && limit <= 64_512 {
        Some(Head { session, limit })
    } else {
        None
    }
}

/// Reads such a header as `ID:TIME:LIMIT`.
pub(crate) fn head_of(case: &mut Case, field: &str) -> Option<Head> {
    let (id, rest) = case.split(field, ':');
    let (time, limit) = case.split(rest, ':');
    let session = SessionKey {
        id: case.u32_of(id),
        time: case.u32_of(time),
    };
    let head = head_with(session, case.u32_of(limit));
    if head.is_none() {
        case.fail("a field has no limit of blocks");
    }
    head
}

/// Writes a session of files to a new volume, and prints its blocks and spans.
fn push_session(case: &mut Case, head: &Head, places: &[Place], files: &[SavedFile]) {
    if is_one(places) {
        let (alloc, starts) = (case.alloc(), Vec::new(case.alloc()));
        match write_session(alloc, files, head.session, head.limit, places, &starts) {
            Ok(written) => push_written(case, &written),
            Err(fault) => case.refused(fault.number()),
        }
    } else {
        case.fail("there is no place");
    }
}

/// Writes a session of a file, and prints its blocks and spans.
fn session(case: &mut Case, head: &str, field: &str) {
    let places = one_place(case);
    if let Some(head) = head_of(case, head)
        && let Some(Ok(file)) = file_of(case, field)
    {
        push_session(case, &head, &places, &[file]);
    }
}

/// Runs a call.
pub(crate) fn run(case: &mut Case, call: &[&str]) {
    match call {
        ["file", field] => file(case, field),
        ["write", head, field] => session(case, head, field),
        _ => case.fail("there is no such call"),
    }
}
