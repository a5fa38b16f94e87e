//! Tar streams.
//!
//! A file is `PATH;TYPE;NUMBERS;LINK;BYTES`, and `!NUMBER` is a fault.

use crate::shelf::Shelf;
use br_attr::Stat;
use br_join::{FileBytes, Item, Outcome};
use br_sink::Sink;
use br_sink_tar::{TarSink, write_tar};
use br_test_support::Case;
use br_types::{FileIndex, FileKey, Path, SessionKey};
use std::alloc::AllocError;
use std::thread::Threads;

/// Reads a file.
fn item_of(case: &mut Case, shelf: &Shelf, fields: [&str; 5]) -> Option<Item> {
    let [path, kind, stat, link, bytes] = fields;
    let path = shelf.text_of(case, path);
    let stat = shelf.text_of(case, stat);
    let bytes = shelf.text_of(case, bytes);
    Some(Item {
        path: Path::new(case.alloc(), &path).ok()?,
        kind: case.u32_of(kind),
        stat: Stat::read(&stat).ok()?,
        link: shelf.text_of(case, link),
        bytes: FileBytes::new(case.alloc(), bytes).ok()?,
        skipped: 0,
    })
}

/// Reads a file or a fault.
fn outcome_of(case: &mut Case, shelf: &Shelf, field: &str) -> Option<Outcome> {
    if let Some(number) = field.strip_prefix('!') {
        let number = case.u32_of(number);
        return Some(Outcome::Fault { number, stream: 0 });
    }
    let parts: Vec<&str> = field.split(';').collect(case.alloc()).ok()?;
    match parts.as_slice() {
        [path, kind, stat, link, bytes] => {
            let item = item_of(case, shelf, [*path, *kind, *stat, *link, *bytes])?;
            Some(Outcome::File(item))
        }
        _ => None,
    }
}

/// Reads files and faults. All have the same key.
fn outcomes_of(case: &mut Case, shelf: &Shelf, fields: &[&str]) -> Vec<(FileKey, Outcome)> {
    let session = SessionKey { id: 1, time: 2 };
    let mut outcomes = Vec::new(case.alloc());
    for field in fields {
        match (FileIndex::new(1), outcome_of(case, shelf, field)) {
            (Some(index), Some(outcome)) => {
                let key = FileKey { session, index };
                case.done(outcomes.push((key, outcome)).map_err(AllocError::from));
            }
            _ => case.fail("a field is no file"),
        }
    }
    outcomes
}

/// Puts files into the sink, one after another, and prints the number of those without an entry.
fn put_each(case: &mut Case, sink: &mut TarSink<Vec<u8>>, outcomes: &[(FileKey, Outcome)]) {
    for (_key, outcome) in outcomes {
        if let Outcome::File(item) = outcome
            && sink.put(item).is_err()
        {
            case.fail("a file is refused");
        }
    }
    case.number(sink.left_out());
    case.text(" left out ");
}

/// Prints the length of a stream, and its MD5 digest.
fn push_stream(case: &mut Case, stream: Vec<u8>, is_whole: bool) {
    if !is_whole {
        case.fail("the stream is refused");
    }
    match FileBytes::new(case.alloc(), stream) {
        Ok(stream) => {
            case.number(stream.len());
            case.text(" ");
            case.bytes(&stream.digest());
        }
        Err(_fault) => case.fail("out of memory"),
    }
}

/// Writes the stream of files in one of the possible ways, and prints its length and digest.
pub(crate) fn run(
    case: &mut Case,
    threads: &(impl Threads + Sync),
    shelf: &Shelf,
    way: &str,
    files: &[&str],
) {
    let outcomes = outcomes_of(case, shelf, files);
    let writer = Vec::new(case.alloc());
    if way == "sink" {
        let mut sink = TarSink::new(case.alloc(), writer);
        put_each(case, &mut sink, &outcomes);
        let (stream, end) = sink.finish();
        push_stream(case, stream, end.is_ok());
    } else {
        let (stream, end) = write_tar(threads, case.alloc(), &outcomes, writer);
        push_stream(case, stream, end.is_ok());
    }
}
