//! The files that a joiner makes from what is found of two pieces.

use crate::items::key_of;
use crate::matches::pieces_of;
use crate::texts::text_of;
use br_data::Data;
use br_join::{JoinFault, Joiner, Outcome};
use br_match::{Batch, Found, Hit, Spot};
use br_test_support::Case;
use br_types::FileKey;
use std::alloc::AllocError;
use std::sync::ArcSlice;
use std::thread::Threads;

/// Reads the data of a fragment.
fn data_of(case: &mut Case, field: &str) -> Option<Data> {
    let bytes = text_of(case, field);
    match ArcSlice::from_slice(case.alloc(), &bytes) {
        Ok(bytes) => Some(Data::new(bytes)),
        Err(_fault) => {
            case.fail("out of memory");
            None
        }
    }
}

/// Reads a fragment `INDEX:GROUP.ADDR.ORDINAL:STREAM:SIZE:BYTES`.
fn hit_of(case: &mut Case, field: &str) -> Option<Hit> {
    let (index, rest) = case.split(field, ':');
    let (spot, rest) = case.split(rest, ':');
    let (group, place) = case.split(spot, '.');
    let (addr, ordinal) = case.split(place, '.');
    let (stream, rest) = case.split(rest, ':');
    let (size, bytes) = case.split(rest, ':');
    let index = case.u32_of(index);
    let key = key_of(case, index)?;
    let spot = Spot {
        group: case.u32_of(group),
        addr: case.u64_of(addr),
        ordinal: case.u32_of(ordinal),
    };
    let (stream, size) = (case.i32_of(stream), case.u32_of(size));
    let held = data_of(case, bytes)?;
    Some(Hit {
        key,
        spot,
        stream,
        size,
        data: held,
    })
}

/// Reads fragments.
fn hits_of(case: &mut Case, field: &str) -> Vec<Hit> {
    let mut hits = Vec::new(case.alloc());
    if !field.is_empty() {
        for part in field.split(';') {
            if let Some(hit) = hit_of(case, part) {
                case.done(hits.push(hit).map_err(AllocError::from));
            }
        }
    }
    hits
}

/// Prints whether a joiner is ready.
fn push_ready(case: &mut Case, joiner: &Joiner) {
    case.text(if joiner.ready() { "ready " } else { "open " });
}

/// Prints the number of a refusal, the number of hits that are returned with it, and the data of
/// the last hit.
fn push_refused(case: &mut Case, fault: JoinFault, hits: &[Hit]) {
    case.refused(fault.number());
    case.text(" ");
    case.number(hits.len() as u64);
    case.text(" ");
    if let Some(last) = hits.last() {
        match last.data.held() {
            Some(bytes) => case.lines(bytes),
            None => case.text("left"),
        }
    }
}

/// Prints the index of a file, its path and its bytes.
fn push_file(case: &mut Case, key: FileKey, outcome: &Outcome) {
    case.number(u64::from(key.index.get()));
    case.text(": ");
    match outcome {
        Outcome::File(item) => {
            case.bytes(item.path.bytes());
            case.text(" ");
            case.made(item.bytes.to_vec(case.alloc()));
        }
        Outcome::Fault { .. } => case.text("fault"),
    }
    case.text(" ");
}

/// Prints the files that a joiner makes, if it is ready, or `let_go` if it does not hold all data.
fn push_files(case: &mut Case, threads: &(impl Threads + Sync), joiner: &mut Joiner) {
    if !joiner.ready() {
        return case.fail("a piece is open");
    }
    if !joiner.holds_all() {
        return case.text("let_go ");
    }
    match joiner.finish(threads) {
        Ok(outcomes) => {
            for (key, outcome) in &outcomes {
                push_file(case, *key, outcome);
            }
        }
        Err(_fault) => case.text("refused 1 "),
    }
}

/// Takes hits of a piece, alone or as one batch, or closes it.
fn take(case: &mut Case, joiner: &mut Joiner, call: &str, piece: u32, hits: Vec<Hit>) {
    match call {
        "take" => {
            if let Err(refused) = joiner.take(Found { piece, hits }) {
                case.text("piece ");
                case.numbers(&[i64::from(refused.value.piece)]);
                push_refused(case, refused.fault, &refused.value.hits);
            }
        }
        "batch" => {
            if let Err(refused) = joiner.take_batch(piece, Batch { hits }) {
                push_refused(case, refused.fault, &refused.value.hits);
            }
        }
        _ => {
            if let Err(fault) = joiner.close_piece(piece) {
                push_refused(case, fault, &[]);
            }
        }
    }
}

/// Takes, closes or finishes, as in `take:PIECE/HITS`, `batch:PIECE/HITS`, `close:PIECE/` or
/// `files`.
fn step(case: &mut Case, threads: &(impl Threads + Sync), joiner: &mut Joiner, field: &str) {
    if field == "files" {
        push_files(case, threads, joiner);
    } else {
        let (call, hits) = case.split(field, '/');
        let (call, piece) = case.split(call, ':');
        let piece = case.u32_of(piece);
        let hits = hits_of(case, hits);
        take(case, joiner, call, piece, hits);
    }
}

/// Takes steps with a joiner of the pieces 0 and 1, of the volumes A and B, that has room for a
/// number of bytes; `-` for any number. Prints before and after each step whether the joiner is
/// ready.
pub(crate) fn run(case: &mut Case, threads: &(impl Threads + Sync), call: &[&str]) {
    let [room, steps @ ..] = call else {
        return case.fail("a call has another number of fields");
    };
    let room = if *room == "-" {
        u64::MAX
    } else {
        case.u64_of(room)
    };
    let pieces = pieces_of(case, "Volume=A|Volume=B|");
    match Joiner::with_room(case.alloc(), &pieces, None, room) {
        Ok(joiner) => {
            let mut joiner = joiner;
            push_ready(case, &joiner);
            for field in steps {
                step(case, threads, &mut joiner, field);
                push_ready(case, &joiner);
            }
        }
        Err(_fault) => case.fail("out of memory"),
    }
}
