//! The records of a volume that the pieces of a bootstrap find, and the course of a walk over the
//! volume.

use crate::texts::text_of;
use br_bsr::read_bootstrap;
use br_match::{Hit, PieceFault, Walk, match_piece};
use br_piece::{Piece, split};
use br_test_support::Case;
use br_types::VolName;
use br_volume::MemDrive;
use std::alloc::AllocError;
use std::io::Write;

/// Appends a volume.
fn push_volume(case: &mut Case, volumes: &mut Vec<(VolName, Vec<u8>)>, name: &str, bytes: &str) {
    let bytes = text_of(case, bytes);
    if let Some(vol) = case.vol_of(name) {
        case.done(volumes.push((vol, bytes)).map_err(AllocError::from));
    }
}

/// Makes a drive over a volume V1 with these bytes, and an empty volume E. It fails from its `k`-th
/// call on; `-` for one that never does.
fn drive_of(case: &mut Case, k: &str, bytes: &str) -> MemDrive {
    let mut volumes = Vec::new(case.alloc());
    push_volume(case, &mut volumes, "V1", bytes);
    push_volume(case, &mut volumes, "E", "-");
    if k == "-" {
        MemDrive::new(volumes)
    } else {
        MemDrive::failing_from(volumes, case.u64_of(k))
    }
}

/// Reads the pieces of a bootstrap.
pub(crate) fn pieces_of(case: &mut Case, text: &str) -> Vec<Piece> {
    let text = text_of(case, text);
    let Ok(bootstrap) = read_bootstrap(case.alloc(), &text) else {
        case.fail("a field is no bootstrap");
        return Vec::new(case.alloc());
    };
    let pieces = split(case.alloc(), &bootstrap).ok();
    if pieces.is_none() {
        case.fail("out of memory");
    }
    pieces.unwrap_or(Vec::new(case.alloc()))
}

/// Prints the number, the volume and the address of a refusal, or in words what is wrong.
fn push_fault(case: &mut Case, shown: &str, fault: &PieceFault) {
    if shown == "words" {
        if write!(case.out(), "{fault}; ").is_err() {
            case.fail("out of memory");
        }
        return;
    }
    case.refused(fault.number());
    case.text(" ");
    if let Some(vol) = fault.vol() {
        case.bytes(vol.bytes());
    }
    case.text(" ");
    case.number_or_none(fault.addr());
    case.text(" ");
}

/// Prints group, address and ordinal of a hit.
fn push_spot(case: &mut Case, hit: &Hit) {
    let spot = hit.spot;
    if write!(case.out(), "{}:{}:{} ", spot.group, spot.addr, spot.ordinal).is_err() {
        case.fail("out of memory");
    }
}

/// Prints the number of a piece and its hits, unless `bytes` are shown.
fn push_piece(case: &mut Case, shown: &str, drive: &mut MemDrive, piece: &Piece) {
    match match_piece(case.alloc(), piece, drive) {
        Ok(found) => {
            if found.piece != piece.number {
                case.fail("what is found is of another piece");
            }
            case.number(u64::from(found.piece));
            case.text(": ");
            for hit in &found.hits {
                if shown != "bytes" {
                    push_spot(case, hit);
                }
            }
        }
        Err(fault) => push_fault(case, shown, &fault),
    }
}

/// Prints what the pieces of a bootstrap find; for `bytes` the number of bytes that a drive gives,
/// and for `failing K` the spots on one that fails.
pub(crate) fn found(case: &mut Case, name: &str, call: &[&str]) {
    let [first, bytes, text] = call else {
        return case.fail("a call has another number of fields");
    };
    let k = if name == "failing" { *first } else { "-" };
    let shown = if name == "failing" { "spots" } else { *first };
    let mut drive = drive_of(case, k, bytes);
    for piece in &pieces_of(case, text) {
        push_piece(case, shown, &mut drive, piece);
    }
    if shown == "bytes" {
        case.number(drive.bytes_read());
    }
}

/// Prints what a piece 3 of V1 without groups finds.
pub(crate) fn bare(case: &mut Case, call: &[&str]) {
    let [bytes] = call else {
        return case.fail("a call has another number of fields");
    };
    let mut drive = drive_of(case, "-", bytes);
    if let Some(vol) = case.vol_of("V1") {
        let groups = Vec::new(case.alloc());
        let piece = Piece {
            number: 3,
            vol,
            groups,
        };
        push_piece(case, "spots", &mut drive, &piece);
    }
}

/// Prints the number of hits of a walk's next block, and the address after it.
fn push_step(case: &mut Case, walk: &mut Walk<'_>, drive: &mut MemDrive) {
    let mut buf = Vec::new(case.alloc());
    match walk.next(case.alloc(), drive, &mut buf) {
        Ok(Some(batch)) => case.number(batch.hits.len() as u64),
        Ok(None) => case.text("end"),
        Err(fault) => case.refused(fault.number()),
    }
    case.text("@");
    case.number(walk.addr());
    case.text(" ");
}

/// Runs a walk from an address on, or a new one. Prints for five calls the number of hits, and the
/// address before the first call and after each.
fn push_walk(case: &mut Case, from: &str, drive: &mut MemDrive, piece: &Piece) {
    let walk = match from {
        "new" => Walk::new(case.alloc(), piece),
        addr => Walk::resume(case.alloc(), piece, case.u64_of(addr)),
    };
    match walk {
        Ok(walk) => {
            let mut walk = walk;
            case.text("@");
            case.number(walk.addr());
            case.text(" ");
            for _ in 0..5 {
                push_step(case, &mut walk, drive);
            }
        }
        Err(_fault) => case.fail("out of memory"),
    }
}

/// Runs a walk by the first piece of a bootstrap.
pub(crate) fn walk(case: &mut Case, call: &[&str]) {
    let [from, bytes, text] = call else {
        return case.fail("a call has another number of fields");
    };
    let mut drive = drive_of(case, "-", bytes);
    let pieces = pieces_of(case, text);
    match pieces.first() {
        Some(piece) => push_walk(case, from, &mut drive, piece),
        None => case.fail("there is no piece"),
    }
}
