//! Drives in memory.

use crate::printing::shown;
use br_test_support::Case;
use br_types::VolName;
use br_volume::{Drive, MemDrive};
use std::alloc::AllocError;

type Volumes = Vec<(VolName, Vec<u8>)>;

/// Appends the volume with these bytes of `NAME:BYTES`.
fn push_volume(case: &mut Case, volumes: &mut Volumes, field: &str) {
    let (name, bytes) = case.split(field, ':');
    let bytes = case.bytes_of(bytes);
    if let Some(name) = case.vol_of(name) {
        case.done(volumes.push((name, bytes)).map_err(AllocError::from));
    }
}

/// Makes volumes from a text as `V:BYTES,W:BYTES`; `-` for none.
fn volumes_of(case: &mut Case, field: &str) -> Volumes {
    let mut volumes = Vec::new(case.alloc());
    if field != "-" {
        for part in field.split(',') {
            push_volume(case, &mut volumes, part);
        }
    }
    volumes
}

/// Makes the drive of a kind over volumes: one that is whole, one that grows by tails, or one that
/// fails from its k-th call on.
pub(crate) fn drive_of(case: &mut Case, kind: &str, volumes: &str, tails: &str) -> MemDrive {
    let (volumes, tails) = (volumes_of(case, volumes), volumes_of(case, tails));
    match kind {
        "whole" => MemDrive::new(volumes),
        "growing" => MemDrive::growing(volumes, tails),
        k => MemDrive::failing_from(volumes, case.u64_of(k)),
    }
}

/// Prints the name and the bytes of each volume.
fn push_volumes(case: &mut Case, volumes: &[(VolName, Vec<u8>)]) {
    for (name, bytes) in volumes {
        case.bytes(name.bytes());
        case.text(":");
        case.bytes(bytes);
        case.text(" ");
    }
}

/// Reads `NAME:ADDR:SIZE` through the trait, and prints the result, and the buffer.
fn read(case: &mut Case, drive: &mut impl Drive, buf: &mut Vec<u8>, field: &str) {
    let (name, rest) = case.split(field, ':');
    let (addr, size) = case.split(rest, ':');
    let (addr, size) = (case.u64_of(addr), case.u32_of(size));
    if let Some(vol) = case.vol_of(name) {
        match drive.block_at(&vol, addr, size, buf) {
            Ok(got) => {
                shown(case, &got);
                case.bytes(buf);
            }
            Err(fault) => case.refused(fault.number()),
        }
        case.text(" ");
    }
}

/// Reads with one buffer, which is not empty at first, and prints the result of each read; then the
/// volumes that the drive returns and the number of bytes that it gave.
pub(crate) fn read_all(case: &mut Case, kind: &str, volumes: &str, tails: &str, reads: &[&str]) {
    let mut drive = drive_of(case, kind, volumes, tails);
    let mut buf = case.bytes_of("50*b");
    for field in reads {
        read(case, &mut drive, &mut buf, field);
    }
    let given = drive.bytes_read();
    push_volumes(case, &drive.into_volumes());
    case.text("gave ");
    case.number(given);
}
