//! Drives over the volumes of a shelf. They fail, grow or change.
//!
//! A field of drives is `-` for none, or words with `,` between them: `sound`; the number of the
//! call from which a drive fails, counted from 1; `k` for the number of the row; `grows:AB` for a
//! drive that appends a byte to these volumes, one before each call after the first; or
//! `turned:20.63` for one whose volumes change after this number of calls, at this place of each
//! read. `16*sound` are sixteen of that drive.
ghost use Rattle.std.specs.Prelude.{◌≡◌, None, true};
ghost use Rattle.br_pool.specs.Pool.{AreDrives};

use crate::shelf::Shelf;
use br_test_support::Case;
use br_types::VolName;
use br_volume::{Drive, DriveFault, Got, MemDrive};
use std::alloc::AllocError;

/// A drive whose volumes change after this number of calls: the byte at this place of each read
/// differs.
#[derive(Drop)]
pub(crate) struct Turned {
    drive: MemDrive,
    calls: u64,
    place: usize,
}

impl Drive for Turned {
    ghost shows = { λ _. None };

    ghost failures = { λ t. t.drive.failures };

    fn block_at(
        &mut self,
        vol: &VolName,
        addr: u64,
        size: u32,
        buf: &mut Vec<u8>,
    ) -> Result<Got, DriveFault> {
        let got = self.drive.block_at(vol, addr, size, buf);
        if self.calls > 0 {
            self.calls -= 1;
        } else if let Some(byte) = buf.get_mut(self.place) {
            *byte ^= 1;
        }
        got
    }
}

/// Returns whether a pool runs over this number of drives.
pub(crate) fn are_drives(drives: &[Turned]) -> bool
    ensures { result ≡ true → AreDrives drives.now }
{
    !drives.is_empty() && drives.len() <= 16
}

/// Makes a tail of one byte for each of these volumes, whose names are one letter long.
fn tails_of(case: &mut Case, names: &str) -> Vec<(VolName, Vec<u8>)> {
    let mut tails = Vec::new(case.alloc());
    for name in names.bytes() {
        match (
            VolName::new(case.alloc(), &[name]),
            Vec::from_slice(case.alloc(), b"\0"),
        ) {
            (Ok(vol), Ok(tail)) => case.done(tails.push((vol, tail)).map_err(AllocError::from)),
            _ => case.fail("a field is no name of a volume"),
        }
    }
    tails
}

/// Makes the drive in memory for a word.
fn memory_of(case: &mut Case, shelf: &Shelf, k: u64, word: &str) -> MemDrive {
    let volumes = shelf.volumes(case);
    if let Some(names) = word.strip_prefix("grows:") {
        return MemDrive::growing(volumes, tails_of(case, names));
    }
    match word {
        "sound" => MemDrive::new(volumes),
        "k" => MemDrive::failing_from(volumes, k),
        _ => MemDrive::failing_from(volumes, case.u64_of(word)),
    }
}

/// Makes the drive of a word.
fn drive_of(case: &mut Case, shelf: &Shelf, k: u64, word: &str) -> Turned {
    match word.strip_prefix("turned:") {
        Some(fields) => {
            let (calls, place) = case.split(fields, '.');
            Turned {
                drive: memory_of(case, shelf, k, "sound"),
                calls: case.u64_of(calls),
                place: case.u32_of(place) as usize,
            }
        }
        None => Turned {
            drive: memory_of(case, shelf, k, word),
            calls: u64::MAX,
            place: 0,
        },
    }
}

/// Appends the drives of a word.
fn push_drives(case: &mut Case, shelf: &Shelf, k: u64, drives: &mut Vec<Turned>, word: &str) {
    let (count, word) = word.split_once('*').unwrap_or(("1", word));
    for _drive in 0..case.u32_of(count) {
        let drive = drive_of(case, shelf, k, word);
        case.done(drives.push(drive).map_err(AllocError::from));
    }
}

/// Makes the drives of a field.
pub(crate) fn drives_of(case: &mut Case, shelf: &Shelf, k: u64, field: &str) -> Vec<Turned> {
    let mut drives = Vec::new(case.alloc());
    if field != "-" {
        for word in field.split(',') {
            push_drives(case, shelf, k, &mut drives, word);
        }
    }
    drives
}
