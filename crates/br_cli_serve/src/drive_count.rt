ghost use Rattle.std.specs.Prelude.{◌≡◌, ◌≤◌, length, IfOk};
ghost use Rattle.br_volume.specs.Memory.{volumes_of};
ghost use Rattle.br_pool.specs.Pool.{AreDrives};
ghost use Rattle.br_cli_serve.specs.DriveCount.{EachShows, drives_in_range, drives_spelled};

use crate::fixed_drive::FixedDrive;
use br_types::{VolName, read_number};
use std::alloc::{AllocError, Global};
use std::marker::Model;

/// The greatest number of drives.
const MAX_DRIVES: u64 = 16;

/// A number of drives, from 1 to 16.
#[derive(Clone, Copy)]
pub struct DriveCount {
    count: u64,
}

impl Model for DriveCount {
    ghost use Rattle.std.specs.Prelude.{ℕ, ◌≤◌};

    ghost Value = { ℕ };

    ghost view = { λ d. d.count };

    ghost invariant = { λ d. (1 ≤ d.count) × (d.count ≤ 16) };

    ghost inverse = { λ n. record { count = n } };
}

impl DriveCount {
    /// Returns the count of one drive.
    pub fn one() -> DriveCount
        ensures { result ≡ 1 }
    {
        DriveCount { count: 1 }
    }

    /// Returns the count of this number, if it is from 1 to 16.
    #[tactic(auto, unfolding(crate::specs::DriveCount::drives_in_range))]
    fn new(count: u64) -> Option<DriveCount>
        ensures { result ≡ drives_in_range count }
    {
        if 1 <= count && count <= MAX_DRIVES {
            Some(DriveCount { count })
        } else {
            None
        }
    }

    /// Reads a number from 1 to 16 in decimal, with any number of leading zeros. Returns `None` for
    /// any other text.
    #[tactic(auto, unfolding(crate::specs::DriveCount::drives_spelled))]
    pub fn read(text: &[u8]) -> Option<DriveCount>
        ensures { result ≡ drives_spelled text.now }
    {
        match read_number(text, MAX_DRIVES) {
            Some(count) => DriveCount::new(count),
            None => None,
        }
    }

    /// Returns the number.
    pub fn get(self) -> usize
        ensures same { result ≡ self }
        ensures from_one { 1 ≤ self }
        ensures to_sixteen { self ≤ 16 }
    {
        self.count as usize
    }
}

/// Returns `count` drives over these volumes.
pub fn drives_over<'v>(
    alloc: Global,
    volumes: &'v [(VolName, Vec<u8>)],
    count: DriveCount,
) -> Result<Vec<FixedDrive<'v>>, AllocError>
    ensures many { IfOk result (λ drives. length drives.items ≡ count) }
    ensures few { IfOk result (λ drives. AreDrives drives.items) }
    ensures each { IfOk result (λ drives. EachShows (volumes_of volumes.now) drives.items) }
{
    let mut drives = Vec::with_capacity(alloc, count.get())?;
    for _drive in 0..count.get() {
        drives.push_reserved(FixedDrive::new(volumes));
    }
    Ok(drives)
}
