ghost use Rattle.std.specs.Prelude.{◌≡◌, ◌<◌, ◌≤◌, Err, IfOk, Some, vec_capacity};
ghost use Rattle.br_volume.specs.Drive.{AnswersOver, OnlyGrows, IsSized};
ghost use Rattle.br_volume.specs.declared.fault.DriveFault.TheVariants.{Memory, Fault};
ghost use Rattle.br_volume.specs.Memory.{volumes_of};

use crate::drive::{Drive, Got};
use crate::fault::DriveFault;
use crate::mem::read_from;
use br_types::VolName;
use std::marker::Model;

/// A drive over volumes that their owner keeps. It never fails.
#[derive(Drop)]
pub struct BorrowedDrive<'v> {
    volumes: &'v [(VolName, Vec<u8>)],
}

impl<'v> Model for BorrowedDrive<'v> {
    ghost use Rattle.std.specs.Prelude.{List};
    ghost use Rattle.br_model.specs.Volume.{Volume};
    ghost use Rattle.br_volume.specs.Memory.{volumes_of};

    ghost Value = { List Volume };

    ghost view = { λ d. volumes_of d.volumes.now };
}

impl<'v> BorrowedDrive<'v> {
    /// Returns a drive that shows these volumes. Of two volumes with one name it shows the first.
    pub fn new(volumes: &'v [(VolName, Vec<u8>)]) -> BorrowedDrive<'v>
        ensures { result ≡ volumes_of volumes.now }
    {
        BorrowedDrive { volumes }
    }
}

impl<'v> Drive for BorrowedDrive<'v> {
    ghost use Rattle.std.specs.Prelude.{Some};

    ghost shows = { λ d. Some d };

    ghost failures = { λ d. 0 };

    /// Reads a block. Takes no memory if `buf` has room for `size` bytes.
    fn block_at(
        &mut self,
        vol: &VolName,
        addr: u64,
        size: u32,
        buf: &mut Vec<u8>,
    ) -> Result<Got, DriveFault>
        ensures answers { AnswersOver (Some self.new) vol.now (addr, size) buf.new.items result }
        ensures sized { IfOk result (IsSized addr size buf.new.items) }
        ensures grows { OnlyGrows (Some self.old) (Some self.new) }
        ensures counted { 0 ≤ 0 }
        ensures failed { result ≡ Err Fault → 0 < 0 }
        ensures same { self.new ≡ self.old }
        ensures keeps_room { vec_capacity buf.old ≤ vec_capacity buf.new }
        ensures has_room { size ≤ vec_capacity buf.old → result ≡ Err Memory → ⊥ }
    {
        read_from(self.volumes, vol, addr, size, buf)
    }
}
