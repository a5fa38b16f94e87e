ghost use Rattle.std.specs.Prelude.{◌≡◌, ℕ, ◌<◌, ◌≤◌, List, Option, Err, IfOk};
ghost use Rattle.br_model.specs.Volume.{Volume};
ghost use Rattle.br_volume.specs.Drive.{AnswersOver, OnlyGrows, IsSized};
ghost use Rattle.br_volume.specs.declared.fault.DriveFault.TheVariants.{Fault};

use crate::fault::DriveFault;
use br_types::VolName;

/// What a drive read from a volume.
#[derive(Clone, Copy, Debug, PartialEq)]
pub enum Got {
    /// A block of this number of bytes, which are in the buffer.
    Block(u32),
    /// The address is the volume's end or past it.
    End,
}

/// A reader of volumes, by name and address.
pub trait Drive {
    /// The volumes that the drive shows, if it tells them. A drive over memory does, one over the
    /// system's files does not.
    ghost shows: { Self → Option (List Volume) };

    /// The number of calls that have failed.
    ghost failures: { Self → ℕ };

    /// Reads a block of a volume into `buf` and replaces its contents: `size` bytes from `addr`,
    /// or all that are left if these are fewer. At the volume's end or past it `buf` is empty.
    /// After a refusal `buf` may contain anything.
    ///
    /// # Errors
    ///
    /// `UnknownVolume` if the drive does not show the volume, `Fault` if it failed, `Memory` if
    /// `buf` could not grow.
    fn block_at(
        &mut self,
        vol: &VolName,
        addr: u64,
        size: u32,
        buf: &mut Vec<u8>,
    ) -> Result<Got, DriveFault>
        ensures answers { AnswersOver (shows self.new) vol.now (addr, size) buf.new.items result }
        ensures sized { IfOk result (IsSized addr size buf.new.items) }
        ensures grows { OnlyGrows (shows self.old) (shows self.new) }
        ensures counted { failures self.old ≤ failures self.new }
        ensures failed { result ≡ Err Fault → failures self.old < failures self.new };
}
