//! A drive that reports its progress.
ghost use Rattle.std.specs.Prelude.{◌≡◌, ◌<◌, ◌≤◌, Err, IfOk};
ghost use Rattle.br_volume.specs.Drive.{AnswersOver, OnlyGrows, IsSized};
ghost use Rattle.br_volume.specs.declared.fault.DriveFault.TheVariants.{Fault};

use crate::gauge::Gauge;
use br_types::VolName;
use br_volume::{Drive, DriveFault, Got};

/// A drive that reads as another one does, and reports its progress to a gauge.
#[derive(Drop)]
pub struct WatchedDrive<'g, 'r, D> {
    pub inner: D,
    gauge: &'g Gauge<'r>,
    /// The address that was read last.
    at: u64,
}

impl<'g, 'r, D> WatchedDrive<'g, 'r, D> {
    /// Creates a drive that reads as this one does.
    pub fn new(inner: D, gauge: &'g Gauge<'r>) -> WatchedDrive<'g, 'r, D>
        ensures { result.inner ≡ inner }
    {
        WatchedDrive {
            inner,
            gauge,
            at: 0,
        }
    }
}

/// Returns the number of bytes from an address to the next one of a drive. An address below the
/// previous one is in another volume, or in one that is read again.
fn passed(before: u64, addr: u64) -> u64 {
    if addr < before { addr } else { addr - before }
}

impl<'g, 'r, D: Drive> Drive for WatchedDrive<'g, 'r, D> {
    ghost shows = { λ d. D.shows d.inner };

    ghost failures = { λ d. D.failures d.inner };

    fn block_at(
        &mut self,
        vol: &VolName,
        addr: u64,
        size: u32,
        buf: &mut Vec<u8>,
    ) -> Result<Got, DriveFault> {
        if self.gauge.is_shown() {
            self.gauge.note_read(passed(self.at, addr));
            self.at = addr;
        }
        self.inner.block_at(vol, addr, size, buf)
    }
}
