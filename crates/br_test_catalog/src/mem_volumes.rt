//! Volumes in memory, of which a call may fail.

use br_types::VolName;
use br_volume::{FailedCalls, MemStore, VolumeFault, VolumeStore};

/// Volumes in memory, of which one call for a length fails, or one sync.
#[derive(Drop)]
pub(crate) struct MemVolumes {
    pub(crate) store: MemStore,
    /// The number of the call for a length that fails, counted from 1 and from now on; 0 if none does.
    length_fails_at: u64,
    /// The number of the sync that fails, counted in the same way.
    sync_fails_at: u64,
    failures: FailedCalls,
}

impl MemVolumes {
    /// Returns the volumes of a store. Their call for a length with the first number fails, counted
    /// from 1, and their sync with the second; none for 0.
    pub(crate) fn new(store: MemStore, length_fails_at: u64, sync_fails_at: u64) -> MemVolumes {
        MemVolumes {
            store,
            length_fails_at,
            sync_fails_at,
            failures: FailedCalls::none(),
        }
    }
}

impl VolumeStore for MemVolumes {
    ghost use Rattle.std.specs.Prelude.{Some};

    ghost holds = { λ s. Some s.store.volumes };

    ghost durable = { λ s. Some s.store.volumes };

    ghost failures = { λ s. s.failures };

    fn append(&mut self, vol: &VolName, bytes: &[u8]) -> Result<(), VolumeFault> {
        match self.store.append(vol, bytes) {
            Ok(()) => Ok(()),
            Err(fault) => {
                self.failures = self.failures.and(vol);
                Err(fault)
            }
        }
    }

    fn length(&mut self, vol: &VolName) -> Result<u64, VolumeFault> {
        let number = self.length_fails_at;
        self.length_fails_at = number.saturating_sub(1);
        if number == 1 {
            self.failures = self.failures.and(vol);
            return Err(VolumeFault::Failed);
        }
        self.store.length(vol)
    }

    fn sync(&mut self, vol: &VolName) -> Result<(), VolumeFault> {
        let number = self.sync_fails_at;
        self.sync_fails_at = number.saturating_sub(1);
        if number == 1 {
            self.failures = self.failures.and(vol);
            return Err(VolumeFault::Failed);
        }
        self.store.sync(vol)
    }
}
