//! Restores over the volumes in a folder of the system, and their watchers.
ghost use Rattle.std.specs.Prelude.{◌≡◌, is_some, length, IfOk};
ghost use Rattle.br_volume.specs.HostDrives.{AreOver};

use crate::watched_restore::{watched_drives, watched_sink};
use br_cli_progress::{Gauge, WatchedDrive, WatchedSink};
use br_engine::{Budget, Restore};
use br_volume::{HostDrive, drives_over};
use std::alloc::AllocError;

/// Returns a restore by `count` drives over the volumes in a folder, into a sink if there is one. `memory` is the
/// number of bytes of data that it holds in memory.
pub fn restore_over<'r, S: Drop>(
    rt: &'r HostRuntime,
    volumes: &str,
    count: usize,
    memory: u64,
    sink: Option<S>,
) -> Result<Restore<HostDrive<'r>, S>, AllocError>
    ensures memory { IfOk result (λ restore. restore.budget.room ≡ memory) }
    ensures drives { IfOk result (λ restore. length restore.drives.items ≡ count) }
    ensures volumes { IfOk result (λ restore. AreOver volumes.now restore.drives.items) }
    ensures sink { IfOk result (λ restore. restore.sink ≡ sink) }
{
    let drives = drives_over(rt, volumes, count)?;
    let budget = Budget {
        alloc: rt.alloc(),
        room: memory,
    };
    Ok(Restore {
        budget,
        drives,
        sink,
    })
}

/// Returns the same restore over drives that are watched.
pub fn with_watched_drives<'g, 'r, D: Drop, S: Drop>(
    restore: Restore<D, S>,
    gauge: &'g Gauge<'r>,
) -> Result<Restore<WatchedDrive<'g, 'r, D>, S>, AllocError>
    ensures budget { IfOk result (λ watched. watched.budget ≡ restore.budget) }
    ensures many { IfOk result (λ watched. length watched.drives.items ≡ length restore.drives.items) }
    ensures sink { IfOk result (λ watched. watched.sink ≡ restore.sink) }
{
    let Restore {
        budget,
        drives,
        sink,
    } = restore;
    let drives = watched_drives(budget.alloc, drives, gauge)?;
    Ok(Restore {
        budget,
        drives,
        sink,
    })
}

/// Returns the same restore into a sink that is watched.
pub fn with_watched_sink<'g, 'r, D: Drop, S: Drop>(
    restore: Restore<D, S>,
    gauge: &'g Gauge<'r>,
) -> Restore<D, WatchedSink<'g, 'r, S>>
    ensures budget { result.budget ≡ restore.budget }
    ensures drives { result.drives ≡ restore.drives }
    ensures sink { is_some result.sink ≡ is_some restore.sink }
{
    let Restore {
        budget,
        drives,
        sink,
    } = restore;
    Restore {
        budget,
        drives,
        sink: watched_sink(sink, gauge),
    }
}
