//! The number of bytes that a restore reads.

use br_bsr::Bootstrap;
use br_piece::split;
use br_volume::{FolderStore, VolumeStore};

/// Returns the number of bytes in the volumes of a folder that a bootstrap names, if it is known.
pub(crate) fn len_of_volumes(rt: &HostRuntime, folder: &str, bootstrap: &Bootstrap) -> Option<u64> {
    let pieces = split(rt.alloc(), bootstrap).ok()?;
    let mut store = FolderStore::new(rt.alloc(), rt, folder).ok()?;
    let mut len = 0_u64;
    for piece in &pieces {
        len = len.saturating_add(store.length(&piece.vol).ok()?);
    }
    Some(len)
}
