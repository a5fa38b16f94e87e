//! Drives over the folder of the command line.
ghost use Rattle.std.specs.Prelude.{◌≡◌, length, IfOk};
ghost use Rattle.br_volume.specs.HostDrives.{AreOver, AreUntold};

use crate::folder_drive::FolderDrive;
use br_fs::HostDisk;
use std::alloc::AllocError;

/// A drive over a folder of the system.
pub type HostDrive<'r> = FolderDrive<HostDisk<&'r HostRuntime>>;

/// Creates `count` drives over the volumes in a folder.
pub fn drives_over<'r>(
    rt: &'r HostRuntime,
    volumes: &str,
    count: usize,
) -> Result<Vec<HostDrive<'r>>, AllocError>
    ensures many { IfOk result (λ drives. length drives.items ≡ count) }
    ensures over { IfOk result (λ drives. AreOver volumes.now drives.items) }
    ensures untold { IfOk result (λ drives. AreUntold drives.items) }
{
    let mut drives = Vec::with_capacity(rt.alloc(), count)?;
    for _drive in 0..count {
        drives.push_reserved(FolderDrive::new(rt.alloc(), rt, volumes)?);
    }
    Ok(drives)
}
