//! Drives over volumes that do not change.
ghost use Rattle.std.specs.Prelude.{◌≡◌, true};
ghost use Rattle.br_model.specs.Name.{is_volume_name};
ghost use Rattle.br_volume.specs.Memory.{volumes_of};

use br_types::VolName;
use br_volume::{BorrowedDrive, Drive, DriveFault, Got};

/// A drive over volumes that their owner keeps. It never fails.
///
/// In contracts it also shows an inventory: a volume that has no name, so that no call can ask for
/// it, and whose bytes list the others. Volumes that extend these are the same volumes. So the
/// drive shows the same after each call, and a restore by it is one over these volumes.
#[derive(Drop)]
pub struct FixedDrive<'v> {
    pub inner: BorrowedDrive<'v>,
}

impl<'v> FixedDrive<'v> {
    /// Returns a drive that shows these volumes. Of two volumes with one name it shows the first.
    pub fn new(volumes: &'v [(VolName, Vec<u8>)]) -> FixedDrive<'v>
        ensures { result.inner ≡ volumes_of volumes.now }
    {
        FixedDrive {
            inner: BorrowedDrive::new(volumes),
        }
    }
}

/// States that the name of a volume is one.
fn has_name(vol: &VolName)
    ensures { is_volume_name vol.now ≡ true }
{
    let _name = vol.bytes();
}

impl<'v> Drive for FixedDrive<'v> {
    ghost use Rattle.std.specs.Prelude.{Some};
    ghost use Rattle.br_cli_serve.specs.FixedDrive.{with_inventory};

    ghost shows = { λ d. Some (with_inventory d.inner) };

    ghost failures = { λ d. 0 };

    /// Reads a block. Takes no memory if `buf` has room for `size` bytes.
    #[tactic(auto, using(crate::proofs::FixedLaws::grows_fixed))]
    fn block_at(
        &mut self,
        vol: &VolName,
        addr: u64,
        size: u32,
        buf: &mut Vec<u8>,
    ) -> Result<Got, DriveFault> {
        has_name(vol);
        self.inner.block_at(vol, addr, size, buf)
    }
}
