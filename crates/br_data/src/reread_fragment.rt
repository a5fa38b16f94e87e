ghost use Rattle.std.specs.Prelude.{◌≡◌, ◌≤◌, ◌<◌, Ok, Err, IfOk, IfErr, OnOk, OnErr};
ghost use Rattle.br_model.specs.Block.{read_block};
ghost use Rattle.br_volume.specs.Drive.{OnlyGrows};
ghost use Rattle.br_data.specs.Rereading.{HasFirst, HasLength, IsBlock, IsGone, ShowsFirst};
ghost use Rattle.br_data.specs.StandingHits.{ShowsBlock};
ghost use Rattle.br_data.specs.declared.reread_fault.AgainFault.TheVariants.{Changed, Failed};

use crate::reread_fault::AgainFault;
use br_block::{Block, BlockHead};
use br_types::VolName;
use br_volume::{Drive, DriveFault, Got};

/// The greatest length of a block's header in bytes.
const HEADER_LEN: u32 = 24;

/// Reads `size` bytes of the volume from the address into `buf`, or all that are left. `Changed` if
/// there are none, or no such volume.
fn read_bytes<D: Drive>(
    drive: &mut D,
    vol: &VolName,
    addr: u64,
    size: u32,
    buf: &mut Vec<u8>,
) -> Result<(), AgainFault>
    ensures first { OnOk result (HasFirst (D.shows drive.old) vol.now addr size buf.new.items) }
    ensures shown { OnOk result (ShowsFirst (D.shows drive.new) vol.now addr size buf.new.items) }
    ensures gone { IsGone (D.shows drive.old) vol.now addr result }
    ensures grows { OnlyGrows (D.shows drive.old) (D.shows drive.new) }
    ensures counted { D.failures drive.old ≤ D.failures drive.new }
    ensures failed { result ≡ Err Failed → D.failures drive.old < D.failures drive.new }
{
    match drive.block_at(vol, addr, size, buf) {
        Ok(Got::Block(_)) => Ok(()),
        Ok(Got::End) => Err(AgainFault::Changed),
        Err(DriveFault::Memory) => Err(AgainFault::Memory),
        Err(DriveFault::Fault) => Err(AgainFault::Failed),
        Err(DriveFault::UnknownVolume) => Err(AgainFault::Changed),
    }
}

/// Returns the length of the block at the address. `Changed` if there is no block.
fn block_len<D: Drive>(
    drive: &mut D,
    vol: &VolName,
    addr: u64,
    buf: &mut Vec<u8>,
) -> Result<u32, AgainFault>
    ensures length { IfOk result (λ size. HasLength (D.shows drive.old) vol.now addr size) }
    ensures gone { IsGone (D.shows drive.old) vol.now addr result }
    ensures grows { OnlyGrows (D.shows drive.old) (D.shows drive.new) }
    ensures counted { D.failures drive.old ≤ D.failures drive.new }
    ensures failed { result ≡ Err Failed → D.failures drive.old < D.failures drive.new }
{
    read_bytes(drive, vol, addr, HEADER_LEN, buf)?;
    match BlockHead::read(buf) {
        Ok(head) => Ok(head.size),
        Err(_) => Err(AgainFault::Changed),
    }
}

/// Tests whether the bytes are a whole block, and nothing more.
fn check_whole(bytes: &[u8]) -> Result<(), AgainFault>
    ensures whole { OnOk result (read_block bytes.now ≡ Ok bytes.now) }
    ensures refused { OnErr result (read_block bytes.now ≡ Ok bytes.now → ⊥) }
    ensures fault { IfErr result (λ e. e ≡ Changed) }
{
    match Block::read(bytes) {
        Ok(block) if block.bytes().len() == bytes.len() => Ok(()),
        Ok(_) | Err(_) => Err(AgainFault::Changed),
    }
}

/// Reads the block at the address of the volume into `buf`, by two calls of the drive: its first 24
/// bytes for the block's length, and then the block.
///
/// Over all volumes that the drive shows, whatever else it shows, `buf` is the block that they have
/// there. After a refusal `buf` may hold anything.
///
/// # Errors
///
/// `Failed` if the drive failed, `Changed` if there is no block at the address.
pub(crate) fn read_again<D: Drive>(
    drive: &mut D,
    vol: &VolName,
    addr: u64,
    buf: &mut Vec<u8>,
) -> Result<(), AgainFault>
    ensures same { OnOk result (IsBlock (D.shows drive.old) vol.now addr buf.new.items) }
    ensures shown { OnOk result (ShowsBlock (D.shows drive.new) vol.now addr buf.new.items) }
    ensures whole { OnOk result (read_block buf.new.items ≡ Ok buf.new.items) }
    ensures gone { IsGone (D.shows drive.old) vol.now addr result }
    ensures grows { OnlyGrows (D.shows drive.old) (D.shows drive.new) }
    ensures counted { D.failures drive.old ≤ D.failures drive.new }
    ensures failed { result ≡ Err Failed → D.failures drive.old < D.failures drive.new }
{
    let size = block_len(drive, vol, addr, buf)?;
    read_bytes(drive, vol, addr, size, buf)?;
    check_whole(buf)
}
