ghost use Rattle.std.specs.Prelude.{◌≡◌, ℕ, ◌<◌, ◌≤◌, ◌⊎◌, List, length, take, Option, None, Err, Ok, IfOk, OnOk, OnErr};
ghost use Rattle.br_fs.specs.Append.{AppendsInPart};
ghost use Rattle.br_fs.specs.Calls.{Appends, StaysSteady};
ghost use Rattle.br_fs.specs.Durable.{Lasts};

use crate::disk::Disk;
use crate::fault::DiskFault;

/// The number of times that a write is tried if signals interrupt it.
const TRIES: u32 = 1_000;

/// Writes the first of the bytes. Tries again if the write is interrupted.
#[tactic(auto, using(crate::proofs::DurableLaws::lasts_itself))]
fn write_some<D: Disk>(disk: &mut D, file: &mut D::File, bytes: &[u8]) -> Result<usize, DiskFault>
    ensures fits { IfOk result (λ n. n ≤ length bytes.now) }
    ensures written { IfOk result (λ n. Appends (D.path_of file.old) (take n bytes.now) (D.told disk.old) (D.told disk.new)) }
    ensures refused { OnErr result (D.told disk.new ≡ D.told disk.old) }
    ensures file { D.path_of file.new ≡ D.path_of file.old }
    ensures lasts { Lasts (D.durable disk.old) (D.durable disk.new) }
{
    for _ in 0..TRIES {
        match disk.write(file, bytes) {
            Err(DiskFault::Interrupted) => {}
            answer => return answer,
        }
    }
    Err(DiskFault::Failed)
}

/// Appends some bytes to the file.
#[tactic(auto, using(crate::proofs::DurableLaws::lasts_itself))]
fn append_some<D: Disk>(disk: &mut D, file: &mut D::File, bytes: &[u8]) -> Result<(), DiskFault>
    requires some { 0 < length bytes.now }
    ensures all { OnOk result (Appends (D.path_of file.old) bytes.now (D.told disk.old) (D.told disk.new)) }
    ensures part { OnErr result (AppendsInPart (D.path_of file.old) bytes.now (D.told disk.old) (D.told disk.new)) }
    ensures file { D.path_of file.new ≡ D.path_of file.old }
    ensures lasts { Lasts (D.durable disk.old) (D.durable disk.new) }
{
    let mut done = 0;
    while done < bytes.len() {
        let n = write_some(disk, file, &bytes[done..])?;
        if n == 0 {
            return Err(DiskFault::Failed);
        }
        done += n;
    }
    Ok(())
}

/// Appends the bytes to the file: all of them, or if that fails the first of them.
///
/// # Errors
///
/// Those of the disk's `write`, and `Failed` if it writes nothing.
#[tactic(auto, using(crate::proofs::AppendLaws::none_of))]
pub fn append<D: Disk>(disk: &mut D, file: &mut D::File, bytes: &[u8]) -> Result<(), DiskFault>
    ensures all { OnOk result (Appends (D.path_of file.old) bytes.now (D.told disk.old) (D.told disk.new)) }
    ensures part { OnErr result (AppendsInPart (D.path_of file.old) bytes.now (D.told disk.old) (D.told disk.new)) }
    ensures file { D.path_of file.new ≡ D.path_of file.old }
    ensures lasts { Lasts (D.durable disk.old) (D.durable disk.new) }
{
    if bytes.is_empty() {
        write_some(disk, file, bytes)?;
        return Ok(());
    }
    append_some(disk, file, bytes)
}
