ghost use Rattle.std.specs.Prelude.{◌≡◌, ℕ, ◌+◌, ◌^◌, ◌<◌, ◌≤◌, List, length, take, vec_len, IfOk, IfErr, OnOk, Err};
ghost use Rattle.br_fs.specs.Calls.{IsNoFile, IsReadAt, StaysSteady};
ghost use Rattle.br_fs.specs.Read.{FailsOnly, IsFront, IsEnd, IsWhole};
ghost use Rattle.br_fs.specs.declared.fault.DiskFault.TheVariants.{Memory, NotFound};

use crate::disk::Disk;
use crate::fault::DiskFault;

/// The number of times that a read is tried if signals interrupt it.
const TRIES: u32 = 1_000;

/// The number of bytes that one read asks for.
const STEP: usize = 1 << 16;

/// Reads at a position. Tries again if the read is interrupted.
fn read_some<D: Disk>(
    disk: &mut D,
    file: &D::File,
    buf: &mut [u8],
    at: u64,
) -> Result<usize, DiskFault>
    ensures fits { IfOk result (λ n. n ≤ length buf.new) }
    ensures read { IfOk result (λ n. IsReadAt (D.told disk.new) (D.path_of file.now) at buf.new n) }
    ensures missing { result ≡ Err NotFound → IsNoFile (D.told disk.new) (D.path_of file.now) }
    ensures same { D.told disk.new ≡ D.told disk.old }
    ensures steady { StaysSteady (D.steady disk.old) (D.steady disk.new) }
    ensures failed { FailsOnly (D.steady disk.old) result }
{
    for _ in 0..TRIES {
        match disk.read_at(file, buf, at) {
            Err(DiskFault::Interrupted) => {}
            answer => return answer,
        }
    }
    Err(DiskFault::Failed)
}

/// Makes the buffer at least `len` bytes long by appending zeros.
fn make_long(buf: &mut Vec<u8>, len: usize) -> Result<(), DiskFault>
    ensures kept { (n : ℕ) → n ≤ vec_len buf.old → take n buf.new.items ≡ take n buf.old.items }
    ensures long { OnOk result (len ≤ vec_len buf.new) }
    ensures memory { IfErr result (λ fault. fault ≡ Memory) }
{
    if buf.len() < len {
        buf.resize(len, 0)?;
    }
    Ok(())
}

/// Reads at most `count` bytes of the file into the buffer, after the first `done` of its bytes.
/// Returns their number, 0 only at the file's end. The rest of the buffer may contain anything.
fn read_more<D: Disk>(
    disk: &mut D,
    file: &D::File,
    addr: u64,
    count: usize,
    done: usize,
    buf: &mut Vec<u8>,
) -> Result<usize, DiskFault>
    requires some { 0 < count }
    requires in_buffer { done ≤ vec_len buf.old }
    requires in_file { addr + done < 2 ^ 64 }
    requires in_word { done + count < 2 ^ 63 }
    requires front { IsFront (D.told disk.old) (D.path_of file.now) addr (take done buf.old.items) }
    ensures front { IfOk result (λ n. IsFront (D.told disk.new) (D.path_of file.now) addr (take (done + n) buf.new.items)) }
    ensures in_buffer { IfOk result (λ n. done + n ≤ vec_len buf.new) }
    ensures few { IfOk result (λ n. n ≤ count) }
    ensures ended { IfOk result (λ n. n ≡ 0 → IsEnd (D.told disk.new) (D.path_of file.now) addr (take done buf.new.items)) }
    ensures missing { result ≡ Err NotFound → IsNoFile (D.told disk.new) (D.path_of file.now) }
    ensures same { D.told disk.new ≡ D.told disk.old }
    ensures steady { StaysSteady (D.steady disk.old) (D.steady disk.new) }
    ensures failed { FailsOnly (D.steady disk.old) result }
{
    make_long(buf, done + count)?;
    let n = read_some(disk, file, &mut buf[done..done + count], addr + done as u64)?;
    Ok(n)
}

/// Reads `wanted` bytes of a file from an address on, or all that are left, into the buffer and
/// replaces its contents. Asks for up to 64 KiB at once, and goes on after a short read.
///
/// # Errors
///
/// `NotFound` if the file is gone, `Memory`, or `Failed`. After an error the buffer may contain
/// anything.
pub fn read_from<D: Disk>(
    disk: &mut D,
    file: &D::File,
    addr: u64,
    wanted: usize,
    buf: &mut Vec<u8>,
) -> Result<(), DiskFault>
    requires some { 0 < wanted }
    requires in_file { addr < 2 ^ 63 }
    requires in_word { wanted < 2 ^ 32 }
    ensures read { IfOk result (λ _. IsWhole (D.told disk.new) (D.path_of file.now) addr wanted buf.new.items) }
    ensures sized { IfOk result (λ _. vec_len buf.new ≤ wanted) }
    ensures missing { result ≡ Err NotFound → IsNoFile (D.told disk.new) (D.path_of file.now) }
    ensures same { D.told disk.new ≡ D.told disk.old }
    ensures steady { StaysSteady (D.steady disk.old) (D.steady disk.new) }
    ensures failed { FailsOnly (D.steady disk.old) result }
{
    // A buffer that is long enough is not filled with zeros first.
    let mut done = 0;
    while done < wanted {
        let count = (wanted - done).min(STEP);
        let n = read_more(disk, file, addr, count, done, buf)?;
        if n == 0 {
            buf.truncate(done);
            return Ok(());
        }
        done += n;
    }
    buf.truncate(done);
    Ok(())
}
