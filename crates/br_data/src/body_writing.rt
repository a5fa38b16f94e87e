//! Writes bytes, or the first of them if a write fails.
ghost use Rattle.std.specs.Prelude.{◌≡◌, ◌<◌, ◌≤◌, [], length, take, IfOk, OnErr, OnOk};
ghost use Rattle.std.specs.Io.KnownBytes.{Appends, WriteAppends};
ghost use Rattle.br_data.specs.BodyWritten.{AppendsFront};

use std::io;
use std::io::{Error, ErrorKind, Write};

/// The number of bytes that one call writes. The system is slower with far more bytes per call.
const WRITTEN_LEN: usize = 64 * 1024;

/// The number of times that a write is tried if signals interrupt it.
const TRIES: u32 = 1_000;

/// Writes the first of the bytes, at most 64 KiB of them, by one call.
#[tactic(auto, using(crate::proofs::WrittenLaws::of_front, crate::proofs::WrittenLaws::fits_front))]
fn write_once<W: Write>(writer: &mut W, bytes: &[u8]) -> io::Result<usize>
    ensures fits { IfOk result (λ n. n ≤ length bytes.now) }
    ensures written { WriteAppends (W.contents writer.old) (W.contents writer.new) result bytes.now }
{
    let len = bytes.len().min(WRITTEN_LEN);
    writer.write(&bytes[..len])
}

/// Writes the first of the bytes, at least one and at most 64 KiB of them. Tries again if the write
/// is interrupted.
///
/// # Errors
///
/// Those of the writer; `WriteZero` if it takes no byte.
pub(crate) fn write_some<W: Write>(writer: &mut W, bytes: &[u8]) -> io::Result<usize>
    ensures some { IfOk result (λ n. 0 < n) }
    ensures fits { IfOk result (λ n. n ≤ length bytes.now) }
    ensures written { IfOk result (λ n. Appends (W.contents writer.old) (W.contents writer.new) (take n bytes.now)) }
    ensures refused { OnErr result (Appends (W.contents writer.old) (W.contents writer.new) []) }
{
    for _ in 0..TRIES {
        match write_once(writer, bytes) {
            Ok(0) => return Err(Error::from(ErrorKind::WriteZero)),
            Ok(n) => return Ok(n),
            Err(error) => {
                if error.kind() != ErrorKind::Interrupted {
                    return Err(error);
                }
            }
        }
    }
    Err(Error::from(ErrorKind::Interrupted))
}

/// Writes the bytes, at most 64 KiB per call: all of them, or the first of them if a write fails.
///
/// # Errors
///
/// Those of the writer; `WriteZero` if it takes no byte.
pub fn write_bytes<W: Write>(writer: &mut W, bytes: &[u8]) -> io::Result<()>
    ensures all { OnOk result (Appends (W.contents writer.old) (W.contents writer.new) bytes.now) }
    ensures front { OnErr result (AppendsFront (W.contents writer.old) (W.contents writer.new) bytes.now) }
{
    let mut done = 0;
    while done < bytes.len() {
        done += write_some(writer, &bytes[done..])?;
    }
    Ok(())
}
