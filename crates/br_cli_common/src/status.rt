//! The exit statuses that the commands share.
ghost use Rattle.std.specs.Prelude.{◌≡◌, IfOk};
ghost use Rattle.std.specs.Result.{IsErr};

use crate::refusal_words::tell_refusal;
use std::io::{self, ErrorKind};

/// The exit status if all was carried out.
pub const CLEAN: u8 = 0;

/// The exit status if something was refused, or some outcome is not a file.
pub const REFUSED: u8 = 1;

/// The exit status for a fault of the command line.
pub const BAD_COMMAND: u8 = 2;

/// The exit status for a fault of the program's own files and streams.
pub const BAD_STREAM: u8 = 3;

/// Prints a refusal to standard error before any line is read, and explains it to a terminal.
/// Returns the exit status.
///
/// # Errors
///
/// `OutOfMemory` for the number 1, or if standard error failed.
pub fn refuse_start(rt: &HostRuntime, number: u32) -> io::Result<u8>
    ensures status { IfOk result (λ status. status ≡ 1) }
    ensures memory { number ≡ 1 → IsErr result }
{
    if number == 1 {
        return Err(ErrorKind::OutOfMemory.into());
    }
    eprintln!(rt; "refused {number}")?;
    tell_refusal(rt, number)?;
    Ok(REFUSED)
}
