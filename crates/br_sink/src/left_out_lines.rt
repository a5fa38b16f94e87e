//! The lines of files that are left out.
ghost use Rattle.std.specs.Prelude.{◌≡◌, ◌++◌, OnOk};
ghost use Rattle.br_sink.specs.LeftOutLines.{left_line, left_lines};

use br_types::{Path, push_escaped, push_number};
use std::alloc::AllocError;

/// Appends the line of one file.
fn push_line(text: &mut Vec<u8>, number: u32, path: &[u8]) -> Result<(), AllocError>
    ensures { OnOk result (text.new.items ≡ text.old.items ++ left_line number path.now) }
{
    text.extend_from_slice(b"left ")?;
    push_number(text, u64::from(number))?;
    text.push(b' ')?;
    push_escaped(text, path)?;
    text.push(b'\n')?;
    Ok(())
}

/// Appends a line `left NUMBER PATH` for each of the paths, in their order. The number is that of
/// the reason: 80 if the sink failed at the file, 81 if the path conflicts with one before. The
/// path is escaped as in a manifest.
///
/// If memory runs out, a part of the lines may have been appended.
pub fn push_left(text: &mut Vec<u8>, number: u32, paths: &[Path]) -> Result<(), AllocError>
    ensures { OnOk result (text.new.items ≡ text.old.items ++ left_lines number paths.now) }
{
    for path in paths {
        push_line(text, number, path.bytes())?;
    }
    Ok(())
}
