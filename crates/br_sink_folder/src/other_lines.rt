//! The lines of other things in a folder.
ghost use Rattle.std.specs.Prelude.{◌≡◌, ◌++◌, map, string_bytes, OnOk};
ghost use Rattle.br_sink_folder.specs.OtherLines.{other_line, other_lines};

use br_types::push_escaped;
use std::alloc::AllocError;

/// Appends the line of one.
fn push_line(text: &mut Vec<u8>, path: &[u8]) -> Result<(), AllocError>
    ensures { OnOk result (text.new.items ≡ text.old.items ++ other_line path.now) }
{
    text.extend_from_slice(b"other ")?;
    push_escaped(text, path)?;
    text.push(b'\n')?;
    Ok(())
}

/// Appends a line `other PATH` for each of the paths, in their order. The path is escaped as in a manifest.
///
/// If memory runs out, a part of the lines may have been appended.
pub fn push_others(text: &mut Vec<u8>, paths: &[String]) -> Result<(), AllocError>
    ensures { OnOk result (text.new.items ≡ text.old.items ++ other_lines (map (λ p. string_bytes p) paths.now)) }
{
    for path in paths {
        push_line(text, path.as_bytes())?;
    }
    Ok(())
}
