//! The lines of advice.
ghost use Rattle.std.specs.Prelude.{◌≡◌, ◌++◌, OnOk};
ghost use Rattle.br_cli_target.specs.AdviceLines.{absent_end, absent_front, absent_line, absent_text};
ghost use Rattle.br_cli_target.specs.AdviceLines.{older_end, older_front, older_line, older_middle, older_text};
ghost use Rattle.br_cli_target.specs.AdviceLines.{origin_line, path_text, volume_text};

use crate::origin::Origin;
use br_cli_progress::push_key;
use br_engine::OlderCopies;
use br_types::{Path, VolName, push_escaped, push_number};
use std::alloc::AllocError;

/// Appends the text before the number of indexes.
#[tactic(auto, unfolding(crate::specs::AdviceLines::absent_front))]
fn push_absent_front(text: &mut Vec<u8>) -> Result<(), AllocError>
    ensures { OnOk result (text.new.items ≡ text.old.items ++ absent_front) }
{
    text.extend_from_slice(b"indexes that the bootstrap asks for and that gave no outcome: ")
}

/// Appends the text after the number of indexes.
#[tactic(auto, unfolding(crate::specs::AdviceLines::absent_end))]
fn push_absent_end(text: &mut Vec<u8>) -> Result<(), AllocError>
    ensures { OnOk result (text.new.items ≡ text.old.items ++ absent_end) }
{
    text.extend_from_slice(b". Next: `--complete` names them.\n")
}

/// Appends the number of indexes without an outcome, and which option names them.
fn push_absent_text(text: &mut Vec<u8>, count: u64) -> Result<(), AllocError>
    ensures { OnOk result (text.new.items ≡ text.old.items ++ absent_text count) }
{
    push_absent_front(text)?;
    push_number(text, count)?;
    push_absent_end(text)
}

/// Appends the number of indexes without an outcome, and which option names them, if there are any.
pub fn push_absent(text: &mut Vec<u8>, count: u64) -> Result<(), AllocError>
    ensures { OnOk result (text.new.items ≡ text.old.items ++ absent_line count) }
{
    if count == 0 {
        Ok(())
    } else {
        push_absent_text(text, count)
    }
}

/// Appends the text before the number of older copies.
#[tactic(auto, unfolding(crate::specs::AdviceLines::older_front))]
fn push_older_front(text: &mut Vec<u8>) -> Result<(), AllocError>
    ensures { OnOk result (text.new.items ≡ text.old.items ++ older_front) }
{
    text.extend_from_slice(b"older copies among the files: ")
}

/// Appends the text between the numbers of older copies and of paths.
#[tactic(auto, unfolding(crate::specs::AdviceLines::older_middle))]
fn push_older_middle(text: &mut Vec<u8>) -> Result<(), AllocError>
    ensures { OnOk result (text.new.items ≡ text.old.items ++ older_middle) }
{
    text.extend_from_slice(b", paths at which one is put last: ")
}

/// Appends the text after the number of paths.
#[tactic(auto, unfolding(crate::specs::AdviceLines::older_end))]
fn push_older_end(text: &mut Vec<u8>) -> Result<(), AllocError>
    ensures { OnOk result (text.new.items ≡ text.old.items ++ older_end) }
{
    text.extend_from_slice(b". Next: `check` names them, `--newest` leaves them out.\n")
}

/// Appends the number of files that are older copies, that of paths whose last file is one, and
/// which option leaves them out.
fn push_older_text(text: &mut Vec<u8>, files: u64, on_top: u64) -> Result<(), AllocError>
    ensures { OnOk result (text.new.items ≡ text.old.items ++ older_text files on_top) }
{
    push_older_front(text)?;
    push_number(text, files)?;
    push_older_middle(text)?;
    push_number(text, on_top)?;
    push_older_end(text)
}

/// Appends the number of files that are older copies, that of paths whose last file is one, and
/// which option leaves them out, if there are any.
pub fn push_older(text: &mut Vec<u8>, older: &OlderCopies) -> Result<(), AllocError>
    ensures { OnOk result (text.new.items ≡ text.old.items ++ older_line older.now.files older.now.on_top) }
{
    if older.files == 0 {
        Ok(())
    } else {
        push_older_text(text, older.files, older.on_top)
    }
}

/// Appends the volume of a file, if it is known.
fn push_volume(text: &mut Vec<u8>, vol: &Option<VolName>) -> Result<(), AllocError>
    ensures { OnOk result (text.new.items ≡ text.old.items ++ volume_text vol.now) }
{
    match vol {
        Some(vol) => {
            text.extend_from_slice(b" on ")?;
            push_escaped(text, vol.bytes())
        }
        None => Ok(()),
    }
}

/// Appends the path of a file, or a text that it can't be read.
fn push_path(text: &mut Vec<u8>, path: &Option<Path>) -> Result<(), AllocError>
    ensures { OnOk result (text.new.items ≡ text.old.items ++ path_text path.now) }
{
    match path {
        Some(path) => {
            text.extend_from_slice(b" is ")?;
            push_escaped(text, path.bytes())
        }
        None => text.extend_from_slice(b" has no path that can be read"),
    }
}

/// Appends the origin of a file.
pub fn push_origin(text: &mut Vec<u8>, origin: &Origin) -> Result<(), AllocError>
    ensures { OnOk result (text.new.items ≡ text.old.items ++ origin_line origin.now) }
{
    text.extend_from_slice(b"  ")?;
    push_key(text, origin.key)?;
    push_volume(text, &origin.vol)?;
    push_path(text, &origin.path)?;
    text.push(b'\n')?;
    Ok(())
}
