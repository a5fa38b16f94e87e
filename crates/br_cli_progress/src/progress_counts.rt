//! The report of a restore besides the manifest, as text.
ghost use Rattle.std.specs.Prelude.{◌≡◌, ◌++◌, OnOk};
ghost use Rattle.br_cli_progress.specs.Telling.{count_line, is_skipped, lost_front, noted_text, older_front, path_line, put_of, skipped_front, taken_word};

use br_join::Outcome;
use br_types::{FileKey, Path, push_escaped, push_number};
use std::alloc::{AllocError, Global};

/// The numbers of files of a restore, by what became of them.
#[derive(Clone, Copy)]
pub(crate) struct ProgressCounts {
    /// Those that were put.
    pub(crate) put: u64,
    /// Those of the manifest, except the lost ones.
    pub(crate) files: u64,
    /// Those of the manifest that are left out as older copies.
    pub(crate) older: u64,
    /// Those that a folder skips, since it takes no files of their types.
    pub(crate) skipped: u64,
    /// The outcomes that are no files.
    pub(crate) lost: u64,
}

/// Appends the line of a file, which begins with a word.
pub(crate) fn push_path(text: &mut Vec<u8>, word: &[u8], path: &Path) -> Result<(), AllocError>
    ensures { OnOk result (text.new.items ≡ text.old.items ++ path_line word.now path.now) }
{
    text.extend_from_slice(word)?;
    push_escaped(text, path.bytes())?;
    text.extend_from_slice(b"\n")
}

/// Returns true if a folder skips files of this type: it takes those that have bytes, and folders.
pub(crate) fn is_skipped(kind: u32) -> bool
    ensures { result ≡ is_skipped kind }
{
    !(kind == 2 || kind == 3 || kind == 5)
}

/// Returns the word before the path of a file of this type that a folder or a stream was given.
pub(crate) fn taken_word(is_folder: bool, kind: u32) -> &'static [u8]
    ensures { result.now ≡ taken_word is_folder kind }
{
    if is_folder && is_skipped(kind) {
        b"skipped "
    } else {
        b"put "
    }
}

/// Appends a text and a number; nothing if the number is 0.
fn push_noted(text: &mut Vec<u8>, front: &[u8], count: u64) -> Result<(), AllocError>
    ensures { OnOk result (text.new.items ≡ text.old.items ++ noted_text front.now count) }
{
    if count == 0 {
        return Ok(());
    }
    text.extend_from_slice(front)?;
    push_number(text, count)
}

/// Appends the number of older copies that were left out, if there are any.
#[tactic(auto, unfolding(crate::specs::Telling::older_front))]
fn push_older(text: &mut Vec<u8>, older: u64) -> Result<(), AllocError>
    ensures { OnOk result (text.new.items ≡ text.old.items ++ noted_text older_front older) }
{
    push_noted(text, b", older copies left out: ", older)
}

/// Appends the number of files that a folder skips, if there are any.
#[tactic(auto, unfolding(crate::specs::Telling::skipped_front))]
fn push_skipped(text: &mut Vec<u8>, skipped: u64) -> Result<(), AllocError>
    ensures { OnOk result (text.new.items ≡ text.old.items ++ noted_text skipped_front skipped) }
{
    push_noted(text, b", links and special files skipped: ", skipped)
}

/// Appends the number of files that can't be restored, if there are any.
#[tactic(auto, unfolding(crate::specs::Telling::lost_front))]
fn push_lost(text: &mut Vec<u8>, lost: u64) -> Result<(), AllocError>
    ensures { OnOk result (text.new.items ≡ text.old.items ++ noted_text lost_front lost) }
{
    push_noted(text, b", not restored: ", lost)
}

/// Appends the number of files that were put, of all.
fn push_put_of(text: &mut Vec<u8>, put: u64, files: u64) -> Result<(), AllocError>
    ensures { OnOk result (text.new.items ≡ text.old.items ++ put_of put files) }
{
    push_number(text, put)?;
    text.extend_from_slice(b" of ")?;
    push_number(text, files)?;
    text.extend_from_slice(b" files were put")
}

/// Appends the line about what became of the files.
pub(crate) fn push_count(text: &mut Vec<u8>, count: ProgressCounts) -> Result<(), AllocError>
    ensures { OnOk result (text.new.items ≡ text.old.items ++ count_line count) }
{
    push_put_of(text, count.put, count.files)?;
    push_older(text, count.older)?;
    push_skipped(text, count.skipped)?;
    push_lost(text, count.lost)?;
    text.push(b'\n')?;
    Ok(())
}

/// Returns the lines of the first `count` files among the outcomes, which a folder or a stream was
/// given.
pub(crate) fn taken_lines(
    alloc: Global,
    is_folder: bool,
    outcomes: &[(FileKey, Outcome)],
    count: u64,
) -> Result<Vec<u8>, AllocError> {
    let mut text = Vec::new(alloc);
    let mut left = count;
    for (_, outcome) in outcomes {
        if let Outcome::File(item) = outcome {
            if left == 0 {
                return Ok(text);
            }
            push_path(&mut text, taken_word(is_folder, item.kind), &item.path)?;
            left -= 1;
        }
    }
    Ok(text)
}

/// Returns how many of the first `count` files among the outcomes a folder skips.
pub(crate) fn count_skipped(outcomes: &[(FileKey, Outcome)], count: u64) -> u64 {
    let mut skipped: u64 = 0;
    let mut left = count;
    for (_, outcome) in outcomes {
        if let Outcome::File(item) = outcome {
            if left == 0 {
                return skipped;
            }
            skipped = skipped.saturating_add(u64::from(is_skipped(item.kind)));
            left -= 1;
        }
    }
    skipped
}

/// Returns the number of bytes of the first `count` files among the outcomes.
pub(crate) fn count_bytes(outcomes: &[(FileKey, Outcome)], count: u64) -> u64 {
    let mut bytes: u64 = 0;
    let mut left = count;
    for (_, outcome) in outcomes {
        if let Outcome::File(item) = outcome {
            if left == 0 {
                return bytes;
            }
            bytes = bytes.saturating_add(item.bytes.len());
            left -= 1;
        }
    }
    bytes
}
