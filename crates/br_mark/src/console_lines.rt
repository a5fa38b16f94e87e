ghost use Rattle.std.specs.Prelude.{◌≡◌, ◌+◌, ◌≤◌, ◌++◌, ◌∷◌, length, decimal, vec_len, vec_capacity, IfOk, IsOk, OnOk};
ghost use Rattle.br_model.specs.Text.{line, escaped};
ghost use Rattle.br_model.specs.Console as model;

use br_types::push_escaped;
use itoa::Buffer;
use std::alloc::{AllocError, Global};

/// The room for a number of at most 20 digits, a space, a word of at most eight letters and the
/// end of a line.
pub(crate) const COUNT_LINE_LEN: usize = 64;

/// Writes a path as a line, escaped.
pub(crate) fn push_path(text: &mut Vec<u8>, path: &[u8]) -> Result<(), AllocError>
    ensures { OnOk result (text.new.items ≡ text.old.items ++ line (escaped path.now)) }
{
    push_escaped(text, path)?;
    text.extend_from_slice(b"\n")
}

/// Writes a name after its sign as a line.
pub(crate) fn push_signed(text: &mut Vec<u8>, sign: u8, name: &[u8]) -> Result<(), AllocError>
    ensures { OnOk result (text.new.items ≡ text.old.items ++ line (sign ∷ escaped name.now)) }
{
    text.extend_from_slice(&[sign])?;
    push_path(text, name)
}

/// Returns the line that shows the directory of the console.
pub(crate) fn cwd_line(alloc: Global, directory: &[u8]) -> Result<Vec<u8>, AllocError>
    ensures { IfOk result (λ text. text.items ≡ model.cwd_line directory.now) }
{
    let mut text = Vec::from_slice(alloc, b"cwd is: ")?;
    push_path(&mut text, directory)?;
    Ok(text)
}

/// Writes the number of paths that gained or lost a mark. It can't fail if there is room for
/// `COUNT_LINE_LEN` bytes.
pub(crate) fn push_count(text: &mut Vec<u8>, count: u64, word: &[u8]) -> Result<(), AllocError>
    requires { length word.now ≤ 8 }
    ensures written { OnOk result (text.new.items ≡ text.old.items ++ model.count_line count word.now) }
    ensures room { vec_len text.old + 64 ≤ vec_capacity text.old → IsOk result }
{
    let mut buffer = Buffer::new();
    text.extend_from_slice(buffer.format(count).as_bytes())?;
    text.extend_from_slice(b" ")?;
    text.extend_from_slice(word)?;
    text.extend_from_slice(b"\n")
}

/// Returns a line of two numbers, each with a text after it.
pub(crate) fn totals_line(
    alloc: Global,
    first: u64,
    middle: &[u8],
    second: u128,
    end: &[u8],
) -> Result<Vec<u8>, AllocError>
    ensures { IfOk result (λ text. text.items ≡ line (decimal first ++ middle.now ++ decimal second ++ end.now)) }
{
    let mut text = Vec::new(alloc);
    let mut buffer = Buffer::new();
    text.extend_from_slice(buffer.format(first).as_bytes())?;
    text.extend_from_slice(middle)?;
    text.extend_from_slice(buffer.format(second).as_bytes())?;
    text.extend_from_slice(end)?;
    text.extend_from_slice(b"\n")?;
    Ok(text)
}
