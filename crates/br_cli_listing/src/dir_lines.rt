//! The lines of `dir`.
ghost use Rattle.std.specs.Prelude.{◌≡◌, ◌++◌, IfOk, OnOk};
ghost use Rattle.br_cli_listing.specs.DirLines.{AppendsName, IsMomentText, at_end, line_of, size_text};

use br_jobs::moment_text;
use br_types::{push_escaped, push_number};
use std::alloc::{AllocError, Global};

/// The number of columns of a size, and of a moment.
const SIZE: &[u8] = b"            ";

const MOMENT: &[u8] = b"                   ";

/// A name of a folder, with what is known of it.
#[derive(Clone, Copy)]
pub struct Named<'n> {
    /// Its bytes as they are in the catalogue.
    pub name: &'n [u8],
    /// In bytes.
    pub size: Option<u64>,
    /// When the file was written, in seconds since 1970.
    pub moment: Option<u64>,
}

/// Returns a size; `-` if it is not known.
fn size_text(alloc: Global, size: Option<u64>) -> Result<Vec<u8>, AllocError>
    ensures { IfOk result (λ text. text.items ≡ size_text size) }
{
    let mut text = Vec::new(alloc);
    match size {
        Some(size) => push_number(&mut text, size)?,
        None => text.extend_from_slice(b"-")?,
    }
    Ok(text)
}

/// Returns a moment; `-` if it is not known.
fn moment_or_none(alloc: Global, moment: Option<u64>) -> Result<Vec<u8>, AllocError>
    ensures { IfOk result (λ text. IsMomentText moment text.items) }
{
    match moment {
        Some(seconds) => moment_text(alloc, seconds),
        None => Vec::from_slice(alloc, b"-"),
    }
}

/// Appends a field at the end of a column of blanks.
fn push_at_end(text: &mut Vec<u8>, blanks: &[u8], field: &[u8]) -> Result<(), AllocError>
    ensures { OnOk result (text.new.items ≡ text.old.items ++ at_end blanks.now field.now) }
{
    let (front, _) = blanks.split_at(blanks.len().saturating_sub(field.len()));
    text.extend_from_slice(front)?;
    text.extend_from_slice(field)
}

/// Appends the line with a moment.
fn push_with(text: &mut Vec<u8>, size: &[u8], moment: &[u8], name: &[u8]) -> Result<(), AllocError>
    ensures { OnOk result (text.new.items ≡ text.old.items ++ line_of size.now moment.now name.now) }
{
    push_at_end(text, SIZE, size)?;
    text.extend_from_slice(b" ")?;
    push_at_end(text, MOMENT, moment)?;
    text.extend_from_slice(b" ")?;
    push_escaped(text, name)?;
    text.extend_from_slice(b"\n")
}

/// Appends the line of a name: its size, its moment, and the name.
pub fn push_name(alloc: Global, text: &mut Vec<u8>, named: &Named<'_>) -> Result<(), AllocError>
    ensures { OnOk result (AppendsName named.now.size named.now.moment named.now.name.now text.old.items text.new.items) }
{
    let size = size_text(alloc, named.size)?;
    let moment = moment_or_none(alloc, named.moment)?;
    push_with(text, &size, &moment, named.name)
}
