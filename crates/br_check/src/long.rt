//! The lines of files with names that are longer than a folder allows.
ghost use Rattle.std.specs.Prelude.{◌≡◌, ◌++◌, flat_map, map, OnOk};
ghost use Rattle.std.specs.List.{list_any, slice_split};
ghost use Rattle.br_model.specs.Name.{is_slash};
ghost use Rattle.br_records.specs.ShownRecords.{outlined};
ghost use Rattle.br_check.specs.Findings as model;
ghost use Rattle.br_check.specs.Findings.{bare_length, is_long_name, long_by, long_line};

use crate::findings::push_named;
use crate::name_lines::is_on_disk;
use br_records::{Outline, Sketch};
use br_types::{FileKey, is_directory_path};
use std::alloc::AllocError;

/// The greatest number of bytes of a name.
const NAME: usize = 255;

/// The greatest number of bytes of a path. The system allows 4,095 bytes, and the folder's own
/// name, of at least one byte, comes first.
const PATH: usize = 4094;

/// Returns if a name is longer than a folder allows.
fn is_long_name(name: &[u8]) -> bool
    ensures { result ≡ is_long_name name.now }
{
    name.len() > NAME
}

/// Returns if a name in a path is longer than a folder allows.
fn has_long_name(path: &[u8]) -> bool
    ensures { result ≡ list_any is_long_name (slice_split is_slash path.now) }
{
    path.split(|byte| *byte == b'/')
        .any(|name| is_long_name(name))
}

/// Returns the number of bytes of a path without a `/` at its end.
fn bare_length(path: &[u8]) -> usize
    ensures { result ≡ bare_length path.now }
{
    if is_directory_path(path) {
        return path.len().saturating_sub(1);
    }
    path.len()
}

/// Returns if a path, or a name in it, is longer than a folder allows.
fn is_long(path: &[u8]) -> bool
    ensures { result ≡ model.is_long path.now }
{
    has_long_name(path) || bare_length(path) > PATH
}

/// Appends the line of a file with an outline, if its path is longer than a folder allows.
fn push_outlined(text: &mut Vec<u8>, key: FileKey, outline: &Outline) -> Result<(), AllocError>
    ensures { OnOk result (text.new.items ≡ text.old.items ++ long_by key outline.now) }
{
    if is_on_disk(outline.kind) && is_long(outline.path.bytes()) {
        return push_named(text, b"long", key, outline.path.bytes());
    }
    Ok(())
}

/// Appends the line of a file, if its path is longer than a folder allows.
fn push_long_one(text: &mut Vec<u8>, key: FileKey, sketch: &Sketch) -> Result<(), AllocError>
    ensures { OnOk result (text.new.items ≡ text.old.items ++ long_line (outlined (key, sketch.now))) }
{
    match sketch {
        Sketch::File(outline) => push_outlined(text, key, outline),
        Sketch::Fault(_) => Ok(()),
    }
}

/// Appends a line for each file whose path is longer than a folder allows.
pub(crate) fn push_long(
    text: &mut Vec<u8>,
    sketches: &[(FileKey, Sketch)],
) -> Result<(), AllocError>
    ensures { OnOk result (text.new.items ≡ text.old.items ++ flat_map long_line (map outlined sketches.now)) }
{
    for sketch in sketches {
        push_long_one(text, sketch.0, &sketch.1)?;
    }
    Ok(())
}
