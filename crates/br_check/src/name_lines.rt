//! The lines of files that a folder can't take.
ghost use Rattle.std.specs.Prelude.{◌≡◌, ◌++◌, flat_map, map, OnOk};
ghost use Rattle.std.specs.Str.{is_utf8};
ghost use Rattle.br_model.specs.File as model;
ghost use Rattle.br_records.specs.ShownRecords.{outlined};
ghost use Rattle.br_check.specs.Findings.{is_no_name, is_on_disk, name_by, name_line};

use crate::findings::push_named;
use br_records::{Outline, Sketch, has_bytes};
use br_types::{FileKey, is_directory_path};
use std::alloc::AllocError;

/// Returns if a path is UTF-8.
#[tactic(auto, using(crate::proofs::NameLaws::is_text, crate::proofs::NameLaws::is_no_text))]
fn is_text(path: &[u8]) -> bool
    ensures { result ≡ is_utf8 path.now }
{
    match str::from_utf8(path) {
        Ok(_) => true,
        Err(_) => false,
    }
}

/// Returns if a restore into a folder writes files of this type: those that have bytes, and folders.
pub(crate) fn is_on_disk(kind: u32) -> bool
    ensures { result ≡ is_on_disk kind }
{
    has_bytes(kind) || kind == 5
}

/// Returns if a folder can't take a file of this type under this path.
fn is_no_name(kind: u32, path: &[u8]) -> bool
    ensures { result ≡ is_no_name kind path.now }
{
    is_on_disk(kind) && (!is_text(path) || (has_bytes(kind) && is_directory_path(path)))
}

/// Appends the line of a file with an outline, if a folder can't take it or skips it.
fn push_outlined(text: &mut Vec<u8>, key: FileKey, outline: &Outline) -> Result<(), AllocError>
    ensures { OnOk result (text.new.items ≡ text.old.items ++ name_by key outline.now) }
{
    if !is_on_disk(outline.kind) {
        return push_named(text, b"skipped", key, outline.path.bytes());
    }
    if is_no_name(outline.kind, outline.path.bytes()) {
        return push_named(text, b"name", key, outline.path.bytes());
    }
    Ok(())
}

/// Appends the line of a file, if a folder can't take it.
fn push_name(text: &mut Vec<u8>, key: FileKey, sketch: &Sketch) -> Result<(), AllocError>
    ensures { OnOk result (text.new.items ≡ text.old.items ++ name_line (outlined (key, sketch.now))) }
{
    match sketch {
        Sketch::File(outline) => push_outlined(text, key, outline),
        Sketch::Fault(_) => Ok(()),
    }
}

/// Appends a line for each file that a folder can't take.
pub(crate) fn push_names(
    text: &mut Vec<u8>,
    sketches: &[(FileKey, Sketch)],
) -> Result<(), AllocError>
    ensures { OnOk result (text.new.items ≡ text.old.items ++ flat_map name_line (map outlined sketches.now)) }
{
    for sketch in sketches {
        push_name(text, sketch.0, &sketch.1)?;
    }
    Ok(())
}
