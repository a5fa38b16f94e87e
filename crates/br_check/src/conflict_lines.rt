//! The lines of files whose paths conflict.
ghost use Rattle.std.specs.Prelude.{◌≡◌, ◌++◌, ◌∷◌, [], map, OnOk};
ghost use Rattle.br_records.specs.ShownRecords.{outlined};
ghost use Rattle.br_check.specs.Conflicts.{TellsMore, conflict_lines};
ghost use Rattle.br_check.specs.Findings.{copies_at};

use crate::findings::push_named;
use br_records::Sketch;
use br_types::{FileKey, Ways, is_next};
use std::alloc::{AllocError, Global};

/// Notes the path of a file. If it conflicts with one noted before, appends its line instead.
fn push_path<'s>(
    text: &mut Vec<u8>,
    ways: &mut Ways<'s>,
    key: FileKey,
    path: &'s [u8],
) -> Result<(), AllocError>
    ensures { OnOk result (TellsMore ways.old ways.new text.old.items text.new.items (record { key = key; path = path.now } ∷ [])) }
{
    let free = is_next(ways, path)?;
    if free {
        return Ok(());
    }
    push_named(text, b"conflict", key, path)
}

/// Notes the path of a file, or appends its line if it conflicts with one noted before.
fn push_conflict<'s>(
    text: &mut Vec<u8>,
    ways: &mut Ways<'s>,
    key: FileKey,
    sketch: &'s Sketch,
) -> Result<(), AllocError>
    ensures { OnOk result (TellsMore ways.old ways.new text.old.items text.new.items (copies_at (outlined (key, sketch.now)))) }
{
    match sketch {
        Sketch::File(outline) => push_path(text, ways, key, outline.path.bytes()),
        Sketch::Fault(_) => Ok(()),
    }
}

/// Appends a line for each file whose path conflicts with an earlier one, unless that one
/// conflicts itself.
pub(crate) fn push_conflicts(
    alloc: Global,
    text: &mut Vec<u8>,
    sketches: &[(FileKey, Sketch)],
) -> Result<(), AllocError>
    ensures { OnOk result (text.new.items ≡ text.old.items ++ conflict_lines (map outlined sketches.now)) }
{
    let mut ways = Ways::new(alloc);
    for sketch in sketches {
        push_conflict(text, &mut ways, sketch.0, &sketch.1)?;
    }
    Ok(())
}
