ghost use Rattle.std.specs.Prelude.{◌≡◌, ◌++◌, map, flat_map, IfOk, OnOk};
ghost use Rattle.br_model.specs.Manifest as model;
ghost use Rattle.br_join.specs.Outcome.{restored};

use crate::manifest_line::push_line;
use crate::manifest_text::push_field;
use crate::report::{Report, totals};
use br_join::Outcome;
use br_types::{FileKey, push_wide};
use std::alloc::{AllocError, Global};

/// Appends a line for each file.
fn push_lines(text: &mut Vec<u8>, outcomes: &[(FileKey, Outcome)]) -> Result<(), AllocError>
    ensures { OnOk result (text.new.items ≡ text.old.items ++ flat_map model.file_line (map restored outcomes.now)) }
{
    for (key, outcome) in outcomes {
        push_line(text, *key, outcome)?;
    }
    Ok(())
}

/// Appends the line of the totals.
pub(crate) fn push_totals(text: &mut Vec<u8>, report: Report) -> Result<(), AllocError>
    ensures { OnOk result (text.new.items ≡ text.old.items ++ model.total_line report) }
{
    text.extend_from_slice(b"total")?;
    push_field(text, report.files)?;
    push_field(text, report.faults)?;
    text.push(b' ')?;
    push_wide(text, report.skipped)?;
    text.push(b'\n')?;
    Ok(())
}

/// Returns the manifest of a restore: a line for each outcome in their order, and one for the totals. Fields
/// are separated by one space, and each line ends with LF.
///
/// The line of a file is `F`, session number, session time, index, type, path, the 14 numbers in
/// decimal with commas between them, `=` with the link text, the length of the bytes, and their MD5
/// digest in hexadecimal. The line of a fault is `X`, the same three fields, and its number; after
/// 65 the stream follows. The last line is `total`, the number of files, the number of faults, and
/// the number of records that were skipped in the files. Path and link text are escaped as
/// `br_types::push_escaped` does it.
#[tactic(auto, unfolding(br_model::specs::Manifest::manifest))]
pub fn manifest(alloc: Global, outcomes: &[(FileKey, Outcome)]) -> Result<Vec<u8>, AllocError>
    ensures { IfOk result (λ text. text.items ≡ model.manifest (map restored outcomes.now)) }
{
    let mut text = Vec::new(alloc);
    push_lines(&mut text, outcomes)?;
    push_totals(&mut text, totals(outcomes))?;
    Ok(text)
}
