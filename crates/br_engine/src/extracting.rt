ghost use Rattle.std.specs.Prelude.{◌≡◌, is_ok, map, IfErr, OnOk};
ghost use Rattle.std.specs.List.{list_all};
ghost use Rattle.std.specs.Io.KnownBytes.{Appends};
ghost use Rattle.br_model.specs.Manifest as model;
ghost use Rattle.br_join.specs.Outcome.{restored, shown};
ghost use Rattle.br_engine.specs.Fault.{IsFree};
ghost use Rattle.br_engine.specs.Outputs.{are_files};
ghost use Rattle.br_engine.specs.Extracting.{WritesNothing};

use crate::fault::ExtractFault;
use br_join::Outcome;
use br_sink::{Flush, manifest_room, write_manifest as write_parts};
use br_types::FileKey;
use std::alloc::Global;

fn is_file(outcome: &Outcome) -> bool
    ensures { result ≡ is_ok (shown outcome.now) }
{
    matches!(outcome, Outcome::File(_))
}

fn all_outcomes(outcomes: &[(FileKey, Outcome)]) -> bool
    ensures { result ≡ list_all (λ o. is_ok (shown o.1)) outcomes.now }
{
    outcomes.iter().all(|outcome| is_file(&outcome.1))
}

/// Returns true if each outcome is a file.
pub(crate) fn all_files(outcomes: &[(FileKey, Outcome)]) -> bool
    ensures { result ≡ are_files (map restored outcomes.now) }
{
    // The loop has a clause of its own, from which this one is proved.
    all_outcomes(outcomes)
}

/// Writes the manifest of the outcomes part by part, and flushes the writer.
///
/// # Errors
///
/// - `Memory` if memory ran out before the first part; then nothing is written.
/// - `Io` if the writer failed; it may have taken a part of the manifest.
pub(crate) fn write_manifest<W: Flush>(
    alloc: Global,
    outcomes: &[(FileKey, Outcome)],
    writer: &mut W,
) -> Result<(), ExtractFault>
    ensures written { OnOk result (Appends (W.contents writer.old) (W.contents writer.new) (model.manifest (map restored outcomes.now))) }
    ensures flushed { OnOk result (W.is_flushed writer.new) }
    ensures nothing { IfErr result (WritesNothing (W.contents writer.old) (W.contents writer.new)) }
    ensures free { IfErr result IsFree }
{
    let room = manifest_room(alloc, outcomes)?;
    write_parts(writer, room, outcomes)?;
    writer.flush_all()?;
    Ok(())
}
