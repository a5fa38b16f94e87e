//! A file that is made from hits; data that were let go are read again.
ghost use Rattle.std.specs.Prelude.{◌≡◌, ◌∷◌, ◌++◌, [], map, Err, IfOk, OnErr, OnOk};
ghost use Rattle.br_data.specs.declared.reread_fault.AgainFault.TheVariants.{Changed, Failed};
ghost use Rattle.br_reread_parts.specs.Given.{GivesHits};
ghost use Rattle.br_join.specs.Outcome.{restored};
ghost use Rattle.br_data.specs.ManyDrives.{GoOn, HaveFailed};
ghost use Rattle.br_join.specs.Runs.{file_of};

use crate::digesting::digested_by;
use crate::file_run::FileRun;
use br_data::{AgainFault, OverMany};
use br_join::{Outcome, named};
use br_types::FileKey;
use br_volume::Drive;
use std::alloc::{AllocError, Global};
use std::thread::Threads;

/// Appends a file.
pub(crate) fn push_file(
    files: &mut Vec<(FileKey, Outcome)>,
    key: FileKey,
    outcome: Outcome,
) -> Result<(), AllocError>
    ensures pushed { OnOk result (map restored files.new.items ≡ map restored files.old.items ++ restored (key, outcome) ∷ []) }
    ensures kept { OnErr result (map restored files.new.items ≡ map restored files.old.items) }
{
    files.push((key, outcome))?;
    Ok(())
}

/// Makes the file of a run, under its planned path, if it has one. Its bytes are not in memory
/// after that.
pub(crate) fn file_by<D: Drive>(
    rt: &impl Threads,
    alloc: Global,
    many: &mut OverMany<'_, D>,
    run: &FileRun<'_>,
) -> Result<Outcome, AgainFault>
    ensures made { IfOk result (λ outcome. GivesHits many.old run.now.hits → restored (run.now.key, outcome) ≡ file_of run.now) }
    ensures on { GoOn many.old many.new }
    ensures changed { result ≡ Err Changed → GivesHits many.old run.now.hits → ⊥ }
    ensures failed { result ≡ Err Failed → HaveFailed many.old many.new }
{
    let outcome = digested_by(rt, alloc, many, run.key, &run.file)?;
    Ok(named(run.path, outcome))
}
