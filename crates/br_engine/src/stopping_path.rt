//! The file at which a delivery stopped.
ghost use Rattle.br_engine.specs.Restores.{IsStopPath};

use crate::restore_end::RestoreEnd;
use br_join::Outcome;
use br_sink::file_at;
use br_types::{FileKey, Path};
use std::alloc::Global;

/// Returns the path of the file at which the delivery of these outcomes stopped, if it did and
/// memory did not run out for the path.
pub(crate) fn path_at_stop(
    alloc: Global,
    outcomes: &[(FileKey, Outcome)],
    end: &RestoreEnd,
) -> Option<Path>
    ensures { IsStopPath outcomes.now end.now result }
{
    match end {
        RestoreEnd::AllFiles | RestoreEnd::SomeFaults => None,
        RestoreEnd::Stopped(stop) => {
            let (_, item) = file_at(outcomes, stop.done())?;
            match item.path.copy(alloc) {
                Ok(path) => Some(path),
                Err(_) => None,
            }
        }
    }
}
