//! Laws of a check.
ghost use Rattle.br_check.specs.Conflicts.{ConflictsStop};
ghost use Rattle.br_check.specs.Search.{HoldsThroughout};

/// States that a delivery of the files of a restore stops with 81 at the first file that conflicts,
/// unless a digest differs. If none conflicts, it does not stop.
#[tactic(auto, using(crate::proofs::StopLaws::conflicts_stop_lem))]
pub fn conflicts_stop()
    ensures { ConflictsStop }
{}

/// States that the results of a check hold over all volumes that its drive may be taken to show from
/// the search of the first piece to that of the last.
#[tactic(auto, using(crate::proofs::SearchLaws::holds_throughout_lem))]
pub fn results_hold_throughout()
    ensures { HoldsThroughout }
{}
