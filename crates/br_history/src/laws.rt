//! Calls that do nothing, and whose clauses are facts that a caller needs.
ghost use Rattle.br_history.specs.Taken.{PushedIsAdmitted};
ghost use Rattle.br_history.specs.Committing.{WrittenRowsFit, VolumesStayWhole, WholeVolumesAreReady};
ghost use Rattle.br_history.specs.Needed.{ChosenChooseAlike, CoveredChooseAlike};

/// States that a job is appended exactly if one with its row can be.
#[tactic(auto, using(crate::proofs::AdmittedLaws::pushed_is_admitted_lem))]
pub fn pushed_is_admitted()
    ensures { PushedIsAdmitted }
{}

/// States that the rows of a job whose session was written fit together.
pub fn written_rows_fit()
    ensures { WrittenRowsFit }
{}

/// States that volumes of whole blocks stay such if the blocks of a session are appended.
pub fn volumes_stay_whole()
    ensures { VolumesStayWhole }
{}

/// States that volumes of whole blocks are ready for a session that is given their lengths.
#[tactic(auto, using(crate::proofs::StayWholeLaws::whole_volumes_are_ready_lem))]
pub fn whole_volumes_are_ready()
    ensures { WholeVolumesAreReady }
{}

/// States that a request chooses the same of all jobs, and of the jobs of which those that it
/// chooses alone have files: the same jobs with the same files and spans, or the same refusal.
/// `covered`: the same if more jobs have their files.
pub fn needed_jobs_choose_alike()
    ensures covered { CoveredChooseAlike }
    ensures chosen { ChosenChooseAlike }
{}
