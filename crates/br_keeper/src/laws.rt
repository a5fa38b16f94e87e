//! Facts about keepers. The calls do nothing: a caller makes one for its clauses.
ghost use Rattle.br_keeper.specs.Outcomes.{lasting};
ghost use Rattle.br_keeper.specs.Channel.{CommitsOutlast, CommitsStand};
ghost use Rattle.br_keeper.specs.Holding.{CrashesLeaveJobs, HeldVolumesAreWhole};
ghost use Rattle.br_keeper.specs.Sessions.{ReceiptsAreShown};

use crate::job_store::JobStore;
use br_volume::VolumeStore;

/// States that a volume consists of whole blocks if it is just as long as the greatest end of the
/// spans of jobs, and the volumes hold these jobs.
#[tactic(auto, using(crate::proofs::ReachingLaws::held_volumes_are_whole_lem))]
pub fn held_volumes_are_whole()
    ensures { HeldVolumesAreWhole }
{}

/// States that whatever a crash leaves of volumes holds the jobs that are held by what is durable of
/// them.
pub fn crashes_leave_jobs()
    ensures { CrashesLeaveJobs }
{}

/// States that commits keep what volumes hold: if they hold the jobs that a keeper had stored,
/// they hold these jobs after any commits, and all that the commits stored.
pub fn commits_stand<C: JobStore, W: VolumeStore>()
    ensures { CommitsStand (lasting C.JobStore W.VolumeStore) }
{}

/// States that commits keep what a crash leaves: if it would have left the jobs that a keeper had
/// stored, it leaves these jobs after any commits, and all that the commits stored.
pub fn commits_outlast<C: JobStore, W: VolumeStore>()
    ensures { CommitsOutlast (lasting C.JobStore W.VolumeStore) }
{}

/// States that a snapshot shows at least as many jobs as each receipt counts that its session has
/// learned.
#[tactic(auto, using(crate::proofs::BeginningLaws::receipts_are_shown_lem))]
pub fn receipts_are_shown()
    ensures { ReceiptsAreShown }
{}
