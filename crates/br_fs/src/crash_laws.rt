//! Facts about what a crash leaves of a disk. The calls do nothing: a caller makes one for its
//! clauses.
ghost use Rattle.br_fs.specs.Durable.{CrashesLeaveFronts};

/// States that a crash may leave all files as they are, or those that are durable alone, with no
/// bytes but those that are durable.
#[tactic(auto, using(crate::proofs::DurableLaws::crashes_leave_fronts_lem))]
pub fn crashes_leave_fronts()
    ensures { CrashesLeaveFronts }
{}
