use br_history::SavedJob;
use br_join::Outcome;
use br_mark::Command;
use br_plan::Request;
use br_types::FileKey;

/// What can happen. All events except commits and plans are of the restore with the number `plan`.
#[derive(Drop)]
pub enum Event {
    /// A job is committed: its session is written to the volumes.
    Commit(SavedJob),
    /// A restore of what a script marks is planned.
    Plan(Request, Vec<Command>),
    /// A walk takes a waiting piece.
    Claim { plan: u64, piece: u32 },
    /// A walk reads the next block of its piece, over the volumes after this number of commits. The
    /// hits in the block are then on their way.
    Read { plan: u64, piece: u32, commits: u64 },
    /// A walk fails. Its piece waits again, and the hits that are on their way stay.
    Fail { plan: u64, piece: u32 },
    /// A walk is at its end.
    Finish { plan: u64, piece: u32 },
    /// The hits of a block are taken: those at this place among the blocks on their way.
    Take { plan: u64, place: u64 },
    /// The files of a restore are delivered.
    Deliver { plan: u64 },
}

/// The reply to an event.
#[derive(Drop)]
pub enum Reply {
    Done,
    /// The number of the planned restore.
    Planned(u64),
    /// The number of the refusal.
    Refused(u32),
    /// The files, in order of key.
    Delivered(Vec<(FileKey, Outcome)>),
}
