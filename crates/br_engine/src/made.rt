//! The files of a restore, made within a budget of memory.
ghost use Rattle.std.specs.Prelude.{◌≡◌, option_map, Some, IfErr, IfOk};
ghost use Rattle.br_pool.specs.Pool.{AreDrives, OnlyIfAllFail, StayInPlace};
ghost use Rattle.br_engine.specs.DeliveredAgain.{CanReread, ChangedBy, ChangedJoined, ChangedMade, EndsBy, EndsMade};
ghost use Rattle.br_engine.specs.DeliveredAgain.{GivesAgain, GivesIfReread, MadeOver, MakesOver};
ghost use Rattle.br_engine.specs.Fault.{IsNoDriveLeft, IsNoLine, IsUnmade};
ghost use Rattle.br_engine.specs.Outputs.{AllFail, SinkCounts, StopsByFailure, StopsOnlyIf};
ghost use Rattle.br_engine.specs.Restoring.{NoneStandBy};
ghost use Rattle.br_engine.specs.declared.fault.ExtractFault.TheVariants.{Changed};

use crate::budget::Budget;
use crate::delivered_again::{RereadSource, deliver_again, len_of};
use crate::delivering::{deliver_files, end_of};
use crate::fault::ExtractFault;
use crate::restore_end::RestoreEnd;
use crate::restoring::{files_of, join_all};
use br_bsr::{Bootstrap, Group};
use br_data::{OverMany, hits_stand, standing_stays};
use br_join::{Joiner, Outcome};
use br_reread_files::Gathered;
use br_sink::Sink;
use br_types::{FileKey, Names};
use br_volume::Drive;
use std::alloc::Global;
use std::mem;
use std::sync::Wait;
use std::thread::Threads;

/// The length in bytes of the longest file with sparse data that is delivered while other data are
/// held. A longer file is in memory as a whole, so all data are let go before.
const LONG_LEN: u64 = 64 * 1024 * 1024;

/// The files of a restore, each with its outcome, in order of their keys.
#[derive(Drop)]
pub(crate) struct MadeFiles {
    pub(crate) outcomes: Vec<(FileKey, Outcome)>,
    /// What the files are made from once more, if their bytes are not in memory.
    gathered: Option<Gathered>,
    /// The number of bytes in the files that are made once more together.
    window: u64,
}

/// Returns whether one of the files is longer than `LONG_LEN`.
fn has_long_file(files: &[(FileKey, Outcome)]) -> bool {
    files.iter().any(|file| len_of(&file.1) > LONG_LEN)
}

/// Returns the same, without data in memory if there are sparse data and a file longer than
/// `LONG_LEN`.
fn lighter(gathered: Gathered, files: &[(FileKey, Outcome)]) -> Gathered
    ensures { result ≡ gathered }
{
    if gathered.has_sparse_data() && has_long_file(files) {
        gathered.let_go()
    } else {
        gathered
    }
}

/// Makes the files from what a joiner took without all data. The drives read their data again.
fn made_of<D: Drive + Send>(
    rt: &(impl Threads + Sync),
    budget: Budget,
    joiner: Joiner,
    groups: &[Group],
    drives: &mut Vec<D>,
) -> Result<MadeFiles, ExtractFault>
    ensures made { IfOk result (λ made. MadeOver (CanReread D.shows D.failures drives.old.items groups.now joiner.hits) joiner made) }
    ensures again { IfOk result (λ made. GivesIfReread D.shows D.failures drives.old.items drives.new.items groups.now joiner made) }
    ensures places { StayInPlace D.shows D.failures drives.old.items drives.new.items }
    ensures failed { OnlyIfAllFail D.failures drives.old.items drives.new.items IsNoDriveLeft result }
    ensures free { IfErr result IsUnmade }
    ensures changed { IfErr result (ChangedJoined D.shows D.failures drives.old.items groups.now joiner) }
{
    standing_stays();
    let alloc = budget.alloc;
    let gathered = Gathered::of(joiner)?;
    let taken = mem::replace(drives, Vec::new(alloc));
    let mut many = OverMany::new(alloc, taken, groups);
    let files = gathered.files(rt, alloc, &mut many);
    let none = mem::replace(drives, many.into_drives());
    none.destroy_empty();
    let outcomes = files?;
    Ok(MadeFiles {
        gathered: Some(lighter(gathered, &outcomes)),
        outcomes,
        window: budget.window(),
    })
}

/// Returns the files that a bootstrap selects, as `restore` does, but holds no more data than there
/// is room for. If there is not room for all, the bytes of the files are not in memory;
/// `deliver_made` reads them again.
///
/// # Errors
///
/// - `Piece` and `Memory` as `restore`; `NoDriveLeft` also if each drive failed while data were read
///   again.
/// - `Changed` if a volume was changed while it was read.
pub(crate) fn restore_within<D: Drive + Send>(
    rt: &(impl Threads + Wait + Sync),
    budget: Budget,
    bootstrap: &Bootstrap,
    names: Option<Names>,
    drives: &mut Vec<D>,
) -> Result<MadeFiles, ExtractFault>
    requires drives { AreDrives drives.old.items }
    ensures files { MakesOver D.shows drives.old.items drives.new.items bootstrap.now names result }
    ensures again { IfOk result (λ made. GivesAgain D.shows D.failures drives.old.items drives.new.items bootstrap.now made) }
    ensures places { StayInPlace D.shows D.failures drives.old.items drives.new.items }
    ensures driven { IfErr result IsNoLine }
    ensures changed { IfErr result (λ why. why ≡ Changed → NoneStandBy D.shows drives.old.items drives.new.items bootstrap.now) }
    ensures failed { OnlyIfAllFail D.failures drives.old.items drives.new.items IsNoDriveLeft result }
{
    let mut joiner = join_all(rt, budget, bootstrap, names, drives)?;
    if joiner.holds_all() {
        let outcomes = files_of(rt, &mut joiner)?;
        return Ok(MadeFiles {
            outcomes,
            gathered: None,
            window: budget.window(),
        });
    }
    hits_stand();
    standing_stays();
    made_of(rt, budget, joiner, bootstrap.groups(), drives)
}

/// Delivers the files among the outcomes into a sink. They are made once more from their source.
fn deliver_by<D: Drive, S: Sink>(
    rt: &(impl Threads + Sync),
    source: &RereadSource<'_>,
    groups: &[Group],
    drives: &mut Vec<D>,
    outcomes: &[(FileKey, Outcome)],
    sink: &mut S,
) -> RestoreEnd
    ensures ends { EndsBy D.shows D.failures drives.old.items groups.now source.now outcomes.now
        (Some (S.has sink.old)) (Some (S.has sink.new)) result }
    ensures places { StayInPlace D.shows D.failures drives.old.items drives.new.items }
    ensures counted { SinkCounts (Some (S.failures sink.old)) (Some (S.failures sink.new)) }
    ensures failed { StopsByFailure (Some (S.failures sink.old)) (Some (S.failures sink.new)) result }
    ensures lost { StopsOnlyIf 70 (AllFail D.failures drives.old.items drives.new.items) result }
    ensures changed { ChangedBy D.shows D.failures drives.old.items groups.now source.now outcomes.now result }
{
    let taken = mem::replace(drives, Vec::new(source.alloc));
    let mut many = OverMany::new(source.alloc, taken, groups);
    let delivered = deliver_again(rt, source, &mut many, outcomes, sink);
    let none = mem::replace(drives, many.into_drives());
    none.destroy_empty();
    match delivered {
        Ok(()) => end_of(outcomes),
        Err(stop) => RestoreEnd::Stopped(stop),
    }
}

/// Delivers the files among the outcomes as `deliver_by` does, if there is a sink.
fn deliver_from<D: Drive, S: Sink>(
    rt: &(impl Threads + Sync),
    source: &RereadSource<'_>,
    groups: &[Group],
    drives: &mut Vec<D>,
    outcomes: &[(FileKey, Outcome)],
    sink: &mut Option<S>,
) -> RestoreEnd
    ensures ends { EndsBy D.shows D.failures drives.old.items groups.now source.now outcomes.now
        (option_map S.has sink.old) (option_map S.has sink.new) result }
    ensures places { StayInPlace D.shows D.failures drives.old.items drives.new.items }
    ensures counted { SinkCounts (option_map S.failures sink.old) (option_map S.failures sink.new) }
    ensures failed { StopsByFailure (option_map S.failures sink.old) (option_map S.failures sink.new) result }
    ensures lost { StopsOnlyIf 70 (AllFail D.failures drives.old.items drives.new.items) result }
    ensures changed { ChangedBy D.shows D.failures drives.old.items groups.now source.now outcomes.now result }
{
    match sink {
        None => end_of(outcomes),
        Some(sink) => deliver_by(rt, source, groups, drives, outcomes, sink),
    }
}

/// Delivers the files of a restore in their order, if there is a sink. Those that are not in memory
/// are made once more, and compared with what was made before. Returns the end of the restore.
pub(crate) fn deliver_made<D: Drive, S: Sink>(
    rt: &(impl Threads + Sync),
    alloc: Global,
    made: &MadeFiles,
    groups: &[Group],
    drives: &mut Vec<D>,
    sink: &mut Option<S>,
) -> RestoreEnd
    ensures ends { EndsMade D.shows D.failures drives.old.items groups.now made.now (option_map S.has sink.old)
        (option_map S.has sink.new) result }
    ensures places { StayInPlace D.shows D.failures drives.old.items drives.new.items }
    ensures counted { SinkCounts (option_map S.failures sink.old) (option_map S.failures sink.new) }
    ensures failed { StopsByFailure (option_map S.failures sink.old) (option_map S.failures sink.new) result }
    ensures lost { StopsOnlyIf 70 (AllFail D.failures drives.old.items drives.new.items) result }
    ensures changed { ChangedMade D.shows D.failures drives.old.items groups.now made.now result }
{
    match &made.gathered {
        None => deliver_files(rt, alloc, &made.outcomes, sink),
        Some(gathered) => {
            let source = RereadSource {
                alloc,
                gathered,
                window: made.window,
            };
            deliver_from(rt, &source, groups, drives, &made.outcomes, sink)
        }
    }
}
