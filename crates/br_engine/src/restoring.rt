ghost use Rattle.std.specs.Prelude.{◌≡◌, true, map, option_map, IfOk, IfErr};
ghost use Rattle.br_model.specs.Restored.{files, planned_in};
ghost use Rattle.br_join.specs.Joining.{is_ready};
ghost use Rattle.br_join.specs.Outcome.{restored};
ghost use Rattle.br_pool.specs.Fault.{IsDecided, IsNoDriveLeft};
ghost use Rattle.br_pool.specs.Pool.{AreDrives, OnlyIfAllFail, StayInPlace};
ghost use Rattle.br_pool.specs.declared.fault.PoolFault.TheVariants.{Memory};
ghost use Rattle.br_engine.specs.Restoring.{JoinsOver};

use crate::budget::Budget;
use br_bsr::Bootstrap;
use br_join::{Joiner, Outcome};
use br_piece::split;
use br_pool::{OpenGate, PoolFault, Streaming, run_pool_streaming};
use br_types::{FileKey, Names};
use br_volume::Drive;
use std::alloc::Global;
use std::sync::Wait;
use std::thread::Threads;

/// The number of batches of hits that may wait between the drives and the joiner.
const ROOM: usize = 64;

/// Makes the files from what a joiner took of all pieces, if it holds all data.
pub(crate) fn files_of(
    rt: &(impl Threads + Sync),
    joiner: &mut Joiner,
) -> Result<Vec<(FileKey, Outcome)>, PoolFault>
    requires ready { is_ready joiner.old ≡ true }
    requires held { joiner.old.room.holds_all ≡ true }
    ensures files { IfOk result (λ os. map restored os.items ≡ files joiner.old.hits (option_map planned_in joiner.old.names)) }
    ensures memory { IfErr result (λ fault. fault ≡ Memory) }
{
    match joiner.finish(rt) {
        Ok(outcomes) => Ok(outcomes),
        Err(_) => Err(PoolFault::Memory),
    }
}

/// Reads all that a bootstrap selects, and returns a joiner that took it.
///
/// # Errors
///
/// Those of `restore`.
pub(crate) fn join_all<D: Drive + Send>(
    rt: &(impl Threads + Wait + Sync),
    budget: Budget,
    bootstrap: &Bootstrap,
    names: Option<Names>,
    drives: &mut Vec<D>,
) -> Result<Joiner, PoolFault>
    requires drives { AreDrives drives.old.items }
    ensures ready { IfOk result (λ joiner. is_ready joiner ≡ true) }
    ensures names { IfOk result (λ joiner. joiner.names ≡ names) }
    ensures hits { JoinsOver D.shows drives.old.items drives.new.items bootstrap.now result }
    ensures places { StayInPlace D.shows D.failures drives.old.items drives.new.items }
    ensures decided { IfErr result IsDecided }
    ensures failed { OnlyIfAllFail D.failures drives.old.items drives.new.items IsNoDriveLeft result }
{
    let alloc = budget.alloc;
    let Ok(pieces) = split(alloc, bootstrap) else {
        return Err(PoolFault::Memory);
    };
    let Ok(mut joiner) = Joiner::with_room(alloc, &pieces, names, budget.data_room()) else {
        return Err(PoolFault::Memory);
    };
    let task = Streaming {
        pieces: &pieces,
        gate: &OpenGate,
        room: ROOM,
    };
    match run_pool_streaming(rt, alloc, &task, drives, &mut joiner) {
        Ok(()) => Ok(joiner),
        Err(fault) => Err(fault),
    }
}
