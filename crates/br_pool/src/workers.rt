ghost use Rattle.std.specs.Prelude.{◌≡◌, ◌<◌, ◌≤◌, ◌+◌, [], map, reverse, flat_map, length, vec_capacity, IfOk};
ghost use Rattle.std.specs.List.{AllByRecursion, AllZip};
ghost use Rattle.br_pool.specs.Reading.{Reads};
ghost use Rattle.br_pool.specs.Slots.{AllBelow, with_each};
ghost use Rattle.br_pool.specs.Workers.{HasRun, HaveServed, IsReady, IsSetUp};

use crate::gate::Gate;
use crate::slots::fill;
use crate::worker::{PieceResult, Reader, Round, Worker, run_workers};
use br_claim::{ClaimSeat, Claims};
use br_volume::Drive;
use std::alloc::{AllocError, Global};
use std::thread::Threads;

/// What a worker has besides its reader.
#[derive(Drop)]
pub(crate) struct WorkerShare {
    pub(crate) seat: ClaimSeat,
    pub(crate) answers: Vec<(u32, PieceResult)>,
}

/// Returns a share with room for `room` answers.
fn one_share(alloc: Global, claims: &mut Claims, room: usize) -> Result<WorkerShare, AllocError>
    requires few { claims.old.seats < 65536 }
    requires room { claims.old.limit ≡ room }
    ensures ready { IfOk result (λ d. IsReady claims.old.claims room d.seat d.answers) }
    ensures claims { IfOk result (λ _. claims.new ≡ record claims.old { seats = claims.old.seats + 1 }) }
{
    let answers = Vec::with_capacity(alloc, room)?;
    let seat = claims.seat()?;
    Ok(WorkerShare { seat, answers })
}

/// Returns `count` shares with room for `room` answers each.
pub(crate) fn shares_for(
    alloc: Global,
    claims: &mut Claims,
    count: usize,
    room: usize,
) -> Result<Vec<WorkerShare>, AllocError>
    requires few { claims.old.seats + count ≤ 65536 }
    requires room { claims.old.limit ≡ room }
    ensures many { IfOk result (λ shares. length shares.items ≡ count) }
    ensures ready { IfOk result (λ shares. AllByRecursion (λ d. IsReady claims.old.claims room d.seat d.answers) shares.items) }
    ensures claims { IfOk result (λ _. claims.new ≡ record claims.old { seats = claims.old.seats + count }) }
{
    let mut shares = Vec::with_capacity(alloc, count)?;
    for _place in 0..count {
        shares.push_reserved(one_share(alloc, claims, room)?);
    }
    Ok(shares)
}

/// Makes a worker of each reader and a share, the last reader first.
pub(crate) fn into_workers<D: Drive>(
    readers: &mut Vec<Reader<D>>,
    shares: Vec<WorkerShare>,
    workers: &mut Vec<Worker<D>>,
)
    requires many { length readers.old.items ≡ length shares.items }
    requires none { workers.old.items ≡ [] }
    requires room { length shares.items ≤ vec_capacity workers.old }
    ensures none { readers.new.items ≡ [] }
    ensures room { vec_capacity readers.new ≡ vec_capacity readers.old }
    ensures readers { reverse (map (λ (w : Worker D). w.reader) workers.new.items) ≡ readers.old.items }
    ensures shares { AllZip (λ d (w : Worker D). (w.seat ≡ d.seat) × (w.answers ≡ d.answers)) shares.items workers.new.items }
{
    for share in shares {
        let WorkerShare { seat, answers } = share;
        workers.push_reserved(Worker {
            reader: readers.take_last(),
            seat,
            answers,
        });
    }
}

/// Runs the workers, and returns them after their run.
fn run_all<D: Drive + Send, G: Gate + Sync, R: Threads + Sync>(
    rt: &R,
    alloc: Global,
    round: &Round<'_, G>,
    mut workers: Vec<Worker<D>>,
) -> Vec<Worker<D>>
    requires few { round.now.claims.now.limit ≡ length round.now.left.now }
    requires below { AllByRecursion (λ x. x < length round.now.pieces.now) round.now.left.now }
    requires ready { AllByRecursion (IsSetUp round.now.claims.now.claims round.now.claims.now.limit) workers.items }
    ensures { AllZip (HasRun D.shows D.failures round.now.claims.now.claims round.now.pieces.now round.now.left.now)
        workers.items result.items }
{
    run_workers(rt, alloc, round, workers.as_mut_slice());
    workers
}

/// Takes the workers apart, the last one first. Their readers go back, and their answers go into
/// the slots.
pub(crate) fn out_of_workers<D: Drive>(
    mut workers: Vec<Worker<D>>,
    readers: &mut Vec<Reader<D>>,
    seats: &mut Vec<ClaimSeat>,
    slots: &mut [Option<PieceResult>],
)
    requires none { readers.old.items ≡ [] }
    requires no_seats { seats.old.items ≡ [] }
    requires room { (length workers.items ≤ vec_capacity readers.old) × (length workers.items ≤ vec_capacity seats.old) }
    requires below { AllByRecursion (λ (w : Worker D). AllBelow (length slots.old) w.answers.items) workers.items }
    ensures readers { readers.new.items ≡ reverse (map (λ (w : Worker D). w.reader) workers.items) }
    ensures seats { seats.new.items ≡ reverse (map (λ (w : Worker D). w.seat) workers.items) }
    ensures slots { slots.new ≡ with_each slots.old (flat_map (λ (w : Worker D). w.answers.items) (reverse workers.items)) }
{
    while !workers.is_empty() {
        let Worker {
            reader,
            seat,
            answers,
        } = workers.take_last();
        readers.push_reserved(reader);
        seats.push_reserved(seat);
        fill(slots, answers);
    }
    workers.destroy_empty();
}

/// Reads pieces with the readers, and fills the slots `into` with the answers. Returns the seats of
/// the workers. The readers are then in their places again.
pub(crate) fn read_all<D: Drive + Send, G: Gate + Sync, R: Threads + Sync>(
    rt: &R,
    alloc: Global,
    round: &Round<'_, G>,
    readers: &mut Vec<Reader<D>>,
    shares: Vec<WorkerShare>,
    into: &mut [Option<PieceResult>],
) -> Result<Vec<ClaimSeat>, AllocError>
    requires few { round.now.claims.now.limit ≡ length round.now.left.now }
    requires below { AllByRecursion (λ x. x < length round.now.pieces.now) round.now.left.now }
    requires slots { length into.old ≡ length round.now.pieces.now }
    requires many { length readers.old.items ≡ length shares.items }
    requires ready { AllByRecursion (λ d. IsReady round.now.claims.now.claims round.now.claims.now.limit d.seat d.answers) shares.items }
    ensures many { IfOk result (λ seats. length seats.items ≡ length readers.old.items) }
    ensures served { HaveServed D.shows D.failures readers.old.items readers.new.items }
    ensures read { Reads D.shows round.now.claims.now round.now.pieces.now round.now.left.now
        readers.old.items readers.new.items into.old into.new result }
{
    let mut seats = Vec::with_capacity(alloc, shares.len())?;
    let mut workers = Vec::with_capacity(alloc, shares.len())?;
    into_workers(readers, shares, &mut workers);
    let workers = run_all(rt, alloc, round, workers);
    out_of_workers(workers, readers, &mut seats, into);
    Ok(seats)
}
