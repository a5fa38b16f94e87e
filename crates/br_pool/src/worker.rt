ghost use Rattle.std.specs.Prelude.{◌≡◌, ◌<◌, ◌≤◌, true, false, length, IfOk};
ghost use Rattle.std.specs.List.{AllByRecursion};
ghost use Rattle.br_match.specs.Matching.{FoundOver};
ghost use Rattle.br_volume.specs.Drive.{OnlyGrows};
ghost use Rattle.br_pool.specs.Workers.{EachAt, EachPairAt, HasRun, HasWorkedIn, IsReady, IsSetUp, is_failure, number_at};

use crate::gate::Gate;
use br_claim::{ClaimSeat, Claims};
use br_match::{Found, PieceFault, match_piece};
use br_piece::Piece;
use br_volume::Drive;
use std::alloc::Global;
use std::thread;
use std::thread::Threads;

/// What a drive finds of a piece, or the reason why it gave the piece up.
pub(crate) type PieceResult = Result<Found, PieceFault>;

/// A drive, and whether it is out, that is, failed in this run of the pool.
pub(crate) struct Reader<D: Drive> {
    pub(crate) drive: D,
    pub(crate) out: bool,
}

/// A reader in a round, the seat by which it draws pieces, and its answer for each number.
pub(crate) struct Worker<D: Drive> {
    pub(crate) reader: Reader<D>,
    pub(crate) seat: ClaimSeat,
    pub(crate) answers: Vec<(u32, PieceResult)>,
}

/// What all workers of a round share.
#[derive(Drop)]
pub(crate) struct Round<'r, G: Gate> {
    pub(crate) pieces: &'r [Piece],
    /// The numbers of the pieces that are read in this round.
    pub(crate) left: &'r [u32],
    /// The places in `left`, which workers draw.
    pub(crate) claims: &'r Claims,
    pub(crate) gate: &'r G,
}

/// Returns whether the drive failed.
pub(crate) fn is_failure(answer: &PieceResult) -> bool
    ensures { result ≡ is_failure answer.now }
{
    match answer {
        Ok(_) => false,
        Err(fault) => fault.is_drive_failure(),
    }
}

/// Reads a piece with a drive that is not out, and calls the gate before and after the reading. A
/// drive that fails is out, so it reads no further piece.
fn read_one<D: Drive, G: Gate>(
    alloc: Global,
    piece: &Piece,
    number: u32,
    gate: &G,
    reader: &mut Reader<D>,
) -> PieceResult
    requires able { reader.old.out ≡ false }
    ensures number { IfOk result (λ found. found.piece ≡ piece.now.number) }
    ensures hits { FoundOver (D.shows reader.old.drive) (D.shows reader.new.drive) piece.now result }
    ensures grows { OnlyGrows (D.shows reader.old.drive) (D.shows reader.new.drive) }
    ensures counted { D.failures reader.old.drive ≤ D.failures reader.new.drive }
    ensures failed { is_failure result ≡ true → D.failures reader.old.drive < D.failures reader.new.drive }
    ensures out { reader.new.out ≡ is_failure result }
{
    gate.enter(number);
    let answer = match_piece(alloc, piece, &mut reader.drive);
    gate.leave(number);
    reader.out = is_failure(&answer);
    answer
}

/// Returns the number at a place.
pub(crate) fn number_at(left: &[u32], place: u32) -> u32
    requires { place < length left.now }
    ensures { result ≡ number_at left.now place }
{
    left[place as usize]
}

/// Draws pieces and reads them, until none is left or the drive fails. The piece at which it failed
/// has no answer.
fn read_drawn<D: Drive, G: Gate>(
    alloc: Global,
    round: &Round<'_, G>,
    reader: &mut Reader<D>,
    seat: &mut ClaimSeat,
    answers: &mut Vec<(u32, PieceResult)>,
)
    requires able { reader.old.out ≡ false }
    requires few { round.now.claims.now.limit ≡ length round.now.left.now }
    requires below { AllByRecursion (λ x. x < length round.now.pieces.now) round.now.left.now }
    requires ready { IsReady round.now.claims.now.claims round.now.claims.now.limit seat.old answers.old }
    ensures { HasWorkedIn D.shows D.failures round.now reader.old reader.new seat.new answers.new.items }
{
    while let Some(place) = round.claims.draw(seat) {
        let number = number_at(round.left, place);
        let piece = &round.pieces[number as usize];
        let answer = read_one(alloc, piece, number, round.gate, reader);
        if reader.out {
            return;
        }
        answers.push_reserved((number, answer));
    }
}

/// Reads pieces, as `read_drawn`, unless the drive is out.
fn work<D: Drive, G: Gate>(alloc: Global, round: &Round<'_, G>, worker: &mut Worker<D>)
    requires few { round.now.claims.now.limit ≡ length round.now.left.now }
    requires below { AllByRecursion (λ x. x < length round.now.pieces.now) round.now.left.now }
    requires ready { IsSetUp round.now.claims.now.claims round.now.claims.now.limit worker.old }
    ensures { HasRun D.shows D.failures round.now.claims.now.claims round.now.pieces.now round.now.left.now worker.old worker.new }
{
    let Worker {
        reader,
        seat,
        answers,
    } = worker;
    if reader.out {
        return;
    }
    read_drawn(alloc, round, reader, seat, answers);
}

/// Runs each worker in its own thread.
pub(crate) fn run_workers<D: Drive + Send, G: Gate + Sync, R: Threads + Sync>(
    rt: &R,
    alloc: Global,
    round: &Round<'_, G>,
    workers: &mut [Worker<D>],
)
    requires few { round.now.claims.now.limit ≡ length round.now.left.now }
    requires below { AllByRecursion (λ x. x < length round.now.pieces.now) round.now.left.now }
    requires ready { EachAt (IsSetUp round.now.claims.now.claims round.now.claims.now.limit) workers.old }
    ensures { EachPairAt (HasRun D.shows D.failures round.now.claims.now.claims round.now.pieces.now round.now.left.now)
        workers.old workers.new }
{
    let count = workers.len();
    if count == 0 {
        return;
    }
    thread::for_each_mut(rt, workers, count, &|_, worker| work(alloc, round, worker));
}
