//! Pieces whose hits a joiner takes block by block, while drives read: round by round.
ghost use Rattle.std.specs.Prelude.{◌≡◌, ◌<◌, ◌≤◌, None, true, length, IfOk, IfErr, OnErr, OnOk};
ghost use Rattle.std.specs.List.{AllByRecursion, list_any};
ghost use Rattle.br_join.specs.Joining.{IsMadeFor, is_ready};
ghost use Rattle.br_match.specs.Come.{AreOfBootstrap};
ghost use Rattle.br_pool.specs.Fault.{IsDecided, IsNoDriveLeft};
ghost use Rattle.br_pool.specs.Pool.{AreDrives, OnlyIfAllFail, StayInPlace};
ghost use Rattle.br_pool.specs.Rounds.{AreLeftAtEnd};
ghost use Rattle.br_pool.specs.Slots.{is_empty, rounds_left};
ghost use Rattle.br_pool.specs.Streaming.{AddsTo, FilledTo, ReadsRoundTo, StreamsOver, told_by};
ghost use Rattle.br_pool.specs.Workers.{HaveServed, IsReady, count_in, outs};

use crate::batch_queue::open_line;
use crate::fault::PoolFault;
use crate::gate::Gate;
use crate::readers::{into_readers, out_of_readers};
use crate::round_course::Course;
use crate::rounds::goes_on;
use crate::sender::SendRound;
use crate::senders::{lists_for, send_all};
use crate::slots::{empty_slots, found_in_order, left_of};
use crate::worker::{PieceResult, Reader, Round};
use crate::workers::{WorkerShare, into_workers, out_of_workers, shares_for};
use br_claim::{ClaimSeat, Claims};
use br_join::Joiner;
use br_piece::Piece;
use br_volume::Drive;
use std::alloc::{AllocError, Global};
use std::sync::Wait;
use std::thread::Threads;

/// The pieces to be read, the gate for each, and the number of batches for which the queue has room.
#[derive(Drop)]
pub struct Streaming<'t, G: Gate> {
    pub pieces: &'t [Piece],
    pub gate: &'t G,
    pub room: usize,
}

/// What a round needs besides its readers.
#[derive(Drop)]
struct RoundTask<'r, G: Gate> {
    round: &'r Round<'r, G>,
    room: usize,
    alloc: Global,
}

/// Reads pieces with the readers while the joiner takes their hits, and fills the slots `into` with
/// the answers. Returns the seats of the workers. The readers are then in their places again.
fn read_to<D: Drive + Send, G: Gate + Sync, R: Threads + Wait + Sync>(
    rt: &R,
    task: &RoundTask<'_, G>,
    readers: &mut Vec<Reader<D>>,
    shares: Vec<WorkerShare>,
    into: &mut [Option<PieceResult>],
    joiner: &mut Joiner,
) -> Result<Vec<ClaimSeat>, AllocError>
    requires few { task.now.round.now.claims.now.limit ≡ length task.now.round.now.left.now }
    requires below { AllByRecursion (λ x. x < length task.now.round.now.pieces.now) task.now.round.now.left.now }
    requires slots { length into.old ≡ length task.now.round.now.pieces.now }
    requires drives { length readers.old.items ≤ 16 }
    requires queue { 0 < task.now.room }
    requires many { length readers.old.items ≡ length shares.items }
    requires ready { AllByRecursion (λ d. IsReady task.now.round.now.claims.now.claims task.now.round.now.claims.now.limit d.seat d.answers)
        shares.items }
    ensures many { IfOk result (λ seats. length seats.items ≡ length readers.old.items) }
    ensures served { HaveServed D.shows D.failures readers.old.items readers.new.items }
    ensures read { ReadsRoundTo D.shows task.now.round.now readers.old.items readers.new.items into.old into.new
        joiner.old joiner.new result }
{
    let alloc = task.alloc;
    let mut seats = Vec::with_capacity(alloc, shares.len())?;
    let (line, pass) = open_line(alloc, task.room)?;
    let (mut workers, senders) = lists_for(alloc, shares.len())?;
    into_workers(readers, shares, &mut workers);
    let course = Course::new();
    let sending = SendRound {
        round: task.round,
        line: &line,
        course: &course,
        alloc,
    };
    let (workers, fine) = send_all(rt, &sending, pass, workers, senders, joiner);
    out_of_workers(workers, readers, &mut seats, into);
    if !fine {
        return Err(AllocError);
    }
    Ok(seats)
}

/// Reads the pieces whose slots are empty with the drives that are not out, each piece at most once,
/// while the joiner takes their hits. A drive that fails is out, and its piece keeps an empty slot.
fn stream_round<D: Drive + Send, G: Gate + Sync, R: Threads + Wait + Sync>(
    rt: &R,
    alloc: Global,
    task: &Streaming<'_, G>,
    readers: &mut Vec<Reader<D>>,
    slots: &mut [Option<PieceResult>],
    joiner: &mut Joiner,
) -> Result<(), AllocError>
    requires many { length slots.old ≡ length task.now.pieces.now }
    requires few { length readers.old.items ≤ 16 }
    requires queue { 0 < task.now.room }
    requires left { list_any is_empty slots.old ≡ true }
    requires ready { 0 < count_in (outs readers.old.items) }
    ensures many { length slots.new ≡ length slots.old }
    ensures served { HaveServed D.shows D.failures readers.old.items readers.new.items }
    ensures added { AddsTo D.shows task.now.pieces.now readers.old.items readers.new.items
        slots.old slots.new joiner.old joiner.new result }
    ensures fewer { OnOk result (rounds_left (outs readers.new.items) slots.new < rounds_left (outs readers.old.items) slots.old) }
{
    let left = left_of(alloc, slots)?;
    let room = left.len();
    let Ok(count) = u32::try_from(room) else {
        return Err(AllocError);
    };
    let mut claims = Claims::new(alloc, count)?;
    let shares = shares_for(alloc, &mut claims, readers.len(), room)?;
    let round = Round {
        pieces: task.pieces,
        left: &left,
        claims: &claims,
        gate: task.gate,
    };
    let of_round = RoundTask {
        round: &round,
        room: task.room,
        alloc,
    };
    let seats = read_to(rt, &of_round, readers, shares, slots, joiner)?;
    let Ok(_lists) = claims.gather(seats) else {
        return Err(AllocError);
    };
    Ok(())
}

/// Reads the pieces round by round while the joiner takes their hits, until each has an answer or no
/// drive is left.
fn stream_rounds<D: Drive + Send, G: Gate + Sync, R: Threads + Wait + Sync>(
    rt: &R,
    alloc: Global,
    task: &Streaming<'_, G>,
    readers: &mut Vec<Reader<D>>,
    slots: &mut [Option<PieceResult>],
    joiner: &mut Joiner,
) -> Result<(), AllocError>
    requires many { length slots.old ≡ length task.now.pieces.now }
    requires none { AllByRecursion (λ s. s ≡ None) slots.old }
    requires few { length readers.old.items ≤ 16 }
    requires queue { 0 < task.now.room }
    ensures many { length slots.new ≡ length slots.old }
    ensures served { HaveServed D.shows D.failures readers.old.items readers.new.items }
    ensures filled { FilledTo D.shows task.now.pieces.now readers.old.items readers.new.items slots.new joiner.old joiner.new result }
    ensures left { OnOk result (AreLeftAtEnd (outs readers.new.items) slots.new) }
{
    while goes_on(readers, slots) {
        stream_round(rt, alloc, task, readers, slots, joiner)?;
    }
    Ok(())
}

/// Closes each of the pieces, all of which the joiner knows.
fn close_all(joiner: &mut Joiner, pieces: &[Piece])
    requires { IsMadeFor pieces.now joiner.old.pieces }
    ensures ready { is_ready joiner.new ≡ true }
    ensures made { IsMadeFor pieces.now joiner.new.pieces }
    ensures hits { joiner.new.hits ≡ joiner.old.hits }
    ensures names { joiner.new.names ≡ joiner.old.names }
{
    for piece in pieces {
        let Ok(()) = joiner.close_piece(piece.number) else {
            unreachable!()
        };
    }
}

/// Reads the pieces with the drives, and gives the joiner the hits of each block as they are found.
/// One of the drives reads each piece, as `match_piece` does. Each drive works in its own thread.
///
/// There are 1 to 16 drives, and the pieces are those of a bootstrap, for which the joiner was made.
/// At most `room` batches wait between the drives and the joiner, once the joiner has a thread. Until
/// then the drives keep those for which there is no room. If no thread can be made, the joiner takes
/// all hits after the drives have read. After success the joiner is ready: it has all hits, and each
/// piece is closed. The gate is called before and after each piece. A drive that failed reads no
/// further piece. The drives that did not fail read its piece again, in a further round. In each case
/// the drives are in their places again.
///
/// # Errors
///
/// - `Memory` if memory ran out, for any piece.
/// - `NoDriveLeft` if each drive failed before all pieces were read.
/// - `Piece` with the fault of the first piece that has one.
///
/// Then the joiner keeps the hits that it took, and its pieces are unchanged. It can take the same
/// pieces again.
pub fn run_pool_streaming<D: Drive + Send, G: Gate + Sync, R: Threads + Wait + Sync>(
    rt: &R,
    alloc: Global,
    task: &Streaming<'_, G>,
    drives: &mut Vec<D>,
    joiner: &mut Joiner,
) -> Result<(), PoolFault>
    requires drives { AreDrives drives.old.items }
    requires split { AreOfBootstrap task.now.pieces.now }
    requires queue { 0 < task.now.room }
    requires made { IsMadeFor task.now.pieces.now joiner.old.pieces }
    ensures hits { StreamsOver (told_by D.shows drives.old.items drives.new.items) task.now.pieces.now joiner.old.hits joiner.new.hits result }
    ensures ready { OnOk result (is_ready joiner.new ≡ true) }
    ensures made { IsMadeFor task.now.pieces.now joiner.new.pieces }
    ensures open { OnErr result (joiner.new.pieces ≡ joiner.old.pieces) }
    ensures names { joiner.new.names ≡ joiner.old.names }
    ensures places { StayInPlace D.shows D.failures drives.old.items drives.new.items }
    ensures decided { IfErr result IsDecided }
    ensures failed { OnlyIfAllFail D.failures drives.old.items drives.new.items IsNoDriveLeft result }
{
    let pieces = task.pieces;
    let mut slots = empty_slots(alloc, pieces.len())?;
    let mut readers = Vec::with_capacity(alloc, drives.len())?;
    into_readers(drives, &mut readers);
    let run = stream_rounds(rt, alloc, task, &mut readers, &mut slots, joiner);
    out_of_readers(readers, drives);
    run?;
    found_in_order(alloc, slots)?;
    close_all(joiner, pieces);
    Ok(())
}
