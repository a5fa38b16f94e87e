//! A worker that sends what it finds of its pieces, block by block.
ghost use Rattle.std.specs.Prelude.{◌≡◌, ◌<◌, ◌≤◌, true, false, length, OnErr, OnOk};
ghost use Rattle.std.specs.List.{AllByRecursion};
ghost use Rattle.crossbeam_queue.specs.Passes.{IsPassOf};
ghost use Rattle.br_match.specs.Fault.{FailsWithDrive};
ghost use Rattle.br_volume.specs.Drive.{OnlyGrows};
ghost use Rattle.br_pool.specs.Gathering.{Pushes};
ghost use Rattle.br_pool.specs.Crew.{hired};
ghost use Rattle.br_pool.specs.Outlets.{outlet_view};
ghost use Rattle.br_pool.specs.Sending.{HasRunIn, HasSentIn, IsSetUpIn, SendsOver};
ghost use Rattle.br_pool.specs.Workers.{EachAt, EachPairAt, IsReady, is_failure, number_at};

use crate::batch_queue::Line;
use crate::gate::Gate;
use crate::outlet::{Outlet, send_or_keep};
use crate::round_course::Course;
use crate::thread_memory::Supply;
use crate::worker::{PieceResult, Reader, Round, Worker, is_failure, number_at};
use br_claim::ClaimSeat;
use br_match::{Batch, Found, PieceFault, Walk};
use br_piece::Piece;
use br_volume::Drive;
use std::alloc::{AllocError, Global};
use std::sync::Wait;
use std::thread;
use std::thread::Threads;

/// A worker that sends what it finds, and the way by which it sends.
pub(crate) struct Sender<D: Drive> {
    pub(crate) worker: Worker<D>,
    pub(crate) outlet: Outlet,
}

/// What all senders of a round share.
#[derive(Drop)]
pub(crate) struct SendRound<'r, G: Gate> {
    pub(crate) round: &'r Round<'r, G>,
    pub(crate) line: &'r Line,
    pub(crate) course: &'r Course,
    pub(crate) alloc: Global,
}

/// Sends a batch if it has hits.
///
/// # Errors
///
/// `AllocError` if memory runs out. Then the batch is lost.
fn send_hits<G: Gate, R: Wait>(
    rt: &R,
    sending: &SendRound<'_, G>,
    outlet: &mut Outlet,
    batch: Batch,
) -> Result<(), AllocError>
    requires pass { IsPassOf sending.now.line.now outlet.old.pass }
    requires part { 0 < (outlet_view outlet.old).parts }
    ensures pass { IsPassOf sending.now.line.now outlet.new.pass }
    ensures sent { OnOk result (Pushes (outlet_view outlet.old) (outlet_view outlet.new) batch.hits.items) }
    ensures same { OnErr result (outlet_view outlet.new ≡ outlet_view outlet.old) }
{
    if batch.hits.is_empty() {
        return Ok(());
    }
    send_or_keep(rt, sending.line, sending.course, outlet, batch)
}

/// Sends the fragments that the piece's groups hit, block by block, as `match_piece` finds them.
/// They are then in the queue or kept, so the returned value has none.
///
/// # Errors
///
/// As those of `match_piece`, and `Memory` also if there is none to keep a batch. The hits of the
/// blocks before the refusal were sent.
fn send_piece<D: Drive, G: Gate, R: Wait>(
    rt: &R,
    sending: &SendRound<'_, G>,
    outlet: &mut Outlet,
    piece: &Piece,
    drive: &mut D,
) -> Result<Found, PieceFault>
    requires pass { IsPassOf sending.now.line.now outlet.old.pass }
    requires part { 0 < (outlet_view outlet.old).parts }
    ensures pass { IsPassOf sending.now.line.now outlet.new.pass }
    ensures sent { SendsOver (D.shows drive.old) (D.shows drive.new) piece.now (outlet_view outlet.old) (outlet_view outlet.new) result }
    ensures grows { OnlyGrows (D.shows drive.old) (D.shows drive.new) }
    ensures counted { D.failures drive.old ≤ D.failures drive.new }
    ensures failed { FailsWithDrive D.failures drive.old drive.new result }
{
    let alloc = sending.alloc;
    let mut supply = Supply::new(alloc);
    let mut buf = Vec::new(alloc);
    let mut walk = Walk::new(alloc, piece)?;
    while let Some(batch) = walk.next(alloc, drive, &mut buf)? {
        send_hits(rt, sending, outlet, batch)?;
        supply.note_batch();
    }
    Ok(Found {
        piece: piece.number,
        hits: Vec::new(alloc),
    })
}

/// Reads and sends a piece with a drive that is not out, and calls the gate before and after the
/// reading. A drive that fails is out, so it reads no further piece.
fn send_one<D: Drive, G: Gate, R: Wait>(
    rt: &R,
    sending: &SendRound<'_, G>,
    piece: &Piece,
    number: u32,
    reader: &mut Reader<D>,
    outlet: &mut Outlet,
) -> PieceResult
    requires able { reader.old.out ≡ false }
    requires pass { IsPassOf sending.now.line.now outlet.old.pass }
    requires part { 0 < (outlet_view outlet.old).parts }
    ensures pass { IsPassOf sending.now.line.now outlet.new.pass }
    ensures sent { SendsOver (D.shows reader.old.drive) (D.shows reader.new.drive) piece.now
        (outlet_view outlet.old) (outlet_view outlet.new) result }
    ensures grows { OnlyGrows (D.shows reader.old.drive) (D.shows reader.new.drive) }
    ensures counted { D.failures reader.old.drive ≤ D.failures reader.new.drive }
    ensures failed { is_failure result ≡ true → D.failures reader.old.drive < D.failures reader.new.drive }
    ensures out { reader.new.out ≡ is_failure result }
{
    let gate = sending.round.gate;
    gate.enter(number);
    let drive = &mut reader.drive;
    let answer = send_piece(rt, sending, outlet, piece, drive);
    gate.leave(number);
    reader.out = is_failure(&answer);
    answer
}

/// Draws pieces and sends them, until none is left or the drive fails. The piece at which it failed
/// has no answer.
fn send_drawn<D: Drive, G: Gate, R: Wait>(
    rt: &R,
    sending: &SendRound<'_, G>,
    reader: &mut Reader<D>,
    seat: &mut ClaimSeat,
    answers: &mut Vec<(u32, PieceResult)>,
    outlet: &mut Outlet,
)
    requires able { reader.old.out ≡ false }
    requires few { sending.now.round.now.claims.now.limit ≡ length sending.now.round.now.left.now }
    requires below { AllByRecursion (λ x. x < length sending.now.round.now.pieces.now) sending.now.round.now.left.now }
    requires ready { IsReady sending.now.round.now.claims.now.claims sending.now.round.now.claims.now.limit seat.old answers.old }
    requires pass { IsPassOf sending.now.line.now outlet.old.pass }
    requires hired { outlet_view outlet.old ≡ hired }
    ensures pass { IsPassOf sending.now.line.now outlet.new.pass }
    ensures sent { HasSentIn D.shows D.failures sending.now reader.old reader.new seat.new answers.new.items (outlet_view outlet.new) }
{
    let round = sending.round;
    while let Some(place) = round.claims.draw(seat) {
        let number = number_at(round.left, place);
        let piece = &round.pieces[number as usize];
        let answer = send_one(rt, sending, piece, number, reader, outlet);
        if reader.out {
            return;
        }
        answers.push_reserved((number, answer));
    }
}

/// Sends pieces, as `send_drawn`, unless the drive is out.
fn work<D: Drive, G: Gate, R: Wait>(rt: &R, sending: &SendRound<'_, G>, sender: &mut Sender<D>)
    requires few { sending.now.round.now.claims.now.limit ≡ length sending.now.round.now.left.now }
    requires below { AllByRecursion (λ x. x < length sending.now.round.now.pieces.now) sending.now.round.now.left.now }
    requires ready { IsSetUpIn sending.now sender.old }
    ensures { HasRunIn D.shows D.failures sending.now sender.old sender.new }
{
    let Sender { worker, outlet } = sender;
    let Worker {
        reader,
        seat,
        answers,
    } = worker;
    if reader.out {
        return;
    }
    send_drawn(rt, sending, reader, seat, answers, outlet);
}

/// Runs each sender in its own thread.
pub(crate) fn run_senders<D: Drive + Send, G: Gate + Sync, R: Threads + Wait + Sync>(
    rt: &R,
    sending: &SendRound<'_, G>,
    senders: &mut [Sender<D>],
)
    requires few { sending.now.round.now.claims.now.limit ≡ length sending.now.round.now.left.now }
    requires below { AllByRecursion (λ x. x < length sending.now.round.now.pieces.now) sending.now.round.now.left.now }
    requires ready { EachAt (IsSetUpIn sending.now) senders.old }
    ensures { EachPairAt (HasRunIn D.shows D.failures sending.now) senders.old senders.new }
{
    let count = senders.len();
    if count == 0 {
        return;
    }
    thread::for_each_mut(rt, senders, count, &|_, sender| work(rt, sending, sender));
}
