//! The hits that a pool of drives streams into a joiner.
ghost use Rattle.std.specs.Prelude.{◌<◌, IfOk};
ghost use Rattle.br_join.specs.Joining.{IsMadeFor};
ghost use Rattle.br_match.specs.Come.{AreOfBootstrap};

use crate::drives::{Turned, are_drives, drives_of};
use crate::gates::{Holding, gate_of, push_held};
use crate::pools::{pieces_of, push_refusal};
use crate::shelf::Shelf;
use br_bsr::BsrFault;
use br_join::{Joiner, Outcome};
use br_piece::Piece;
use br_pool::{Streaming, run_pool_streaming};
use br_sink::manifest;
use br_test_support::Case;
use br_types::FileKey;
use std::alloc::{AllocError, Global};
use std::sync::Wait;
use std::thread::Threads;

/// Returns a joiner of these pieces that takes all files.
fn joiner_of(alloc: Global, pieces: &[Piece]) -> Result<Joiner, AllocError>
    ensures { IfOk result (λ joiner. IsMadeFor pieces.now joiner.pieces) }
{
    let joiner = Joiner::new(alloc, pieces, None)?;
    Ok(joiner)
}

/// Streams pieces into the joiner by drives, if there are any, and prints the refusal, or `done`.
fn streamed<R: Threads + Wait + Sync>(
    case: &mut Case,
    threads: &R,
    task: &Streaming<'_, Holding>,
    joiner: &mut Joiner,
    drives: &mut Vec<Turned>,
)
    requires split { AreOfBootstrap task.now.pieces.now }
    requires queue { 0 < task.now.room }
    requires made { IsMadeFor task.now.pieces.now joiner.old.pieces }
    ensures made { IsMadeFor task.now.pieces.now joiner.new.pieces }
{
    if !are_drives(drives) {
        return;
    }
    match run_pool_streaming(threads, case.alloc(), task, drives, joiner) {
        Ok(()) => case.text("done "),
        Err(fault) => push_refusal(case, &fault),
    }
}

/// Prints the manifest of outcomes.
pub(crate) fn push_manifest(case: &mut Case, shelf: &Shelf, outcomes: &[(FileKey, Outcome)]) {
    match manifest(case.alloc(), outcomes) {
        Ok(text) => shelf.push_text(case, &text),
        Err(_fault) => case.fail("out of memory"),
    }
}

/// Prints the manifest of the joiner's files, if all its pieces are closed. It has room for all data.
fn push_joined(
    case: &mut Case,
    threads: &(impl Threads + Sync),
    shelf: &Shelf,
    joiner: &mut Joiner,
) {
    if !joiner.ready() {
        return;
    }
    if !joiner.holds_all() {
        return case.fail("data were let go");
    }
    match joiner.finish(threads) {
        Ok(outcomes) => push_manifest(case, shelf, &outcomes),
        Err(_fault) => case.fail("the pieces are not joined"),
    }
}

/// Streams pieces into a joiner by drives, and then by others. Prints the results, and the
/// manifest.
fn stream<R: Threads + Wait + Sync>(
    case: &mut Case,
    threads: &R,
    shelf: &Shelf,
    task: &Streaming<'_, Holding>,
    drives: (&mut Vec<Turned>, &mut Vec<Turned>),
) -> Result<(), AllocError>
    requires split { AreOfBootstrap task.now.pieces.now }
    requires queue { 0 < task.now.room }
{
    let (first, again) = drives;
    let mut joiner = joiner_of(case.alloc(), task.pieces)?;
    streamed(case, threads, task, &mut joiner, first);
    streamed(case, threads, task, &mut joiner, again);
    push_joined(case, threads, shelf, &mut joiner);
    Ok(())
}

/// Reads the room of a queue, which is for at least one batch.
fn room_of(case: &mut Case, field: &str) -> usize
    ensures { 0 < result }
{
    let room = case.u32_of(field) as usize;
    if room == 0 {
        case.fail("there is no room");
        return 1;
    }
    room
}

/// Streams the pieces of a bootstrap, through a gate and a queue with this room.
fn stream_text<R: Threads + Wait + Sync>(
    case: &mut Case,
    threads: &R,
    shelf: &Shelf,
    (gate, room): (&Holding, &str),
    text: &[u8],
    drives: (&mut Vec<Turned>, &mut Vec<Turned>),
) -> Result<(), BsrFault> {
    let pieces = pieces_of(case.alloc(), text)?;
    let task = Streaming {
        pieces: &pieces,
        gate,
        room: room_of(case, room),
    };
    stream(case, threads, shelf, &task, drives)?;
    Ok(())
}

/// Streams the pieces of a bootstrap into a joiner by drives, and then by others if there are any,
/// through a gate and a queue with this room. Prints both results, then the manifest of the
/// joiner's files, and the number of pieces that the gate held.
pub(crate) fn run<R: Threads + Wait + Sync>(
    case: &mut Case,
    threads: &R,
    shelf: &Shelf,
    k: u64,
    fields: &[&str],
) {
    let [gate, room, first, again, text] = fields else {
        return case.fail("there is no such call");
    };
    let gate = gate_of(case, gate);
    let text = shelf.text_of(case, text);
    let mut first = drives_of(case, shelf, k, first);
    let mut again = drives_of(case, shelf, k, again);
    let drives = (&mut first, &mut again);
    if stream_text(case, threads, shelf, (&gate, room), &text, drives).is_err() {
        case.fail("a field is no bootstrap");
    }
    push_held(case, &gate);
}
