//! The findings of pools of drives.
ghost use Rattle.std.specs.Prelude.{IfOk};
ghost use Rattle.br_match.specs.Come.{AreOfBootstrap};
ghost use Rattle.br_pool.specs.Pool.{AreDrives, AreNumbered};

use crate::drives::{Turned, are_drives, drives_of};
use crate::gates::{Holding, gate_of, push_held};
use crate::shelf::Shelf;
use br_bsr::{BsrFault, read_bootstrap};
use br_engine::push_pool_line;
use br_match::{Found, Hit};
use br_piece::{Piece, split};
use br_pool::{PoolFault, run_pool};
use br_test_support::Case;
use std::alloc::Global;
use std::thread::Threads;

/// Returns the pieces of a bootstrap's text.
pub(crate) fn pieces_of(alloc: Global, text: &[u8]) -> Result<Vec<Piece>, BsrFault>
    ensures numbered { IfOk result (λ pieces. AreNumbered pieces.items) }
    ensures split { IfOk result (λ pieces. AreOfBootstrap pieces.items) }
{
    let bootstrap = read_bootstrap(alloc, text)?;
    let pieces = split(alloc, &bootstrap)?;
    Ok(pieces)
}

/// Prints a line without its line feed, and a blank, unless it is empty.
pub(crate) fn push_line(case: &mut Case, line: &[u8]) {
    if !line.is_empty() {
        let done = case.out().extend_from_slice(line.trim_ascii_end());
        case.done(done);
        case.text(" ");
    }
}

/// Prints the line of a refusal.
pub(crate) fn push_refusal(case: &mut Case, fault: &PoolFault) {
    let mut line = Vec::new(case.alloc());
    case.done(push_pool_line(&mut line, fault));
    push_line(case, &line);
}

/// Prints a hit: session, group, address and ordinal, stream, size and bytes.
fn push_hit(case: &mut Case, shelf: &Shelf, hit: &Hit) {
    case.numbers(&[
        i64::from(hit.key.session.id),
        i64::from(hit.spot.group),
        i64::try_from(hit.spot.addr).unwrap_or(-1),
        i64::from(hit.spot.ordinal),
        i64::from(hit.stream),
        i64::from(hit.size),
    ]);
    match hit.data.held() {
        Some(bytes) => shelf.push_text(case, bytes),
        None => case.fail("the data of a hit are not held"),
    }
}

/// Prints the number of a piece, and its hits.
fn push_found(case: &mut Case, shelf: &Shelf, found: &Found) {
    case.number(u64::from(found.piece));
    case.text("[ ");
    for hit in &found.hits {
        push_hit(case, shelf, hit);
    }
    case.text("] ");
}

/// Prints what a pool found, or its refusal.
fn push_answer(case: &mut Case, shelf: &Shelf, answer: &Result<Vec<Found>, PoolFault>) {
    match answer {
        Ok(founds) => {
            for found in founds {
                push_found(case, shelf, found);
            }
        }
        Err(fault) => push_refusal(case, fault),
    }
}

/// Returns what these drives find by a bootstrap.
fn found_by<R: Threads + Sync>(
    threads: &R,
    alloc: Global,
    gate: &Holding,
    text: &[u8],
    drives: &mut Vec<Turned>,
) -> Result<Result<Vec<Found>, PoolFault>, BsrFault>
    requires { AreDrives drives.old.items }
{
    let pieces = pieces_of(alloc, text)?;
    Ok(run_pool(threads, alloc, &pieces, drives, gate))
}

/// Prints what drives find by a bootstrap, or the refusal, and the number of pieces that the gate
/// held.
pub(crate) fn run<R: Threads + Sync>(
    case: &mut Case,
    threads: &R,
    shelf: &Shelf,
    k: u64,
    [gate, drives, text]: [&str; 3],
) {
    let gate = gate_of(case, gate);
    let text = shelf.text_of(case, text);
    let mut drives = drives_of(case, shelf, k, drives);
    if !are_drives(&drives) {
        return case.fail("there are no drives");
    }
    match found_by(threads, case.alloc(), &gate, &text, &mut drives) {
        Ok(answer) => push_answer(case, shelf, &answer),
        Err(_fault) => case.fail("a field is no bootstrap"),
    }
    push_held(case, &gate);
}
