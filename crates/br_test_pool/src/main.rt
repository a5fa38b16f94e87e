//! Runs rows over pools of drives, some of which fail, grow or change, over restores by them, over
//! the tar stream, and over the machine of restores and backups on given events. It prints the rows
//! that gave something else than expected.
#![tactic(auto)]

mod drives;
mod gates;
mod machine;
mod pools;
mod restores;
mod shelf;
mod streams;
mod tar;

use br_test_support::{Case, Rows, fields_of};
use shelf::Shelf;
use std::io;
use std::sync::Wait;
use std::thread::Threads;

/// Carries out a call, with this number for a field `k`, and prints the result.
fn call<R: Threads + Wait + Sync>(
    case: &mut Case,
    threads: &R,
    shelf: &Shelf,
    k: u64,
    fields: &[&str],
) {
    match fields {
        ["pool", gate, drives, text] => pools::run(
            case,
            threads,
            shelf,
            k,
            [*gate, *drives, *text],
        ),
        ["stream", call @ ..] => streams::run(case, threads, shelf, k, call),
        ["restore", room, sink, drives, text] => {
            restores::run(case, threads, shelf, k, [*room, *sink, *drives, *text]);
        }
        ["machine", call @ ..] => machine::run(case, threads, shelf, call),
        ["tar", way, files @ ..] => tar::run(case, threads, shelf, way, files),
        _ => case.fail("there is no such call"),
    }
}

/// Prints the result of a call, or the name of that text.
fn named<R: Threads + Wait + Sync>(
    case: &mut Case,
    threads: &R,
    shelf: &Shelf,
    k: u64,
    fields: &[&str],
) {
    let mut own = Case::new(case.alloc());
    call(&mut own, threads, shelf, k, fields);
    if let Some(fault) = own.fault() {
        case.fail(fault);
    }
    shelf.push_gave(case, own.gave().trim_ascii_end());
}

/// Prints the results of a call with each of these numbers for a field `k`: the first number of
/// those with the same result, and the result.
fn each<R: Threads + Wait + Sync>(
    case: &mut Case,
    threads: &R,
    shelf: &Shelf,
    [from, to]: [&str; 2],
    fields: &[&str],
) {
    let (from, to) = (case.u64_of(from), case.u64_of(to));
    let mut last = Case::new(case.alloc());
    for k in from..=to {
        let mut next = Case::new(case.alloc());
        named(&mut next, threads, shelf, k, fields);
        if let Some(fault) = next.fault() {
            case.fail(fault);
        }
        if next.gave() != last.gave() {
            case.number(k);
            case.text(": ");
            let done = case.out().extend_from_slice(next.gave());
            case.done(done);
            case.text(" ");
        }
        last = next;
    }
}

/// Runs a row.
fn run<R: Threads + Wait + Sync>(case: &mut Case, threads: &R, shelf: &mut Shelf, fields: &[&str]) {
    match fields {
        ["text", name, text] => shelf.add_text(case, name, text),
        ["volumes", volumes @ ..] => shelf.set_volumes(case, volumes),
        ["each", from, to, call @ ..] => each(case, threads, shelf, [*from, *to], call),
        call => named(case, threads, shelf, 0, call),
    }
}

/// Carries out the call of a row.
fn run_call<R: Threads + Wait + Sync>(case: &mut Case, threads: &R, shelf: &mut Shelf, call: &str) {
    if let Some(fields) = fields_of(case, call) {
        run(case, threads, shelf, &fields);
    }
}

/// Runs the row of a line, if there is one. The rows of each name begin with an empty shelf.
fn run_line<R: Threads + Wait + Sync>(
    rt: &HostRuntime,
    threads: &R,
    shelf: &mut Shelf,
    rows: &mut Rows,
    line: &str,
) -> io::Result<()> {
    if line.starts_with("## ") {
        *shelf = Shelf::new(rt.alloc());
    }
    if let Some(row) = rows.read(rt, line)? {
        let mut case = Case::new(rt.alloc());
        run_call(&mut case, threads, shelf, row.call);
        rows.compare(rt, row, &case)?;
    }
    Ok(())
}

fn main(rt: HostRuntime) -> io::Result<()> {
    let text = io::read_to_string(rt.alloc(), rt.reader())?;
    let mut rows = Rows::new(rt.alloc());
    let mut shelf = Shelf::new(rt.alloc());
    for line in text.as_str().lines() {
        run_line(&rt, &rt, &mut shelf, &mut rows, line)?;
    }
    rows.end(&rt)
}
