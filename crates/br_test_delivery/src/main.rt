//! Runs rows over what only a call shows of matching, joining and delivering: drives that fail,
//! pieces that a joiner does not know, the room of a joiner, sinks that fail, the reports of a
//! restore, why a file could not be written or read, and numbers that threads draw. It prints the
//! rows that gave something else than expected. `acceptance/delivery_rows.py` and
//! `acceptance/rows.py` have the rows that the program shows.
#![tactic(auto)]

mod claims;
mod deliveries;
mod files;
mod items;
mod joins;
mod matches;
mod telling;
mod texts;

use br_test_support::{Case, Rows, fields_of};
use std::io;
use std::sync::Wait;
use std::thread::Threads;

/// Carries out a step and prints the result.
fn run(case: &mut Case, rt: &HostRuntime, threads: &(impl Threads + Wait + Sync), step: &[&str]) {
    let Some((name, call)) = step.split_first() else {
        return case.fail("there is no step");
    };
    match *name {
        "match" | "failing" => matches::found(case, name, call),
        "bare" => matches::bare(case, call),
        "walk" => matches::walk(case, call),
        "join" => joins::run(case, threads, call),
        "manifest" => deliveries::whole_manifest(case, call),
        "memory" => deliveries::memory(case, threads, call),
        "unfinished" => deliveries::folder(case, threads, call),
        "claims" => claims::run(case, threads, call),
        _ => telling::run(case, rt, step),
    }
}

/// Runs the row of a line, if there is one: its steps, one after another.
fn run_line(
    rt: &HostRuntime,
    threads: &(impl Threads + Wait + Sync),
    rows: &mut Rows,
    line: &str,
) -> io::Result<()> {
    if let Some(row) = rows.read(rt, line)? {
        let mut case = Case::new(rt.alloc());
        for step in row.call.split(" ; ") {
            if let Some(fields) = fields_of(&mut case, step) {
                run(&mut case, rt, threads, &fields);
            }
        }
        rows.compare(rt, row, &case)?;
    }
    Ok(())
}

fn main(rt: HostRuntime) -> io::Result<()> {
    let text = io::read_to_string(rt.alloc(), rt.reader())?;
    let mut rows = Rows::new(rt.alloc());
    for line in text.as_str().lines() {
        run_line(&rt, &rt, &mut rows, line)?;
    }
    rows.end(&rt)
}
