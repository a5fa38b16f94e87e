//! Runs rows over files of the system, volumes in folders of a disk that fails or is full, commits
//! by a keeper in memory, callers of a served keeper, and what sessions see meanwhile. It prints
//! the rows that gave something else than expected.
#![tactic(auto)]

mod files;
mod keeping;
mod mem_volumes;
mod plans;
mod saved_jobs;
mod serving;
mod shown;
mod volumes;

use br_test_support::{Case, Rows, fields_of};
use std::io;
use std::sync::Wait;
use std::thread::Threads;

/// Carries out a call with its fields, and prints the result.
fn run_fields<R: Threads + Wait + Copy + Send + 'static>(
    rt: &HostRuntime,
    threads: R,
    case: &mut Case,
    fields: &[&str],
) {
    match fields {
        ["files", steps @ ..] => files::run(rt, case, steps),
        ["volume", call @ ..] => volumes::run(case, call),
        ["keeper", failure, steps @ ..] => keeping::run(&threads, case, failure, steps),
        ["plans", moment, jobs @ ..] => plans::run(&threads, case, moment, jobs),
        ["serve", first, second, watchers] => {
            let jobs = (case.u32_of(first), case.u32_of(second));
            let watchers = case.u32_of(watchers);
            serving::run(threads, case, jobs, watchers);
        }
        _ => case.fail("there is no such call"),
    }
}

/// Runs the row of a line, if there is one.
fn run_line<R: Threads + Wait + Copy + Send + 'static>(
    rt: &HostRuntime,
    threads: R,
    rows: &mut Rows,
    line: &str,
) -> io::Result<()> {
    if let Some(row) = rows.read(rt, line)? {
        let mut case = Case::new(rt.alloc());
        if let Some(fields) = fields_of(&mut case, row.call) {
            run_fields(rt, threads, &mut case, &fields);
        }
        rows.compare(rt, row, &case)?;
    }
    Ok(())
}

fn main(rt: HostRuntime) -> io::Result<()> {
    let text = io::read_to_string(rt.alloc(), rt.reader())?;
    let mut rows = Rows::new(rt.alloc());
    for line in text.as_str().lines() {
        run_line(&rt, rt, &mut rows, line)?;
    }
    rows.end(&rt)
}
