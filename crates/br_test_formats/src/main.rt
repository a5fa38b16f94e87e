//! Runs rows over names, attributes and headers of blocks, the selections of the groups of a
//! bootstrap, drives in memory, bytes that are read again, for their digest and when they are
//! written, a record that is packed, long files that are saved, jobs that no catalogue can hold,
//! copies of jobs, the contents of histories and views at a place, and plans for paths. It prints
//! the rows that gave something else than expected. `acceptance/format_rows.py` and
//! `acceptance/selection_rows.py` run the other rows over formats and over the selection.
#![tactic(auto)]

mod again;
mod attributes;
mod blocks;
mod bootstraps;
mod histories;
mod jobs;
mod names;
mod packing;
mod plans;
mod printing;
mod sessions;
mod views;
mod volumes;

use br_test_support::{Case, Rows, fields_of};
use std::io;

/// Carries out a call and prints the result.
fn run(case: &mut Case, fields: &[&str]) {
    match fields {
        ["types", call @ ..] => names::run(case, call),
        ["attributes", call @ ..] => attributes::run(case, call),
        ["block", call @ ..] => blocks::run(case, call),
        ["bootstrap", call, text, rest @ ..] => bootstraps::run(case, call, text, rest),
        ["volume", "drive", kind, volumes, tails, reads @ ..] => {
            volumes::read_all(case, kind, volumes, tails, reads);
        }
        ["again", kind, volumes, tails, places @ ..] => {
            again::read_all(case, kind, volumes, tails, places);
        }
        ["pack", head, bytes] => packing::run(case, head, bytes),
        ["session", call @ ..] => sessions::run(case, call),
        ["history", call @ ..] => histories::run(case, call),
        ["plan", call @ ..] => plans::run(case, call),
        ["view", path, job] => views::run(case, path, job),
        _ => case.fail("there is no such call"),
    }
}

/// Carries out the call of a row.
fn run_call(case: &mut Case, call: &str) {
    if let Some(fields) = fields_of(case, call) {
        run(case, &fields);
    }
}

/// Runs the row of a line, if there is one.
fn run_line(rt: &HostRuntime, rows: &mut Rows, line: &str) -> io::Result<()> {
    if let Some(row) = rows.read(rt, line)? {
        let mut case = Case::new(rt.alloc());
        run_call(&mut case, row.call);
        rows.compare(rt, row, &case)?;
    }
    Ok(())
}

fn main(rt: HostRuntime) -> io::Result<()> {
    let text = io::read_to_string(rt.alloc(), rt.reader())?;
    let mut rows = Rows::new(rt.alloc());
    for line in text.as_str().lines() {
        run_line(&rt, &mut rows, line)?;
    }
    rows.end(&rt)
}
