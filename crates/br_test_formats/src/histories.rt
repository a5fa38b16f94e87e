//! Rows that make a job; copies of jobs and their rows; jobs at places of a history.

use crate::jobs::{history_of, job_of, made};
use crate::printing::shown;
use br_history::History;
use br_test_support::Case;

/// Prints whether the rows of a job are accepted.
fn rows(case: &mut Case, field: &str) {
    match made(case, field) {
        Some(Ok(_job)) => case.text("taken"),
        Some(Err(fault)) => case.number(u64::from(fault.number())),
        None => {}
    }
}

/// Prints copies of a job, of its row and of the rows of its files.
fn copied(case: &mut Case, field: &str) {
    let Some(job) = job_of(case, field) else {
        return;
    };
    let alloc = case.alloc();
    shown(case, &job.copy(alloc));
    shown(case, &job.row().copy(alloc));
    for file in job.files() {
        shown(case, &file.copy(alloc));
    }
}

/// Prints number and session of the job at a place.
fn push_at(case: &mut Case, history: &History, place: usize) {
    match history.get(place) {
        Some(job) => shown(case, &(job.row().id.get(), job.row().session)),
        None => case.text("none "),
    }
}

/// Prints the jobs at the first three places of a history.
fn jobs(case: &mut Case, fields: &[&str]) {
    let history = history_of(case, fields);
    for place in 0..3 {
        push_at(case, &history, place);
    }
}

/// Runs a call.
pub(crate) fn run(case: &mut Case, call: &[&str]) {
    match call {
        ["rows", field] => rows(case, field),
        ["copied", field] => copied(case, field),
        ["jobs", fields @ ..] => jobs(case, fields),
        _ => case.fail("there is no such call"),
    }
}
