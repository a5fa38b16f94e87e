//! The contents of a plan.

use crate::jobs::{add_job, history_of, path_of, request_of};
use br_bsr::write_bootstrap;
use br_history::History;
use br_plan::{Plan, PlanFault, Request};
use br_test_support::Case;
use br_types::Path;
use std::alloc::AllocError;

/// Reads paths with `,` between them; `-` for none.
fn paths_of(case: &mut Case, field: &str) -> Vec<Path> {
    let mut paths = Vec::new(case.alloc());
    for part in field.split(',') {
        if part != "-"
            && let Some(path) = path_of(case, part)
        {
            case.done(paths.push(path).map_err(AllocError::from));
        }
    }
    paths
}

/// Prints the text of a plan's bootstrap, and session, index and path of each name.
fn push_plan(case: &mut Case, plan: &Plan) {
    case.made(write_bootstrap(case.alloc(), plan.bootstrap()));
    for (key, path) in plan.names().iter() {
        case.text(" ");
        case.numbers(&[i64::from(key.session.id), i64::from(key.index.get())]);
        case.bytes(path.bytes());
    }
}

/// Prints a plan, or why it is refused.
fn push_made(case: &mut Case, plan: Result<Plan, PlanFault>) {
    match plan {
        Ok(plan) => push_plan(case, &plan),
        Err(fault) => case.refused(fault.number()),
    }
}

/// Makes the plan for paths, adds a job to the history, and prints the plan.
fn plan_before_a_job(case: &mut Case, history: &mut History, request: &Request, marks: &[Path]) {
    let plan = Plan::make(case.alloc(), history, request, marks);
    add_job(case, history, "3:BFT:240@3:240;/a,1,saved");
    push_made(case, plan);
}

/// Prints the plan for paths over some jobs.
fn plan(case: &mut Case, request: &str, marks: &str, jobs: &[&str]) {
    let mut history = history_of(case, jobs);
    let marks = paths_of(case, marks);
    if let Some(request) = request_of(case, request) {
        plan_before_a_job(case, &mut history, &request, &marks);
    }
}

/// Runs a call.
pub(crate) fn run(case: &mut Case, call: &[&str]) {
    match call {
        ["for", request, marks, jobs @ ..] => plan(case, request, marks, jobs),
        _ => case.fail("there is no such call"),
    }
}
