//! The contents of the view of a job.
ghost use Rattle.br_model.specs.Job.{no_pair};

use crate::jobs::{job_of, path_of};
use crate::printing::shown;
use br_history::JobRows;
use br_test_support::Case;
use br_view::View;
use std::alloc::{AllocError, Global};

/// Returns the view of one job.
#[tactic(auto, unfolding(br_model::specs::Job::no_pair))]
fn view_of<'h>(alloc: Global, job: &'h JobRows) -> Result<View<'h>, AllocError> {
    View::build(alloc, &[job])
}

/// Prints the paths of a view with their indexes, and what it has at a path.
fn push_view(case: &mut Case, view: &View<'_>, path: &str) {
    for (path, entry) in view.iter() {
        case.bytes(path.bytes());
        case.text(" ");
        case.numbers(&[i64::from(entry.index.get())]);
    }
    match path_of(case, path) {
        Some(path) => shown(case, &view.get(&path)),
        None => case.fail("a field is no path"),
    }
}

/// Runs a call: shows the view of a job, and what it has at a path.
pub(crate) fn run(case: &mut Case, path: &str, field: &str) {
    let Some(job) = job_of(case, field) else {
        return;
    };
    match view_of(case.alloc(), &job) {
        Ok(view) => push_view(case, &view, path),
        Err(_fault) => case.fail("out of memory"),
    }
}
