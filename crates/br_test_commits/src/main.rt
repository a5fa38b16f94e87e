//! Commits jobs by a keeper in memory, and prints after each call its result and the state.
//! `acceptance/keeping.py` runs it with each of its requests for memory refused in turn.
#![tactic(auto)]

mod job_drafts;
mod keeper_state;
mod one_keeper;

use crate::job_drafts::{FIRST, FOURTH, SECOND, THIRD};
use crate::keeper_state::new_kept;
use crate::one_keeper::{Deed, run};
use std::io;

/// What follows the commit of the first job, one after another.
const ONE_BY_ONE: &[Deed] = &[
    Deed::Republish,
    Deed::Republish,
    Deed::Commit(FIRST),
    Deed::Append,
    Deed::Commit(SECOND),
    Deed::Republish,
    Deed::Commit(THIRD),
];

/// What another keeper does with what is left. It begins with the fourth job.
const AGAIN: &[Deed] = &[Deed::Commit(THIRD), Deed::Commit(SECOND), Deed::Republish];

/// Commits, each of which publishes the job that waits.
const AT_ONCE: &[Deed] = &[
    Deed::Commit(FIRST),
    Deed::Republish,
    Deed::Commit(SECOND),
    Deed::Commit(THIRD),
    Deed::Republish,
];

fn main(rt: HostRuntime) -> io::Result<()> {
    if let Some(kept) = run(&rt, new_kept(rt.alloc()), FIRST, ONE_BY_ONE)? {
        run(&rt, kept, FOURTH, AGAIN)?;
    }
    run(&rt, new_kept(rt.alloc()), FIRST, AT_ONCE)?;
    Ok(())
}
