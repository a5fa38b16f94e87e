//! A session by patterns that goes on without damaged volumes.
ghost use Rattle.std.specs.Prelude.{IfOk, IfSome, OnOk};
ghost use Rattle.br_pool.specs.Pool.{AreDrives};
ghost use Rattle.br_cli_console.specs.ConsoleTasks.{IsInputOf, RunsLast, session};

use crate::pattern_marks::prepare_left;
use crate::session_manifest::{Outputs, SessionInput, flush_outputs, run_session};
use br_cli_common::Marks;
use br_cli_progress::Gauge;
use br_console::{ConsoleFault, ConsoleRun};
use br_engine::Restore;
use br_plan::JobSelection;
use br_sink::{Flush, Sink};
use br_types::Wanted;
use br_volume::Drive;
use std::io::{self, BufRead};
use std::sync::Wait;
use std::thread::Threads;

/// Runs a session as `run_session` does. If patterns mark its paths, so by `restore`, and it ends at a
/// damaged volume, restores what is left without that volume, as often as need be. Nothing is put
/// before the last time. `first` is what the session runs on at first, with the flags of the groups
/// that are lost by then, and `task` has the marks.
///
/// # Errors
///
/// If memory ran out for a plan, or a writer or standard error failed in between.
pub(crate) fn run_left<
    R: BufRead + Drop,
    D: Drive + Send,
    W: Flush + Drop,
    M: Flush + Drop,
    S: Sink,
>(
    threads: &(impl Threads + Wait + Sync),
    task: (&HostRuntime, &Gauge<'_>, &Marks<'_>),
    order: (&JobSelection<'_>, Wanted),
    restore: &mut Restore<D, S>,
    first: (SessionInput<R>, Vec<bool>),
    out: &mut Outputs<W, M>,
) -> io::Result<Result<ConsoleRun, ConsoleFault>>
    requires drives { AreDrives restore.old.drives.items }
    requires shown { W.is_flushed out.old.answers }
    requires fresh { IfSome out.old.manifest M.is_flushed }
    ensures session { IfOk result (RunsLast R.remaining order.entry (task.entry.2.now, first.0)
        (session D.Drive W.Write M.Write S.Sink (restore.old, out.old) (restore.new, out.new))) }
    ensures flushed { IfOk result (λ run. OnOk run (W.is_flushed out.new.answers)) }
    ensures apart { IfOk result (λ run. OnOk run (IfSome out.new.manifest M.is_flushed)) }
{
    let (rt, gauge, marks) = task;
    let (input, mut lost) = first;
    let mut run = run_session(threads, restore, order, input, out);
    for _ in 0..u64::MAX {
        let Some(left) = prepare_left((rt, gauge), order.0, marks, &mut lost, &run)? else {
            return Ok(run);
        };
        flush_outputs(out)?;
        run = run_session(
            threads,
            restore,
            order,
            SessionInput::<R>::Prepared(left),
            out,
        );
    }
    Ok(run)
}
