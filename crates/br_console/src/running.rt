ghost use Rattle.std.specs.Prelude.{◌≡◌, ℕ, [], length, Err, Some, IfErr, IfOk, OnOk};
ghost use Rattle.br_model.specs.Answer.{Answers};
ghost use Rattle.br_plan.specs.Fault.{cause};
ghost use Rattle.br_pool.specs.Pool.{AreDrives, OnlyIfAllFail, StayInPlace};
ghost use Rattle.br_engine.specs.Fault.{IsNoLine};
ghost use Rattle.br_engine.specs.Restores.{CountsFailures, change};
ghost use Rattle.br_console.specs.ConsoleFault.{EndlessAfterAll, IsNoPiece};
ghost use Rattle.br_console.specs.Running.{BecomesFault, IsNoDriveLeft, WritesPlan, opening};
ghost use Rattle.br_console.specs.Delivering.{BeginsInto, ChangesInto, Puts, RunStopIsCounted, RunStopIsLost};
ghost use Rattle.br_console.specs.Delivering.{RunsInto, TellsInto};
ghost use Rattle.br_console.specs.Delivering.{ChangesPlan, FinishesInto, PlanStopIsCounted, PlanStopIsLost, RestoresInto};
ghost use Rattle.br_console.specs.Delivering.{IfUnchosen, IsViewOfAsked, plan_for};

use crate::console_fault::ConsoleFault;
use crate::ending::{ConsoleRun, End, LineVerdict, SessionEnd};
use crate::marked_paths::tree_for;
use crate::talking::converse;
use br_bsr::{Bootstrap, write_bootstrap};
use br_engine::{CountedBootstrap, ExtractFault, Extracted, Restore, RestoreOrder};
use br_mark::Console;
use br_plan::{JobSelection, Plan, PlanFault};
use br_sink::{Flush, Sink, show};
use br_tree::Tree;
use br_types::{Names, Wanted};
use br_volume::Drive;
use std::alloc::Global;
use std::io::BufRead;
use std::sync::Wait;
use std::thread::Threads;

/// Returns the console over the view of the chosen jobs, at `/` and without marks.
fn console_for<'h>(alloc: Global, asked: &JobSelection<'h>) -> Result<Console<'h>, PlanFault>
    ensures { Answers (λ console. console) cause result (opening asked.now.history asked.now.request) }
{
    let tree = tree_for(alloc, asked)?;
    Ok(Console::new(alloc, tree)?)
}

/// Makes the plan for the marked paths of the chosen jobs' tree and writes its bootstrap.
fn write_plan<W: Flush>(
    alloc: Global,
    asked: &JobSelection<'_>,
    tree: &Tree<'_>,
    writer: &mut W,
) -> Result<Plan, ConsoleFault>
    requires { IsViewOfAsked asked.now tree.now.view }
    ensures written { WritesPlan (W.contents writer.old) (W.contents writer.new) (plan_for asked.now tree.now.marked) result }
    ensures flushed { OnOk result (W.is_flushed writer.new) }
{
    let plan = Plan::for_marked(alloc, asked, tree)?;
    let text = write_bootstrap(alloc, plan.bootstrap())?;
    show(writer, &text)?;
    Ok(plan)
}

/// Makes the part of a run of the console before a drive is used: runs a session as `run_console`
/// does. If it ended with `done`, writes and flushes the bootstrap of the plan, and returns the
/// plan. Returns also whether each line was accepted.
///
/// # Errors
///
/// As `run_console`, without `Piece` and `Changed`.
pub fn prepare<R: BufRead + Drop, W: Flush>(
    alloc: Global,
    asked: &JobSelection<'_>,
    reader: &mut R,
    writer: &mut W,
) -> Result<(LineVerdict, Option<Plan>), ConsoleFault>
    requires shown { W.is_flushed writer.old }
    ensures begins { BeginsInto (R.remaining reader.old) (W.contents writer.old) (W.contents writer.new) asked.now result }
    ensures flushed { OnOk result (W.is_flushed writer.new) }
    ensures driveless { IfErr result IsNoPiece }
    ensures endless { IfErr result EndlessAfterAll }
    ensures chosen { IfOk result (λ _. IfUnchosen asked.now ⊥) }
    ensures untouched { IfUnchosen asked.now ((reader.new ≡ reader.old) × (writer.new ≡ writer.old)) }
{
    let mut console = console_for(alloc, asked)?;
    let session = converse(alloc, &mut console, reader, writer)?;
    match session.end {
        SessionEnd::Quit => Ok((session.lines, None)),
        SessionEnd::Done => {
            let plan = write_plan(alloc, asked, console.tree(), writer)?;
            Ok((session.lines, Some(plan)))
        }
    }
}

/// Returns the fault of a restore by a plan as one of the console.
fn console_fault(fault: ExtractFault) -> ConsoleFault
    requires { IsNoLine fault }
    ensures { BecomesFault fault result }
{
    match fault {
        ExtractFault::Memory => ConsoleFault::Memory,
        ExtractFault::Piece(fault) => ConsoleFault::Piece(fault),
        ExtractFault::Changed => ConsoleFault::Changed,
        ExtractFault::Io(fault) => ConsoleFault::Io(fault),
        ExtractFault::Bootstrap(_) | ExtractFault::NoEnd(_) => unreachable!(),
    }
}

/// Returns the order to restore the files of a plan.
fn order_of<'b>(bootstrap: &'b Bootstrap, names: Names, wanted: Wanted) -> RestoreOrder<'b>
    ensures bootstrap { result.asked.bootstrap.now ≡ bootstrap.entry.now }
    ensures counts { result.asked.counts.now ≡ [] }
    ensures names { result.names ≡ Some names }
    ensures wanted { result.wanted ≡ wanted }
{
    RestoreOrder {
        asked: CountedBootstrap {
            bootstrap,
            counts: &[],
        },
        names: Some(names),
        wanted,
    }
}

/// Restores the files of a plan under their names: writes and flushes their manifest, and then
/// delivers those that are wanted into the sink, if there is one.
///
/// # Errors
///
/// Those of `Restore::run`. After an error nothing is put into the sink.
pub fn restore_plan<D: Drive + Send, W: Flush, S: Sink>(
    rt: &(impl Threads + Wait + Sync),
    restore: &mut Restore<D, S>,
    plan: Plan,
    wanted: Wanted,
    writer: &mut W,
) -> Result<Extracted, ConsoleFault>
    requires drives { AreDrives restore.old.drives.items }
    ensures restores { RestoresInto wanted (change D.Drive W.Write S.Sink (restore.old, writer.old) (restore.new, writer.new)) plan result }
    ensures changed { ChangesPlan (change D.Drive W.Write S.Sink (restore.old, writer.old) (restore.new, writer.new)) plan result }
    ensures flushed { OnOk result (W.is_flushed writer.new) }
    ensures endless { IfErr result EndlessAfterAll }
    ensures places { StayInPlace D.shows D.failures restore.old.drives.items restore.new.drives.items }
    ensures failed { OnlyIfAllFail D.failures restore.old.drives.items restore.new.drives.items IsNoDriveLeft result }
    ensures lost { PlanStopIsLost D.failures restore.old restore.new result }
    ensures sink_counted { CountsFailures S.failures restore.old restore.new }
    ensures sink_failed { PlanStopIsCounted S.failures restore.old restore.new result }
{
    let (bootstrap, names) = plan.into_parts();
    let order = order_of(&bootstrap, names, wanted);
    match restore.run(rt, order, writer) {
        Ok(done) => Ok(done),
        Err(fault) => Err(console_fault(fault)),
    }
}

/// Runs the console over a history: runs a session over the view of the jobs that a request chooses, as
/// `converse`, from a console at `/` without marks.
///
/// If the session ended with `done`, the plan for the marked paths is made, and its bootstrap is
/// written and flushed before a drive is used. The planned files are then restored as
/// `restore_plan` does. If the session ended with `quit` or at the end of input, nothing follows.
///
/// # Errors
///
/// - `Plan` if the choice is refused (53, 54, 50); then nothing is read or written. Or after the dialogue
///   if nothing is marked (51).
/// - `Piece` after the bootstrap for the first volume that can't be read, or if no drive is left.
/// - `Changed` after the bootstrap if a volume was changed while it was read.
/// - `Memory` at any time, and `NoEnd` as in a session; then a beginning of the dialogue and the bootstrap
///   was written, and nothing else.
/// - `Io` at any time; then a part of a text may have been written.
///
/// After an error nothing is put into the sink.
pub fn run_console<R: BufRead + Drop, D: Drive + Send, W: Flush, S: Sink>(
    rt: &(impl Threads + Wait + Sync),
    restore: &mut Restore<D, S>,
    asked: &JobSelection<'_>,
    wanted: Wanted,
    reader: &mut R,
    writer: &mut W,
) -> Result<ConsoleRun, ConsoleFault>
    requires drives { AreDrives restore.old.drives.items }
    requires shown { W.is_flushed writer.old }
    ensures delivers { Puts wanted (R.remaining reader.old) (change D.Drive W.Write S.Sink (restore.old, writer.old) (restore.new, writer.new)) asked.now result }
    ensures runs { RunsInto (R.remaining reader.old) (change D.Drive W.Write S.Sink (restore.old, writer.old) (restore.new, writer.new)) asked.now result }
    ensures tells { TellsInto (R.remaining reader.old) (W.contents writer.old) (W.contents writer.new) asked.now result }
    ensures flushed { OnOk result (W.is_flushed writer.new) }
    ensures endless { IfErr result EndlessAfterAll }
    ensures untouched { IfUnchosen asked.now ((reader.new ≡ reader.old) × (restore.new ≡ restore.old) × (writer.new ≡ writer.old)) }
    ensures places { StayInPlace D.shows D.failures restore.old.drives.items restore.new.drives.items }
    ensures failed { OnlyIfAllFail D.failures restore.old.drives.items restore.new.drives.items IsNoDriveLeft result }
    ensures lost { RunStopIsLost D.failures restore.old restore.new result }
    ensures changed { ChangesInto (R.remaining reader.old)
        (change D.Drive W.Write S.Sink (restore.old, writer.old) (restore.new, writer.new)) asked.now result }
    ensures sink_counted { CountsFailures S.failures restore.old restore.new }
    ensures sink_failed { RunStopIsCounted S.failures restore.old restore.new result }
{
    let (lines, plan) = prepare(restore.budget.alloc, asked, reader, writer)?;
    let Some(plan) = plan else {
        return Ok(ConsoleRun {
            lines,
            end: End::Quit,
        });
    };
    match restore_plan(rt, restore, plan, wanted, writer) {
        Ok(done) => Ok(ConsoleRun {
            lines,
            end: End::Done(done),
        }),
        Err(fault) => Err(fault),
    }
}

/// Makes what follows `prepare` in a run of the console: restores by the plan as `restore_plan`, if
/// there is one. So the manifest may go to another writer than what comes before it.
///
/// # Errors
///
/// The error of `prepare`, or those of `restore_plan`.
pub fn finish<D: Drive + Send, W: Flush, S: Sink>(
    rt: &(impl Threads + Wait + Sync),
    restore: &mut Restore<D, S>,
    prepared: Result<(LineVerdict, Option<Plan>), ConsoleFault>,
    wanted: Wanted,
    writer: &mut W,
) -> Result<ConsoleRun, ConsoleFault>
    requires drives { AreDrives restore.old.drives.items }
    requires shown { W.is_flushed writer.old }
    ensures finishes { FinishesInto wanted (change D.Drive W.Write S.Sink (restore.old, writer.old) (restore.new, writer.new)) prepared result }
    ensures many { length restore.new.drives.items ≡ length restore.old.drives.items }
    ensures flushed { OnOk result (W.is_flushed writer.new) }
{
    let (lines, plan) = prepared?;
    let Some(plan) = plan else {
        return Ok(ConsoleRun {
            lines,
            end: End::Quit,
        });
    };
    match restore_plan(rt, restore, plan, wanted, writer) {
        Ok(done) => Ok(ConsoleRun {
            lines,
            end: End::Done(done),
        }),
        Err(fault) => Err(fault),
    }
}
