//! Paths that patterns mark, in the place of the lines of a session.
ghost use Rattle.std.specs.Prelude.{◌≡◌, ◌++◌, false, flat_map, IfOk, IfSome, OnOk};
ghost use Rattle.std.specs.Option.{option_copied};
ghost use Rattle.std.specs.Io.KnownBytes.{Appends};
ghost use Rattle.br_model.specs.Bootstrap.{canonical};
ghost use Rattle.br_model.specs.Text.{is_empty};
ghost use Rattle.br_console.specs.ConsoleEnding.{are_accepted};
ghost use Rattle.br_console.specs.MarkedPaths.{texts};
ghost use Rattle.br_damage.specs.NarrowedBootstrap.{IsNarrowedBy};
ghost use Rattle.br_cli_console.specs.ConsoleTasks.{IsDamage, IsLeftOf, PreparesBy, PreparesPaths, damage_of};
ghost use Rattle.br_cli_console.specs.UnmatchedLines.{unmatched_line};

use crate::session_manifest::Prepared;
use br_bsr::write_bootstrap;
use br_cli_common::Marks;
use br_cli_progress::Gauge;
use br_cli_target::{damage, narrow, tell_damage};
use br_console::{ConsoleFault, ConsoleRun, LineVerdict, plan_paths};
use br_damage::{NarrowedBootstrap, with_volume};
use br_match::PieceFault;
use br_plan::{JobSelection, Plan, PlanFault};
use br_sink::{Flush, show};
use br_types::{VolName, push_escaped};
use std::alloc::{AllocError, Global};
use std::io;

/// Appends the line of a pattern that meets no path.
fn push_unmatched(text: &mut Vec<u8>, pattern: &str) -> Result<(), AllocError>
    ensures { IfOk result (λ _. text.new.items ≡ text.old.items ++ unmatched_line pattern.now) }
{
    text.extend_from_slice(b"unmatched ")?;
    push_escaped(text, pattern.as_bytes())?;
    text.push(b'\n')?;
    Ok(())
}

/// Returns a line for each pattern that meets no path.
fn unmatched_lines(alloc: Global, patterns: &[&str]) -> Result<Vec<u8>, AllocError>
    ensures { IfOk result (λ lines. lines.items ≡ flat_map (λ p. unmatched_line p.now) patterns.now) }
{
    let mut lines = Vec::new(alloc);
    for pattern in patterns {
        push_unmatched(&mut lines, pattern)?;
    }
    Ok(lines)
}

/// Prints a line for each pattern that meets no path to standard error, and appends it to the log.
fn tell_unmatched(rt: &HostRuntime, gauge: &Gauge<'_>, patterns: &[&str]) -> io::Result<()> {
    let lines = unmatched_lines(rt.alloc(), patterns)?;
    let text = String::from_utf8_lossy(rt.alloc(), &lines)?;
    eprint!(rt; "{text}")?;
    gauge.log_refusals(&lines);
    Ok(())
}

/// Returns how patterns count, of which these meet no path: as lines, each of which is refused.
fn verdict_of(unmatched: &[&str]) -> LineVerdict
    ensures { are_accepted result ≡ is_empty (texts unmatched.now) }
{
    if unmatched.is_empty() {
        LineVerdict::AllAccepted
    } else {
        LineVerdict::SomeRefused
    }
}

/// Writes and flushes the bootstrap of a plan.
fn show_plan<W: Flush>(alloc: Global, plan: &Plan, writer: &mut W) -> io::Result<()>
    ensures written { OnOk result (Appends (W.contents writer.old) (W.contents writer.new) (canonical plan.now.groups)) }
    ensures flushed { OnOk result (W.is_flushed writer.new) }
{
    let text = write_bootstrap(alloc, plan.bootstrap())?;
    show(writer, &text)
}

/// Returns the plan without the files that are lost with volumes that can't be read, if there are
/// such volumes, and if others are left, with a flag for each group of the plan that says whether it is
/// lost. It still names these files, so that they are reported. Without lost volumes there is no flag.
fn without_lost(
    rt: &HostRuntime,
    gauge: &Gauge<'_>,
    volumes: &str,
    plan: Plan,
) -> io::Result<(Plan, Vec<bool>)>
    ensures { IfOk result (λ left. IsLeftOf plan left.0) }
{
    match narrow(rt, gauge, volumes, plan.bootstrap())? {
        Some((flags, narrowed)) => Ok((plan.with_bootstrap(narrowed.left), flags)),
        None => Ok((plan, Vec::new(rt.alloc()))),
    }
}

/// Prepares a session by patterns: makes the plan of the paths that they mark, without what is lost
/// with volumes, and writes its bootstrap. Each pattern that meets no path is reported, and counts as
/// a refused line.
///
/// # Errors
///
/// If memory ran out for a text, or the writer or standard error failed.
pub(crate) fn prepare_patterns<W: Flush>(
    rt: &HostRuntime,
    gauge: &Gauge<'_>,
    asked: &JobSelection<'_>,
    volumes: &str,
    patterns: &[&str],
    writer: &mut W,
) -> io::Result<(Prepared, Vec<bool>)>
    requires shown { W.is_flushed writer.old }
    ensures paths { IfOk result (λ p. PreparesPaths asked.now (texts patterns.now) p.0) }
    ensures flushed { IfOk result (λ _. W.is_flushed writer.new) }
{
    match plan_paths(rt.alloc(), asked, patterns) {
        Ok((plan, unmatched)) => {
            tell_unmatched(rt, gauge, &unmatched)?;
            let (plan, lost) = without_lost(rt, gauge, volumes, plan)?;
            show_plan(rt.alloc(), &plan, writer)?;
            Ok((Ok((verdict_of(&unmatched), Some(plan))), lost))
        }
        Err(fault) => {
            if matches!(fault, PlanFault::NothingMarked) {
                tell_unmatched(rt, gauge, patterns)?;
            }
            Ok((Err(ConsoleFault::Plan(fault)), Vec::new(rt.alloc())))
        }
    }
}

/// Returns what is left of a plan without the groups that have a flag and those on a volume, with the
/// flags of all these. Without lost volumes there is no flag.
fn left_without(
    alloc: Global,
    plan: &Plan,
    lost: &[bool],
    vol: &VolName,
) -> Result<Option<(Vec<bool>, NarrowedBootstrap)>, AllocError>
    ensures { IfOk result (λ left. IfSome left (λ l. IsNarrowedBy l.0.items plan.now.groups l.1.left l.1.missing.items)) }
{
    let groups = plan.bootstrap().groups();
    let none = vec![in alloc; false; groups.len()]?;
    let flags = if lost.len() == groups.len() {
        with_volume(alloc, groups, lost, vol)?
    } else {
        with_volume(alloc, groups, &none, vol)?
    };
    match NarrowedBootstrap::by_flags(alloc, plan.bootstrap(), &flags)? {
        Some(narrowed) => Ok(Some((flags, narrowed))),
        None => Ok(None),
    }
}

/// Returns the fault of the damaged volume at which a session ended, if it ended at one.
fn damage_of(run: &Result<ConsoleRun, ConsoleFault>) -> Option<&PieceFault>
    ensures { option_copied result ≡ damage_of run.now }
{
    match run {
        Err(ConsoleFault::Piece(fault)) => damage(fault),
        _ => None,
    }
}

/// Prepares what a session by patterns goes on with after a run that ended at a damaged volume: the
/// plan of the paths that they mark, without what is lost with this volume and those before it. Says
/// which volume it is. `lost` has the flags of the lost groups. `None` if the run did not end at one,
/// or if nothing is left.
///
/// # Errors
///
/// If memory ran out, or standard error failed.
pub(crate) fn prepare_left(
    watch: (&HostRuntime, &Gauge<'_>),
    asked: &JobSelection<'_>,
    marks: &Marks<'_>,
    lost: &mut Vec<bool>,
    run: &Result<ConsoleRun, ConsoleFault>,
) -> io::Result<Option<Prepared>>
    ensures paths { IfOk result (λ left. IfSome left (PreparesBy asked.now marks.now)) }
    ensures why { IfOk result (λ left. IfSome left (λ _. IsDamage run.now)) }
{
    let (rt, gauge) = watch;
    let Marks::Patterns(patterns) = marks else {
        return Ok(None);
    };
    let Some(fault) = damage_of(run) else {
        return Ok(None);
    };
    let Some(vol) = fault.vol() else {
        return Ok(None);
    };
    let Ok((plan, unmatched)) = plan_paths(rt.alloc(), asked, patterns) else {
        return Ok(None);
    };
    let Some((flags, narrowed)) = left_without(rt.alloc(), &plan, lost, vol)? else {
        return Ok(None);
    };
    tell_damage(rt, gauge, vol, fault)?;
    *lost = flags;
    let left = plan.with_bootstrap(narrowed.left);
    Ok(Some(Ok((verdict_of(&unmatched), Some(left)))))
}
