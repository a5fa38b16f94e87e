//! A restore that goes on without damaged volumes.
ghost use Rattle.std.specs.Prelude.{◌≡◌, None, IfOk, IfSome};
ghost use Rattle.std.specs.Option.{option_copied};
ghost use Rattle.br_damage.specs.NarrowedBootstrap.{IsNarrowedBy};
ghost use Rattle.br_cli.specs.BootstrapFiles.{whole_of};
ghost use Rattle.br_cli.specs.ExtractTasks.{ExtractsLast};
ghost use Rattle.br_cli.specs.VolumeFaults.{IsDamage, damage_of};
ghost use Rattle.br_cli_common.specs.declared.options.Printed.TheVariants.{Manifest};
ghost use Rattle.br_engine.specs.Restores.{TellsStop, change};
ghost use Rattle.br_pool.specs.Pool.{AreDrives};

use crate::bootstrap_file::BootstrapFile;
use crate::extract_command::{Extraction, extract_over};
use br_cli_common::Printed;
use br_cli_progress::Gauge;
use br_cli_target::{damage, tell_damage};
use br_damage::NarrowedBootstrap;
use br_engine::{ExtractFault, Extracted, Restore};
use br_match::PieceFault;
use br_sink::{Flush, Sink};
use br_volume::Drive;
use std::io;
use std::sync::Wait;
use std::thread::Threads;

/// Returns the fault of the damaged volume at which a restore ended, if it ended at one.
fn damage_of(fault: &ExtractFault) -> Option<&PieceFault>
    ensures { option_copied result ≡ damage_of fault.now }
{
    match fault {
        ExtractFault::Piece(fault) => damage(fault),
        _ => None,
    }
}

/// Returns what is left for a `restore`, which prints words, after it ended with this fault: what it
/// can restore without the damaged volume at which it ended, and the flags of all groups that are
/// lost. Says which volume that is. `None` if it did not end at one, or if nothing is left.
fn left_after(
    watch: (&HostRuntime, &Gauge<'_>),
    printed: Printed<'_>,
    file: &BootstrapFile<'_>,
    fault: &ExtractFault,
) -> io::Result<Option<(Vec<bool>, NarrowedBootstrap)>>
    ensures left { IfOk result (λ left. IfSome left (λ l. IfSome (whole_of file.now) (λ w. IsNarrowedBy l.0.items w l.1.left l.1.missing.items))) }
    ensures why { IfOk result (λ left. IfSome left (λ _. IsDamage fault.now)) }
    ensures asked { printed.entry ≡ Manifest → IfOk result (λ left. left ≡ None) }
{
    let (rt, gauge) = watch;
    if matches!(printed, Printed::Manifest) {
        return Ok(None);
    }
    let Some(fault) = damage_of(fault) else {
        return Ok(None);
    };
    let Some(vol) = fault.vol() else {
        return Ok(None);
    };
    let left = file.without_volume(rt.alloc(), vol)?;
    if left.is_some() {
        tell_damage(rt, gauge, vol, fault)?;
    }
    Ok(left)
}

/// Restores as `extract_over` does. If words are printed, so by `restore`, and it ends at a damaged
/// volume, restores what is left without that volume, as often as need be. Nothing is written or put
/// before the last time. Returns also the order that was carried out then.
pub(crate) fn extract_left<'p, D: Drive + Send, W: Flush, S: Sink>(
    threads: &(impl Threads + Wait + Sync),
    watch: (&HostRuntime, &Gauge<'_>),
    printed: Printed<'_>,
    asked: Extraction<'p>,
    restore: &mut Restore<D, S>,
    writer: &mut W,
) -> io::Result<(Extraction<'p>, Result<Extracted, ExtractFault>)>
    requires drives { AreDrives restore.old.drives.items }
    ensures extracts { IfOk result (λ done. ExtractsLast done.0 (change D.Drive W.Write S.Sink (restore.old, writer.old) (restore.new, writer.new)) done.1) }
    ensures whole { IfOk result (λ done. whole_of done.0.bootstrap ≡ whole_of asked.entry.bootstrap) }
    ensures wanted { IfOk result (λ done. done.0.wanted ≡ asked.entry.wanted) }
    ensures stopped_at { IfOk result (λ done. TellsStop done.1) }
    ensures flushed { IfOk result (λ done. IfOk done.1 (λ _. W.is_flushed writer.new)) }
{
    let mut extraction = asked;
    for _ in 0..u64::MAX {
        let fault = match extract_over(threads, &extraction, restore, writer) {
            Ok(done) => return Ok((extraction, Ok(done))),
            Err(fault) => fault,
        };
        let left = left_after(watch, printed, &extraction.bootstrap, &fault)?;
        let Some((flags, narrowed)) = left else {
            return Ok((extraction, Err(fault)));
        };
        extraction = extraction.with_lost(watch.0.alloc(), flags, narrowed);
    }
    let run = extract_over(threads, &extraction, restore, writer);
    Ok((extraction, run))
}
