//! Volumes that can't be read, and what is left of a bootstrap without them.
ghost use Rattle.std.specs.Prelude.{◌≡◌, ◌==◌, false, length, IfOk, IfSome, OnOk};
ghost use Rattle.std.specs.Option.{option_copied};
ghost use Rattle.br_damage.specs.NarrowedBootstrap.{IsNarrowedBy};
ghost use Rattle.br_match.specs.Fault.{fault_number};
ghost use Rattle.br_cli_target.specs.LostVolumes.{damage, marked};

use br_bsr::{Bootstrap, Group};
use br_cli_common::reason_of_read;
use br_cli_progress::Gauge;
use br_damage::{NarrowedBootstrap, name_sessions};
use br_match::{PieceCause, PieceFault};
use br_piece::split;
use br_pool::PoolFault;
use br_types::{VolName, push_escaped};
use std::alloc::AllocError;
use std::fmt::Display;
use std::io;

/// The volumes of a bootstrap that can't be read.
#[derive(Drop)]
struct UnreadVolumes {
    /// For each group, true if its volume is one of them.
    flags: Vec<bool>,
    /// A line for each of them, and the reason.
    lines: Vec<u8>,
}

/// Sets the flags of these groups.
fn mark(flags: &mut Vec<bool>, groups: &[(u32, Group)])
    ensures marked { flags.new.items ≡ marked groups.now flags.old.items }
    ensures many { length flags.new.items ≡ length flags.old.items }
{
    for (number, _) in groups {
        if let Some(flag) = flags.get_mut(*number as usize) {
            *flag = true;
        }
    }
}

/// Appends the line of a volume that is lost, and the reason.
fn push_lost<R: Display>(
    rt: &HostRuntime,
    lines: &mut Vec<u8>,
    vol: &VolName,
    reason: &R,
) -> Result<(), AllocError> {
    lines.extend_from_slice(b"lost ")?;
    push_escaped(lines, vol.bytes())?;
    let text = format!(in rt.alloc(); "\n  {reason}\n")?;
    lines.extend_from_slice(text.as_bytes())
}

/// Notes a volume, if it can't be read.
fn note_volume(
    rt: &HostRuntime,
    unread: &mut UnreadVolumes,
    volumes: &str,
    vol: &VolName,
    groups: &[(u32, Group)],
) -> Result<(), AllocError>
    ensures { length unread.new.flags.items ≡ length unread.old.flags.items }
{
    match reason_of_read(rt, volumes, vol.bytes())? {
        Some(reason) => {
            mark(&mut unread.flags, groups);
            push_lost(rt, &mut unread.lines, vol, &reason)
        }
        None => Ok(()),
    }
}

/// Returns the volumes of a bootstrap that can't be read in a folder.
fn unread_of(
    rt: &HostRuntime,
    volumes: &str,
    bootstrap: &Bootstrap,
) -> Result<UnreadVolumes, AllocError>
    ensures { IfOk result (λ unread. length unread.flags.items ≡ length bootstrap.now) }
{
    let alloc = rt.alloc();
    let pieces = split(alloc, bootstrap)?;
    let mut unread = UnreadVolumes {
        flags: vec![in alloc; false; bootstrap.groups().len()]?,
        lines: Vec::new(alloc),
    };
    for piece in &pieces {
        note_volume(rt, &mut unread, volumes, &piece.vol, &piece.groups)?;
    }
    Ok(unread)
}

/// Returns what is left of a bootstrap without the volumes that can't be read in a folder, with a flag
/// for each group that says whether its volume is one of them. Says which these are and why. `None`
/// if there are none, or all of them are, or if a group does not name one session: then it is not
/// known of which files a part is lost.
pub fn narrow(
    rt: &HostRuntime,
    gauge: &Gauge<'_>,
    volumes: &str,
    bootstrap: &Bootstrap,
) -> io::Result<Option<(Vec<bool>, NarrowedBootstrap)>>
    ensures { IfOk result (λ narrowed. IfSome narrowed (λ n. IsNarrowedBy n.0.items bootstrap.now n.1.left n.1.missing.items)) }
{
    if !name_sessions(bootstrap.groups()) {
        return Ok(None);
    }
    let UnreadVolumes { flags, lines } = unread_of(rt, volumes, bootstrap)?;
    let Some(narrowed) = NarrowedBootstrap::by_flags(rt.alloc(), bootstrap, &flags)? else {
        return Ok(None);
    };
    gauge.tell_lines(lines)?;
    Ok(Some((flags, narrowed)))
}

/// Returns whether a volume is not there.
fn is_absent(fault: &PieceFault) -> bool
    ensures { result ≡ (fault_number fault.now == 14) }
{
    match fault {
        PieceFault::Block { cause, .. } => *cause == PieceCause::UnknownVolume,
        PieceFault::Memory => false,
    }
}

/// Returns the fault of the damaged volume at which a pool ended, if it ended at one. Which volumes are
/// not there is known before a restore begins, and a drive that failed is no fault of a volume.
pub fn damage(fault: &PoolFault) -> Option<&PieceFault>
    ensures { option_copied result ≡ damage fault.now }
{
    match fault {
        PoolFault::Piece(fault) if !is_absent(fault) => Some(fault),
        _ => None,
    }
}

/// Says that a volume is lost, since a restore ended there.
pub fn tell_damage(
    rt: &HostRuntime,
    gauge: &Gauge<'_>,
    vol: &VolName,
    fault: &PieceFault,
) -> io::Result<()> {
    let mut lines = Vec::new(rt.alloc());
    push_lost(rt, &mut lines, vol, fault)?;
    gauge.tell_lines(lines)
}
