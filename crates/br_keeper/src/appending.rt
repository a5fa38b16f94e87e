//! Appends the blocks of a session to volumes.
ghost use Rattle.std.specs.Prelude.{◌≡◌, ◌≤◌, OnOk};
ghost use Rattle.br_history.specs.Preparing.{seen};
ghost use Rattle.br_volume.specs.Store.{Lasts};
ghost use Rattle.br_keeper.specs.Writing.{AppendsAllTo, AreDurable, ChecksVolume, ChecksVolumes, SyncsAfter, SyncsAllTo, SyncsOneTo, WritesBlocksTo, is_on_any};

use crate::fault::KeeperFault;
use crate::vouched_lengths::{Vouch, enter, grow, is_retired, retire};
use br_history::JobRows;
use br_session::Span;
use br_types::VolName;
use br_volume::VolumeStore;
use std::alloc::Global;

/// Tests whether a volume may be written to at this length.
fn check_volume<W: VolumeStore>(
    volumes: &mut W,
    vouches: &[Vouch],
    vol: &VolName,
    bytes: u64,
) -> Result<(), KeeperFault>
    ensures same { W.holds volumes.new ≡ W.holds volumes.old }
    ensures settled { W.durable volumes.new ≡ W.durable volumes.old }
    ensures counted { (W.failures volumes.old).number ≤ (W.failures volumes.new).number }
    ensures clean { OnOk result (W.failures volumes.new ≡ W.failures volumes.old) }
    ensures checked { ChecksVolume vouches.now (W.holds volumes.old) (W.failures volumes.old) (W.failures volumes.new)
        (vol.now, bytes) result }
{
    if is_retired(vouches, vol) {
        return Err(KeeperFault::RetiredVolume);
    }
    match volumes.length(vol) {
        Ok(length) if length == bytes => Ok(()),
        Ok(_) => Err(KeeperFault::RetiredVolume),
        Err(_) => Err(KeeperFault::Volume),
    }
}

/// Tests whether all volumes may be written to at these lengths, one after the other.
fn check_volumes<W: VolumeStore>(
    volumes: &mut W,
    vouches: &[Vouch],
    starts: &[(VolName, u64)],
) -> Result<(), KeeperFault>
    ensures same { W.holds volumes.new ≡ W.holds volumes.old }
    ensures settled { W.durable volumes.new ≡ W.durable volumes.old }
    ensures counted { (W.failures volumes.old).number ≤ (W.failures volumes.new).number }
    ensures clean { OnOk result (W.failures volumes.new ≡ W.failures volumes.old) }
    ensures checked { ChecksVolumes vouches.now (W.holds volumes.old) (W.failures volumes.old) (W.failures volumes.new)
        starts.now result }
{
    for start in starts {
        check_volume(volumes, vouches, &start.0, start.1)?;
    }
    Ok(())
}

/// Appends blocks, each to its volume by one append, until one fails. The length that is vouched
/// for grows with each. A volume whose append fails is retired.
fn append_all<W: VolumeStore>(
    volumes: &mut W,
    vouches: &mut [Vouch],
    blocks: &[(VolName, Vec<u8>)],
) -> Result<(), KeeperFault>
    ensures appended { AppendsAllTo W.holds W.failures (seen blocks.now) volumes.old volumes.new vouches.old vouches.new result }
    ensures lasts { Lasts (W.durable volumes.old) (W.durable volumes.new) }
{
    for block in blocks {
        match volumes.append(&block.0, &block.1) {
            Ok(()) => grow(vouches, &block.0, block.1.len()),
            Err(_) => {
                retire(vouches, &block.0);
                return Err(KeeperFault::Volume);
            }
        }
    }
    Ok(())
}

/// Returns whether one of the spans is on the volume.
fn is_on_any(spans: &[Span], vol: &VolName) -> bool
    ensures { result ≡ is_on_any spans.now vol.now }
{
    spans.iter().any(|s| s.vol.bytes() == vol.bytes())
}

/// Makes a volume durable, unless it is that of one of the spans before, which is. If that fails, the
/// volume is retired.
#[tactic(auto, using(crate::proofs::WritingLaws::durable_before, crate::proofs::WritingLaws::shelf_same, br_volume::proofs::SyncLaws::lasts_itself))]
fn sync_one<W: VolumeStore>(
    volumes: &mut W,
    vouches: &mut [Vouch],
    before: &[Span],
    vol: &VolName,
) -> Result<(), KeeperFault>
    ensures synced { SyncsOneTo W.holds W.failures vol.now volumes.old volumes.new vouches.old vouches.new result }
    ensures durable { SyncsAfter W.holds W.durable before.now vol.now volumes.old volumes.new result }
    ensures same { W.holds volumes.new ≡ W.holds volumes.old }
    ensures lasts { Lasts (W.durable volumes.old) (W.durable volumes.new) }
{
    if is_on_any(before, vol) {
        return Ok(());
    }
    match volumes.sync(vol) {
        Ok(()) => Ok(()),
        Err(_) => {
            retire(vouches, vol);
            Err(KeeperFault::Volume)
        }
    }
}

/// Makes the volumes of spans durable, each once, until that fails for one, which is retired.
fn sync_all<W: VolumeStore>(
    volumes: &mut W,
    vouches: &mut [Vouch],
    spans: &[Span],
) -> Result<(), KeeperFault>
    ensures synced { SyncsAllTo W.holds W.failures spans.now volumes.old volumes.new vouches.old vouches.new result }
    ensures durable { OnOk result (AreDurable spans.now (W.holds volumes.new) (W.durable volumes.new)) }
    ensures lasts { Lasts (W.durable volumes.old) (W.durable volumes.new) }
{
    for at in 0..spans.len() {
        let span = &spans[at];
        sync_one(volumes, vouches, &spans[..at], &span.vol)?;
    }
    Ok(())
}

/// Appends blocks to volumes that have exactly these lengths, and makes the volumes of the job's
/// spans durable: those that got a block.
#[tactic(auto, using(crate::proofs::WritingLaws::not_vouched, crate::proofs::WritingLaws::not_written, crate::proofs::WritingLaws::blocks_synced, br_volume::proofs::SyncLaws::lasts_settled, br_volume::proofs::SyncLaws::lasts_same, br_volume::proofs::SyncLaws::lasts_more))]
pub(crate) fn write_blocks<W: VolumeStore>(
    alloc: Global,
    volumes: &mut W,
    vouches: &mut Vec<Vouch>,
    rows: &JobRows,
    starts: &[(VolName, u64)],
    blocks: &[(VolName, Vec<u8>)],
) -> Result<(), KeeperFault>
    ensures written { WritesBlocksTo W.holds W.failures starts.now (seen blocks.now) rows.now.spans volumes.old volumes.new
        vouches.old vouches.new result }
    ensures durable { OnOk result (AreDurable rows.now.spans (W.holds volumes.new) (W.durable volumes.new)) }
    ensures lasts { Lasts (W.durable volumes.old) (W.durable volumes.new) }
{
    check_volumes(volumes, vouches, starts)?;
    enter(alloc, vouches, starts)?;
    append_all(volumes, vouches, blocks)?;
    sync_all(volumes, vouches, rows.spans())
}
