ghost use Rattle.std.specs.Prelude.{◌≡◌, ◌≤◌, [], length, Option, OnOk, OnErr, IfOk};
ghost use Rattle.std.specs.Prelude.{bytes_eq, position, take, true, false, Err, Ok};
ghost use Rattle.br_model.specs.SessionHolds.{bytes_of_volume};
ghost use Rattle.br_volume.specs.Calls.{is_out};
ghost use Rattle.br_volume.specs.Memory.{volumes_of};
ghost use Rattle.br_volume.specs.MemStore.{FailsInPart, Stored, after_append, after_failure, failing, sound, with_appended};
ghost use Rattle.br_volume.specs.Store.{AppendsTo, AppendsInPartTo, FailsOn, IsAppendedInPart, IsDurableIn, IsLengthIn, Lasts, one_more};
ghost use Rattle.br_volume.specs.declared.fault.VolumeFault.TheVariants.{Failed};

use crate::failed_calls::FailedCalls;
use crate::fault::VolumeFault;
use crate::mem::bytes_of;
use crate::volume_store::VolumeStore;
use br_types::VolName;
use std::alloc::{AllocError, Global};
use std::marker::Model;

/// A store over memory. An append fails if memory runs out, and then changes nothing. One append may
/// be made to fail after the first of its bytes. What is appended is durable at once: the store
/// tells of a crash that it loses nothing.
#[derive(Drop)]
pub struct MemStore {
    alloc: Global,
    volumes: Vec<(VolName, Vec<u8>)>,
    failures: FailedCalls,
    /// The number of appends before the one that is to fail, if one is.
    appends_left: Option<u64>,
    /// The number of bytes that this one keeps.
    bytes_kept: usize,
}

impl Model for MemStore {
    ghost use Rattle.br_volume.specs.Memory.{volumes_of};
    ghost use Rattle.br_volume.specs.MemStore.{Stored};

    ghost Value = { Stored };

    ghost view = { λ s. record {
      volumes = volumes_of s.volumes.items;
      failures = s.failures;
      appends_left = s.appends_left;
      bytes_kept = s.bytes_kept;
    } };
}

impl MemStore {
    /// Returns a store without volumes, which grows by this allocator.
    pub fn new(alloc: Global) -> MemStore
        ensures { result ≡ sound [] }
    {
        MemStore::failing_at(alloc, 0, 0)
    }

    /// Returns a store without volumes, which grows by this allocator. Its `k`-th append, counted
    /// from 1, keeps the first `kept` bytes and fails. No other append is made to fail, and for `k`
    /// of 0 none is.
    pub fn failing_at(alloc: Global, k: u64, kept: usize) -> MemStore
        ensures { result ≡ failing k kept }
    {
        MemStore {
            alloc,
            volumes: Vec::new(alloc),
            failures: FailedCalls::none(),
            appends_left: k.checked_sub(1),
            bytes_kept: kept,
        }
    }

    /// Returns the volumes, in the order in which they were made.
    pub fn volumes(&self) -> &[(VolName, Vec<u8>)]
        ensures { volumes_of result.now ≡ self.now.volumes }
    {
        &self.volumes
    }

    /// Returns a store with equal volumes. None of its calls has failed, and none is made to fail.
    pub fn copy(&self, alloc: Global) -> Result<MemStore, AllocError>
        ensures { IfOk result (λ store. store ≡ sound self.now.volumes) }
    {
        let volumes = copied(alloc, &self.volumes)?;
        let failures = FailedCalls::none();
        Ok(MemStore {
            alloc,
            volumes,
            failures,
            appends_left: None,
            bytes_kept: 0,
        })
    }

    /// Returns the volumes, in the order in which they were made.
    pub fn into_volumes(self) -> Vec<(VolName, Vec<u8>)>
        ensures { volumes_of result.items ≡ self.volumes }
    {
        self.volumes
    }

    /// Returns whether the next append is made to fail.
    fn is_due(&self) -> bool
        ensures { result ≡ is_out self.now.appends_left }
    {
        self.appends_left == Some(0)
    }

    /// Appends the first of the bytes, as many as are to be kept. If no memory is left for them, it
    /// appends nothing.
    fn fail(&mut self, vol: &VolName, bytes: &[u8])
        ensures part { FailsInPart vol.now bytes.now self.old self.new }
        ensures refused { IsAppendedInPart vol.now bytes.now self.old.volumes self.new.volumes }
        ensures counted { self.new.failures ≡ one_more vol.now self.old.failures }
    {
        self.appends_left = None;
        self.failures = self.failures.and(vol);
        let front = first_of(bytes, self.bytes_kept);
        let _ = append_to(self.alloc, &mut self.volumes, vol, front);
    }
}

/// Returns the first bytes, `count` of them, or all if these are fewer.
fn first_of(bytes: &[u8], count: usize) -> &[u8]
    ensures { result.now ≡ take count bytes.now }
{
    match bytes.get(..count) {
        None => bytes,
        Some(front) => front,
    }
}

/// Returns a volume with this name and these bytes.
fn copied_volume(
    alloc: Global,
    vol: &VolName,
    bytes: &[u8],
) -> Result<(VolName, Vec<u8>), AllocError>
    ensures { IfOk result (λ copy. (copy.0 ≡ vol.now) × (copy.1.items ≡ bytes.now)) }
{
    Ok((vol.copy(alloc)?, Vec::from_slice(alloc, bytes)?))
}

/// Returns equal volumes.
fn copied(
    alloc: Global,
    volumes: &[(VolName, Vec<u8>)],
) -> Result<Vec<(VolName, Vec<u8>)>, AllocError>
    ensures { IfOk result (λ copy. volumes_of copy.items ≡ volumes_of volumes.now) }
{
    let mut copy = Vec::new(alloc);
    for volume in volumes {
        copy.push(copied_volume(alloc, &volume.0, &volume.1)?)?;
    }
    Ok(copy)
}

/// Returns the place of the first volume with this name.
fn position_of(volumes: &[(VolName, Vec<u8>)], vol: &VolName) -> Option<usize>
    ensures { result ≡ position (λ v. bytes_eq v.0 vol.now) volumes.now }
{
    volumes.iter().position(|v| v.0.bytes() == vol.bytes())
}

/// Appends bytes to a volume, or makes a volume of them. A refusal changes nothing.
pub(crate) fn append_to(
    alloc: Global,
    volumes: &mut Vec<(VolName, Vec<u8>)>,
    vol: &VolName,
    bytes: &[u8],
) -> Result<(), AllocError>
    ensures ok { OnOk result (volumes_of volumes.new.items ≡ with_appended vol.now bytes.now (volumes_of volumes.old.items)) }
    ensures err { OnErr result (volumes_of volumes.new.items ≡ volumes_of volumes.old.items) }
{
    match position_of(volumes, vol) {
        Some(at) => volumes[at].1.extend_from_slice(bytes),
        None => {
            let volume = (vol.copy(alloc)?, Vec::from_slice(alloc, bytes)?);
            volumes.push(volume)?;
            Ok(())
        }
    }
}

impl VolumeStore for MemStore {
    ghost use Rattle.std.specs.Prelude.{Some};

    ghost holds = { λ s. Some s.volumes };

    ghost durable = { λ s. Some s.volumes };

    ghost failures = { λ s. s.failures };

    /// Appends bytes, unless this append is made to fail. A new volume comes after the others.
    #[tactic(auto, using(crate::proofs::SyncLaws::part_lasts, crate::proofs::SyncLaws::appended_lasts, crate::proofs::SyncLaws::store_lasts))]
    fn append(&mut self, vol: &VolName, bytes: &[u8]) -> Result<(), VolumeFault>
        ensures appended { OnOk result (AppendsTo vol.now bytes.now (Some self.old.volumes) (Some self.new.volumes)) }
        ensures refused { OnErr result (AppendsInPartTo vol.now bytes.now (Some self.old.volumes) (Some self.new.volumes)) }
        ensures lasts { Lasts (Some self.old.volumes) (Some self.new.volumes) }
        ensures counted { self.old.failures.number ≤ self.new.failures.number }
        ensures clean { OnOk result (self.new.failures ≡ self.old.failures) }
        ensures failed { OnErr result (FailsOn vol.now self.old.failures self.new.failures) }
        ensures exact { OnOk result (self.new ≡ after_append vol.now bytes.now self.old) }
        ensures due { is_out self.old.appends_left ≡ true → result ≡ Err Failed }
        ensures part { is_out self.old.appends_left ≡ true → FailsInPart vol.now bytes.now self.old self.new }
        ensures kept { is_out self.old.appends_left ≡ false → OnErr result (self.new ≡ after_failure vol.now self.old) }
    {
        if self.is_due() {
            self.fail(vol, bytes);
            return Err(VolumeFault::Failed);
        }
        self.appends_left = self.appends_left.map(|n| n.saturating_sub(1));
        match append_to(self.alloc, &mut self.volumes, vol, bytes) {
            Ok(()) => Ok(()),
            Err(AllocError) => {
                self.failures = self.failures.and(vol);
                Err(VolumeFault::Failed)
            }
        }
    }

    /// Returns the length of a volume. It is never refused.
    fn length(&mut self, vol: &VolName) -> Result<u64, VolumeFault>
        ensures told { IfOk result (λ n. IsLengthIn (Some self.old.volumes) vol.now n) }
        ensures same { self.new ≡ self.old }
        ensures settled { self.new ≡ self.old }
        ensures counted { self.old.failures.number ≤ self.new.failures.number }
        ensures clean { OnOk result (self.new.failures ≡ self.old.failures) }
        ensures failed { OnErr result (FailsOn vol.now self.old.failures self.new.failures) }
        ensures exact { result ≡ Ok (length (bytes_of_volume self.old.volumes vol.now)) }
    {
        match bytes_of(&self.volumes, vol) {
            None => Ok(0),
            Some(bytes) => Ok(bytes.len() as u64),
        }
    }

    /// Does nothing, and is never refused.
    #[tactic(auto, using(crate::proofs::SyncLaws::durable_itself, crate::proofs::SyncLaws::store_lasts))]
    fn sync(&mut self, vol: &VolName) -> Result<(), VolumeFault>
        ensures synced { OnOk result (IsDurableIn (Some self.new.volumes) (Some self.new.volumes) vol.now) }
        ensures same { self.new ≡ self.old }
        ensures lasts { Lasts (Some self.old.volumes) (Some self.new.volumes) }
        ensures counted { self.old.failures.number ≤ self.new.failures.number }
        ensures clean { OnOk result (self.new.failures ≡ self.old.failures) }
        ensures failed { OnErr result (FailsOn vol.now self.old.failures self.new.failures) }
        ensures exact { result ≡ Ok tt }
    {
        let _ = vol;
        Ok(())
    }
}
