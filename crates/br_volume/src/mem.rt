ghost use Rattle.std.specs.Prelude.{◌≡◌, ◌-◌, ◌^◌, ◌<◌, ◌≤◌, ◌⊎◌, [], length, bytes_eq, find, true, vec_capacity};
ghost use Rattle.std.specs.Prelude.{option_map, Ok, Err, OnOk, OnErr, IfOk};
ghost use Rattle.std.specs.Option.{option_copied};
ghost use Rattle.br_model.specs.Answer.{Answers};
ghost use Rattle.br_model.specs.Volume.{volume_bytes};
ghost use Rattle.br_volume.specs.Drive.{AnswersOver, OnlyGrows, IsSized, bytes_got, bytes_from, bytes_shown};
ghost use Rattle.br_volume.specs.Fault.{cause, failing_cause};
ghost use Rattle.br_volume.specs.declared.fault.DriveFault.TheVariants.{Memory, Fault};
ghost use Rattle.br_volume.specs.Calls.{is_out};
ghost use Rattle.br_volume.specs.Memory.{Held, volumes_of, unused, bytes_held, after_call, given};
ghost use Rattle.br_volume.specs.Memory.{grown, grown_by, without_first};

use crate::count::Count;
use crate::drive::{Drive, Got};
use crate::fault::DriveFault;
use crate::mem_store::append_to;
use br_types::VolName;
use std::alloc::AllocError;
use std::marker::Model;

/// A drive over memory. Its volumes change only if it was made with tails to append.
#[derive(Drop)]
pub struct MemDrive {
    volumes: Vec<(VolName, Vec<u8>)>,
    tails: Vec<(VolName, Vec<u8>)>,
    has_begun: bool,
    calls_left: Option<u64>,
    /// At most 2^64 - 1.
    bytes_read: u64,
    failures: Count,
}

impl Model for MemDrive {
    ghost use Rattle.br_volume.specs.Memory.{Held, volumes_of};

    ghost Value = { Held };

    ghost view = { λ d. record {
      volumes = volumes_of d.volumes.items;
      tails = volumes_of d.tails.items;
      has_begun = d.has_begun;
      calls_left = d.calls_left;
      bytes_read = d.bytes_read;
      failures = d.failures.number;
    } };
}

impl MemDrive {
    /// Returns a drive that shows these volumes and never fails. Of two volumes with one name it
    /// shows the first.
    pub fn new(volumes: Vec<(VolName, Vec<u8>)>) -> MemDrive
        ensures { result ≡ unused (volumes_of volumes.items) [] None }
    {
        let tails = Vec::new(*volumes.allocator());
        MemDrive::growing(volumes, tails)
    }

    /// Returns a drive that shows these volumes and whose calls fail from the `k`-th on, counted
    /// from 1. For `k` of 0 all calls fail.
    pub fn failing_from(volumes: Vec<(VolName, Vec<u8>)>, k: u64) -> MemDrive
        ensures { result ≡ unused (volumes_of volumes.items) [] (Some (k - 1)) }
    {
        let tails = Vec::new(*volumes.allocator());
        MemDrive {
            volumes,
            tails,
            has_begun: false,
            calls_left: Some(k.saturating_sub(1)),
            bytes_read: 0,
            failures: Count::zero(),
        }
    }

    /// Returns a drive that shows these volumes, grows, and never fails. Before its call `n + 1`
    /// it appends the `n`-th tail to the first volume of the tail's name, or makes one if there is
    /// none. A call that finds no memory for its tail appends nothing and does not count.
    pub fn growing(volumes: Vec<(VolName, Vec<u8>)>, tails: Vec<(VolName, Vec<u8>)>) -> MemDrive
        ensures { result ≡ unused (volumes_of volumes.items) (volumes_of tails.items) None }
    {
        MemDrive {
            volumes,
            tails,
            has_begun: false,
            calls_left: None,
            bytes_read: 0,
            failures: Count::zero(),
        }
    }

    /// Returns the volumes, in their order.
    pub fn into_volumes(self) -> Vec<(VolName, Vec<u8>)>
        ensures { volumes_of result.items ≡ self.volumes }
    {
        self.volumes
    }

    /// Returns the number of bytes that calls gave, or 2^64 - 1 if there were more.
    pub fn bytes_read(&self) -> u64
        ensures { result ≡ self.now.bytes_read }
    {
        self.bytes_read
    }

    /// Returns whether the next call fails.
    fn is_out(&self) -> bool
        ensures { result ≡ is_out self.now.calls_left }
    {
        self.calls_left == Some(0)
    }

    /// Appends the first tail, unless this is the first call. A refusal changes nothing.
    fn grow(&mut self) -> Result<(), AllocError>
        ensures ok { OnOk result (self.new ≡ grown self.old) }
        ensures err { OnErr result (self.new ≡ self.old) }
        ensures has_room { self.old.tails ≡ [] → OnErr result ⊥ }
    {
        if !self.has_begun {
            self.has_begun = true;
            return Ok(());
        }
        append_first(&mut self.volumes, &mut self.tails)
    }
}

/// Appends the first of the tails to its volume, and removes it from them. A refusal changes
/// nothing.
fn append_first(
    volumes: &mut Vec<(VolName, Vec<u8>)>,
    tails: &mut Vec<(VolName, Vec<u8>)>,
) -> Result<(), AllocError>
    ensures grown { OnOk result (volumes_of volumes.new.items ≡ grown_by (volumes_of tails.old.items) (volumes_of volumes.old.items)) }
    ensures left { OnOk result (volumes_of tails.new.items ≡ without_first (volumes_of tails.old.items)) }
    ensures kept { OnErr result (volumes_of volumes.new.items ≡ volumes_of volumes.old.items) }
    ensures kept_tails { OnErr result (volumes_of tails.new.items ≡ volumes_of tails.old.items) }
    ensures has_room { volumes_of tails.old.items ≡ [] → OnErr result ⊥ }
{
    match tails.first() {
        None => Ok(()),
        Some(tail) => {
            append_to(*tail.1.allocator(), volumes, &tail.0, &tail.1)?;
            tails.remove(0);
            Ok(())
        }
    }
}

/// Returns the first volume with this name.
fn volume_of<'a>(volumes: &'a [(VolName, Vec<u8>)], vol: &VolName) -> Option<&'a (VolName, Vec<u8>)>
    ensures { option_copied result ≡ find (λ v. bytes_eq v.0 vol.now) volumes.now }
{
    volumes.iter().find(|v| v.0.bytes() == vol.bytes())
}

/// Returns the bytes of the first volume with this name.
pub(crate) fn bytes_of<'a>(volumes: &'a [(VolName, Vec<u8>)], vol: &VolName) -> Option<&'a Vec<u8>>
    ensures { option_map (λ b. b.now.items) result ≡ volume_bytes (volumes_of volumes.now) vol.now }
{
    match volume_of(volumes, vol) {
        None => None,
        Some(volume) => Some(&volume.1),
    }
}

/// Reads a block of these bytes into the buffer: `size` bytes from `addr`, or all that are left.
fn copy_from(bytes: &[u8], addr: u64, size: u32, buf: &mut Vec<u8>) -> Result<Got, DriveFault>
    ensures copied { Answers (bytes_got buf.new.items) cause result (Ok (bytes_from bytes.now addr size)) }
    ensures sized { length bytes.now < 2 ^ 63 → IfOk result (IsSized addr size buf.new.items) }
    ensures never { result ≡ Err Fault → ⊥ }
    ensures keeps_room { vec_capacity buf.old ≤ vec_capacity buf.new }
    ensures has_room { size ≤ vec_capacity buf.old → result ≡ Err Memory → ⊥ }
{
    buf.clear();
    let rest = match bytes.get(addr as usize..) {
        None | Some([]) => return Ok(Got::End),
        Some(rest) => rest,
    };
    let block = match rest.get(..size as usize) {
        None => rest,
        Some(block) => block,
    };
    buf.extend_from_slice(block)?;
    Ok(Got::Block(block.len() as u32))
}

/// Returns the number of bytes that a call gave.
fn given(answer: &Result<Got, DriveFault>) -> u32
    ensures { result ≡ given answer.now }
{
    match answer {
        Ok(Got::Block(count)) => *count,
        Ok(Got::End) | Err(_) => 0,
    }
}

/// Reads a block of a volume into the buffer.
#[tactic(auto, unfolding(crate::specs::Drive::bytes_shown))]
pub(crate) fn read_from(
    volumes: &[(VolName, Vec<u8>)],
    vol: &VolName,
    addr: u64,
    size: u32,
    buf: &mut Vec<u8>,
) -> Result<Got, DriveFault>
    ensures read { Answers (bytes_got buf.new.items) cause result (bytes_shown (volumes_of volumes.now) vol.now addr size) }
    ensures sized { IfOk result (IsSized addr size buf.new.items) }
    ensures never { result ≡ Err Fault → ⊥ }
    ensures keeps_room { vec_capacity buf.old ≤ vec_capacity buf.new }
    ensures has_room { size ≤ vec_capacity buf.old → result ≡ Err Memory → ⊥ }
{
    match bytes_of(volumes, vol) {
        None => Err(DriveFault::UnknownVolume),
        Some(bytes) => copy_from(bytes, addr, size, buf),
    }
}

impl Drive for MemDrive {
    ghost use Rattle.std.specs.Prelude.{Some};

    ghost shows = { λ d. Some d.volumes };

    ghost failures = { λ d. d.failures };

    /// Reads a block, unless the drive is to fail from this call on. A drive that has no tail left
    /// takes no memory if `buf` has room for `size` bytes.
    fn block_at(
        &mut self,
        vol: &VolName,
        addr: u64,
        size: u32,
        buf: &mut Vec<u8>,
    ) -> Result<Got, DriveFault>
        ensures answers { AnswersOver (Some self.new.volumes) vol.now (addr, size) buf.new.items result }
        ensures sized { IfOk result (IsSized addr size buf.new.items) }
        ensures grows { OnlyGrows (Some self.old.volumes) (Some self.new.volumes) }
        ensures counted { self.old.failures ≤ self.new.failures }
        ensures failed { result ≡ Err Fault → self.old.failures < self.new.failures }
        ensures exact { Answers (bytes_got buf.new.items) failing_cause result (bytes_held self.old vol.now addr size) }
        ensures out { is_out self.old.calls_left ≡ true → result ≡ Err Fault }
        ensures after { (self.new ≡ after_call self.old (given result)) ⊎ (result ≡ Err Memory) × (self.new ≡ self.old) }
        ensures steady { self.old.tails ≡ [] → self.new ≡ after_call self.old (given result) }
        ensures keeps_room { vec_capacity buf.old ≤ vec_capacity buf.new }
        ensures has_room { self.old.tails ≡ [] → size ≤ vec_capacity buf.old → result ≡ Err Memory → ⊥ }
    {
        if self.is_out() {
            self.failures = self.failures.next();
            return Err(DriveFault::Fault);
        }
        self.grow()?;
        self.calls_left = self.calls_left.map(|n| n.saturating_sub(1));
        let answer = read_from(&self.volumes, vol, addr, size, buf);
        self.bytes_read = self.bytes_read.saturating_add(u64::from(given(&answer)));
        answer
    }
}
