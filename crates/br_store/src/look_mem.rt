ghost use Rattle.std.specs.Prelude.{◌≡◌, ◌≤◌, length, min, take, drop};
ghost use Rattle.br_store.specs.Moments.{StillIsKept};
ghost use Rattle.br_store.specs.Scene.{mem_stamp};

use crate::look_fault::LookFault;
use crate::look_sight::Sight;
use crate::look_source::Source;
use crate::look_stamp::{FileTime, Stamp};

/// A file and its log in memory to be looked at, for tests. Another program may write to them for some
/// moments.
#[derive(Drop)]
pub struct MemSight {
    bytes: Vec<u8>,
    log: Vec<u8>,
    has_journal: bool,
    /// The number of moments for which another program writes to the files.
    busy: u32,
    /// The number of moments that were waited for.
    waited: u32,
    /// The greatest number of bytes that one read gives.
    at_most: usize,
}

impl MemSight {
    /// Returns a file with these bytes, a log, and whether a journal lies beside them.
    pub fn new(bytes: Vec<u8>, log: Vec<u8>, has_journal: bool) -> MemSight
        ensures bytes { result.bytes ≡ bytes }
        ensures log { result.log ≡ log }
        ensures journal { result.has_journal ≡ has_journal }
        ensures free { (result.busy ≡ 0) × (result.waited ≡ 0) }
    {
        MemSight {
            bytes,
            log,
            has_journal,
            busy: 0,
            waited: 0,
            at_most: usize::MAX,
        }
    }

    /// Makes another program write to the files for this number of moments.
    pub fn busy_for(mut self, moments: u32) -> MemSight
        ensures { result ≡ record self { busy = moments } }
    {
        self.busy = moments;
        self
    }

    /// Makes each read return at most this number of bytes.
    pub fn reading_at_most(mut self, bytes: usize) -> MemSight
        ensures { result ≡ record self { at_most = bytes } }
    {
        self.at_most = bytes;
        self
    }

    /// Returns the number of moments that were waited for.
    pub fn waited(&self) -> u32
        ensures { result ≡ self.now.waited }
    {
        self.waited
    }
}

/// States that files in memory, which nobody changes, show their changes. So what `look` says of files
/// that do holds of them.
#[tactic(auto, using(crate::proofs::LookMoments::still_is_kept_lem))]
pub fn files_in_memory_are_kept()
    ensures { StillIsKept }
{}

/// Copies bytes from a place on into the beginning of the buffer, at most `at_most`. Returns
/// their number.
fn copy_part(bytes: &[u8], buf: &mut [u8], at: usize, at_most: usize) -> usize
    ensures fits { result ≤ length buf.new }
    ensures part { take result buf.new ≡ take result (drop at bytes.now) }
{
    let rest = match bytes.get(at..) {
        None => return 0,
        Some(rest) => rest,
    };
    let n = rest.len().min(buf.len()).min(at_most);
    buf[..n].copy_from_slice(&rest[..n]);
    n
}

/// Copies the first bytes into the buffer, as many as it holds. Returns their number.
fn copy_front(bytes: &[u8], buf: &mut [u8]) -> usize
    ensures count { result ≡ min (length bytes.now) (length buf.new) }
    ensures room { length buf.new ≡ length buf.old }
    ensures part { take result buf.new ≡ take result bytes.now }
{
    let n = bytes.len().min(buf.len());
    buf[..n].copy_from_slice(&bytes[..n]);
    n
}

/// Returns the stamp of a file in memory, which has one time of all changes.
#[tactic(auto, unfolding(crate::specs::Scene::mem_stamp))]
fn stamp_of(len: u64) -> Stamp
    ensures stamp { result ≡ mem_stamp len }
    ensures len { result.len ≡ len }
{
    let beginning = FileTime {
        seconds: 0,
        nanos: 0,
    };
    Stamp {
        len,
        device: 0,
        inode: 0,
        written: beginning,
        changed: beginning,
    }
}

impl Sight for MemSight {
    ghost use Rattle.std.specs.Prelude.{Some, length};
    ghost use Rattle.br_store.specs.Scene.{mem_stamp};

    type Files = ();

    ghost told = { λ s. Some (λ _. record {
      stamp = mem_stamp (length s.bytes.items);
      bytes = s.bytes.items;
      log = s.log.items;
      has_journal = s.has_journal;
    }) };

    ghost moment = { λ _. 0 };

    fn open(&mut self) -> Result<(), LookFault> {
        if self.busy > self.waited {
            return Err(LookFault::InUse);
        }
        Ok(())
    }

    fn has_journal(&mut self) -> Result<bool, LookFault> {
        Ok(self.has_journal)
    }

    fn stamp(&mut self, _files: &()) -> Result<Stamp, LookFault> {
        Ok(stamp_of(self.bytes.len() as u64))
    }

    fn read_header(&mut self, _files: &(), buf: &mut [u8]) -> Result<usize, LookFault> {
        Ok(copy_front(&self.log, buf))
    }

    fn log_len(&mut self, _files: &()) -> Result<u64, LookFault> {
        Ok(self.log.len() as u64)
    }

    fn read_at(
        &mut self,
        _files: &(),
        source: Source,
        buf: &mut [u8],
        at: usize,
    ) -> Result<usize, LookFault> {
        match source {
            Source::Main => Ok(copy_part(&self.bytes, buf, at, self.at_most)),
            Source::Log => Ok(copy_part(&self.log, buf, at, self.at_most)),
        }
    }

    fn wait(&mut self) -> Result<(), LookFault> {
        self.waited = self.waited.saturating_add(1);
        Ok(())
    }
}
