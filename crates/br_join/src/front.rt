//! What was made of the first hits of a file.
ghost use Rattle.std.specs.Prelude.{◌≡◌, ◌++◌, ◌+◌, [], true, length, nat_abs, IfOk};
ghost use Rattle.br_join.specs.Plain.{plain_bytes, plain_of};
ghost use Rattle.br_records.specs.Records.{fragments};

use br_data::{Data, Reading};
use br_match::Hit;
use br_records::DATA;
use std::alloc::AllocError;

/// What was made of the first hits of a file, in order of place: their plain data are digested, and
/// are not held.
#[derive(Drop)]
pub struct Front {
    read: Reading,
    count: usize,
}

/// Adds data of this stream, if they are plain. Returns false if they are not in memory, or too
/// many to be counted.
fn push_plain(read: &mut Reading, stream: i32, found: &Data) -> bool
    ensures { result ≡ true → read.new ≡ read.old ++ plain_of (nat_abs stream) found.now.bytes }
{
    if stream.unsigned_abs() != DATA {
        return true;
    }
    match found.held() {
        Some(bytes) => read.push(bytes).is_ok(),
        None => false,
    }
}

/// Adds the next hits, one after another.
fn push_each(front: &mut Front, hits: &[Hit]) -> bool
    ensures read { result ≡ true → front.new.read ≡ front.old.read ++ plain_bytes (fragments hits.now) }
    ensures count { result ≡ true → front.new.count ≡ front.old.count + length hits.now }
{
    for hit in hits {
        if !front.push(hit) {
            return false;
        }
    }
    true
}

impl Front {
    /// Returns the front of no hits.
    pub(crate) fn new() -> Front
        ensures read { result.read ≡ [] }
        ensures count { result.count ≡ 0 }
    {
        Front {
            read: Reading::new(),
            count: 0,
        }
    }

    /// Adds the next hit. Returns false if its data are not in memory, or too many to be counted.
    pub(crate) fn push(&mut self, hit: &Hit) -> bool
        ensures read { result ≡ true → self.new.read ≡ self.old.read ++ plain_of (nat_abs hit.now.fragment.stream) hit.now.fragment.bytes }
        ensures count { result ≡ true → self.new.count ≡ self.old.count + 1 }
    {
        let Some(count) = self.count.checked_add(1) else {
            return false;
        };
        self.count = count;
        push_plain(&mut self.read, hit.stream, &hit.data)
    }

    /// Adds the next hits, as `push` does each.
    pub(crate) fn push_all(&mut self, hits: &[Hit]) -> bool
        ensures read { result ≡ true → self.new.read ≡ self.old.read ++ plain_bytes (fragments hits.now) }
        ensures count { result ≡ true → self.new.count ≡ self.old.count + length hits.now }
    {
        push_each(self, hits)
    }

    /// Returns the number of the hits.
    pub fn count(&self) -> usize
        ensures { result ≡ self.now.count }
    {
        self.count
    }

    /// Returns what was read, to which the data of further hits can be added.
    ///
    /// # Errors
    ///
    /// `AllocError` if memory runs out.
    pub fn reading(&self) -> Result<Reading, AllocError>
        ensures { IfOk result (λ reading. reading ≡ self.now.read) }
    {
        self.read.copy()
    }
}
