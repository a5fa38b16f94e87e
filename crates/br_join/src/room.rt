//! The room in memory for the data of hits.
ghost use Rattle.std.specs.Prelude.{◌≡◌, ◌+◌, ◌<◌, vec_len, vec_capacity, IfSome, IfNone, nat_abs};
ghost use Rattle.br_join.specs.Room.{data_in, data_len, filled, is_always_held, room_of};

use br_match::Hit;
use br_records::{ATTRIBUTES, DIGEST};

/// The number of bytes of data that may be held. Attributes and digests are not counted.
#[derive(Clone, Copy)]
pub(crate) struct Room {
    /// The number of bytes that there was room for at first, if there is a bound.
    bound: Option<u64>,
    /// The number of bytes that are left, if there is a bound.
    left: Option<u64>,
    /// True if there was room for all data so far.
    holds_all: bool,
}

/// Returns whether a hit is of attributes or a digest.
fn is_always_held(hit: &Hit) -> bool
    ensures { result ≡ is_always_held (nat_abs hit.now.fragment.stream) }
{
    let stream = hit.stream.unsigned_abs();
    stream == ATTRIBUTES || stream == DIGEST
}

/// Returns the number of bytes of data in a hit. Attributes and digests are not counted.
fn data_len(hit: &Hit) -> u64
    ensures { result ≡ data_len hit.now }
{
    if is_always_held(hit) {
        return 0;
    }
    hit.data.len() as u64
}

/// Returns what is left of `left` bytes after the data of hits, if these fit.
fn left_after(left: u64, hits: &[Hit]) -> Option<u64>
    ensures fits { IfSome result (λ rest. rest + data_in hits.now ≡ left) }
    ensures over { IfNone result (left < data_in hits.now) }
{
    let mut rest = left;
    for hit in hits {
        rest = rest.checked_sub(data_len(hit))?;
    }
    Some(rest)
}

/// Drops the data of a hit, unless it is of attributes or a digest.
fn let_go(hit: &mut Hit)
    ensures { hit.new ≡ hit.old }
{
    if !is_always_held(hit) {
        hit.data.let_go();
    }
}

/// Drops the data of hits, except attributes and digests. For contracts the hits stay the same.
pub(crate) fn let_all_go(hits: &mut Vec<Hit>)
    ensures hits { hits.new.items ≡ hits.old.items }
    ensures len { vec_len hits.new ≡ vec_len hits.old }
    ensures capacity { vec_capacity hits.new ≡ vec_capacity hits.old }
{
    for i in 0..hits.len() {
        let_go(&mut hits[i]);
    }
}

/// Drops the data of hits, as `let_all_go` does, if that is wanted.
pub(crate) fn let_go_if(hits: &mut Vec<Hit>, wanted: bool)
    ensures hits { hits.new.items ≡ hits.old.items }
    ensures len { vec_len hits.new ≡ vec_len hits.old }
    ensures capacity { vec_capacity hits.new ≡ vec_capacity hits.old }
{
    if wanted {
        let_all_go(hits);
    }
}

impl Room {
    /// Returns room for this number of bytes, or for all data if there is no bound.
    pub(crate) fn new(bound: Option<u64>) -> Room
        ensures { result ≡ room_of bound }
    {
        Room {
            bound,
            left: bound,
            holds_all: true,
        }
    }

    /// Reserves room for the data of hits. If there is too little, there is none from then on.
    pub(crate) fn take(&mut self, hits: &[Hit])
        ensures { self.new ≡ filled self.old (data_in hits.now) }
    {
        let Some(left) = self.left else {
            return;
        };
        match left_after(left, hits) {
            Some(rest) => self.left = Some(rest),
            None => {
                self.left = Some(0);
                self.holds_all = false;
            }
        }
    }

    /// Returns whether there was room for all data so far.
    pub(crate) fn holds_all(&self) -> bool
        ensures { result ≡ self.now.holds_all }
    {
        self.holds_all
    }

    /// Returns half of the number of bytes that there was room for at first, if there is a bound.
    pub(crate) fn half(&self) -> u64 {
        match self.bound {
            Some(bound) => bound / 2,
            None => 0,
        }
    }

    /// Returns the room as it was when nothing was held.
    pub(crate) fn emptied(&self) -> Room
        ensures { result ≡ room_of self.now.bound }
    {
        Room::new(self.bound)
    }
}
