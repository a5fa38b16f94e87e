//! Hits of a file that wait for those before them.
ghost use Rattle.std.specs.Prelude.{◌≡◌, true, None, IfOk, IfSome};
ghost use Rattle.std.specs.Box.{box_value};
ghost use Rattle.br_join.specs.Front.{IsFirst, IsNext, is_before};

use crate::floor::Floor;
use br_data::Spot;
use br_match::Hit;
use br_types::FileKey;
use std::alloc::{AllocError, Global};
use std::collections::BTreeSet;

/// When hits are digested, and how many of them may wait for others.
#[derive(Drop)]
pub(crate) struct Policy {
    /// Up to which piece all hits were taken.
    pub(crate) floor: Floor,
    /// The number of bytes of data that more hits may hold while they wait.
    left: u64,
    /// The files of which hits wait, each with a group of them, and some of which none do any more.
    due: BTreeSet<(u32, FileKey)>,
    alloc: Global,
}

/// All hits of a file that are not digested, in order of place. Their data are held.
#[derive(Drop)]
pub(crate) struct Waiting {
    pub(crate) hits: Vec<Hit>,
    /// The place of the last.
    pub(crate) end: Spot,
    /// The number of bytes of their data.
    len: u64,
}

/// Returns whether the one place of a file is before the other.
pub(crate) fn is_before(_key: FileKey, spot: Spot, other: Spot) -> bool
    ensures { result ≡ is_before _key spot other }
{
    spot.cmp(&other).is_lt()
}

/// Returns the number of bytes by which the record of a hit goes on in later blocks.
pub(crate) fn left_after(hit: &Hit) -> u64 {
    (hit.size as u64).saturating_sub(hit.data.len() as u64)
}

impl Waiting {
    /// Returns the number of bytes by which the record of the last hit goes on in later blocks.
    pub(crate) fn left_after(&self) -> u64 {
        match self.hits.last() {
            Some(hit) => left_after(hit),
            None => 0,
        }
    }
}

/// Returns the same hit, which shares its data.
fn shared(hit: &Hit) -> Result<Hit, AllocError>
    ensures { IfOk result (λ other. other ≡ hit.now) }
{
    let data = hit.data.share()?;
    Ok(Hit {
        key: hit.key,
        spot: hit.spot,
        stream: hit.stream,
        size: hit.size,
        data,
    })
}

impl Policy {
    /// Returns the policy while no hit may wait.
    pub(crate) fn new(alloc: Global, floor: Floor) -> Policy {
        Policy {
            floor,
            left: 0,
            due: BTreeSet::new(alloc),
            alloc,
        }
    }

    /// Returns the allocator for what is kept of files.
    pub(crate) fn allocator(&self) -> Global {
        self.alloc
    }

    /// Lets hits that wait hold this number of bytes of data.
    pub(crate) fn begin(&mut self, left: u64) {
        self.left = left;
    }

    /// Lets no hit wait, and takes each piece for an open one.
    pub(crate) fn end(&mut self) {
        self.left = 0;
        self.due.clear();
        self.floor.fall();
    }

    /// Returns whether a hit may wait, and counts its data then.
    fn admits(&mut self, hit: &Hit) -> bool {
        let len = hit.data.len() as u64;
        if !hit.data.is_held() || len > self.left {
            return false;
        }
        self.left -= len;
        true
    }

    /// Counts the data of hits that no longer wait.
    pub(crate) fn leave(&mut self, waiting: &Waiting) {
        self.left = self.left.saturating_add(waiting.len);
    }

    /// Counts the data of hits that no longer wait, if some did.
    pub(crate) fn leave_any(&mut self, waiting: &Option<Box<Waiting>>) {
        if let Some(waiting) = waiting {
            self.leave(waiting);
        }
    }

    /// Notes a file of which hits wait, the last of them of this group. If all hits of lower pieces
    /// were taken, they wait for the attributes of the file, which may come in any other piece.
    pub(crate) fn wait_on(&mut self, group: u32, key: FileKey) {
        let until = if self.floor.allows(group) {
            u32::MAX
        } else {
            group
        };
        let _noted = self.due.insert((until, key));
    }

    /// Returns the number of files that were noted.
    pub(crate) fn noted(&self) -> usize {
        self.due.len()
    }

    /// Returns the next file that was noted, if all hits of lower pieces than that of its group were
    /// taken. It is no longer noted then.
    pub(crate) fn next_due(&mut self) -> Option<FileKey> {
        let group = match self.due.first() {
            Some((group, _)) => *group,
            None => return None,
        };
        if !self.floor.allows(group) {
            return None;
        }
        match self.due.pop_first() {
            Some((_, key)) => Some(key),
            None => None,
        }
    }
}

/// Returns the hit as the only one that waits, if there is memory for that.
fn only(alloc: Global, hit: &Hit) -> Result<Box<Waiting>, AllocError>
    ensures { IfOk result (λ w. IsFirst hit.now None (box_value w)) }
{
    let one = shared(hit)?;
    let mut hits = Vec::new(alloc);
    hits.push(one)?;
    let waiting = Waiting {
        hits,
        end: hit.spot,
        len: hit.data.len() as u64,
    };
    Ok(Box::new(alloc, waiting)?)
}

/// Returns the hits that wait with one more.
fn longer(alloc: Global, mut waiting: Waiting, hit: &Hit) -> Result<Box<Waiting>, AllocError>
    requires { is_before hit.now.key waiting.end hit.now.spot ≡ true }
    ensures { IfOk result (λ w. IsNext hit.now waiting (box_value w)) }
{
    let one = shared(hit)?;
    waiting.hits.push(one)?;
    waiting.end = hit.spot;
    waiting.len = waiting.len.saturating_add(hit.data.len() as u64);
    Ok(Box::new(alloc, waiting)?)
}

/// Returns the hit as the first of its file that waits, if it may, and if none was open before.
pub(crate) fn first_waiting(
    first_open: Option<Spot>,
    hit: &Hit,
    policy: &mut Policy,
) -> Option<Box<Waiting>>
    ensures { IfSome result (λ w. IsFirst hit.now first_open (box_value w)) }
{
    if first_open.is_some() {
        return None;
    }
    if !policy.admits(hit) {
        return None;
    }
    policy.wait_on(hit.spot.group, hit.key);
    match only(policy.alloc, hit) {
        Ok(waiting) => Some(waiting),
        Err(_) => None,
    }
}

/// Returns the hits that wait with one more that is after them, if it may wait. Else none wait any
/// more.
pub(crate) fn more_waiting(
    waiting: Box<Waiting>,
    hit: &Hit,
    policy: &mut Policy,
) -> Option<Box<Waiting>>
    ensures { IfSome result (λ w. IsNext hit.now (box_value waiting) (box_value w)) }
{
    let waiting = Box::into_inner(waiting);
    if !is_before(hit.key, waiting.end, hit.spot) {
        policy.leave(&waiting);
        return None;
    }
    if !policy.admits(hit) {
        policy.leave(&waiting);
        return None;
    }
    match longer(policy.alloc, waiting, hit) {
        Ok(longer) => Some(longer),
        Err(_) => None,
    }
}
