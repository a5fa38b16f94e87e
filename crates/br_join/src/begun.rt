//! The front of a file to which more hits may be added.
ghost use Rattle.std.specs.Prelude.{◌≡◌, ◌∷◌, [], true, None, Some, IfSome};
ghost use Rattle.br_model.specs.Name.{FileKey};
ghost use Rattle.br_model.specs.Meaning.{Hits, with_hits};
ghost use Rattle.br_join.specs.Front.{IsBegun, IsFolded, IsFresh, IsKnown, IsLeft, IsNextOf, IsPassed, is_past, is_short};

use crate::front::Front;
use crate::waiting::{Policy, Waiting, first_waiting, is_before, left_after, more_waiting};
use br_data::Spot;
use br_match::Hit;
use br_records::{ATTRIBUTES, SPARSE_DATA};
use br_types::FileKey;

/// What was made of the first hits of a file, and where the others are.
#[derive(Drop)]
pub(crate) struct Begun {
    pub(crate) front: Front,
    /// The last place of which the data are digested.
    last: Option<Spot>,
    /// The number of bytes by which the record at that place goes on in later blocks.
    left: u64,
    /// The first place of which the data are not digested.
    first_open: Option<Spot>,
    /// The hits from that place on, if they wait.
    waiting: Option<Box<Waiting>>,
}

impl Begun {
    /// Returns one without hits.
    fn new() -> Begun
        ensures { IsFresh result }
    {
        Begun {
            front: Front::new(),
            last: None,
            left: 0,
            first_open: None,
            waiting: None,
        }
    }

    /// Returns whether the hit is after all that are digested.
    fn is_past(&self, hit: &Hit) -> bool
        ensures { result ≡ is_past hit.now.key self.now.last hit.now.spot }
    {
        match self.last {
            None => true,
            Some(last) => is_before(hit.key, last, hit.spot),
        }
    }

    /// Returns whether the hit is before all that are not digested.
    fn is_short(&self, hit: &Hit) -> bool
        ensures { result ≡ is_short hit.now.key self.now.first_open hit.now.spot }
    {
        match self.first_open {
            None => true,
            Some(first) => is_before(hit.key, hit.spot, first),
        }
    }

    /// Returns whether the hit goes on with the record of the last hit that is digested.
    fn is_continued_by(&self, hit: &Hit) -> bool {
        hit.stream < 0 && self.left > 0 && hit.size as u64 == self.left
    }

    /// Returns whether the hit is to be digested: if it is held, and no hit of its file is likely
    /// to come that is before it. The first hit of a file has its attributes, and the hits of one
    /// group come in order. In another group the next hit mostly goes on with a record.
    fn is_wanted(&self, hit: &Hit, policy: &Policy) -> bool {
        if !hit.data.is_held() {
            return false;
        }
        let group = hit.spot.group;
        match self.last {
            None => hit.stream.unsigned_abs() == ATTRIBUTES,
            Some(last) => {
                group == last.group
                    || self.is_continued_by(hit)
                    || policy.floor.is_next(last.group, group)
            }
        }
    }

    /// Digests the hit. Returns false if that can't be done.
    fn fold(&mut self, hit: &Hit) -> bool
        ensures { result ≡ true → IsFolded hit.now self.old self.new }
    {
        self.last = Some(hit.spot);
        self.left = left_after(hit);
        self.front.push(hit)
    }

    /// Leaves the hit as the first that is not digested. It waits if it may.
    fn leave(&mut self, hit: &Hit, policy: &mut Policy)
        ensures { IsLeft hit.now self.old self.new }
    {
        policy.leave_any(&self.waiting);
        self.waiting = first_waiting(self.first_open, hit, policy);
        self.first_open = Some(hit.spot);
    }

    /// Leaves the hit after others that are not digested. It waits if they do.
    fn pass(&mut self, hit: &Hit, policy: &mut Policy)
        ensures { IsPassed hit.now self.old self.new }
    {
        self.waiting = passed(self.waiting.take(), hit, policy);
    }

    /// Returns whether the hits that wait are next: if they go on with the record of the last hit
    /// that is digested and are of one group, or if all hits before them were taken. Hits of a file
    /// without attributes so far wait until all hits were taken.
    fn is_due(&self, waiting: &Waiting, policy: &Policy) -> bool {
        let Some(last) = self.last else {
            return policy.floor.is_over_all();
        };
        let group = waiting.end.group;
        match waiting.hits.first() {
            Some(hit) if hit.spot.group == group && self.is_continued_by(hit) => true,
            _ => policy.floor.is_next(last.group, group),
        }
    }

    /// Returns whether hits wait that are next.
    fn has_due(&self, policy: &Policy) -> bool {
        match &self.waiting {
            Some(waiting) => self.is_due(waiting, policy),
            None => false,
        }
    }

    /// Returns the group of the last hit that waits, if some do.
    fn waits_for(&self) -> Option<u32> {
        match &self.waiting {
            Some(waiting) => Some(waiting.end.group),
            None => None,
        }
    }

    /// Digests the hits that wait, if they are next. Returns false if that can't be done.
    fn catch_up(&mut self, policy: &mut Policy) -> bool
        ensures { result ≡ true → (held : Hits) (key : FileKey) → IsBegun held key self.old → IsBegun held key self.new }
    {
        if !self.has_due(policy) {
            return true;
        }
        let Some(waiting) = self.waiting.take() else {
            return false;
        };
        let waiting = Box::into_inner(waiting);
        policy.leave(&waiting);
        self.first_open = None;
        self.last = Some(waiting.end);
        self.left = waiting.left_after();
        self.front.push_all(&waiting.hits)
    }

    /// Digests the hit, which is the next one, and those that wait, if they are next then. Returns
    /// false if that can't be done.
    fn go_on(&mut self, hit: &Hit, policy: &mut Policy) -> bool
        requires past { is_past hit.now.key self.old.last hit.now.spot ≡ true }
        requires short { is_short hit.now.key self.old.first_open hit.now.spot ≡ true }
        ensures { result ≡ true → (held : Hits) → IsBegun held hit.now.key self.old → IsBegun (with_hits held (hit.now ∷ [])) hit.now.key self.new }
    {
        if !self.fold(hit) {
            return false;
        }
        self.catch_up(policy)
    }

    /// Takes one more hit of the file, and digests it if it is the next one. Returns false if that
    /// can't be done, or if the hit comes before one that is digested.
    fn add(&mut self, hit: &Hit, policy: &mut Policy) -> bool
        ensures { result ≡ true → (held : Hits) → IsBegun held hit.now.key self.old → IsBegun (with_hits held (hit.now ∷ [])) hit.now.key self.new }
    {
        if hit.stream.unsigned_abs() == SPARSE_DATA {
            return false;
        }
        if !self.is_past(hit) {
            return false;
        }
        if !self.is_short(hit) {
            self.pass(hit, policy);
            return true;
        }
        if self.is_wanted(hit, policy) {
            return self.go_on(hit, policy);
        }
        self.leave(hit, policy);
        true
    }
}

/// Returns the hits of a file that wait with one more, if any wait.
fn passed(waiting: Option<Box<Waiting>>, hit: &Hit, policy: &mut Policy) -> Option<Box<Waiting>>
    ensures { IfSome result (IsNextOf hit.now waiting) }
{
    match waiting {
        Some(waiting) => more_waiting(waiting, hit, policy),
        None => None,
    }
}

/// Returns what was made of the hits of a file with one more, unless that can't be done.
fn with_one(mut begun: Begun, hit: &Hit, policy: &mut Policy) -> Option<Begun>
    ensures { (held : Hits) → IsBegun held hit.now.key begun → IsKnown (with_hits held (hit.now ∷ [])) hit.now.key (Some result) }
{
    if begun.add(hit, policy) {
        return Some(begun);
    }
    policy.leave_any(&begun.waiting);
    None
}

/// Returns what is known of a file after one more hit.
fn added(known: Option<Begun>, hit: &Hit, policy: &mut Policy) -> Option<Begun>
    ensures { (held : Hits) → IsKnown held hit.now.key (Some known) → IsKnown (with_hits held (hit.now ∷ [])) hit.now.key (Some result) }
{
    match known {
        Some(begun) => with_one(begun, hit, policy),
        None => None,
    }
}

/// Takes one more hit of a file. What was made of the others is dropped if that can't be done.
pub(crate) fn take_known(known: &mut Option<Begun>, hit: &Hit, policy: &mut Policy)
    ensures { (held : Hits) → IsKnown held hit.now.key (Some known.old) → IsKnown (with_hits held (hit.now ∷ [])) hit.now.key (Some known.new) }
{
    *known = added(known.take(), hit, policy);
}

/// Takes the first hit of a file.
pub(crate) fn first_known(hit: &Hit, policy: &mut Policy) -> Option<Begun>
    ensures { (held : Hits) → IsKnown held hit.now.key None → IsKnown (with_hits held (hit.now ∷ [])) hit.now.key (Some result) }
{
    with_one(Begun::new(), hit, policy)
}

/// Returns what was made of the hits of a file after those that wait were digested, if they are next.
fn caught_up(mut begun: Begun, policy: &mut Policy) -> Option<Begun>
    ensures { (held : Hits) (key : FileKey) → IsBegun held key begun → IsKnown held key (Some result) }
{
    if begun.catch_up(policy) {
        return Some(begun);
    }
    None
}

/// Returns the group of the last hit of a file that waits, if some do.
fn waits_for(known: &Option<Begun>) -> Option<u32> {
    match known {
        Some(begun) => begun.waits_for(),
        None => None,
    }
}

/// Digests the hits of a file that wait, if they are next. If not, returns the group of the last.
pub(crate) fn catch_up_known(known: &mut Option<Begun>, policy: &mut Policy) -> Option<u32>
    ensures { (held : Hits) (key : FileKey) → IsKnown held key (Some known.old) → IsKnown held key (Some known.new) }
{
    let Some(begun) = known.take() else {
        return None;
    };
    *known = caught_up(begun, policy);
    waits_for(known)
}
