//! The fronts of files.
ghost use Rattle.std.specs.Prelude.{◌≡◌, ◌≢◌, ◌∷◌, [], None, OnOk};
ghost use Rattle.std.specs.Option.{option_copied};
ghost use Rattle.std.specs.BTreeMap.{get_by};
ghost use Rattle.br_model.specs.Name.{key_cmp};
ghost use Rattle.br_model.specs.Meaning.{Hits, hits_of, with_hits};
ghost use Rattle.br_join.specs.Front.{AreKnown, AreKnownIf, AreOf, front_at, front_in};

use crate::begun::{Begun, catch_up_known, first_known, take_known};
use crate::floor::Floor;
use crate::front::Front;
use crate::waiting::Policy;
use br_match::Hit;
use br_types::FileKey;
use std::alloc::{AllocError, Global};
use std::collections::BTreeMap;

/// The fronts of files, by key.
#[derive(Drop)]
pub struct Fronts {
    /// What is known of each file that was hit, once fronts are made: its front, if it has one.
    known: Option<BTreeMap<FileKey, Option<Begun>>>,
    policy: Policy,
}

/// Notes one more hit of a file that was hit before.
fn note_known(tree: &mut BTreeMap<FileKey, Option<Begun>>, hit: &Hit, policy: &mut Policy)
    requires { get_by (key_cmp hit.now.key) tree.old ≢ None }
    ensures { (held : Hits) → AreKnown held tree.old → AreKnown (with_hits held (hit.now ∷ [])) tree.new }
{
    if let Some(known) = tree.get_mut(&hit.key) {
        take_known(known, hit, policy);
    }
}

/// Notes one more hit. It costs two look-ups by key, and the digest of the data if the hit is the
/// next one of its file.
fn note(
    tree: &mut BTreeMap<FileKey, Option<Begun>>,
    hit: &Hit,
    policy: &mut Policy,
) -> Result<(), AllocError>
    ensures { OnOk result ((held : Hits) → AreKnown held tree.old → AreKnown (with_hits held (hit.now ∷ [])) tree.new) }
{
    if tree.contains_key(&hit.key) {
        note_known(tree, hit, policy);
        return Ok(());
    }
    tree.insert(hit.key, first_known(hit, policy))?;
    Ok(())
}

/// Notes more hits.
fn note_all(
    tree: &mut BTreeMap<FileKey, Option<Begun>>,
    hits: &[Hit],
    policy: &mut Policy,
) -> Result<(), AllocError>
    ensures { OnOk result ((held : Hits) → AreKnown held tree.old → AreKnown (with_hits held hits.now) tree.new) }
{
    for hit in hits {
        note(tree, hit, policy)?;
    }
    Ok(())
}

/// Returns the front in what is known of a file.
fn front_in(known: Option<&Option<Begun>>) -> Option<&Front>
    ensures { option_copied result ≡ front_in (option_copied known.entry) }
{
    match known {
        Some(Some(begun)) => Some(&begun.front),
        _ => None,
    }
}

/// Returns a tree without files.
fn no_files(alloc: Global) -> BTreeMap<FileKey, Option<Begun>>
    ensures { result.entries ≡ [] }
{
    BTreeMap::new(alloc)
}

/// Returns what is known of files after more hits, if there is memory for that.
fn with_noted(
    mut tree: BTreeMap<FileKey, Option<Begun>>,
    hits: &[Hit],
    policy: &mut Policy,
) -> Option<BTreeMap<FileKey, Option<Begun>>>
    ensures { (held : Hits) → AreKnown held tree → AreKnownIf (with_hits held hits.now) result }
{
    match note_all(&mut tree, hits, policy) {
        Ok(()) => Some(tree),
        Err(_) => None,
    }
}

/// Returns what is known of the files of these hits, if there is memory for that.
fn known_of(
    alloc: Global,
    hits: &[Hit],
    policy: &mut Policy,
) -> Option<BTreeMap<FileKey, Option<Begun>>>
    ensures { AreKnownIf (hits_of hits.now) result }
{
    with_noted(no_files(alloc), hits, policy)
}

/// Returns what is known of files after more hits, if anything is.
fn noted(
    known: Option<BTreeMap<FileKey, Option<Begun>>>,
    hits: &[Hit],
    policy: &mut Policy,
) -> Option<BTreeMap<FileKey, Option<Begun>>>
    ensures { (held : Hits) → AreKnownIf held known → AreKnownIf (with_hits held hits.now) result }
{
    match known {
        Some(tree) => with_noted(tree, hits, policy),
        None => None,
    }
}

/// Digests the hits of a file that wait, if they are next. If not, returns the group of the last.
fn catch_up_at(
    tree: &mut BTreeMap<FileKey, Option<Begun>>,
    key: FileKey,
    policy: &mut Policy,
) -> Option<u32>
    requires { get_by (key_cmp key) tree.old ≢ None }
    ensures { (held : Hits) → AreKnown held tree.old → AreKnown held tree.new }
{
    match tree.get_mut(&key) {
        Some(known) => catch_up_known(known, policy),
        None => None,
    }
}

/// Digests the hits of a file that wait, if it has some and they are next. Notes the file again if
/// they wait on.
fn catch_up_one(tree: &mut BTreeMap<FileKey, Option<Begun>>, key: FileKey, policy: &mut Policy)
    ensures { (held : Hits) → AreKnown held tree.old → AreKnown held tree.new }
{
    if !tree.contains_key(&key) {
        return;
    }
    if let Some(group) = catch_up_at(tree, key, policy) {
        policy.wait_on(group, key);
    }
}

/// Digests the hits that wait and are next. It looks at each file of which hits wait once for each
/// group of these.
fn catch_up_due(tree: &mut BTreeMap<FileKey, Option<Begun>>, policy: &mut Policy)
    ensures { (held : Hits) → AreKnown held tree.old → AreKnown held tree.new }
{
    for _ in 0..policy.noted() {
        let Some(key) = policy.next_due() else {
            return;
        };
        catch_up_one(tree, key, policy);
    }
}

/// Returns what is known of files after the hits that wait and are next were digested.
fn caught_up(
    known: Option<BTreeMap<FileKey, Option<Begun>>>,
    policy: &mut Policy,
) -> Option<BTreeMap<FileKey, Option<Begun>>>
    ensures { (held : Hits) → AreKnownIf held known → AreKnownIf held result }
{
    match known {
        Some(mut tree) => {
            catch_up_due(&mut tree, policy);
            Some(tree)
        }
        None => None,
    }
}

impl Fronts {
    /// Returns no fronts of the files of these pieces. None are made.
    pub(crate) fn none(alloc: Global, floor: Floor) -> Fronts
        ensures { result.known ≡ None }
    {
        Fronts {
            known: None,
            policy: Policy::new(alloc, floor),
        }
    }

    /// Drops all fronts. None are made any more, and each piece is open.
    pub(crate) fn forget(&mut self)
        ensures { self.new.known ≡ None }
    {
        self.known = None;
        self.policy.end();
    }

    /// Begins to make fronts, if that is wanted, with these hits as the first. Hits that wait for
    /// others may hold `left` bytes of data. Without memory no fronts are made.
    pub(crate) fn begin_if(&mut self, wanted: bool, hits: &[Hit], left: u64)
        ensures { AreOf (hits_of hits.now) self.old → AreOf (hits_of hits.now) self.new }
    {
        if wanted {
            let alloc = self.policy.allocator();
            self.policy.begin(left);
            self.known = known_of(alloc, hits, &mut self.policy);
        }
    }

    /// Takes more hits. If memory runs out, the fronts are dropped, and none are made any more.
    pub(crate) fn note(&mut self, hits: &[Hit])
        ensures { (held : Hits) → AreOf held self.old → AreOf (with_hits held hits.now) self.new }
    {
        self.known = noted(self.known.take(), hits, &mut self.policy);
    }

    /// Digests the hits that waited for a piece that is closed now. If a lower one is open, none did.
    pub(crate) fn rise(&mut self, pieces: &BTreeMap<u32, bool>)
        ensures { (held : Hits) → AreOf held self.old → AreOf held self.new }
    {
        if !self.policy.floor.rise(pieces) {
            return;
        }
        self.known = caught_up(self.known.take(), &mut self.policy);
    }

    /// Returns the front of a file, if it has one.
    pub fn of(&self, key: FileKey) -> Option<&Front>
        ensures { option_copied result ≡ front_at self.now key }
    {
        match &self.known {
            Some(tree) => front_in(tree.get(&key)),
            None => None,
        }
    }
}
