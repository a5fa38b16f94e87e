ghost use Rattle.std.specs.Prelude.{◌≡◌, ◌∷◌, List, [], OnOk};
ghost use Rattle.br_types.specs.Newest as newest;
ghost use Rattle.br_types.specs.Newest.{AreNoted, Copy, IsNewestAt, Keeps, is_older, is_outdated};

use crate::key::FileKey;
use std::alloc::{AllocError, Global};
use std::collections::BTreeMap;

/// Copies of paths, of which the newest of each path is kept.
#[derive(Drop)]
pub struct NewestCopies<'p> {
    newest: BTreeMap<&'p [u8], FileKey>,
}

/// Returns the key by which copies are ordered: session time, session number and index.
fn age(key: FileKey) -> (u32, u32, u32)
    ensures time { result.0 ≡ key.session.time }
    ensures number { result.1 ≡ key.session.id }
    ensures index { result.2 ≡ key.index }
{
    (key.session.time, key.session.id, key.index.get())
}

/// Returns if a copy is older than another one.
fn is_before(key: FileKey, other: FileKey) -> bool
    ensures { result ≡ is_older key other }
{
    age(key) < age(other)
}

/// Returns if a copy is older than one that is known, if there is one.
fn is_beaten(key: FileKey, known: Option<FileKey>) -> bool
    ensures { result ≡ newest.is_beaten key known }
{
    match known {
        Some(known) => is_before(key, known),
        None => false,
    }
}

/// Returns if a copy is not older than the newest that is known, if there is one.
fn is_news(known: Option<FileKey>, key: FileKey) -> bool
    ensures { result ≡ newest.is_news known key }
{
    match known {
        Some(known) => is_before(known, key),
        None => true,
    }
}

/// Keeps a copy if no newer one of its path is kept.
fn keep<'p>(
    newest: &mut BTreeMap<&'p [u8], FileKey>,
    key: FileKey,
    path: &'p [u8],
) -> Result<(), AllocError>
    ensures { OnOk result (Keeps newest.old (record { key = key; path = path.now }) newest.new) }
{
    if !is_news(newest.get(path).copied(), key) {
        return Ok(());
    }
    match newest.insert(path, key) {
        Ok(_) => Ok(()),
        Err(_) => Err(AllocError),
    }
}

impl<'p> NewestCopies<'p> {
    /// Returns a set of no copies.
    pub fn new(alloc: Global) -> NewestCopies<'p>
        ensures { AreNoted result [] }
    {
        NewestCopies {
            newest: BTreeMap::new(alloc),
        }
    }

    /// Adds a copy of a path.
    pub fn note(&mut self, key: FileKey, path: &'p [u8]) -> Result<(), AllocError>
        ensures { OnOk result ((copies : List Copy) → AreNoted self.old copies
            → AreNoted self.new (record { key = key; path = path.now } ∷ copies)) }
    {
        // The map has a clause of its own, from which this one is proved.
        keep(&mut self.newest, key, path)
    }

    /// Returns the newest copy of a path, if there is one.
    pub fn newest(&self, path: &[u8]) -> Option<FileKey>
        ensures { (copies : List Copy) → AreNoted self.now copies → IsNewestAt copies path.now result }
    {
        self.newest.get(path).copied()
    }

    /// Returns if a newer copy of the path is in the set.
    pub fn has_newer(&self, key: FileKey, path: &[u8]) -> bool
        ensures { (copies : List Copy) → AreNoted self.now copies
            → result ≡ is_outdated copies (record { key = key; path = path.now }) }
    {
        is_beaten(key, self.newest(path))
    }
}
