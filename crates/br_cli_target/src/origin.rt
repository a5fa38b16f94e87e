//! The origins of files.
ghost use Rattle.std.specs.Prelude.{◌≡◌, find, map, option_map, IfOk};
ghost use Rattle.std.specs.Option.{option_copied};
ghost use Rattle.br_cli_target.specs.Origins.{AreOrigins, ComeFrom, group_hit as hit_by, origin_by};
ghost use Rattle.br_cli_target.specs.Origins.{origin_of as origin, volume_asked, volume_for};
ghost use Rattle.br_records.specs.Runs.{AreListed};

use crate::attribute_paths::path_of;
use crate::first_asking::Asking;
use crate::narrowed_groups::narrowed_to;
use crate::own_hits::own_hits;
use crate::searched_hits::{hits_in, sorted};
use br_bsr::{Bootstrap, Group};
use br_match::Hit;
use br_piece::split;
use br_types::{FileKey, Path, SessionKey, VolName};
use br_volume::Drive;
use std::alloc::{AllocError, Global};

/// The session that is tried first, whatever the files are.
const FIRST: SessionKey = SessionKey { id: 0, time: 0 };

/// The origin of a file.
#[derive(Drop)]
pub struct Origin {
    pub key: FileKey,
    /// The volume on which its attributes were found, or else that of the first group that asks for the file.
    pub vol: Option<VolName>,
    /// The path in the attributes of the file, if they can be read.
    pub path: Option<Path>,
}

/// Returns the group with the first of some hits, among those by which the volumes were searched.
fn group_hit<'g>(searched: &'g [Group], own: &[Hit]) -> Option<&'g Group>
    ensures { option_copied result ≡ hit_by searched.now own.now }
{
    match own.first() {
        Some(hit) => searched.get(hit.spot.group as usize),
        None => None,
    }
}

/// Returns the volume of the first group that asks for the file, which is one of the session.
fn vol_asked(
    alloc: Global,
    asking: &Asking<'_>,
    key: FileKey,
) -> Result<Option<VolName>, AllocError>
    requires { key.session ≡ asking.now.session }
    ensures { IfOk result (λ vol. vol ≡ volume_asked asking.now.groups.now key) }
{
    match asking.first_for(key) {
        Some(group) => Ok(Some(group.vol.copy(alloc)?)),
        None => Ok(None),
    }
}

/// Returns the volume of the first of a file's hits, else that of the first group that asks for the
/// file.
fn vol_of(
    alloc: Global,
    asking: &Asking<'_>,
    searched: &[Group],
    own: &[Hit],
    key: FileKey,
) -> Result<Option<VolName>, AllocError>
    requires { key.session ≡ asking.now.session }
    ensures { IfOk result (λ vol. vol ≡ volume_for asking.now.groups.now searched.now own.now key) }
{
    match group_hit(searched, own) {
        Some(group) => Ok(Some(group.vol.copy(alloc)?)),
        None => vol_asked(alloc, asking, key),
    }
}

/// Returns the origin of the file, which is one of the session, by its hits.
fn origin_by_own(
    alloc: Global,
    asking: &Asking<'_>,
    searched: &[Group],
    own: &[Hit],
    key: FileKey,
) -> Result<Origin, AllocError>
    requires { key.session ≡ asking.now.session }
    ensures { IfOk result (λ origin. origin ≡ origin_by asking.now.groups.now searched.now key own.now) }
{
    Ok(Origin {
        key,
        vol: vol_of(alloc, asking, searched, own, key)?,
        path: path_of(alloc, key, own)?,
    })
}

/// Returns the origin of each of the files by the hits of their attributes, which are in order of
/// file and place. The volumes were searched for them by groups.
fn origins_by(
    alloc: Global,
    groups: &[Group],
    searched: &[Group],
    keys: &[FileKey],
    hits: &[Hit],
) -> Result<Vec<Origin>, AllocError>
    requires { AreListed hits.now }
    ensures { IfOk result (λ origins. AreOrigins groups.now searched.now keys.now hits.now origins.items) }
{
    let mut origins = Vec::with_capacity(alloc, keys.len())?;
    let mut asking = Asking::of(alloc, groups, FIRST)?;
    for key in keys {
        let own = own_hits(hits, *key);
        asking = asking.turned_to(alloc, key.session)?;
        origins.push(origin_by_own(alloc, &asking, searched, own, *key)?)?;
    }
    Ok(origins)
}

/// Returns the origin of each of some files that a bootstrap asks for. The volumes of the groups
/// that ask for one of the files are read once more, as these groups ask; only the attributes of
/// these files are kept.
///
/// A path is missing if the attributes or a volume can't be read.
pub fn origins<D: Drive>(
    alloc: Global,
    bootstrap: &Bootstrap,
    keys: &[FileKey],
    drive: &mut D,
) -> Result<Vec<Origin>, AllocError>
    ensures { IfOk result (λ origins. ComeFrom bootstrap.now keys.now origins.items) }
{
    let groups = bootstrap.groups();
    let sorted = sorted(alloc, keys)?;
    match Bootstrap::new(narrowed_to(alloc, groups, &sorted)?) {
        Some(narrow) => {
            let pieces = split(alloc, &narrow)?;
            let hits = hits_in(alloc, &sorted, &pieces, drive)?;
            origins_by(alloc, groups, narrow.groups(), keys, &hits)
        }
        None => origins_by(alloc, groups, &[], keys, &[]),
    }
}
