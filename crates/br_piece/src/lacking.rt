ghost use Rattle.std.specs.Prelude.{◌≡◌, ◌++◌, IfOk, OnOk, map};
ghost use Rattle.br_piece.specs.Missing as model;
ghost use Rattle.br_piece.specs.NearRanges.{AreSorted, asked_indexes, is_asked};

use crate::gaps::gaps_of;
use crate::near_ranges::near;
use br_bsr::{Group, Range, admits_number};
use br_types::{FileKey, SessionKey};
use std::alloc::{AllocError, Global};

/// A run of indexes that a group of a bootstrap asks for, and of which there is no file.
#[derive(Clone, Copy)]
pub struct Gap {
    /// The place of the group in its bootstrap, counted from 0.
    pub group: usize,
    pub indexes: Range,
}

/// Returns if the group admits the number and the time of the session.
pub fn admits_session(group: &Group, session: SessionKey) -> bool
    ensures { result ≡ model.admits_session group.now session }
{
    admits_number(&group.session_ids, u64::from(session.id))
        && admits_number(&group.session_times, u64::from(session.time))
}

/// Returns if the group asks for the file by the range.
pub(crate) fn asks_for(group: &Group, range: Range, key: FileKey) -> bool
    ensures { result ≡ is_asked group.now range key }
{
    admits_session(group, key.session) && range.contains(u64::from(key.index.get()))
}

/// Returns the indexes of the files that the group asks for by the range.
fn asked_in(
    alloc: Global,
    keys: &[FileKey],
    group: &Group,
    range: Range,
) -> Result<Vec<u32>, AllocError>
    ensures { IfOk result (λ indexes. indexes.items ≡ asked_indexes group.now range keys.now) }
{
    keys.iter()
        .filter(|key| asks_for(group, range, **key))
        .map(|key| key.index.get())
        .collect(alloc)
}

/// Returns the runs of the range's indexes that no file has.
fn missing_in(
    alloc: Global,
    keys: &[FileKey],
    group: &Group,
    range: Range,
) -> Result<Vec<Range>, AllocError>
    requires { AreSorted keys.now }
    ensures { IfOk result (λ runs. runs.items ≡ model.missing_in group.now keys.now range) }
{
    let mut indexes = asked_in(alloc, near(keys, group, range), group, range)?;
    indexes.sort_unstable();
    gaps_of(alloc, range, &indexes)
}

/// Appends the runs of indexes as those of a group.
fn push_runs(found: &mut Vec<Gap>, group: usize, runs: &[Range]) -> Result<(), AllocError>
    ensures { OnOk result (found.new.items ≡ found.old.items ++ map (model.in_group group) runs.now) }
{
    for run in runs {
        found.push(Gap {
            group,
            indexes: *run,
        })?;
    }
    Ok(())
}

/// Appends the runs of a group, one of its ranges after the other.
fn push_group(
    alloc: Global,
    keys: &[FileKey],
    place: usize,
    group: &Group,
    found: &mut Vec<Gap>,
) -> Result<(), AllocError>
    requires { AreSorted keys.now }
    ensures { OnOk result (found.new.items ≡ found.old.items ++ model.missing_at keys.now (place, group.now)) }
{
    for range in &group.indexes {
        let runs = missing_in(alloc, keys, group, *range)?;
        push_runs(found, place, &runs)?;
    }
    Ok(())
}

/// Returns the runs of all groups, one group after the other.
#[tactic(auto, unfolding(crate::specs::Missing::missing))]
pub(crate) fn missing_of(
    alloc: Global,
    groups: &[Group],
    keys: &[FileKey],
) -> Result<Vec<Gap>, AllocError>
    requires { AreSorted keys.now }
    ensures { IfOk result (λ found. found.items ≡ model.missing groups.now keys.now) }
{
    let mut found = Vec::new(alloc);
    for (place, group) in groups.iter().enumerate() {
        push_group(alloc, keys, place, group, &mut found)?;
    }
    Ok(found)
}

/// Returns the indexes that the groups of a bootstrap ask for by their ranges of FileIndex, and
/// that no file has, of a session that the group admits. They are runs, each as long as possible,
/// one group and one of its ranges after the other. A group without FileIndex asks for none.
///
/// The files may come in any order.
pub fn missing(
    alloc: Global,
    groups: &[Group],
    mut keys: Vec<FileKey>,
) -> Result<Vec<Gap>, AllocError>
    ensures { IfOk result (λ found. found.items ≡ model.missing groups.now keys.items) }
{
    keys.sort_unstable();
    missing_of(alloc, groups, &keys)
}
