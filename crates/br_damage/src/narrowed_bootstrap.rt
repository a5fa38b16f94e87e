//! A bootstrap without the files that are lost.
ghost use Rattle.std.specs.Prelude.{◌≡◌, ◌≤◌, ◌||◌, false, true, length, bytes_eq, [], IfOk, IfSome, OnOk};
ghost use Rattle.std.specs.List.{list_all, list_any};
ghost use Rattle.br_model.specs.BootstrapText.{is_group};
ghost use Rattle.br_piece.specs.MissingLines as lines;
ghost use Rattle.br_damage.specs.LeftIndexes.{AreLeft, are_valid};
ghost use Rattle.br_damage.specs.LostFiles.{ranges_of};
ghost use Rattle.br_damage.specs.NarrowedBootstrap.{AddsValid, IsNarrowed, LeaveBySpans, Leaves, LeavesOfGroup, NarrowsBy};
ghost use Rattle.br_damage.specs.NarrowedBootstrap.{are_some, is_flag, with_flag, with_volume};

use crate::group_sessions::{name_sessions, session_of};
use crate::left_indexes::left_of;
use crate::lost_files::{ALL, LostFiles};
use br_bsr::{Bootstrap, Group, Range};
use br_piece::report;
use br_types::{SessionKey, VolName};
use std::alloc::{AllocError, Global};

/// Returns true if a flag is this one.
fn is_flag(flag: bool, other: bool) -> bool
    ensures { result ≡ is_flag flag other }
{
    if flag { other } else { !other }
}

/// Returns copies of the groups that have this flag.
fn groups_with(
    alloc: Global,
    groups: &[Group],
    flags: &[bool],
    flag: bool,
) -> Result<Vec<Group>, AllocError>
    requires { length flags.now ≡ length groups.now }
    ensures { IfOk result (λ some. some.items ≡ with_flag flag flags.now groups.now) }
{
    let mut some = Vec::new(alloc);
    let mut place = 0;
    for group in groups {
        if is_flag(flag, flags[place]) {
            some.push(group.copy(alloc)?)?;
        }
        place += 1;
    }
    Ok(some)
}

/// Returns the group with other ranges of FileIndex.
fn with_indexes(alloc: Global, group: &Group, indexes: Vec<Range>) -> Result<Group, AllocError>
    ensures { IfOk result (λ g. g ≡ record group.now { indexes = indexes.items }) }
{
    Ok(Group {
        vol: group.vol.copy(alloc)?,
        session_ids: Vec::from_slice(alloc, &group.session_ids)?,
        session_times: Vec::from_slice(alloc, &group.session_times)?,
        files: Vec::from_slice(alloc, &group.files)?,
        blocks: Vec::from_slice(alloc, &group.blocks)?,
        addrs: Vec::from_slice(alloc, &group.addrs)?,
        indexes,
        streams: Vec::from_slice(alloc, &group.streams)?,
    })
}

/// Returns the indexes that the group asks for in its session, without those of lost files.
fn left_for(
    alloc: Global,
    session: SessionKey,
    group: &Group,
    lost: &LostFiles,
) -> Result<Vec<Range>, AllocError>
    ensures left { IfOk result (λ left. AreLeft lost.now.spans.items session (ranges_of group.now) left.items) }
    ensures valid { IfOk result (λ left. are_valid group.now.indexes ≡ true → are_valid left.items ≡ true) }
{
    if group.indexes.is_empty() {
        left_of(alloc, session, &[ALL], lost)
    } else {
        left_of(alloc, session, &group.indexes, lost)
    }
}

/// Returns the group without the files that are lost; `None` if no file is left, or if it names no
/// session.
fn narrowed(alloc: Global, group: &Group, lost: &LostFiles) -> Result<Option<Group>, AllocError>
    ensures left { IfOk result (λ left. IsNarrowed lost.now.spans.items group.now left) }
    ensures valid { IfOk result (λ left. is_group group.now ≡ true → IfSome left (λ g. is_group g ≡ true)) }
{
    let Some(session) = session_of(group) else {
        return Ok(None);
    };
    let indexes = left_for(alloc, session, group, lost)?;
    if indexes.is_empty() {
        return Ok(None);
    }
    Ok(Some(with_indexes(alloc, group, indexes)?))
}

/// Appends the group without the files that are lost, if it asks for others.
fn push_narrowed(
    alloc: Global,
    left: &mut Vec<Group>,
    group: &Group,
    lost: &LostFiles,
) -> Result<(), AllocError>
    ensures left { OnOk result (LeavesOfGroup lost.now.spans.items group.now left.old.items left.new.items) }
    ensures valid { OnOk result (AddsValid group.now left.old.items left.new.items) }
{
    let Some(narrow) = narrowed(alloc, group, lost)? else {
        return Ok(());
    };
    left.push(narrow)?;
    Ok(())
}

/// Returns the groups without the files that are lost.
fn without(alloc: Global, groups: &[Group], lost: &LostFiles) -> Result<Vec<Group>, AllocError>
    ensures left { IfOk result (λ left. LeaveBySpans lost.now.spans.items groups.now left.items) }
    ensures few { IfOk result (λ left. length left.items ≤ length groups.now) }
    ensures valid { IfOk result (λ left. list_all is_group groups.now ≡ true → list_all is_group left.items ≡ true) }
{
    let mut left = Vec::new(alloc);
    for group in groups {
        push_narrowed(alloc, &mut left, group, lost)?;
    }
    Ok(left)
}

/// Returns true if a group has a flag already, or is on the volume.
fn is_set(flag: bool, group: &Group, vol: &VolName) -> bool
    ensures { result ≡ (flag || bytes_eq group.now.volume vol.now) }
{
    flag || group.vol.bytes() == vol.bytes()
}

/// Returns the flags of groups, with those of the groups on a volume set.
pub fn with_volume(
    alloc: Global,
    groups: &[Group],
    flags: &[bool],
    vol: &VolName,
) -> Result<Vec<bool>, AllocError>
    requires { length flags.now ≡ length groups.now }
    ensures flags { IfOk result (λ more. more.items ≡ with_volume vol.now flags.now groups.now) }
    ensures many { IfOk result (λ more. length more.items ≡ length groups.now) }
{
    let mut more = Vec::new(alloc);
    let mut place = 0;
    for group in groups {
        more.push(is_set(flags[place], group, vol))?;
        place += 1;
    }
    Ok(more)
}

/// Returns true if one of the flags is set.
fn any_is_set(flags: &[bool]) -> bool
    ensures { result ≡ list_any (λ b. b) flags.now }
{
    flags.iter().any(|flag| *flag)
}

/// Returns true if all of the flags are set.
fn all_are_set(flags: &[bool]) -> bool
    ensures { result ≡ list_all (λ b. b) flags.now }
{
    flags.iter().all(|flag| *flag)
}

/// Returns true if some of the flags are set, but not all.
fn are_some(flags: &[bool]) -> bool
    ensures { result ≡ are_some flags.now }
{
    any_is_set(flags) && !all_are_set(flags)
}

/// What is left of a bootstrap of which some volumes are lost.
#[derive(Drop)]
pub struct NarrowedBootstrap {
    /// It asks on the other volumes for the files of which no lost volume may have a part.
    pub left: Bootstrap,
    /// The lines of the indexes that are asked for on lost volumes.
    pub missing: Vec<u8>,
}

impl NarrowedBootstrap {
    /// Narrows a bootstrap to what is left without the groups that have a flag.
    fn of(
        alloc: Global,
        bootstrap: &Bootstrap,
        flags: &[bool],
    ) -> Result<NarrowedBootstrap, AllocError>
        requires { length flags.now ≡ length bootstrap.now }
        ensures left { IfOk result (λ n. Leaves (with_flag true flags.now bootstrap.now) (with_flag false flags.now bootstrap.now) n.left) }
        ensures missing { IfOk result (λ n. n.missing.items ≡ lines.report (with_flag true flags.now bootstrap.now) [] []) }
    {
        let lost = groups_with(alloc, bootstrap.groups(), flags, true)?;
        let others = groups_with(alloc, bootstrap.groups(), flags, false)?;
        let left = without(alloc, &others, &LostFiles::of(alloc, &lost)?)?;
        let missing = report(alloc, &lost, &[], Vec::new(alloc))?;
        Ok(NarrowedBootstrap {
            left: Bootstrap::from_valid(left),
            missing,
        })
    }

    /// Narrows a bootstrap to what is left if some volumes are lost. For each group there is a flag,
    /// which is true if its volume is lost. `None` if no volume is lost or each is, or if a group
    /// does not name one session: then it is not known of which files a part is lost.
    pub fn by_flags(
        alloc: Global,
        bootstrap: &Bootstrap,
        flags: &[bool],
    ) -> Result<Option<NarrowedBootstrap>, AllocError>
        requires { length flags.now ≡ length bootstrap.now }
        ensures { IfOk result (NarrowsBy flags.now bootstrap.now) }
    {
        if !name_sessions(bootstrap.groups()) || !are_some(flags) {
            return Ok(None);
        }
        Ok(Some(NarrowedBootstrap::of(alloc, bootstrap, flags)?))
    }
}
