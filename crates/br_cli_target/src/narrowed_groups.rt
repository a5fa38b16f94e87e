//! The groups of a bootstrap that ask for some files, each narrowed to attributes.
ghost use Rattle.std.specs.Prelude.{◌≡◌, ◌++◌, flat_map, IfOk, OnOk};
ghost use Rattle.std.specs.List.Sorted.{IsSorted};
ghost use Rattle.br_model.specs.Name.{key_cmp};
ghost use Rattle.br_cli_target.specs.NarrowedGroups.{asks_for_any as is_any_asked, narrow, narrow_to, one};

use br_bsr::{Group, Range};
use br_piece::got_of;
use br_types::FileKey;
use std::alloc::{AllocError, Global};

/// The stream of a file's attributes.
const ATTRIBUTES: u64 = 1;

/// Returns if the group asks for one of the files, in time log n beside that of these if the group names one session.
fn asks_for_any(alloc: Global, group: &Group, keys: &[FileKey]) -> Result<bool, AllocError>
    requires { IsSorted key_cmp keys.now }
    ensures { IfOk result (λ b. b ≡ is_any_asked keys.now group.now) }
{
    Ok(got_of(alloc, keys, group)? != 0)
}

/// Returns the range of one number.
fn range_of(alloc: Global, number: u64) -> Result<Vec<Range>, AllocError>
    ensures { IfOk result (λ ranges. ranges.items ≡ one number) }
{
    let mut ranges = Vec::new(alloc);
    ranges.push(Range {
        low: number,
        high: number,
    })?;
    Ok(ranges)
}

/// Returns the group that asks only for the attributes of what this one asks for.
fn narrowed(alloc: Global, group: &Group) -> Result<Group, AllocError>
    ensures { IfOk result (λ g. g ≡ narrow group.now) }
{
    Ok(Group {
        vol: group.vol.copy(alloc)?,
        session_ids: Vec::from_slice(alloc, &group.session_ids)?,
        session_times: Vec::from_slice(alloc, &group.session_times)?,
        files: Vec::from_slice(alloc, &group.files)?,
        blocks: Vec::from_slice(alloc, &group.blocks)?,
        addrs: Vec::from_slice(alloc, &group.addrs)?,
        indexes: Vec::from_slice(alloc, &group.indexes)?,
        streams: range_of(alloc, ATTRIBUTES)?,
    })
}

/// Appends the group that asks only for the attributes, if this one asks for one of the files.
fn push_narrowed(
    alloc: Global,
    narrow: &mut Vec<Group>,
    group: &Group,
    keys: &[FileKey],
) -> Result<(), AllocError>
    requires { IsSorted key_cmp keys.now }
    ensures { OnOk result (narrow.new.items ≡ narrow.old.items ++ narrow_to keys.now group.now) }
{
    if !asks_for_any(alloc, group, keys)? {
        return Ok(());
    }
    narrow.push(narrowed(alloc, group)?)?;
    Ok(())
}

/// Returns the groups that ask for one of the files, which are in order; each now asks only for the
/// attributes.
pub(crate) fn narrowed_to(
    alloc: Global,
    groups: &[Group],
    keys: &[FileKey],
) -> Result<Vec<Group>, AllocError>
    requires { IsSorted key_cmp keys.now }
    ensures { IfOk result (λ narrow. narrow.items ≡ flat_map (narrow_to keys.now) groups.now) }
{
    let mut narrow = Vec::new(alloc);
    for group in groups {
        push_narrowed(alloc, &mut narrow, group, keys)?;
    }
    Ok(narrow)
}
