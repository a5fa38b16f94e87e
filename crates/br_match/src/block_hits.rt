ghost use Rattle.std.specs.Prelude.{◌≡◌, ◌<◌, ◌^◌, ◌++◌, [], length, IfOk, OnOk, Some, None, if◌then◌else◌, nat_abs, map, option_map};
ghost use Rattle.std.specs.Int.{is_positive};
ghost use Rattle.br_model.specs.Meaning.{hits_in};
ghost use Rattle.br_match.specs.Groups.{hit_by, hits_by, own_session};

use crate::hit::Hit;
use crate::matcher::{Matcher, first_admitting};
use crate::matchers::{Matchers, near};
use br_block::{Block, Fragment, Fragments};
use br_data::{Data, Spot};
use br_types::{FileIndex, FileKey, SessionKey};
use std::alloc::{AllocError, Global};
use std::sync::ArcSlice;

/// Returns the index of the fragment's file; none for a label.
fn file_index(fragment: &Fragment<'_>) -> Option<FileIndex>
    ensures { result ≡ if is_positive fragment.now.index then Some (nat_abs fragment.now.index) else None }
{
    if fragment.index > 0 {
        FileIndex::new(fragment.index.unsigned_abs())
    } else {
        None
    }
}

/// Returns the session of a record, if the header of its block has none.
fn own_session(session: &Option<SessionKey>, key: SessionKey) -> Option<SessionKey>
    ensures { result ≡ own_session session.now key }
{
    match session {
        None => Some(key),
        Some(_) => None,
    }
}

/// Returns the hit of a fragment of the block at this address, if one of the groups hits it. The
/// header of the block has this session or none.
fn hit_of(
    alloc: Global,
    near: &[&Matcher],
    session: &Option<SessionKey>,
    addr: u64,
    ordinal: u32,
    fragment: &Fragment<'_>,
) -> Result<Option<Hit>, AllocError>
    ensures { IfOk result (λ hit. hit ≡ hit_by session.now (map (λ m. m.now) near.now) addr (ordinal, fragment.now)) }
{
    let Some(index) = file_index(fragment) else {
        return Ok(None);
    };
    let own = own_session(session, fragment.session);
    let Some(group) = first_admitting(near, &own, fragment.index, fragment.stream) else {
        return Ok(None);
    };
    Ok(Some(Hit {
        key: FileKey {
            session: fragment.session,
            index,
        },
        spot: Spot {
            group,
            addr,
            ordinal,
        },
        stream: fragment.stream,
        size: fragment.size,
        data: Data::new(ArcSlice::from_slice(alloc, fragment.bytes)?),
    }))
}

/// Appends the hits among the fragments of the block at this address, in order. The groups are
/// those that may hit a record in the block, and its header has this session or none.
fn push_hits_of(
    alloc: Global,
    near: &[&Matcher],
    session: &Option<SessionKey>,
    addr: u64,
    fragments: Fragments<'_>,
    hits: &mut Vec<Hit>,
) -> Result<(), AllocError>
    requires few { length fragments < 2 ^ 32 }
    ensures { OnOk result (hits.new.items ≡ hits.old.items ++ hits_by session.now (map (λ m. m.now) near.now) addr fragments.entry) }
{
    let mut ordinal: u32 = 0;
    for fragment in fragments {
        if let Some(hit) = hit_of(alloc, near, session, addr, ordinal, &fragment)? {
            hits.push(hit)?;
        }
        ordinal += 1;
    }
    Ok(())
}

/// Appends the hits in a block, in order.
pub(crate) fn push_hits(
    alloc: Global,
    matchers: &Matchers,
    addr: u64,
    block: &Block<'_>,
    hits: &mut Vec<Hit>,
) -> Result<(), AllocError>
    ensures { OnOk result (hits.new.items ≡ hits.old.items ++ hits_in matchers.now (record { address = addr; bytes = block.now })) }
{
    let head = block.head();
    let near = near(alloc, matchers, addr, &head.session)?;
    push_hits_of(alloc, &near, &head.session, addr, block.fragments(), hits)
}
