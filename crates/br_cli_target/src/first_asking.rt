//! The first group that asks for a file, for many files one after another.
ghost use Rattle.std.specs.Prelude.{◌≡◌, ◌++◌, ◌≤◌, drop, find, length, map, IfOk, OnOk};
ghost use Rattle.std.specs.Int.{is_in_range};
ghost use Rattle.std.specs.Option.{option_copied};
ghost use Rattle.br_cli_target.specs.FirstAsking as model;
ghost use Rattle.br_cli_target.specs.FirstAsking.{asked_by, first_asked, reaches_from, shown};
ghost use Rattle.br_cli_target.specs.NarrowedGroups.{asks_for};

use br_bsr::{Group, Range};
use br_piece::admits_session;
use br_types::{FileKey, SessionKey};
use std::alloc::{AllocError, Global};

/// The range of all indexes.
const ALL: Range = Range {
    low: 0,
    high: u64::MAX,
};

/// A range of indexes, and the group that asks for it.
type AskingGroup<'g> = (Range, &'g Group);

/// Appends ranges that the group asks for.
fn push_ranges<'g>(
    asked: &mut Vec<AskingGroup<'g>>,
    group: &'g Group,
    ranges: &[Range],
) -> Result<(), AllocError>
    ensures { OnOk result (map shown asked.new.items ≡ map shown asked.old.items ++ map (λ r. (r, group.now)) ranges.now) }
{
    for range in ranges {
        if asked.push((*range, group)).is_err() {
            return Err(AllocError);
        }
    }
    Ok(())
}

/// Appends the ranges that the group asks for in the session.
fn push_asked<'g>(
    asked: &mut Vec<AskingGroup<'g>>,
    group: &'g Group,
    session: SessionKey,
) -> Result<(), AllocError>
    ensures { OnOk result (map shown asked.new.items ≡ map shown asked.old.items ++ asked_by session group.now) }
{
    if !admits_session(group, session) {
        return Ok(());
    }
    if group.indexes.is_empty() {
        return push_ranges(asked, group, &[ALL]);
    }
    push_ranges(asked, group, &group.indexes)
}

/// Returns the ranges that the groups ask for in the session, in their order.
#[tactic(auto, unfolding(crate::specs::FirstAsking::asked_of))]
fn asked_of<'g>(
    alloc: Global,
    groups: &'g [Group],
    session: SessionKey,
) -> Result<Vec<AskingGroup<'g>>, AllocError>
    ensures { IfOk result (λ asked. map shown asked.items ≡ model.asked_of session groups.now) }
{
    let mut asked = Vec::new(alloc);
    for group in groups {
        push_asked(&mut asked, group, session)?;
    }
    Ok(asked)
}

/// Returns for each range the greatest end up to it.
fn reaches_of(alloc: Global, asked: &[AskingGroup<'_>]) -> Result<Vec<u64>, AllocError>
    ensures { IfOk result (λ reaches. reaches.items ≡ reaches_from 0 (map shown asked.now)) }
{
    let mut greatest = 0;
    let mut reaches = Vec::new(alloc);
    for (range, _) in asked {
        greatest = range.high.max(greatest);
        reaches.push(greatest)?;
    }
    Ok(reaches)
}

/// Returns the number of first ranges that end before the index.
fn ended(reaches: &[u64], asked: &[AskingGroup<'_>], index: u64) -> usize
    requires { reaches.now ≡ reaches_from 0 (map shown asked.now) }
    ensures bound { result ≤ length asked.now }
    ensures before { first_asked index (map shown asked.now) ≡ first_asked index (map shown (drop result asked.now)) }
{
    reaches.partition_point(|reach| *reach < index)
}

/// Returns the first range with the index.
fn first_range<'a, 'g>(asked: &'a [AskingGroup<'g>], index: u64) -> Option<&'a AskingGroup<'g>>
    ensures { option_copied result ≡ find (λ a. is_in_range a.0.low a.0.high index) asked.now }
{
    asked.iter().find(|one| one.0.contains(index))
}

/// Returns the group of the first range with the index.
#[tactic(auto, using(crate::proofs::AskingLaws::find_shown))]
fn first_in<'g>(asked: &[AskingGroup<'g>], index: u64) -> Option<&'g Group>
    ensures { option_copied result ≡ first_asked index (map shown asked.now) }
{
    match first_range(asked, index) {
        Some((_, group)) => Some(group),
        None => None,
    }
}

/// The ranges of indexes that groups ask for in one session.
#[derive(Drop)]
pub(crate) struct Asking<'g> {
    groups: &'g [Group],
    session: SessionKey,
    asked: Vec<AskingGroup<'g>>,
    /// For each range the greatest end up to it.
    reaches: Vec<u64>,
    ghost known: { map shown asked.items ≡ model.asked_of session groups.now },
    ghost reached: { reaches.items ≡ reaches_from 0 (map shown asked.items) },
}

impl<'g> Asking<'g> {
    /// Returns what the groups ask for in the session.
    pub(crate) fn of(
        alloc: Global,
        groups: &'g [Group],
        session: SessionKey,
    ) -> Result<Asking<'g>, AllocError>
        ensures groups { IfOk result (λ asking. asking.groups.now ≡ groups.now) }
        ensures session { IfOk result (λ asking. asking.session ≡ session) }
    {
        let asked = asked_of(alloc, groups, session)?;
        let reaches = reaches_of(alloc, &asked)?;
        Ok(Asking {
            groups,
            session,
            asked,
            reaches,
        })
    }

    /// Returns what the groups ask for in this session, which may be another one.
    pub(crate) fn turned_to(
        self,
        alloc: Global,
        session: SessionKey,
    ) -> Result<Asking<'g>, AllocError>
        ensures groups { IfOk result (λ asking. asking.groups.now ≡ self.entry.groups.now) }
        ensures session { IfOk result (λ asking. asking.session ≡ session) }
    {
        if self.session == session {
            return Ok(self);
        }
        Asking::of(alloc, self.groups, session)
    }

    /// Returns the first of the groups that asks for the file of the session.
    pub(crate) fn first_for(&self, key: FileKey) -> Option<&'g Group>
        requires { key.session ≡ self.now.session }
        ensures { option_copied result ≡ find (asks_for key) self.now.groups.now }
    {
        let index = u64::from(key.index.get());
        let (_, left) = self
            .asked
            .split_at(ended(&self.reaches, &self.asked, index));
        first_in(left, index)
    }
}
