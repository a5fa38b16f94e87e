ghost use Rattle.std.specs.Prelude.{◌≡◌, ◌≤◌, ◌<◌, ◌-◌, IfOk, length, take, drop, map, filter};
ghost use Rattle.std.specs.List.{AllZip, list_any};
ghost use Rattle.std.specs.List.Sorted.{IsNonDecreasingBy, IsPartitionPoint};
ghost use Rattle.br_model.specs.Meaning.{covers};
ghost use Rattle.br_match.specs.Groups.{AreAlike, admits_block};
ghost use Rattle.br_match.specs.Near.{AreEnds, AreStarts, IsAround};

use crate::matcher::{Matcher, matchers_for};
use br_bsr::Group;
use br_types::SessionKey;
use std::alloc::{AllocError, Global};
use std::marker::Model;

/// The groups of a piece, prepared for many look-ups. An address leaves only a few of them.
#[derive(Drop)]
pub(crate) struct Matchers {
    /// In their order.
    groups: Vec<Matcher>,
    /// For each group the greatest address that it or a group before it may cover.
    ends: Vec<u64>,
    /// For each group the least address that it or a group after it may cover.
    starts: Vec<u64>,
}

impl Model for Matchers {
    ghost use Rattle.std.specs.Prelude.{ℕ, List};
    ghost use Rattle.br_model.specs.Bootstrap as model;
    ghost use Rattle.br_match.specs.Near.{IsBounded};

    ghost Value = { List (ℕ × model.Group) };

    ghost view = { λ m. m.groups.items };

    ghost invariant = { λ m. IsBounded m.groups.items m.ends.items m.starts.items };
}

/// Returns for each group the greatest address that it or a group before it may cover.
fn ends_of(alloc: Global, groups: &[Matcher]) -> Result<Vec<u64>, AllocError>
    ensures { IfOk result (λ v. AreEnds groups.now v.items) }
{
    let mut greatest = 0;
    let mut ends = Vec::new(alloc);
    for group in groups {
        greatest = group.last_address().max(greatest);
        ends.push(greatest)?;
    }
    Ok(ends)
}

/// Returns for each group the least address that it or a group after it may cover.
fn starts_of(alloc: Global, groups: &[Matcher]) -> Result<Vec<u64>, AllocError>
    ensures { IfOk result (λ v. AreStarts groups.now v.items) }
{
    let mut least = u64::MAX;
    let mut starts = Vec::new(alloc);
    for group in groups.iter().rev() {
        least = group.first_address().min(least);
        starts.push(least)?;
    }
    starts.reverse();
    Ok(starts)
}

/// Returns the number of groups that end below the address.
fn ended(ends: &[u64], addr: u64) -> usize
    requires { IsNonDecreasingBy (λ n. n) ends.now }
    ensures bound { result ≤ length ends.now }
    ensures point { IsPartitionPoint (λ n. n < addr) (λ n. addr ≤ n) ends.now result }
{
    ends.partition_point(|end| *end < addr)
}

/// Returns the number of groups that begin at the address or below it.
fn begun(starts: &[u64], addr: u64) -> usize
    requires { IsNonDecreasingBy (λ n. n) starts.now }
    ensures bound { result ≤ length starts.now }
    ensures point { IsPartitionPoint (λ n. n ≤ addr) (λ n. addr < n) starts.now result }
{
    starts.partition_point(|start| *start <= addr)
}

/// Returns the groups from one place to another.
fn between(groups: &[Matcher], first: usize, end: usize) -> &[Matcher]
    requires ordered { first ≤ end }
    requires bound { end ≤ length groups.now }
    ensures { result.now ≡ take (end - first) (drop first groups.now) }
{
    &groups[first..end]
}

impl Matchers {
    /// Prepares the groups, in their order.
    pub(crate) fn new(alloc: Global, groups: &[(u32, Group)]) -> Result<Matchers, AllocError>
        ensures { IfOk result (λ ms. AllZip AreAlike ms groups.now) }
    {
        let groups = matchers_for(alloc, groups)?;
        let ends = ends_of(alloc, &groups)?;
        let starts = starts_of(alloc, &groups)?;
        Ok(Matchers {
            groups,
            ends,
            starts,
        })
    }

    /// Returns the groups between those that end below the address and those that begin above it.
    fn around(&self, addr: u64) -> &[Matcher]
        ensures { IsAround addr self.now result.now }
    {
        let first = ended(&self.ends, addr);
        let end = begun(&self.starts, addr).max(first);
        between(&self.groups, first, end)
    }
}

/// Returns whether one of these groups asks for records of the block at this address.
fn any_covers(matchers: &[Matcher], addr: u64) -> bool
    ensures { result ≡ list_any (λ m. covers m.1 addr) matchers.now }
{
    matchers.iter().any(|matcher| matcher.covers(addr))
}

/// Returns whether one of the groups asks for records of the block at this address.
pub(crate) fn covers_any(matchers: &Matchers, addr: u64) -> bool
    ensures { result ≡ list_any (λ m. covers m.1 addr) matchers.now }
{
    any_covers(matchers.around(addr), addr)
}

/// Returns the groups that may hit a record in a block at this address, whose header has this session
/// or none.
pub(crate) fn near<'m>(
    alloc: Global,
    matchers: &'m Matchers,
    addr: u64,
    session: &Option<SessionKey>,
) -> Result<Vec<&'m Matcher>, AllocError>
    ensures { IfOk result (λ v. map (λ m. m.now) v.items ≡ filter (λ m. admits_block m.1 addr session.now) matchers.now) }
{
    let around = matchers.around(addr);
    let mut near = Vec::new(alloc);
    for matcher in around {
        if matcher.admits_block(addr, session) {
            near.push(matcher)?;
        }
    }
    Ok(near)
}
