ghost use Rattle.std.specs.Prelude.{◌≡◌, false, ◌≤◌, ◌-◌, ◌++◌, ◌/◌, length, take, drop, replicate, count_by, IfOk};
ghost use Rattle.br_tree.specs.Sums.{set_in, AreSums};
ghost use Rattle.br_tree.specs.Walk.{differs};

use crate::sums::{BLOCK, count_before, set_between};
use std::alloc::{AllocError, Global};
use std::marker::Model;

/// Returns `count` flags, none of which is set.
fn flags_for(alloc: Global, count: usize) -> Result<Vec<bool>, AllocError>
    ensures { IfOk result (λ flags. flags.items ≡ replicate count false) }
{
    vec![in alloc; false; count]
}

/// Returns the sums of `count` flags, none of which is set.
fn sums_for(alloc: Global, count: usize) -> Result<Vec<usize>, AllocError>
    ensures { IfOk result (λ sums. sums.items ≡ replicate (count / 16) 0) }
{
    vec![in alloc; 0; count / BLOCK]
}

/// Returns the number of flags that are set from one place to another.
fn count_between(flags: &[bool], sums: &[usize], from: usize, to: usize) -> usize
    requires sums { AreSums sums.now flags.now }
    requires ordered { from ≤ to }
    requires bound { to ≤ length flags.now }
    ensures { result ≡ set_in (take (to - from) (drop from flags.now)) }
{
    count_before(flags, sums, to).saturating_sub(count_before(flags, sums, from))
}

/// A flag for each path, and sums by which the set flags are counted.
#[derive(Drop)]
pub(crate) struct Flags {
    flags: Vec<bool>,
    sums: Vec<usize>,
}

impl Model for Flags {
    ghost use Rattle.std.specs.Prelude.{List, Bool};
    ghost use Rattle.br_tree.specs.Sums.{AreSums};

    ghost Value = { List Bool };

    ghost view = { λ f. f.flags.items };

    ghost invariant = { λ f. AreSums f.sums.items f.flags.items };
}

impl Flags {
    /// Makes `count` flags, none of which is set.
    pub(crate) fn new(alloc: Global, count: usize) -> Result<Flags, AllocError>
        ensures { IfOk result (λ flags. flags ≡ replicate count false) }
    {
        let flags = flags_for(alloc, count)?;
        let sums = sums_for(alloc, count)?;
        Ok(Flags { flags, sums })
    }

    /// Returns the flags.
    pub(crate) fn as_slice(&self) -> &[bool]
        ensures { result.now ≡ self.now }
    {
        self.flags.as_slice()
    }

    /// Returns the number of flags that are set from one place to another.
    pub(crate) fn count(&self, from: usize, to: usize) -> usize
        requires ordered { from ≤ to }
        requires bound { to ≤ length self.now }
        ensures { result ≡ set_in (take (to - from) (drop from self.now)) }
    {
        count_between(&self.flags, &self.sums, from, to)
    }

    /// Sets the flags from one place to another to a value. Returns the number of changed flags.
    pub(crate) fn set(&mut self, from: usize, to: usize, value: bool) -> usize
        requires ordered { from ≤ to }
        requires bound { to ≤ length self.old }
        ensures flags { self.new ≡ take from self.old ++ replicate (to - from) value ++ drop to self.old }
        ensures count { result ≡ count_by (λ flag. differs value flag) (take (to - from) (drop from self.old)) }
        ensures few { result ≤ to - from }
    {
        set_between(&mut self.flags, &mut self.sums, from, to, value)
    }
}
