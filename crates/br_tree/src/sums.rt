ghost use Rattle.std.specs.Prelude.{◌≡◌, ◌<◌, ◌≤◌, ◌+◌, ◌-◌, ◌*◌, ◌/◌, ◌^◌, length, take, drop, count_by, replicate, ◌++◌};
ghost use Rattle.br_tree.specs.Sums.{set_in, cut, AreSums, painted, repainted, moved};
ghost use Rattle.br_tree.specs.Walk.{differs};

/// The number of flags per sum.
pub(crate) const BLOCK: usize = 16;

/// Returns the number of flags that are set.
fn count_set(flags: &[bool]) -> usize
    ensures { result ≡ set_in flags.now }
{
    flags.iter().filter(|flag| **flag).count()
}

/// Returns the number of flags before a place that are set.
pub(crate) fn count_before(flags: &[bool], sums: &[usize], end: usize) -> usize
    requires sums { AreSums sums.now flags.now }
    requires bound { end ≤ length flags.now }
    ensures { result ≡ set_in (take end flags.now) }
{
    if sums.is_empty() {
        return count_set(&flags[..end]);
    }
    let middle = sums.len() / 2;
    let cut = BLOCK * (middle + 1);
    let (front, back) = flags.split_at(cut);
    if end < cut {
        count_before(front, &sums[..middle], end)
    } else {
        sums[middle] + count_before(back, &sums[middle + 1..], end - cut)
    }
}

/// Returns a number of set flags after some were set or cleared.
fn recount(count: usize, changed: usize, value: bool) -> usize
    requires { moved value count changed < 2 ^ 64 }
    ensures { result ≡ moved value count changed }
{
    if value {
        count + changed
    } else {
        count.saturating_sub(changed)
    }
}

/// Sets flags to a value, and returns the number of flags that change.
fn set_flags(flags: &mut [bool], value: bool) -> usize
    ensures flags { flags.new ≡ replicate (length flags.old) value }
    ensures count { result ≡ count_by (λ flag. differs value flag) flags.old }
{
    let count = flags.iter().filter(|flag| **flag != value).count();
    flags.fill(value);
    count
}

/// Sets the flags from one place to another, or to the end. Returns the number of changed flags.
fn set_each(flags: &mut [bool], from: usize, to: usize, value: bool) -> usize
    requires ordered { from ≤ to }
    requires within { from ≤ length flags.old }
    ensures flags { flags.new ≡ painted from to value flags.old }
    ensures count { result ≡ repainted from to value flags.old }
{
    let end = to.min(flags.len());
    set_flags(&mut flags[from..end], value)
}

/// Sets the flags from one place to another, or to the end, and the sums. Returns the number of
/// changed flags.
pub(crate) fn set_between(
    flags: &mut [bool],
    sums: &mut [usize],
    from: usize,
    to: usize,
    value: bool,
) -> usize
    requires { AreSums sums.old flags.old }
    ensures flags { flags.new ≡ painted from to value flags.old }
    ensures count { result ≡ repainted from to value flags.old }
    ensures sums { AreSums sums.new flags.new }
{
    if to <= from || flags.len() <= from {
        return 0;
    }
    if sums.is_empty() {
        return set_each(flags, from, to, value);
    }
    let middle = sums.len() / 2;
    let cut = BLOCK * (middle + 1);
    let near = set_between(&mut flags[..cut], &mut sums[..middle], from, to, value);
    sums[middle] = recount(sums[middle], near, value);
    let far = set_between(
        &mut flags[cut..],
        &mut sums[middle + 1..],
        from.saturating_sub(cut),
        to.saturating_sub(cut),
        value,
    );
    near + far
}
