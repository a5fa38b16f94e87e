ghost use Rattle.std.specs.Prelude.{◌≡◌, ◌≤◌, ◌-◌, true, length, take, drop, IfNone};
ghost use Rattle.std.specs.List.{list_any};
ghost use Rattle.br_model.specs.Console.{begins_with, sign};
ghost use Rattle.br_model.specs.Order.{is_among};
ghost use Rattle.br_tree.specs.Seen.{sign_byte};
ghost use Rattle.br_tree.specs.Walk.{AreSorted, NoneBegins, marked_in};

use crate::child::Sign;
use crate::flags::Flags;
use crate::shown_paths::{Shown, not_before, run_near};
use crate::tree_walk::own_len;
use br_types::is_directory_path;

/// Returns whether a flag is set.
fn any_set(flags: &[bool]) -> bool
    ensures { result ≡ list_any (λ flag. flag) flags.now }
{
    flags.iter().any(|flag| *flag)
}

/// Returns whether a flag in a short range of places is set.
fn any_between(flags: &[bool], from: usize, to: usize) -> bool
    requires ordered { from ≤ to }
    requires bound { to ≤ length flags.now }
    ensures { result ≡ list_any (λ flag. flag) (take (to - from) (drop from flags.now)) }
{
    any_set(&flags[from..to])
}

/// Returns whether a flag in a range of places is set, by the number of set flags there.
fn counts_between(flags: &Flags, from: usize, to: usize) -> bool
    requires ordered { from ≤ to }
    requires bound { to ≤ length flags.now }
    ensures { result ≡ list_any (λ flag. flag) (take (to - from) (drop from flags.now)) }
{
    0 < flags.count(from, to)
}

/// Returns whether a path is marked. A right guess of its place saves a search.
fn is_marked(entries: &[Shown<'_>], flags: &Flags, path: &[u8], guess: usize) -> bool
    requires sorted { AreSorted entries.now }
    requires as_long { length flags.now ≡ length entries.now }
    ensures { result ≡ is_among (marked_in entries.now flags.now) path.now }
{
    let first = not_before(entries, path, guess);
    let own = own_len(entries.split_at(first).1, path);
    any_between(flags.as_slice(), first, first + own)
}

/// Returns whether a path that begins with a text is marked. A right guess of their run saves a
/// search.
fn begins_a_mark(entries: &[Shown<'_>], flags: &Flags, text: &[u8], guess: (usize, usize)) -> bool
    requires sorted { AreSorted entries.now }
    requires as_long { length flags.now ≡ length entries.now }
    ensures { result ≡ list_any (λ path. begins_with path text.now) (marked_in entries.now flags.now) }
{
    let (first, last) = run_near(entries, text, guess);
    counts_between(flags, first, last)
}

/// Returns whether no path that begins with a text is marked. A right guess of their run saves a search.
pub(crate) fn is_quiet(
    entries: &[Shown<'_>],
    flags: &Flags,
    text: &[u8],
    guess: (usize, usize),
) -> bool
    requires sorted { AreSorted entries.now }
    requires as_long { length flags.now ≡ length entries.now }
    ensures { result ≡ true → NoneBegins (marked_in entries.now flags.now) text.now }
{
    !begins_a_mark(entries, flags, text, guess)
}

/// Returns whether a path is marked, or one below it. A right guess of the places between which the
/// paths begin with it saves the search.
pub(crate) fn sign_of(
    entries: &[Shown<'_>],
    flags: &Flags,
    path: &[u8],
    guess: (usize, usize),
) -> Sign
    requires sorted { AreSorted entries.now }
    requires as_long { length flags.now ≡ length entries.now }
    ensures { sign_byte result ≡ sign (marked_in entries.now flags.now) path.now }
{
    if is_marked(entries, flags, path, guess.0) {
        Sign::Marked
    } else if is_directory_path(path) && begins_a_mark(entries, flags, path, guess) {
        Sign::Within
    } else {
        Sign::Plain
    }
}

/// Returns the sign of a path as `sign_of` does, without a search if no path that begins with it is
/// marked: then there is no guess.
pub(crate) fn sign_if_any(
    entries: &[Shown<'_>],
    flags: &Flags,
    path: &[u8],
    guess: Option<(usize, usize)>,
) -> Sign
    requires sorted { AreSorted entries.now }
    requires as_long { length flags.now ≡ length entries.now }
    requires quiet { IfNone guess (NoneBegins (marked_in entries.now flags.now) path.now) }
    ensures { sign_byte result ≡ sign (marked_in entries.now flags.now) path.now }
{
    match guess {
        Some(guess) => sign_of(entries, flags, path, guess),
        None => Sign::Plain,
    }
}
