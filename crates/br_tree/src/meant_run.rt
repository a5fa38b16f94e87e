//! The run of paths in a directory that a pattern may mean.
ghost use Rattle.std.specs.Prelude.{◌≡◌, ◌≤◌, ◌++◌, length, take, drop, position};
ghost use Rattle.std.specs.Cmp.Lexicographic.{slice_cmp};
ghost use Rattle.std.specs.Ordering.{nat_cmp, is_lt};
ghost use Rattle.br_model.specs.Console.{begins_with};
ghost use Rattle.br_tree.specs.Walk.{seen_paths, IsRun, AllPassing, NonePassing, AreSorted};
ghost use Rattle.br_tree.specs.MeantRun as model;
ghost use Rattle.br_tree.specs.MeantRun.{IsAround};

use crate::cut::{Test, cut};
use crate::shown_paths::Shown;

/// Returns whether a byte of a pattern matches other bytes, too.
fn is_wildcard(byte: u8) -> bool
    ensures { result ≡ model.is_wildcard byte }
{
    byte == b'*' || byte == b'?'
}

/// Returns the place of the first `*` or `?` of a pattern.
fn wildcard_in(pattern: &[u8]) -> Option<usize>
    ensures { result ≡ position model.is_wildcard pattern.now }
{
    pattern.iter().position(|byte| is_wildcard(*byte))
}

/// Returns a pattern up to its first `*` or `?`.
fn plain_front(pattern: &[u8]) -> &[u8]
    ensures { result.now ≡ model.plain_front pattern.now }
{
    match wildcard_in(pattern) {
        Some(place) => &pattern[..place],
        None => pattern,
    }
}

/// Returns the first place from which on no path comes before that of a directory with a text
/// after it.
fn not_before_in(entries: &[Shown<'_>], directory: &[u8], text: &[u8]) -> usize
    requires { AreSorted entries.now }
    ensures bound { result ≤ length entries.now }
    ensures before { AllPassing (λ path. is_lt (slice_cmp nat_cmp path (directory.now ++ text.now))) (take result (seen_paths entries.now)) }
    ensures after { NonePassing (λ path. is_lt (slice_cmp nat_cmp path (directory.now ++ text.now))) (drop result (seen_paths entries.now)) }
{
    cut(entries, Test::BeforeIn(directory, text), 0)
}

/// Returns the number of first paths that begin with that of a directory and a text after it; none
/// of the paths comes before these.
fn begin_in(entries: &[Shown<'_>], directory: &[u8], text: &[u8]) -> usize
    requires sorted { AreSorted entries.now }
    requires after { NonePassing (λ path. is_lt (slice_cmp nat_cmp path (directory.now ++ text.now))) (seen_paths entries.now) }
    ensures bound { result ≤ length entries.now }
    ensures within { AllPassing (λ path. begins_with path (directory.now ++ text.now)) (take result (seen_paths entries.now)) }
    ensures after { NonePassing (λ path. begins_with path (directory.now ++ text.now)) (drop result (seen_paths entries.now)) }
{
    cut(entries, Test::BeginsIn(directory, text), 0)
}

/// Returns the places between which the paths begin with that of a directory and a text after it.
fn run_in(entries: &[Shown<'_>], directory: &[u8], text: &[u8]) -> (usize, usize)
    requires { AreSorted entries.now }
    ensures { IsRun (λ path. begins_with path (directory.now ++ text.now)) (seen_paths entries.now) result.0 result.1 }
{
    let first = not_before_in(entries, directory, text);
    let rest = entries.split_at(first).1;
    (first, first + begin_in(rest, directory, text))
}

/// Returns the places between which are all paths that a pattern may mean in a directory: those
/// that begin with the directory and the pattern up to its first `*` or `?`.
pub(crate) fn meant_run(entries: &[Shown<'_>], directory: &[u8], pattern: &[u8]) -> (usize, usize)
    requires { AreSorted entries.now }
    ensures { IsAround directory.now pattern.now (seen_paths entries.now) result.0 result.1 }
{
    run_in(entries, directory, plain_front(pattern))
}
