ghost use Rattle.std.specs.Prelude.{◌≡◌, ◌<◌, IfSome, length, position, ◌≤◌, take, drop, bytes_eq};
ghost use Rattle.std.specs.Cmp.Lexicographic.{slice_cmp};
ghost use Rattle.std.specs.Ordering.{nat_cmp, is_lt};
ghost use Rattle.br_model.specs.Console.{child_of, begins_with};
ghost use Rattle.br_model.specs.Name.{is_slash};
ghost use Rattle.br_tree.specs.Walk.{first_part, seen_paths, IsRun, AllPassing, NonePassing, AreSorted};

use crate::cut::{Test, cut};
use br_types::{Path, place_of};
use br_view::Entry;

/// A path of a view beside its newest copy.
pub type Shown<'h> = (&'h Path, Entry);

/// Returns the place of the first `/` of a text.
pub(crate) fn slash_in(text: &[u8]) -> Option<usize>
    ensures place { result ≡ position is_slash text.now }
    ensures bound { IfSome result (λ place. place < length text.now) }
{
    place_of(text, b'/')
}

/// Returns a text up to its first `/`.
fn part_of(text: &[u8]) -> &[u8]
    ensures { result.now ≡ first_part text.now }
{
    match slash_in(text) {
        Some(place) => &text[..place + 1],
        None => text,
    }
}

/// Returns a path without as many bytes as a directory has.
pub(crate) fn rest_of<'p>(directory: &[u8], path: &'p [u8]) -> &'p [u8]
    ensures { result.now ≡ drop (length directory.now) path.now }
{
    &path[directory.len().min(path.len())..]
}

/// Returns the rest of a path after a directory, up to and including its next `/`.
pub(crate) fn child_name<'p>(directory: &[u8], path: &'p [u8]) -> &'p [u8]
    ensures { result.now ≡ child_of directory.now path.now }
{
    part_of(rest_of(directory, path))
}

/// Returns the first place from which on no path comes before a text. A right guess saves the search.
pub(crate) fn not_before(entries: &[Shown<'_>], text: &[u8], guess: usize) -> usize
    requires { AreSorted entries.now }
    ensures bound { result ≤ length entries.now }
    ensures before { AllPassing (λ path. is_lt (slice_cmp nat_cmp path text.now)) (take result (seen_paths entries.now)) }
    ensures after { NonePassing (λ path. is_lt (slice_cmp nat_cmp path text.now)) (drop result (seen_paths entries.now)) }
{
    cut(entries, Test::Before(text), guess)
}

/// Returns the number of first paths that begin with a text; none of the paths comes before the
/// text. A right guess saves the search.
fn begin_with(entries: &[Shown<'_>], text: &[u8], guess: usize) -> usize
    requires sorted { AreSorted entries.now }
    requires after { NonePassing (λ path. is_lt (slice_cmp nat_cmp path text.now)) (seen_paths entries.now) }
    ensures bound { result ≤ length entries.now }
    ensures within { AllPassing (λ path. begins_with path text.now) (take result (seen_paths entries.now)) }
    ensures after { NonePassing (λ path. begins_with path text.now) (drop result (seen_paths entries.now)) }
{
    cut(entries, Test::Begins(text), guess)
}

/// Returns the places between which the paths begin with a text. A right guess saves the search.
pub(crate) fn run_near(entries: &[Shown<'_>], text: &[u8], guess: (usize, usize)) -> (usize, usize)
    requires { AreSorted entries.now }
    ensures { IsRun (λ path. begins_with path text.now) (seen_paths entries.now) result.0 result.1 }
{
    let first = not_before(entries, text, guess.0);
    let len = guess.1.saturating_sub(first);
    (
        first,
        first + begin_with(entries.split_at(first).1, text, len),
    )
}

/// Returns the places between which the paths begin with a text.
pub(crate) fn run_of(entries: &[Shown<'_>], text: &[u8]) -> (usize, usize)
    requires { AreSorted entries.now }
    ensures { IsRun (λ path. begins_with path text.now) (seen_paths entries.now) result.0 result.1 }
{
    run_near(entries, text, (0, 0))
}

/// Returns the number of first paths in a directory that belong to its first child: the child
/// itself and the paths below it. A right guess saves the search.
pub(crate) fn child_len(entries: &[Shown<'_>], directory: &[u8], name: &[u8], guess: usize) -> usize
    requires sorted { AreSorted entries.now }
    requires below { AllPassing (λ path. begins_with path directory.now) (seen_paths entries.now) }
    requires first { NonePassing (λ path. is_lt (slice_cmp nat_cmp (child_of directory.now path) name.now)) (seen_paths entries.now) }
    ensures bound { result ≤ length entries.now }
    ensures within { AllPassing (λ path. bytes_eq (child_of directory.now path) name.now) (take result (seen_paths entries.now)) }
    ensures after { NonePassing (λ path. bytes_eq (child_of directory.now path) name.now) (drop result (seen_paths entries.now)) }
{
    cut(entries, Test::OfChild(directory, name), guess)
}
