ghost use Rattle.std.specs.Prelude.{◌≡◌, ◌++◌, true};
ghost use Rattle.std.specs.Cmp.Lexicographic.{slice_cmp};
ghost use Rattle.std.specs.Ordering.{nat_cmp, is_lt};
ghost use Rattle.br_model.specs.Console.{begins_with};
ghost use Rattle.br_tree.specs.Cut.{passes, IsFalling, IsCut};
ghost use Rattle.br_tree.specs.Walk.{seen_paths, AllPassing, NonePassing};

use crate::shown_paths::{Shown, child_name, rest_of};
use br_types::Path;

/// A test that the first paths of a list pass, and no later one.
#[derive(Clone, Copy)]
pub(crate) enum Test<'t> {
    /// The path comes before a text in byte order.
    Before(&'t [u8]),
    /// The path begins with a text.
    Begins(&'t [u8]),
    /// The path comes before that of a directory with a text after it, in byte order.
    BeforeIn(&'t [u8], &'t [u8]),
    /// The path begins with that of a directory and a text after it.
    BeginsIn(&'t [u8], &'t [u8]),
    /// The path is that of a child of a directory, or below it.
    OfChild(&'t [u8], &'t [u8]),
}

/// Returns whether a path comes before that of a directory with a text after it, in byte order.
fn comes_before(path: &[u8], directory: &[u8], text: &[u8]) -> bool
    ensures { result ≡ is_lt (slice_cmp nat_cmp path.now (directory.now ++ text.now)) }
{
    if path.starts_with(directory) {
        rest_of(directory, path).cmp(text).is_lt()
    } else {
        path.cmp(directory).is_lt()
    }
}

/// Returns whether a path begins with that of a directory and a text after it.
fn begins_in(path: &[u8], directory: &[u8], text: &[u8]) -> bool
    ensures { result ≡ begins_with path.now (directory.now ++ text.now) }
{
    path.starts_with(directory) && rest_of(directory, path).starts_with(text)
}

/// Returns whether a path passes.
fn does_pass(test: Test<'_>, path: &Path) -> bool
    ensures { result ≡ passes test.entry path.now }
{
    match test {
        Test::Before(text) => path.bytes().cmp(text).is_lt(),
        Test::Begins(text) => path.bytes().starts_with(text),
        Test::BeforeIn(directory, text) => comes_before(path.bytes(), directory, text),
        Test::BeginsIn(directory, text) => begins_in(path.bytes(), directory, text),
        Test::OfChild(directory, name) => child_name(directory, path.bytes()) == name,
    }
}

/// Returns whether the last of some paths passes, and with it all.
fn last_passes(entries: &[Shown<'_>], test: Test<'_>) -> bool
    requires { IsFalling (passes test) (seen_paths entries.now) }
    ensures { result ≡ true → AllPassing (passes test.entry) (seen_paths entries.now) }
{
    match entries.split_last() {
        Some((last, _)) => does_pass(test, last.0),
        None => true,
    }
}

/// Returns whether the first of some paths fails, and with it all.
fn first_fails(entries: &[Shown<'_>], test: Test<'_>) -> bool
    requires { IsFalling (passes test) (seen_paths entries.now) }
    ensures { result ≡ true → NonePassing (passes test.entry) (seen_paths entries.now) }
{
    match entries.split_first() {
        Some((first, _)) => !does_pass(test, first.0),
        None => true,
    }
}

/// Returns whether the paths before a place pass and no other does.
fn is_cut(entries: &[Shown<'_>], test: Test<'_>, place: usize) -> bool
    requires { IsFalling (passes test) (seen_paths entries.now) }
    ensures { result ≡ true → IsCut (passes test.entry) (seen_paths entries.now) place }
{
    if entries.len() < place {
        return false;
    }
    let (front, back) = entries.split_at(place);
    last_passes(front, test) && first_fails(back, test)
}

/// Returns the number of first paths that pass. There is no search if the guess is right.
pub(crate) fn cut(entries: &[Shown<'_>], test: Test<'_>, guess: usize) -> usize
    requires { IsFalling (passes test) (seen_paths entries.now) }
    ensures { IsCut (passes test.entry) (seen_paths entries.now) result }
{
    if is_cut(entries, test, guess) {
        guess
    } else {
        entries.partition_point(|entry| does_pass(test, entry.0))
    }
}
