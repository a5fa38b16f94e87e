//! Compares two files, and their bytes by length and digest.
ghost use Rattle.std.specs.Prelude.{◌≡◌, true};
ghost use Rattle.br_reread_files.specs.Again.{IsLike};

use br_join::Item;
use br_reread_parts::are_alike;

/// Returns whether two files have the same path and the same link.
fn have_same_names(one: &Item, other: &Item) -> bool
    ensures path { result ≡ true → one.now.path ≡ other.now.path }
    ensures link { result ≡ true → one.now.link ≡ other.now.link }
    ensures same { one.now ≡ other.now → result ≡ true }
{
    one.path.bytes() == other.path.bytes() && one.link == other.link
}

/// Returns whether two files have the same numbers and the same number of skipped records.
fn have_same_numbers(one: &Item, other: &Item) -> bool
    ensures kind { result ≡ true → one.now.kind ≡ other.now.kind }
    ensures stat { result ≡ true → one.now.stat ≡ other.now.stat }
    ensures skipped { result ≡ true → one.now.skipped ≡ other.now.skipped }
    ensures same { one.now ≡ other.now → result ≡ true }
{
    one.kind == other.kind && one.skipped == other.skipped && one.stat == other.stat
}

/// Returns whether two files are alike.
pub(crate) fn is_like(one: &Item, other: &Item) -> bool
    ensures like { result ≡ true → IsLike one.now other.now }
    ensures same { one.now ≡ other.now → result ≡ true }
{
    have_same_names(one, other)
        && have_same_numbers(one, other)
        && are_alike(&one.bytes, &other.bytes)
}
