//! Compares two bodies by their length and digest.
ghost use Rattle.std.specs.Prelude.{◌≡◌, true, length};
ghost use Rattle.md5.specs.Md5.{md5};
ghost use Rattle.br_sink.specs.FileParts.{AreAlike};

use br_join::FileBytes;

/// Returns whether two bodies have the same length and the same digest.
pub fn are_alike(one: &FileBytes, other: &FileBytes) -> bool
    ensures alike { result ≡ true → AreAlike one.now other.now }
    ensures same { one.now ≡ other.now → result ≡ true }
{
    one.len() == other.len() && one.digest() == other.digest()
}
