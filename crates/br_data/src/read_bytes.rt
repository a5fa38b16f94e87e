//! Bytes that only contracts read.
ghost use Rattle.std.specs.Prelude.{◌≡◌, ◌++◌, [], ℕ, List};
ghost use Rattle.std.specs.Borrow.{ftrue};

use std::marker::Model;

/// The bytes of a file that were read, one part after another. They are not stored.
#[derive(Drop)]
pub(crate) struct ReadBytes {
    pub ghost bytes: { List ℕ },
}

impl Model for ReadBytes {
    ghost also_owns = { λ _. ftrue };
}

// A struct with `also_owns` is neither `Send` nor `Sync` by itself. This one owns nothing.
unsafe impl Send for ReadBytes {}

unsafe impl Sync for ReadBytes {}

impl ReadBytes {
    /// Returns no bytes.
    pub(crate) fn none() -> ReadBytes
        ensures { result.bytes ≡ [] }
    {
        ReadBytes {}
    }

    /// Returns these bytes and more, of which nothing is kept.
    pub(crate) fn and(_before: &ReadBytes, _more: &[u8]) -> ReadBytes
        ensures { result.bytes ≡ _before.now.bytes ++ _more.now }
    {
        ReadBytes {}
    }

    /// Returns the same bytes.
    pub(crate) fn copy(&self) -> ReadBytes
        ensures { result.bytes ≡ self.now.bytes }
    {
        ReadBytes {}
    }
}
