//! Bytes that only contracts read.
ghost use Rattle.std.specs.Prelude.{◌≡◌, ℕ, List};
ghost use Rattle.std.specs.Arc.{arc_slice_items};
ghost use Rattle.std.specs.Borrow.{ftrue};

use std::marker::Model;
use std::sync::ArcSlice;

/// The bytes of a fragment at the time when it was found. They are not stored.
#[derive(Drop)]
pub(crate) struct FoundBytes {
    pub ghost bytes: { List ℕ },
}

impl Model for FoundBytes {
    ghost also_owns = { λ _. ftrue };
}

// A struct with `also_owns` is neither `Send` nor `Sync` by itself. This one owns nothing.
unsafe impl Send for FoundBytes {}

unsafe impl Sync for FoundBytes {}

impl FoundBytes {
    /// Returns these bytes, of which nothing is kept.
    pub(crate) fn of(bytes: &ArcSlice<u8>) -> FoundBytes
        ensures { result.bytes ≡ arc_slice_items bytes.now }
    {
        FoundBytes {}
    }

    /// Returns these bytes, of which nothing is kept.
    pub(crate) fn of_slice(_bytes: &[u8]) -> FoundBytes
        ensures { result.bytes ≡ _bytes.now }
    {
        FoundBytes {}
    }

    /// Returns the same bytes.
    pub(crate) fn copy(&self) -> FoundBytes
        ensures { result.bytes ≡ self.now.bytes }
    {
        FoundBytes {}
    }
}
