//! A count that only contracts read. It takes no bytes and has no greatest value.
ghost use Rattle.std.specs.Prelude.{◌≡◌, ℕ, ◌+◌};
ghost use Rattle.std.specs.Borrow.{ftrue};

use std::marker::Model;

/// The number of times that something happened.
#[derive(Drop)]
pub struct Count {
    pub ghost number: { ℕ },
}

impl Model for Count {
    ghost also_owns = { λ _. ftrue };
}

// A struct with `also_owns` is not `Send` by itself. This one owns nothing.
unsafe impl Send for Count {}

impl Count {
    /// Returns a count of 0.
    pub fn zero() -> Count
        ensures { result.number ≡ 0 }
    {
        Count {}
    }

    /// Returns the next count.
    pub fn next(&self) -> Count
        ensures { result.number ≡ self.now.number + 1 }
    {
        Count {}
    }
}
