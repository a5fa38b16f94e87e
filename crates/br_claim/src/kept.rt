ghost use Rattle.std.specs.Prelude.{◌≡◌};
ghost use base.Fml.{ftrue};

use crate::rule::Hand;
use atomic_table::Seat;
use std::marker::Model;

/// The claims' own seat. It cannot be used through a `&`, so threads can share the claims that keep
/// it.
pub(crate) struct Kept {
    pub(crate) seat: Seat<(), Hand>,
}

impl Model for Kept {
    ghost also_owns = { λ _. ftrue };
}

impl Kept {
    pub(crate) fn new(seat: Seat<(), Hand>) -> Kept
        ensures { result.seat ≡ seat }
    {
        Kept { seat }
    }

    pub(crate) fn into_seat(self) -> Seat<(), Hand>
        ensures { result ≡ self.seat }
    {
        let Kept { seat } = self;
        seat
    }
}

impl Drop for Kept {
    fn drop(self) {
        drop(self.into_seat());
    }
}

unsafe impl Send for Kept {}

unsafe impl Sync for Kept {}
