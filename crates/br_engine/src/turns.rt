ghost use Rattle.std.specs.Prelude.{◌≡◌, ◌+◌, ◌^◌, ◌<◌, IfErr, OnErr, OnOk};

use std::marker::Model;
use thiserror::Error;

/// The number of turns of reading within which an input has to end.
const MAX_TURNS: u64 = 1 << 40;

/// The fault of an input that has not ended after 2^40 turns of reading. Its value is the number of turns.
#[derive(Clone, Copy, Debug, Drop, Error)]
#[error("the input has no end")]
pub struct NoEnd {
    turns: u64,
}

impl Model for NoEnd {
    ghost use Rattle.std.specs.Prelude.{◌≡◌, ◌^◌, ℕ};

    ghost Value = { ℕ };

    ghost view = { λ end. end.turns };

    ghost invariant = { λ end. end.turns ≡ 2 ^ 40 };

    ghost inverse = { λ n. record { turns = n } };
}

/// The number of turns of reading that were made of an input.
#[derive(Clone, Copy, Drop)]
pub struct Turns {
    made: u64,
}

impl Model for Turns {
    ghost use Rattle.std.specs.Prelude.{◌≤◌, ◌^◌, ℕ};

    ghost Value = { ℕ };

    ghost view = { λ turns. turns.made };

    ghost invariant = { λ turns. turns.made ≤ 2 ^ 40 };

    ghost inverse = { λ n. record { made = n } };
}

impl Turns {
    /// Returns the number before the first turn.
    pub fn new() -> Turns
        ensures { result ≡ 0 }
    {
        Turns { made: 0 }
    }

    /// Counts one more turn.
    ///
    /// # Errors
    ///
    /// `NoEnd` if 2^40 turns were made.
    pub fn take(&mut self) -> Result<(), NoEnd>
        ensures turn { OnOk result (self.new ≡ self.old + 1) }
        ensures few { OnOk result (self.old < 2 ^ 40) }
        ensures all { IfErr result (λ turns. turns ≡ self.old) }
        ensures limit { OnErr result (self.old ≡ 2 ^ 40) }
        ensures same { OnErr result (self.new ≡ self.old) }
    {
        if self.made == MAX_TURNS {
            return Err(NoEnd { turns: self.made });
        }
        self.made += 1;
        Ok(())
    }
}
