//! What a seat knows of the claim word, and the rule that connects the seats with the word.
use atomic_table::{Join, Play, Split, TableRule};
use std::collections::LinkedList;

/// What a seat knows: the numbers' limit, its parts of the right to know the whole, the numbers
/// that it drew, and how often it drew past the end. No value of this type is made.
pub struct Hand {
    pub limit: u32,
    pub parts: u64,
    pub drawn: LinkedList<u32>,
    pub past: u64,
}

/// The rule: the word is the number of draws.
pub struct Dealt;

impl TableRule<(), Hand, u32> for Dealt {
    ghost use Rattle.std.specs.Prelude.{[]};
    ghost use Rattle.br_claim.specs.Rule.{hand, Given};

    ghost holds = { λ n s. Given n s.words s.views };

    ghost first = { λ n. hand n 65536 [] 0 };
}

/// The step of a draw.
pub struct Draw;

impl Play<(), Hand> for Draw {
    ghost use Rattle.std.specs.Prelude.{◌≡◌};
    ghost use Rattle.br_claim.specs.Rule.{Drew};

    ghost then = { λ _ me found after. Drew me.0 found after.0 × (after.1 ≡ me.1) };
}

/// The step that reads the word with all parts.
pub struct Whole;

impl Play<(), Hand> for Whole {
    ghost use Rattle.std.specs.Prelude.{◌≡◌};
    ghost use Rattle.br_claim.specs.Rule.{KnowsAll};

    ghost then = { λ _ me found after. (after ≡ me) × KnowsAll me.0 };
}

/// Splits off and joins one seat.
pub struct OneSeat;

impl Split<Hand> for OneSeat {
    ghost use Rattle.std.specs.Prelude.{◌-◌, []};
    ghost use Rattle.br_claim.specs.Rule.{hand};

    ghost left = { λ v. hand v.limit (v.parts - 1) v.drawn v.past };

    ghost right = { λ v. hand v.limit 1 [] 0 };
}

impl Join<Hand> for OneSeat {
    ghost use Rattle.std.specs.Prelude.{◌+◌, ◌++◌, []};
    ghost use Rattle.br_claim.specs.Rule.{hand, nobody};

    ghost both = { λ v w. hand v.limit (v.parts + w.parts) (v.drawn ++ w.drawn) (v.past + w.past) };

    ghost spent = { nobody };
}
