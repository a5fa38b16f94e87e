ghost use Rattle.std.specs.Prelude.{◌≡◌, ◌-◌, ◌+◌, ◌<◌, ◌≤◌, [], length, IfOk, IfSome};
ghost use Rattle.br_claim.specs.Claims.{HasDrawn};
ghost use Rattle.br_claim.specs.Rule.{hand};
ghost use Rattle.br_claim.specs.Own.{IsOwn};

use crate::kept::Kept;
use crate::rule::{Dealt, Draw, Hand, OneSeat};
use crate::seat::ClaimSeat;
use atomic_table::{Seat, Table};
use std::alloc::{AllocError, Global};
use std::marker::Model;

/// The greatest number of seats of claims.
pub const MOST_SEATS: u32 = 65_536;

pub(crate) type ClaimTable = Table<(), Hand, u32, Dealt, Global>;

/// The word that threads share: the number of draws.
#[derive(Drop)]
pub(crate) struct ClaimWord {
    pub(crate) table: ClaimTable,
    pub(crate) limit: u32,
}

impl Model for ClaimWord {
    ghost use Rattle.br_claim.specs.Claims.{Counted};

    ghost Value = { Counted };

    ghost use Rattle.br_claim.specs.Fields.{word_view, IsSoundWord};

    ghost view = { word_view };

    ghost invariant = { IsSoundWord };
}

impl ClaimWord {
    /// Makes the word of the numbers below `n`, and its own seat, which has all parts.
    pub(crate) fn new(alloc: Global, n: u32) -> Result<(ClaimWord, Seat<(), Hand>), AllocError>
        ensures { IfOk result (λ r. (r.0.limit ≡ n) × (r.1.table_id ≡ r.0.claims) × (r.1.me ≡ (hand n 65536 [] 0, []))) }
    {
        let (table, own) = Table::of_words(alloc, &[0], &n)?;
        Ok((ClaimWord { table, limit: n }, own))
    }

    /// Takes the claims' own seat out.
    pub(crate) fn own_seat(&self, kept: Option<Kept>, made: u32) -> Seat<(), Hand>
        requires { IsOwn self.now.claims self.now.limit made kept }
        ensures { (result.table_id ≡ self.now.claims) × (result.me ≡ (hand self.now.limit (65536 - made) [] 0, [])) }
    {
        let Some(kept) = kept else { unreachable!() };
        kept.into_seat()
    }

    /// Splits a seat off the claims' own.
    pub(crate) fn split(&self, own: &mut Seat<(), Hand>, made: u32) -> Seat<(), Hand>
        requires own { (own.old.table_id ≡ self.now.claims) × (own.old.me ≡ (hand self.now.limit (65536 - made) [] 0, [])) }
        requires few { made < MOST_SEATS }
        ensures own { (own.new.table_id ≡ own.old.table_id) × (own.new.me ≡ (hand self.now.limit (65536 - (made + 1)) [] 0, [])) }
        ensures seat { (result.table_id ≡ self.now.claims) × (result.me ≡ (hand self.now.limit 1 [] 0, [])) }
    {
        // The clauses of the kit, as facts about numbers.
        self.table.shared.split_seat::<OneSeat>(own)
    }

    /// Draws the next number and notes it in the seat.
    pub(crate) fn draw(&self, seat: &mut ClaimSeat) -> Option<u32>
        requires { seat.old.claims ≡ self.now.claims }
        ensures step { HasDrawn seat.old seat.new result }
        ensures below { IfSome result (λ x. x < seat.old.limit) }
        ensures few { IfSome result (λ x. length seat.new.drawn ≤ seat.new.limit) }
    {
        if seat.ended {
            return None;
        }
        let found = self.table.shared.fetch_add::<Draw>(&mut seat.seat, 0, 1);
        if found >= seat.limit as u64 {
            seat.ended = true;
            return None;
        }
        let number = found as u32;
        seat.drawn.push_reserved(number);
        Some(number)
    }
}
