ghost use Rattle.std.specs.Prelude.{◌≡◌, ◌≢◌, ◌+◌, ◌<◌, ◌≤◌, [], length, map, IfOk, IfSome, OnErr, ◌↔◌};
ghost use Rattle.br_claim.specs.Claims.{fresh_seat, AllOf, AreDealt, HasDrawn, IsAscending, some_ended, with_seat};
ghost use Rattle.br_claim.specs.Own.{IsAtTable};

use crate::fault::ClaimFault;
use crate::kept::Kept;
use crate::rule::{Hand, OneSeat, Whole};
use crate::seat::ClaimSeat;
use crate::word::{ClaimTable, ClaimWord, MOST_SEATS};
use atomic_table::Seat;
use std::alloc::{AllocError, Global};
use std::marker::Model;

/// The numbers below a limit, which seats draw, each number once. Threads share the claims by `&`,
/// and each draws with its own seat.
#[derive(Drop)]
pub struct Claims {
    alloc: Global,
    word: ClaimWord,
    own: Option<Kept>,
    made: u32,
}

impl Model for Claims {
    ghost use Rattle.br_claim.specs.Claims.{Claimed};

    ghost Value = { Claimed };

    ghost use Rattle.br_claim.specs.Fields.{claims_view, AreSound};

    ghost view = { claims_view };

    ghost invariant = { AreSound };
}

impl Claims {
    /// Makes claims of the numbers below `n`, without seats and without drawn numbers. They take
    /// their memory from `alloc`.
    pub fn new(alloc: Global, n: u32) -> Result<Claims, AllocError>
        ensures { IfOk result (λ c. (c.limit ≡ n) × (c.seats ≡ 0)) }
    {
        let (word, own) = ClaimWord::new(alloc, n)?;
        Ok(Claims {
            alloc,
            word,
            own: Some(Kept::new(own)),
            made: 0,
        })
    }

    /// Makes a new seat, with room for all numbers.
    pub fn seat(&mut self) -> Result<ClaimSeat, AllocError>
        requires { self.old.seats < MOST_SEATS }
        ensures ok { IfOk result (λ s. (s ≡ fresh_seat self.old) × (self.new ≡ record self.old { seats = self.old.seats + 1 })) }
        ensures err { OnErr result (self.new ≡ self.old) }
    {
        let Claims {
            alloc,
            word,
            own,
            made,
        } = self;
        let limit = word.limit;
        let drawn = Vec::with_capacity(*alloc, limit as usize)?;
        let mut rest = word.own_seat(own.take(), *made);
        let seat = word.split(&mut rest, *made);
        *own = Some(Kept::new(rest));
        *made += 1;
        Ok(ClaimSeat {
            seat,
            limit,
            drawn,
            ended: false,
        })
    }

    /// Draws the next number and notes it in the seat. Returns `None` if all are drawn, and for
    /// this seat from then on. It is one atomic step, takes no memory and never waits.
    pub fn draw(&self, seat: &mut ClaimSeat) -> Option<u32>
        requires { seat.old.claims ≡ self.now.claims }
        ensures step { HasDrawn seat.old seat.new result }
        ensures below { IfSome result (λ x. x < seat.old.limit) }
        ensures few { IfSome result (λ x. length seat.new.drawn ≤ seat.new.limit) }
    {
        self.word.draw(seat)
    }

    /// Returns the numbers that each seat drew, in the order drawn, for the seats in the order
    /// given. All seats that were made must be given back.
    ///
    /// # Errors
    ///
    /// - `MissingSeat` if a seat is missing.
    /// - `Memory` if memory ran out.
    pub fn gather(self, seats: Vec<ClaimSeat>) -> Result<Vec<Vec<u32>>, ClaimFault>
        requires { AllOf self.claims seats.items }
        ensures lists { IfOk result (λ lists. map (λ v. v.items) lists.items ≡ map (λ s. s.drawn) seats.items) }
        ensures dealt { IfOk result (λ lists. AreDealt self.limit (some_ended seats.items) (map (λ v. v.items) lists.items)) }
        ensures missing { (result ≡ Err ClaimFault.MissingSeat) ↔ (length seats.items ≢ self.seats) }
    {
        if seats.len() != self.made as usize {
            return Err(ClaimFault::MissingSeat);
        }
        let Ok(mut lists) = Vec::with_capacity(self.alloc, seats.len()) else {
            return Err(ClaimFault::Memory);
        };
        let Claims {
            word,
            own: kept,
            made,
            ..
        } = self;
        let mut own = word.own_seat(kept, made);
        let ClaimWord { table, .. } = word;
        for seat in seats {
            lists.push_reserved(joined(&table, &mut own, seat));
        }
        table.shared.load::<Whole>(&mut own, 0);
        Ok(lists)
    }
}

/// Joins a seat to the claims' own seat, and returns the numbers that it drew.
fn joined(table: &ClaimTable, own: &mut Seat<(), Hand>, seat: ClaimSeat) -> Vec<u32>
    requires table { IsAtTable table.now.shared.table_id table.now.shared.key own.old.table_id own.old.me }
    requires seat { seat.claims ≡ table.now.shared.table_id }
    ensures drawn { (result.items ≡ seat.drawn) × IsAscending seat.drawn }
    ensures own { (own.new.table_id ≡ own.old.table_id) × (own.new.me ≡ (with_seat own.old.me.0 seat, [])) }
{
    let ClaimSeat { seat, drawn, .. } = seat;
    table.shared.join_seat::<OneSeat>(own, seat);
    drawn
}
