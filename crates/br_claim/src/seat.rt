use crate::rule::Hand;
use atomic_table::Seat;
use std::marker::Model;

/// A thread's seat, with which it draws: its share of the claims, the numbers that it drew in
/// order, and whether it found that none is left.
#[derive(Drop)]
pub struct ClaimSeat {
    pub(crate) seat: Seat<(), Hand>,
    pub(crate) limit: u32,
    pub(crate) drawn: Vec<u32>,
    pub(crate) ended: bool,
}

impl Model for ClaimSeat {
    ghost use Rattle.br_claim.specs.Claims.{Seated};

    ghost Value = { Seated };

    ghost use Rattle.br_claim.specs.Fields.{seat_view, IsSoundSeat};

    ghost view = { seat_view };

    ghost invariant = { IsSoundSeat };
}
