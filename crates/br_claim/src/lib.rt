//! Claims: the numbers below a limit, which threads draw from one shared word, each number once.
//!
//! A draw is one atomic step, takes no memory and never waits. At the end `Claims::gather` returns
//! the numbers that each seat drew, in order.
//!
//! Contracts see `Claims` as the claims' identity, the limit and the number of seats made. They see
//! a `ClaimSeat` as the claims from which it draws, their limit, the numbers that it drew, and
//! whether it found that none is left.
#![tactic(auto)]

mod claims;
mod fault;
mod kept;
mod rule;
mod seat;
mod word;

pub use claims::Claims;
pub use fault::ClaimFault;
pub use seat::ClaimSeat;
pub use word::MOST_SEATS;
