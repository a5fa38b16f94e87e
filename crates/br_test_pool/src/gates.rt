//! Gates that hold pieces until others have reached a point.

use br_pool::Gate;
use br_test_support::Case;
use std::sync::atomic::{AtomicU64, Ordering};
use std::thread;

/// A number above that of any pieces. It is seen after a piece was held in vain; then none is held.
const IN_VAIN: u64 = 1 << 40;

/// The number of looks after which a piece was held in vain.
const MOST_LOOKS: u64 = 10_000_000;

/// A gate that holds a piece until `count` others were read, or each piece until `count` have
/// entered. It counts the pieces for which this happened.
#[derive(Drop)]
pub(crate) struct Holding {
    /// The piece that is held; each is if there is none.
    piece: Option<u32>,
    count: u64,
    seen: AtomicU64,
    held: AtomicU64,
}

/// Makes the gate of a field: `open`, `one:PIECE` for one that holds a piece until two others were
/// read, or `all:COUNT`.
pub(crate) fn gate_of(case: &mut Case, field: &str) -> Holding {
    let (piece, count) = match field.split_once(':') {
        Some(("one", piece)) => (Some(case.u32_of(piece)), 2),
        Some((_, count)) => (None, case.u64_of(count)),
        None => (Some(u32::MAX), 0),
    };
    Holding {
        piece,
        count,
        seen: AtomicU64::new(0),
        held: AtomicU64::new(0),
    }
}

/// Prints the number of pieces that were held, if there are any.
pub(crate) fn push_held(case: &mut Case, gate: &Holding) {
    let held = gate.held.load(Ordering::SeqCst);
    if held > 0 {
        case.number(held);
        case.text(" held");
    }
}

impl Gate for Holding {
    fn enter(&self, number: u32) {
        if self.piece.is_none() {
            self.seen.fetch_add(1, Ordering::SeqCst);
        } else if self.piece != Some(number) {
            return;
        }
        for _look in 0..MOST_LOOKS {
            let seen = self.seen.load(Ordering::SeqCst);
            if seen == self.count {
                self.held.fetch_add(1, Ordering::SeqCst);
            }
            if seen >= self.count {
                return;
            }
            thread::yield_now();
        }
        self.seen.store(IN_VAIN, Ordering::SeqCst);
    }

    fn leave(&self, _number: u32) {
        if self.piece.is_some() {
            self.seen.fetch_add(1, Ordering::SeqCst);
        }
    }
}
