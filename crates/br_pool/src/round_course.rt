//! The state of a round: whether the gatherer has begun, and whether the senders have ended.

use std::sync::Wait;
use std::sync::atomic::{AtomicU64, Ordering};
use std::time::Duration;

/// The gatherer has not begun.
const AWAITED: u64 = 0;

/// The gatherer has begun.
const BEGUN: u64 = 1;

/// The senders have ended.
const ENDED: u64 = 2;

/// The longest sleep while the senders send, in milliseconds.
const LONGEST_SLEEP: u64 = 5;

/// The number of batches after which a sender wakes the gatherer: half of a queue for 64.
const BATCHES_FOR_A_WAKE: u64 = 32;

/// The state of a round. A sender waits for room in the queue only if the gatherer has begun, and
/// the gatherer gathers until the senders have ended. So no sender waits for a gatherer that is not
/// there, and none gives up because it is late.
#[derive(Drop)]
pub(crate) struct Course {
    state: AtomicU64,
    /// The number of batches that were sent.
    sent: AtomicU64,
}

impl Course {
    /// Returns the state of a round whose gatherer has not begun.
    pub(crate) fn new() -> Course {
        Course {
            state: AtomicU64::new(AWAITED),
            sent: AtomicU64::new(0),
        }
    }

    /// Notes that the gatherer has begun, unless the senders have ended without it.
    pub(crate) fn begin(&self) {
        let _before = self
            .state
            .compare_exchange(AWAITED, BEGUN, Ordering::SeqCst, Ordering::SeqCst);
    }

    /// Returns whether the gatherer has begun and the senders have not ended.
    pub(crate) fn has_begun(&self) -> bool {
        self.state.load(Ordering::SeqCst) == BEGUN
    }

    /// Notes that the senders have ended.
    pub(crate) fn end(&self) {
        self.state.store(ENDED, Ordering::SeqCst);
        self.state.wake_all();
    }

    /// Returns whether the senders have ended, so that nothing more is sent.
    pub(crate) fn is_over(&self) -> bool {
        self.state.load(Ordering::SeqCst) == ENDED
    }

    /// Notes that a batch was sent. Wakes the gatherer if the queue may be half full.
    pub(crate) fn note_sent(&self) {
        let before = self.sent.fetch_add(1, Ordering::SeqCst);
        if before % BATCHES_FOR_A_WAKE == BATCHES_FOR_A_WAKE - 1 {
            self.wake();
        }
    }

    /// Wakes the gatherer, if it sleeps.
    pub(crate) fn wake(&self) {
        self.state.wake_all();
    }

    /// Sleeps until the senders wake it or end, but not long. A gatherer that looked again at once
    /// would take a processor from the drives, and so does one that wakes often.
    pub(crate) fn sleep<R: Wait>(&self, rt: &R) {
        let longest = Duration::from_millis(LONGEST_SLEEP);
        self.state.park_timeout(rt, BEGUN as u32, longest);
    }
}
