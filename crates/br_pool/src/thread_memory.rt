//! The memory of a thread that reads. It grows in large steps.

use std::alloc::{AllocError, Global};

/// The number of bytes by which the memory grows.
const STEP: usize = 1 << 22;

/// The number of batches after which it grows again. Their blocks are smaller than a step, if they
/// have Bacula's default size.
const BATCHES: u32 = 32;

/// The memory of a thread that reads. Without help it grows by what one request needs, with a call
/// of the system for nearly each fragment, and no other thread gets memory during that call. A
/// large request that is given back at once makes it grow by that size.
#[derive(Drop)]
pub(crate) struct Supply {
    alloc: Global,
    /// The number of batches that are left before it grows.
    left: u32,
}

impl Supply {
    pub(crate) fn new(alloc: Global) -> Supply {
        Supply {
            alloc,
            left: BATCHES,
        }
    }

    /// Notes that a batch was made. If there is no memory to grow by, nothing happens.
    pub(crate) fn note_batch(&mut self) {
        if self.left > 0 {
            self.left -= 1;
            return;
        }
        self.left = BATCHES;
        let _step: Result<Vec<u8>, AllocError> = Vec::with_capacity(self.alloc, STEP);
    }
}
