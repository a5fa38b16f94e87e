ghost use Rattle.std.specs.Prelude.{◌≤◌};

use std::alloc::Global;

/// The largest number of bytes in the files that are made once more together.
const WINDOW_LEN: u64 = 16 * 1024 * 1024;

/// The memory of a restore.
#[derive(Clone, Copy)]
pub struct Budget {
    /// The allocator.
    pub alloc: Global,
    /// The number of bytes for data that are held, and for the overhead of the allocator and the
    /// threads. Data beyond it are read again. Attributes and digests are not counted.
    pub room: u64,
}

impl Budget {
    /// Returns the number of bytes of data that are held: seven eighths of the room.
    pub(crate) fn data_room(self) -> u64
        ensures { result ≤ self.room }
    {
        self.room - self.room / 8
    }

    /// Returns the number of bytes in the files that are made once more together: the room, and at
    /// most 16 MiB.
    pub(crate) fn window(self) -> u64
        ensures { result ≤ self.room }
    {
        self.room.min(WINDOW_LEN)
    }
}
