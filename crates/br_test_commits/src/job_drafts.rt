//! Jobs as the lines of a script.
use br_history::{Draft, SavedJob, read_head};
use std::alloc::Global;

/// A job: the fields of its first line after `job`, and its other lines.
pub(crate) type Job = (&'static str, &'static [&'static str]);

// Each job saves one file, `message digest`, in blocks of 64, 64 and 44 bytes.

pub(crate) const FIRST: Job = (
    "1 B F T 100 1 100 64 c f",
    &[
        "put 3 /a 6d65737361676520646967657374 - A A IGk B A A A O A A A A A A",
        "place A 1",
        "place B 0",
    ],
);

pub(crate) const SECOND: Job = (
    "2 B I T 200 2 200 64 c f",
    &[
        "put 3 /b 6d65737361676520646967657374 - A A IGk B A A A O A A A A A A",
        "place B 1",
        "place A 0",
    ],
);

pub(crate) const THIRD: Job = (
    "3 B I T 300 3 300 64 c f",
    &[
        "put 3 /c 6d65737361676520646967657374 - A A IGk B A A A O A A A A A A",
        "place C 0",
    ],
);

pub(crate) const FOURTH: Job = (
    "4 B I T 400 4 400 64 c f",
    &[
        "put 3 /d 6d65737361676520646967657374 - A A IGk B A A A O A A A A A A",
        "place A 2",
        "place B 0",
    ],
);

/// Makes the job of these lines, or none if memory runs out.
pub(crate) fn saved_job(alloc: Global, job: Job) -> Option<SavedJob> {
    let mut draft = Draft::new(alloc, read_head(alloc, job.0.as_bytes()).ok()?);
    for line in job.1 {
        draft.take(alloc, line.as_bytes()).ok()?;
    }
    draft.end().ok()?
}
