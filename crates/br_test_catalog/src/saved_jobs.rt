//! Jobs to be committed, as the lines of a script.

use br_history::{Draft, SavedJob, read_head};
use br_test_support::Case;
use std::alloc::Global;

/// The line of the one file that each job saves, `message digest`. Its record of attributes has 38 bytes: the
/// index, the type and the path 7, the numbers 30 and the link text 1, each with the byte that ends it. The data has
/// 14 bytes. A block has a header of 24 bytes, and each record or part of one a header of 12. So the blocks of at most
/// 64 bytes are 24 + 12 + 28, then 24 + 12 + 10 + 12 + 6, and last 24 + 12 + 8: two of 64 bytes and one of 44.
const FILE: &[u8] = b"put 3 /a 6d65737361676520646967657374 - A A IGk B A A A A A A A A A A";

/// Makes the job of these lines: the fields of its first line after `job`, and the lines of the
/// places.
fn saved_job(alloc: Global, text: &str) -> Option<SavedJob> {
    let mut lines = text.split('\n');
    let mut draft = Draft::new(alloc, read_head(alloc, lines.next()?.as_bytes()).ok()?);
    draft.take(alloc, FILE).ok()?;
    for line in lines {
        draft.take(alloc, line.as_bytes()).ok()?;
    }
    draft.end().ok()?
}

/// Makes the job of a field with a text of lines.
pub(crate) fn job_of(case: &mut Case, field: &str) -> Option<SavedJob> {
    let text = case.text_of(field);
    let job = saved_job(case.alloc(), str::from_utf8(&text).unwrap_or(""));
    if job.is_none() {
        case.fail("a field is no job");
    }
    job
}

/// Makes the job with this number, which is also that of its session. Its first block goes to A,
/// the others to B.
pub(crate) fn numbered(alloc: Global, id: u32) -> Option<SavedJob> {
    let text = format!(in alloc; "{id} B F T 100 {id} 100 64 c f\nplace A 1\nplace B 0").ok()?;
    saved_job(alloc, text.as_str())
}
