//! Windows: the hits that are read before the data of the hits before them are digested.
ghost use Rattle.std.specs.Prelude.{◌≡◌, ◌<◌, ◌≤◌, ◌++◌, ◌-◌, length, IfOk, OnOk};
ghost use Rattle.br_reread_parts.specs.Windows.{data_bytes};

use br_data::{Data, Reading};
use br_match::Hit;
use std::alloc::{AllocError, Global};

/// The size in bytes of a window of a file that is digested. A single drive has four of them at
/// once, and each of several drives has two.
pub const DIGESTED: usize = 1 << 20;

/// The size in bytes of a window of a file that is put. One or two files are put at a time, so all
/// drives together have two or four windows, and there is room for longer ones: a thread begins and
/// ends for each.
pub(crate) const PUT: usize = 1 << 22;

/// Returns the number of bytes in a hit.
fn len_of(hit: &Hit) -> usize {
    hit.data.len()
}

/// Returns the number of hits in the first window of this size: at least one, and no more than fill
/// it.
fn window_len(hits: &[Hit], size: usize) -> usize
    requires { 0 < length hits.now }
    ensures some { 0 < result }
    ensures within { result ≤ length hits.now }
{
    let mut bytes = len_of(&hits[0]);
    let mut count = 1;
    while count < hits.len() && bytes < size {
        bytes = bytes.saturating_add(len_of(&hits[count]));
        count += 1;
    }
    count
}

/// The hits of a window, and those after them.
#[derive(Drop)]
pub struct Cut<'h> {
    pub window: &'h [Hit],
    pub rest: &'h [Hit],
}

/// Cuts off the first window, which is full at this number of bytes.
pub fn cut_window(hits: &[Hit], size: usize) -> Cut<'_>
    ensures joined { result.window.now ++ result.rest.now ≡ hits.now }
    ensures fewer { length result.rest.now ≤ length hits.now - 1 }
{
    if hits.is_empty() {
        return Cut {
            window: hits,
            rest: hits,
        };
    }
    let (window, rest) = hits.split_at(window_len(hits, size));
    Cut { window, rest }
}

/// Appends data to those of a window.
pub fn push_data(window: &mut Vec<Data>, found: Data) -> Result<(), AllocError>
    ensures { OnOk result (data_bytes window.new.items ≡ data_bytes window.old.items ++ found.bytes) }
{
    window.push(found)?;
    Ok(())
}

/// Returns the same data. Their bytes are shared, and none are copied.
///
/// # Errors
///
/// `AllocError` if memory runs out.
pub(crate) fn share_window(alloc: Global, window: &[Data]) -> Result<Vec<Data>, AllocError>
    ensures { IfOk result (λ shared. data_bytes shared.items ≡ data_bytes window.now) }
{
    let mut shared = Vec::with_capacity(alloc, window.len())?;
    for found in window {
        push_data(&mut shared, found.share()?)?;
    }
    Ok(shared)
}

/// Digests data.
///
/// # Errors
///
/// `AllocError` if they are not in memory.
fn digest_data(reading: &mut Reading, found: &Data) -> Result<(), AllocError>
    ensures { OnOk result (reading.new ≡ reading.old ++ found.now.bytes) }
{
    match found.held() {
        Some(bytes) => reading.push(bytes),
        None => Err(AllocError),
    }
}

/// Digests the data of a window.
///
/// # Errors
///
/// `AllocError` if they are not in memory.
pub fn digest_window(reading: &mut Reading, window: &[Data]) -> Result<(), AllocError>
    ensures { OnOk result (reading.new ≡ reading.old ++ data_bytes window.now) }
{
    for found in window {
        digest_data(reading, found)?;
    }
    Ok(())
}
