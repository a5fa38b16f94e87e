ghost use Rattle.std.specs.Prelude.{◌≡◌, ◌<◌, ◌^◌, length};

use crate::shown_paths::{Shown, slash_in};
use br_types::is_directory_path;
use std::alloc::{AllocError, Global};

/// Returns the number of first bytes in which two texts agree.
fn shared_len(first: &[u8], second: &[u8]) -> usize {
    first.iter().zip(second).take_while(|(a, b)| a == b).count()
}

/// Returns a path up to the first `/` after what it shares with the path before.
fn new_front<'p>(before: &[u8], path: &'p [u8]) -> &'p [u8] {
    let shared = shared_len(before, path).min(path.len());
    match slash_in(path.split_at(shared).1) {
        Some(place) => &path[..shared + place + 1],
        None => path,
    }
}

/// Returns the span at a place, at least 1.
pub(crate) fn span_at(spans: &[u32], place: usize) -> usize
    ensures some { 0 < result }
    ensures fits { result < 2 ^ 32 }
{
    match spans.get(place) {
        Some(span) => (*span as usize).max(1),
        None => 1,
    }
}

/// Returns the number of paths from a place on that begin with a text, by the spans of those after it.
fn count_from(entries: &[Shown<'_>], spans: &[u32], place: usize, text: &[u8]) -> usize
    requires { place < length entries.now }
{
    let mut next = place + 1;
    while next < entries.len() {
        if !entries[next].0.bytes().starts_with(text) {
            break;
        }
        next += span_at(spans, next);
    }
    next - place
}

/// Returns the span of the path at a place, by the spans of those after it.
fn span_of(entries: &[Shown<'_>], spans: &[u32], place: usize) -> u32
    requires { place < length entries.now }
{
    let path = entries[place].0.bytes();
    let front = match place.checked_sub(1) {
        Some(last) => new_front(entries[last].0.bytes(), path),
        None => new_front(b"", path),
    };
    if !is_directory_path(front) {
        return 1;
    }
    match u32::try_from(count_from(entries, spans, place, front)) {
        Ok(span) => span,
        Err(_) => u32::MAX,
    }
}

/// Sets the span of each path, from the last to the first.
fn set_spans(entries: &[Shown<'_>], spans: &mut [u32])
    requires { length spans.old ≡ length entries.now }
{
    for done in 0..entries.len() {
        let place = entries.len() - 1 - done;
        spans[place] = span_of(entries, spans, place);
    }
}

/// Returns for each path its span: the number of paths from it on that begin as it does up to the
/// first `/` after what it shares with the path before. If it is the first path of a child of a
/// directory, these are the paths of the child. A span is a guess, which `cut` confirms.
pub(crate) fn spans_of(alloc: Global, entries: &[Shown<'_>]) -> Result<Vec<u32>, AllocError> {
    let mut spans = vec![in alloc; 0; entries.len()]?;
    set_spans(entries, &mut spans);
    Ok(spans)
}
