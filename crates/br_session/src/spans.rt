ghost use Rattle.std.specs.Prelude.{◌≡◌, ◌+◌, ◌∷◌, ◌++◌, [], length, sum_by, OnOk};
ghost use Rattle.br_model.specs.Answer.{Answers};
ghost use Rattle.br_model.specs.Session.{visits, checked_spans};
ghost use Rattle.br_session.specs.Fault.{cause};
ghost use Rattle.br_session.specs.Spans.{AreReadable, bytes_of, within64, span_at, checked_span};

use crate::deal::share;
use crate::fault::SessionFault;
use crate::indexes::index_range;
use crate::lengths::{length_of, lengths_of, set_length};
use crate::place::Place;
use crate::span::Span;
use br_types::VolName;
use std::alloc::{AllocError, Global};

/// The greatest address at which a span may end, exclusive: 2^63 - 1.
const MAX_END: u64 = 9_223_372_036_854_775_807;

/// Returns the address after blocks that begin at an address, if it fits 64 bits.
fn end_of(start: u64, blocks: &[Vec<u8>]) -> Option<u64>
    ensures { result ≡ within64 (start + sum_by (λ b. length b) (bytes_of blocks.now)) }
{
    let mut end = start;
    for block in blocks {
        end = end.checked_add(block.len() as u64)?;
    }
    Some(end)
}

/// Makes the span of a place's blocks, which begin at the address `start`. Its number is `number`.
///
/// # Errors
///
/// `BadRow` if it ends after the address 2^63 - 2, or its number does not fit 32 bits.
#[tactic(auto, unfolding(crate::specs::Spans::checked_span))]
fn span_of(
    alloc: Global,
    number: usize,
    start: u64,
    place: &Place,
    blocks: &[Vec<u8>],
) -> Result<Span, SessionFault>
    requires { AreReadable (bytes_of blocks.now) }
    ensures { Answers (λ s. s) cause result
        (checked_span (span_at number start (record { volume = place.now.volume; blocks = bytes_of blocks.now }))) }
{
    let vol_index = u32::try_from(number).map_err(|_| SessionFault::BadRow)?;
    let end = end_of(start, blocks).ok_or(SessionFault::BadRow)?;
    if end > MAX_END {
        return Err(SessionFault::BadRow);
    }
    let (first, last) = index_range(blocks);
    Ok(Span {
        vol: place.vol.copy(alloc)?,
        first,
        last,
        start,
        end: end.saturating_sub(1),
        vol_index,
    })
}

/// Appends a span.
fn push_span(spans: &mut Vec<Span>, span: Span) -> Result<(), AllocError>
    ensures { OnOk result (spans.new.items ≡ spans.old.items ++ span ∷ []) }
{
    spans.push(span)?;
    Ok(())
}

/// Returns the spans of the blocks, which are dealt out over the places to volumes of these
/// lengths.
///
/// # Errors
///
/// `BadRow` for the first span that ends after the address 2^63 - 2, or whose number does not fit
/// 32 bits.
pub(crate) fn spans_of(
    alloc: Global,
    blocks: &[Vec<u8>],
    places: &[Place],
    starts: &[(VolName, u64)],
) -> Result<Vec<Span>, SessionFault>
    requires { AreReadable (bytes_of blocks.now) }
    ensures { Answers (λ spans. spans.items) cause result (checked_spans starts.now (visits places.now (bytes_of blocks.now))) }
{
    let mut lengths = lengths_of(alloc, starts)?;
    let mut spans = Vec::new(alloc);
    let mut left = places;
    let mut rest = blocks;
    while let Some((place, more)) = left.split_first() {
        let (taken, kept) = rest.split_at(share(place, more, rest.len()));
        if !taken.is_empty() {
            let start = length_of(&lengths, &place.vol);
            let span = span_of(alloc, spans.len() + 1, start, place, taken)?;
            set_length(&mut lengths, &place.vol, span.end + 1)?;
            push_span(&mut spans, span)?;
        }
        left = more;
        rest = kept;
    }
    Ok(spans)
}
