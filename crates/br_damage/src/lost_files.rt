//! The files that groups on lost volumes ask for.
ghost use Rattle.std.specs.Prelude.{◌≡◌, ◌++◌, ◌≤◌, drop, length, map, IfOk, OnOk};
ghost use Rattle.std.specs.List.Sorted.{IsPermutation};
ghost use Rattle.br_damage.specs.LostFiles as model;
ghost use Rattle.br_damage.specs.LostFiles.{AgreeBefore, AgreeFrom, Rise, reaches_from, spans_of};

use crate::group_sessions::{place_of, session_of};
use br_bsr::{Group, Range};
use br_types::SessionKey;
use std::alloc::{AllocError, Global};

/// The greatest index that a file can have.
const GREATEST: u64 = 2_147_483_647;

/// The range of all indexes.
pub(crate) const ALL: Range = Range {
    low: 1,
    high: 2_147_483_647,
};

/// The files from one place up to another, which is excluded.
#[derive(Clone, Copy)]
pub(crate) struct Span {
    pub(crate) low: u128,
    pub(crate) end: u128,
}

/// Returns the files of the session with these indexes.
pub(crate) fn span_of(session: SessionKey, range: Range) -> Span
    ensures { result ≡ model.span_of session range }
{
    Span {
        low: place_of(session, range.low),
        end: place_of(session, range.high.min(GREATEST)) + 1,
    }
}

/// Appends the files of the session with indexes in these ranges.
fn push_spans(
    spans: &mut Vec<Span>,
    session: SessionKey,
    ranges: &[Range],
) -> Result<(), AllocError>
    ensures { OnOk result (spans.new.items ≡ spans.old.items ++ map (model.span_of session) ranges.now) }
{
    for range in ranges {
        spans.push(span_of(session, *range))?;
    }
    Ok(())
}

/// Appends the files that the group asks for; none if it names no session.
fn push_group(spans: &mut Vec<Span>, group: &Group) -> Result<(), AllocError>
    ensures { OnOk result (spans.new.items ≡ spans.old.items ++ spans_of group.now) }
{
    let Some(session) = session_of(group) else {
        return Ok(());
    };
    if group.indexes.is_empty() {
        push_spans(spans, session, &[ALL])
    } else {
        push_spans(spans, session, &group.indexes)
    }
}

/// Returns the files that the groups ask for.
#[tactic(auto, unfolding(crate::specs::LostFiles::spans))]
fn spans_in(alloc: Global, groups: &[Group]) -> Result<Vec<Span>, AllocError>
    ensures { IfOk result (λ spans. spans.items ≡ model.spans groups.now) }
{
    let mut spans = Vec::new(alloc);
    for group in groups {
        push_group(&mut spans, group)?;
    }
    Ok(spans)
}

/// Returns the spans in order of their first places.
fn in_order(mut spans: Vec<Span>) -> Result<Vec<Span>, AllocError>
    ensures rising { IfOk result (λ v. Rise v.items) }
    ensures same { IfOk result (λ v. IsPermutation spans.items v.items) }
{
    spans.sort_by_key(|span| span.low)?;
    Ok(spans)
}

/// Returns for each span the greatest end up to it.
fn reaches_of(alloc: Global, spans: &[Span]) -> Result<Vec<u128>, AllocError>
    ensures { IfOk result (λ reaches. reaches.items ≡ reaches_from 0 spans.now) }
{
    let mut greatest = 0;
    let mut reaches = Vec::new(alloc);
    for span in spans {
        greatest = span.end.max(greatest);
        reaches.push(greatest)?;
    }
    Ok(reaches)
}

/// Returns the number of first spans that end at the place or before it.
fn passed(reaches: &[u128], spans: &[Span], place: u128) -> usize
    requires { reaches.now ≡ reaches_from 0 spans.now }
    ensures bound { result ≤ length spans.now }
    ensures none { AgreeFrom place spans.now (drop result spans.now) }
{
    reaches.partition_point(|reach| *reach <= place)
}

/// Returns the spans that begin before the place.
pub(crate) fn before(spans: &[Span], place: u128) -> &[Span]
    requires { Rise spans.now }
    ensures rising { Rise result.now }
    ensures same { AgreeBefore place result.now spans.now }
{
    &spans[..spans.partition_point(|span| span.low < place)]
}

/// The files that are lost.
#[derive(Drop)]
pub(crate) struct LostFiles {
    /// The files, in order of their first places.
    spans: Vec<Span>,
    /// For each span the greatest end up to it.
    reaches: Vec<u128>,
    ghost rising: { Rise spans.items },
    ghost reached: { reaches.items ≡ reaches_from 0 spans.items },
}

impl LostFiles {
    /// Returns the files that the groups ask for. A group that names no session has none.
    pub(crate) fn of(alloc: Global, groups: &[Group]) -> Result<LostFiles, AllocError>
        ensures { IfOk result (λ lost. IsPermutation (model.spans groups.now) lost.spans.items) }
    {
        let spans = in_order(spans_in(alloc, groups)?)?;
        let reaches = reaches_of(alloc, &spans)?;
        Ok(LostFiles { spans, reaches })
    }

    /// Returns the spans that may have files from the place on.
    pub(crate) fn from(&self, place: u128) -> &[Span]
        ensures rising { Rise result.now }
        ensures same { AgreeFrom place result.now self.now.spans.items }
    {
        let (_, left) = self
            .spans
            .split_at(passed(&self.reaches, &self.spans, place));
        left
    }
}
