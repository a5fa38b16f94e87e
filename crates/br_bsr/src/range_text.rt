ghost use Rattle.std.specs.Prelude.{◌≡◌, option_map};
ghost use Rattle.std.specs.List.{slice_split};
ghost use Rattle.br_model.specs.Answer.{Answers, some_or};
ghost use Rattle.br_model.specs.BootstrapText.{is_comma, read_ends, read_item, read_items};
ghost use Rattle.br_bsr.specs.Fault.{refusal_cause};
ghost use Rattle.br_bsr.specs.Statement.{criterion_of, range_between};

use crate::criterion::Criterion;
use crate::digits::digits_of;
use crate::fault::LineRefusal;
use crate::range::Range;
use crate::scan::cut;
use br_types::trimmed;
use std::alloc::Global;

/// Reads one number, or two with a dash between them, as the ends of a range.
#[tactic(auto, unfolding(br_model::specs::BootstrapText::read_ends))]
fn ends_of(text: &[u8]) -> Option<(u128, u128)>
    ensures { some_or (option_map range_between result) 33 ≡ read_ends text.now }
{
    match cut(text, b'-') {
        None => {
            let low = digits_of(trimmed(text))?;
            Some((low, low))
        }
        Some((first, second)) => {
            let low = digits_of(trimmed(first))?;
            let high = digits_of(trimmed(second))?;
            Some((low, high))
        }
    }
}

/// Reads an item as a range, if the criterion allows it.
#[tactic(auto, unfolding(br_model::specs::BootstrapText::read_item))]
fn range_of(criterion: Criterion, text: &[u8]) -> Option<Range>
    ensures { some_or result 33 ≡ read_item (criterion_of criterion) text.now }
{
    let (low, high) = ends_of(trimmed(text))?;
    criterion.range(low, high)
}

/// Reads the items between commas as ranges.
///
/// # Errors
///
/// `BadValue` if an item is not a range of the criterion.
pub fn ranges_of(
    alloc: Global,
    criterion: Criterion,
    text: &[u8],
) -> Result<Vec<Range>, LineRefusal>
    ensures { Answers (λ ranges. ranges.items) refusal_cause result (read_items (criterion_of criterion) (slice_split is_comma text.now)) }
{
    let mut ranges = Vec::new(alloc);
    let mut rest = text;
    while let Some((item, items)) = cut(rest, b',') {
        let Some(range) = range_of(criterion, item) else {
            return Err(LineRefusal::BadValue);
        };
        ranges.push(range)?;
        rest = items;
    }
    let Some(range) = range_of(criterion, rest) else {
        return Err(LineRefusal::BadValue);
    };
    ranges.push(range)?;
    Ok(ranges)
}
