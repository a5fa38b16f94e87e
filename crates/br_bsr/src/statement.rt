ghost use Rattle.std.specs.Prelude.{◌≡◌};
ghost use Rattle.br_model.specs.Answer.{Answers, AnswersAlways, refused_as};
ghost use Rattle.br_model.specs.Name.{checked_volume_name};
ghost use Rattle.br_model.specs.BootstrapText.{read_volume, read_value, read_assignment, read_line};
ghost use Rattle.br_bsr.specs.Fault.{refusal_cause, refusal_number};
ghost use Rattle.br_bsr.specs.Keyword.{keyword_view};
ghost use Rattle.br_bsr.specs.Line.{has_quotes, statement_view, check_keyword};

use crate::criterion::Criterion;
use crate::fault::LineRefusal;
use crate::keyword::Keyword;
use crate::range::Range;
use crate::range_text::ranges_of;
use crate::scan::{are_quotes_closed, cut, without_comment};
use br_types::{NameFault, VolName, trimmed};
use std::alloc::Global;

/// The greatest number of bytes of a line, without its end.
pub const MAX_LINE: usize = 4096;

/// The statement of a line: nothing that selects, the volume of a new group, or ranges of a
/// criterion.
#[derive(Drop)]
pub enum Statement {
    Nothing,
    OnVolume(VolName),
    Admits(Criterion, Vec<Range>),
}

/// Makes a volume's name.
fn named(alloc: Global, bytes: &[u8]) -> Result<VolName, LineRefusal>
    ensures { Answers (λ name. name) refusal_cause result (refused_as (λ _. 33) (checked_volume_name bytes.now)) }
{
    match VolName::new(alloc, bytes) {
        Ok(name) => Ok(name),
        Err(NameFault::Memory) => Err(LineRefusal::Memory),
        Err(NameFault::BadName | NameFault::BadPath) => Err(LineRefusal::BadValue),
    }
}

/// Returns whether a text begins and ends with a quote.
fn is_quoted(text: &[u8]) -> bool
    ensures { result ≡ has_quotes text.now }
{
    text.len() >= 2 && text[0] == b'"' && text[text.len() - 1] == b'"'
}

/// Reads the name of a volume, in quotes or without a space.
fn volume_of(alloc: Global, text: &[u8]) -> Result<VolName, LineRefusal>
    ensures { Answers (λ name. name) refusal_cause result (read_volume text.now) }
{
    if is_quoted(text) {
        return named(alloc, &text[1..text.len() - 1]);
    }
    if text.contains(&b' ') {
        return Err(LineRefusal::BadValue);
    }
    named(alloc, text)
}

/// Reads the value of a keyword, as the statement of both.
#[tactic(auto, unfolding(br_model::specs::BootstrapText::read_value))]
fn value_of(alloc: Global, keyword: Keyword, text: &[u8]) -> Result<Statement, LineRefusal>
    ensures { Answers statement_view refusal_cause result (read_value (keyword_view keyword) text.now) }
{
    match keyword {
        Keyword::Volume => Ok(Statement::OnVolume(volume_of(alloc, text)?)),
        Keyword::Asks(criterion) => {
            let ranges = ranges_of(alloc, criterion, text)?;
            Ok(Statement::Admits(criterion, ranges))
        }
        Keyword::PassedOver => {
            if are_quotes_closed(text) {
                Ok(Statement::Nothing)
            } else {
                Err(LineRefusal::BadValue)
            }
        }
        Keyword::Unsupported => Err(LineRefusal::UnsupportedKeyword),
    }
}

/// Reads a keyword that is supported here: `has_volume` says whether a volume was named before.
#[tactic(auto, unfolding(crate::specs::Line::check_keyword))]
fn checked_keyword(has_volume: bool, word: &[u8]) -> Result<Keyword, LineRefusal>
    ensures { AnswersAlways keyword_view refusal_number result (check_keyword has_volume word.now) }
{
    let Some(keyword) = Keyword::from_word(trimmed(word)) else {
        return Err(LineRefusal::UnknownKeyword);
    };
    if keyword.is_unsupported() {
        return Err(LineRefusal::UnsupportedKeyword);
    }
    if keyword.needs_volume() && !has_volume {
        return Err(LineRefusal::VolumeFirst);
    }
    Ok(keyword)
}

/// Reads an assignment: `has_volume` says whether a volume was named before.
#[tactic(auto, unfolding(br_model::specs::BootstrapText::read_assignment, crate::specs::Line::check_keyword))]
fn assignment_of(alloc: Global, has_volume: bool, text: &[u8]) -> Result<Statement, LineRefusal>
    ensures { Answers statement_view refusal_cause result (read_assignment has_volume text.now) }
{
    match cut(text, b'=') {
        Some((word, value)) => {
            let keyword = checked_keyword(has_volume, word)?;
            value_of(alloc, keyword, trimmed(value))
        }
        None => {
            checked_keyword(has_volume, text)?;
            Err(LineRefusal::BadValue)
        }
    }
}

/// Reads a line: `has_volume` says whether a volume was named before.
#[tactic(auto, unfolding(br_model::specs::BootstrapText::read_line))]
pub fn statement_of(alloc: Global, has_volume: bool, line: &[u8]) -> Result<Statement, LineRefusal>
    ensures { Answers statement_view refusal_cause result (read_line has_volume line.now) }
{
    if line.len() > MAX_LINE {
        return Err(LineRefusal::TooLong);
    }
    let stated = trimmed(without_comment(line));
    if stated.is_empty() {
        return Ok(Statement::Nothing);
    }
    assignment_of(alloc, has_volume, stated)
}
