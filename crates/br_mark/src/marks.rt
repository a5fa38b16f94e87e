ghost use Rattle.std.specs.Prelude.{◌≡◌, ◌≤◌, [], None, length, option_map, vec_capacity, OnErr};
ghost use Rattle.br_model.specs.Answer.{Answers};
ghost use Rattle.br_model.specs.Console as model;
ghost use Rattle.br_mark.specs.Applied.{Applies};
ghost use Rattle.br_mark.specs.Fault.{cause};
ghost use Rattle.br_mark.specs.Said.{text_of};
ghost use Rattle.br_mark.specs.Seen.{answer_said, count_answer};

use crate::answer::Answer;
use crate::console_lines::{COUNT_LINE_LEN, push_count};
use crate::fault::MarkFault;
use br_tree::Tree;
use std::alloc::Global;

/// The word for paths that gained a mark.
const MARKED: &[u8] = b"marked";

/// The word for paths that lost a mark.
const UNMARKED: &[u8] = b"unmarked";

/// Returns the line for the number of paths that gained or lost a mark; `NoMatch` if none was
/// meant. There is room for the line.
fn counted(mut text: Vec<u8>, count: Option<u64>, word: &[u8]) -> Result<Answer, MarkFault>
    requires none { text.items ≡ [] }
    requires room { 64 ≤ vec_capacity text }
    requires short { length word.now ≤ 8 }
    ensures answers { Answers answer_said cause result (count_answer word.now count) }
    ensures sure { OnErr result (count ≡ None) }
{
    match count {
        None => Err(MarkFault::NoMatch),
        Some(count) => {
            push_count(&mut text, count, word)?;
            Ok(Answer::Text(text))
        }
    }
}

/// Marks the names in a directory that match, and all below the directories among them.
#[tactic(auto, unfolding(br_model::specs::Console::apply))]
pub(crate) fn mark(
    alloc: Global,
    tree: &mut Tree<'_>,
    directory: &[u8],
    pattern: &[u8],
) -> Result<Answer, MarkFault>
    ensures answers { Applies directory.now tree.old tree.new (model.Mark pattern.now) result }
    ensures view { tree.new.view ≡ tree.old.view }
    ensures err { OnErr result (tree.new ≡ tree.old) }
{
    let text = Vec::with_capacity(alloc, COUNT_LINE_LEN)?;
    let count = tree.mark(directory, pattern);
    counted(text, count, MARKED)
}

/// Unmarks the names in a directory that match, and all paths below the directories among them.
#[tactic(auto, unfolding(br_model::specs::Console::apply))]
pub(crate) fn unmark(
    alloc: Global,
    tree: &mut Tree<'_>,
    directory: &[u8],
    pattern: &[u8],
) -> Result<Answer, MarkFault>
    ensures answers { Applies directory.now tree.old tree.new (model.Unmark pattern.now) result }
    ensures view { tree.new.view ≡ tree.old.view }
    ensures err { OnErr result (tree.new ≡ tree.old) }
{
    let text = Vec::with_capacity(alloc, COUNT_LINE_LEN)?;
    let count = tree.unmark(directory, pattern);
    counted(text, count, UNMARKED)
}

/// Returns the bytes of a pattern, if there is one.
fn bytes_of(pattern: &Option<Vec<u8>>) -> Option<&[u8]>
    ensures { option_map (λ p. p.now) result ≡ text_of pattern.now }
{
    match pattern {
        Some(pattern) => Some(pattern.as_slice()),
        None => None,
    }
}

/// Marks the directories that match, or the directory itself without a pattern, and nothing below.
#[tactic(auto, unfolding(br_model::specs::Console::apply))]
pub(crate) fn mark_dir(
    alloc: Global,
    tree: &mut Tree<'_>,
    directory: &[u8],
    pattern: &Option<Vec<u8>>,
) -> Result<Answer, MarkFault>
    ensures answers { Applies directory.now tree.old tree.new (model.MarkDir (text_of pattern.now)) result }
    ensures view { tree.new.view ≡ tree.old.view }
    ensures err { OnErr result (tree.new ≡ tree.old) }
{
    let text = Vec::with_capacity(alloc, COUNT_LINE_LEN)?;
    let count = tree.mark_dir(directory, bytes_of(pattern));
    counted(text, count, MARKED)
}

/// Unmarks the directories that match, or the directory itself without a pattern; nothing below.
#[tactic(auto, unfolding(br_model::specs::Console::apply))]
pub(crate) fn unmark_dir(
    alloc: Global,
    tree: &mut Tree<'_>,
    directory: &[u8],
    pattern: &Option<Vec<u8>>,
) -> Result<Answer, MarkFault>
    ensures answers { Applies directory.now tree.old tree.new (model.UnmarkDir (text_of pattern.now)) result }
    ensures view { tree.new.view ≡ tree.old.view }
    ensures err { OnErr result (tree.new ≡ tree.old) }
{
    let text = Vec::with_capacity(alloc, COUNT_LINE_LEN)?;
    let count = tree.unmark_dir(directory, bytes_of(pattern));
    counted(text, count, UNMARKED)
}
