ghost use Rattle.std.specs.Prelude.{◌≡◌, IfOk, position};
ghost use Rattle.std.specs.List.{before_first, after_first};
ghost use Rattle.br_model.specs.Answer.{Answers, AnswersAlways};
ghost use Rattle.br_model.specs.Text.{is_blank};
ghost use Rattle.br_model.specs.Console as model;
ghost use Rattle.br_mark.specs.Argument.{needed_text, wanted_text};
ghost use Rattle.br_mark.specs.Fault.{cause, fault_number};
ghost use Rattle.br_mark.specs.Said.{said, text_of};

use crate::fault::MarkFault;
use br_types::trimmed;
use bstr::ByteSlice;
use std::alloc::{AllocError, Global};

/// The greatest number of bytes of a line.
const MAX_LEN: usize = 4096;

/// The blanks: a space and a tab.
const BLANKS: &[u8] = b" \t";

/// A command of a console. A pattern is matched with names, a way is a path of directories.
#[derive(Drop)]
pub enum Command {
    /// Goes to a directory.
    Cd(Vec<u8>),
    /// Shows the directory of the console.
    Pwd,
    /// Shows the names in the directory, all or those that match.
    Ls(Option<Vec<u8>>),
    /// Marks the names that match, and all below the directories among them.
    Mark(Vec<u8>),
    /// Removes the marks that `Mark` sets.
    Unmark(Vec<u8>),
    /// Marks the directories that match, or the directory itself, without the paths below.
    MarkDir(Option<Vec<u8>>),
    /// Removes the marks that `MarkDir` sets.
    UnmarkDir(Option<Vec<u8>>),
    /// Shows the number of paths, and of those that are marked.
    Count,
    /// Shows the marked paths below the directory.
    LsMark,
    /// Shows the paths whose last component matches.
    Find(Vec<u8>),
    /// Shows the number of marked paths, and of the bytes of their files.
    Estimate,
    /// Ends the dialogue with the marks.
    Done,
    /// Ends the dialogue without them.
    Quit,
}

/// Returns the place of the first blank.
fn blank_in(text: &[u8]) -> Option<usize>
    ensures { result ≡ position is_blank text.now }
{
    // The clause of the kit, in the words of the model.
    text.find_byteset(BLANKS)
}

/// Returns the text before the first blank, and the text after it.
fn first_word(text: &[u8]) -> (&[u8], &[u8])
    ensures word { result.0.now ≡ before_first is_blank text.now }
    ensures rest { result.1.now ≡ after_first is_blank text.now }
{
    match blank_in(text) {
        None => (text, &[]),
        Some(i) => (&text[..i], &text[i + 1..]),
    }
}

/// Returns a command that takes no argument.
fn alone(command: Command, text: &[u8]) -> Result<Command, MarkFault>
    ensures { AnswersAlways said fault_number result (model.alone (said command) text.now) }
{
    if text.is_empty() {
        Ok(command)
    } else {
        Err(MarkFault::UnknownCommand)
    }
}

/// Returns an argument that a command needs.
fn needed(alloc: Global, text: &[u8]) -> Result<Vec<u8>, MarkFault>
    ensures { Answers (λ t. t.items) cause result (needed_text text.now) }
{
    if text.is_empty() {
        return Err(MarkFault::UnknownCommand);
    }
    Ok(Vec::from_slice(alloc, text)?)
}

/// Returns an argument that may be missing.
fn wanted(alloc: Global, text: &[u8]) -> Result<Option<Vec<u8>>, AllocError>
    ensures { IfOk result (λ o. text_of o ≡ wanted_text text.now) }
{
    if text.is_empty() {
        return Ok(None);
    }
    Ok(Some(Vec::from_slice(alloc, text)?))
}

/// Returns the command of a word and of the text after it.
#[tactic(auto, unfolding(br_model::specs::Console::read_words))]
fn read_words(alloc: Global, word: &[u8], text: &[u8]) -> Result<Command, MarkFault>
    ensures { Answers said cause result (model.read_words word.now text.now) }
{
    if word == b"cd".as_slice() {
        Ok(Command::Cd(needed(alloc, text)?))
    } else if word == b"pwd".as_slice() {
        alone(Command::Pwd, text)
    } else if word == b"ls".as_slice() {
        Ok(Command::Ls(wanted(alloc, text)?))
    } else if word == b"mark".as_slice() {
        Ok(Command::Mark(needed(alloc, text)?))
    } else if word == b"unmark".as_slice() {
        Ok(Command::Unmark(needed(alloc, text)?))
    } else if word == b"markdir".as_slice() {
        Ok(Command::MarkDir(wanted(alloc, text)?))
    } else if word == b"unmarkdir".as_slice() {
        Ok(Command::UnmarkDir(wanted(alloc, text)?))
    } else if word == b"count".as_slice() {
        alone(Command::Count, text)
    } else if word == b"lsmark".as_slice() {
        alone(Command::LsMark, text)
    } else if word == b"find".as_slice() {
        Ok(Command::Find(needed(alloc, text)?))
    } else if word == b"estimate".as_slice() {
        alone(Command::Estimate, text)
    } else if word == b"done".as_slice() {
        alone(Command::Done, text)
    } else if word == b"quit".as_slice() {
        alone(Command::Quit, text)
    } else {
        Err(MarkFault::UnknownCommand)
    }
}

impl Command {
    /// Reads the command of a line: its first word, and the rest of the line without the blanks (spaces and tabs) at its ends.
    ///
    /// # Errors
    ///
    /// `UnknownCommand` if the line has more than 4,096 bytes, the word is not a command in lower
    /// case, or its argument is missing or not allowed.
    #[tactic(auto, unfolding(br_model::specs::Console::read_command))]
    pub fn read(alloc: Global, line: &[u8]) -> Result<Command, MarkFault>
        ensures { Answers said cause result (model.read_command line.now) }
    {
        if line.len() > MAX_LEN {
            return Err(MarkFault::UnknownCommand);
        }
        let (word, rest) = first_word(trimmed(line));
        read_words(alloc, word, trimmed(rest))
    }
}
