ghost use Rattle.std.specs.Prelude.{◌≡◌, IfOk, OnErr};
ghost use Rattle.br_model.specs.View.{IsView};
ghost use Rattle.br_model.specs.Console as model;
ghost use Rattle.br_tree.specs.Marking.{console_at};
ghost use Rattle.br_mark.specs.Applied.{Finds, Goes, Runs};
ghost use Rattle.br_mark.specs.Said.{said};

use crate::answer::Answer;
use crate::command::Command;
use crate::console_lines::cwd_line;
use crate::fault::MarkFault;
use crate::working_folder::resolve;
use crate::{marks, shows};
use br_tree::Tree;
use br_types::Path;
use std::alloc::{AllocError, Global};
use std::marker::Model;

/// Goes to the directory to which a way leads, and returns the line that shows it; `NoSuchDirectory` if there is none.
#[tactic(auto, unfolding(br_model::specs::Console::apply))]
fn go(
    alloc: Global,
    tree: &Tree<'_>,
    directory: &mut Vec<u8>,
    way: &[u8],
) -> Result<Vec<u8>, MarkFault>
    ensures answers { Goes directory.old.items directory.new.items tree.now (model.Cd way.now) result }
    ensures err { OnErr result (directory.new.items ≡ directory.old.items) }
{
    let reached = resolve(alloc, directory, way)?;
    if !tree.has_dir(&reached) {
        return Err(MarkFault::NoSuchDirectory);
    }
    let text = cwd_line(alloc, &reached)?;
    *directory = reached;
    Ok(text)
}

/// A directory of a view, and the marks on its paths, which commands walk through and change.
#[derive(Drop)]
pub struct Console<'h> {
    tree: Tree<'h>,
    directory: Vec<u8>,
    alloc: Global,
}

impl<'h> Model for Console<'h> {
    ghost use Rattle.br_tree.specs.Marking.{console_at};
    ghost use Rattle.br_mark.specs.Seen.{Situation};

    ghost Value = { Situation };

    ghost view = { λ c. record { view = c.tree.view; state = console_at c.directory.items c.tree } };
}

impl<'h> Console<'h> {
    /// Makes a console at `/`, with the marks of the tree. It keeps the allocator.
    pub fn new(alloc: Global, tree: Tree<'h>) -> Result<Console<'h>, AllocError>
        ensures { IfOk result (λ c. c ≡ record { view = tree.entry.view; state = console_at model.root tree.entry }) }
    {
        let directory = Vec::from_slice(alloc, b"/")?;
        Ok(Console {
            tree,
            directory,
            alloc,
        })
    }

    /// Returns the lines of the paths whose last component matches; `NoMatch` if none does.
    #[tactic(auto, unfolding(br_model::specs::Console::apply))]
    fn find(&self, pattern: &[u8]) -> Result<Vec<u8>, MarkFault>
        ensures { Finds self.now pattern.now result }
    {
        let found = self.tree.find(self.alloc, pattern)?;
        if found.is_empty() {
            return Err(MarkFault::NoMatch);
        }
        Ok(shows::found_lines(self.alloc, &found)?)
    }

    /// Runs a command. If it is refused or memory runs out, nothing changes.
    ///
    /// # Errors
    ///
    /// `NoSuchDirectory` if `cd` leads to no directory, `NoMatch` if a pattern matches nothing, or
    /// `markdir` or `unmarkdir` has no path to mark.
    #[tactic(auto, unfolding(br_model::specs::Console::apply))]
    pub fn apply(&mut self, command: &Command) -> Result<Answer, MarkFault>
        ensures answers { Runs self.old self.new (said command.now) result }
        ensures view { self.new.view ≡ self.old.view }
        ensures err { OnErr result (self.new ≡ self.old) }
    {
        let alloc = self.alloc;
        let tree = &mut self.tree;
        let directory = &mut self.directory;
        match command {
            Command::Cd(way) => Ok(Answer::Text(go(alloc, tree, directory, way)?)),
            Command::Pwd => Ok(Answer::Text(cwd_line(alloc, directory)?)),
            Command::Ls(None) => Ok(Answer::Text(shows::list(alloc, tree, directory)?)),
            Command::Ls(Some(pattern)) => {
                let text = shows::list_matching(alloc, tree, directory, pattern)?;
                Ok(Answer::Text(text))
            }
            Command::Mark(pattern) => marks::mark(alloc, tree, directory, pattern),
            Command::Unmark(pattern) => marks::unmark(alloc, tree, directory, pattern),
            Command::MarkDir(pattern) => marks::mark_dir(alloc, tree, directory, pattern),
            Command::UnmarkDir(pattern) => marks::unmark_dir(alloc, tree, directory, pattern),
            Command::Count => Ok(Answer::Text(shows::count(alloc, tree)?)),
            Command::LsMark => Ok(Answer::Text(shows::list_marked(alloc, tree, directory)?)),
            Command::Find(pattern) => Ok(Answer::Text(self.find(pattern)?)),
            Command::Estimate => Ok(Answer::Text(shows::estimate(alloc, tree)?)),
            Command::Done => Ok(Answer::Done),
            Command::Quit => Ok(Answer::Quit),
        }
    }

    /// Returns the view with the marks on its paths.
    pub fn tree(&self) -> &Tree<'h>
        ensures view { result.now.view ≡ self.now.view }
        ensures marked { result.now.marked ≡ self.now.state.marked }
    {
        &self.tree
    }

    /// Returns the marked paths in byte order.
    pub fn marked(&self, alloc: Global) -> Result<Vec<Path>, AllocError>
        ensures same { IfOk result (λ paths. paths.items ≡ self.now.state.marked) }
        ensures view { IsView self.now.view }
        ensures valid { model.IsConsole self.now.view self.now.state }
    {
        self.tree.entries();
        self.tree.marked(alloc)
    }
}
