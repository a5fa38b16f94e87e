//! The plan to restore the paths that patterns name.
//!
//! A pattern is an absolute path whose last component may have `*` and `?`. It marks what `mark` of
//! the console marks with this component, in the directory before it: the names that match, and all
//! below the directories among them. `/` means all.
ghost use Rattle.std.specs.Prelude.{◌≡◌, ◌<◌, ◌≤◌, ◌+◌, ◌++◌, ◌∷◌, [], drop, length, IfOk, OnOk, Ok};
ghost use Rattle.br_model.specs.Answer.{Answers};
ghost use Rattle.br_tree.specs.Lists.{last_part};
ghost use Rattle.br_tree.specs.Marking.{after_mark};
ghost use Rattle.br_plan.specs.Fault.{cause};
ghost use Rattle.br_console.specs.MarkedPaths as paths;
ghost use Rattle.br_console.specs.MarkedPaths.{texts};

use br_plan::{JobSelection, Plan, PlanFault};
use br_tree::{Tree, bare_name};
use br_types::place_of;
use br_view::View;
use std::alloc::{AllocError, Global};

/// Returns a text after a place.
fn behind(text: &[u8], place: usize) -> &[u8]
    requires { place < length text.now }
    ensures { result.now ≡ drop (place + 1) text.now }
{
    text.split_at(place + 1).1
}

/// Returns a text after its last `/`.
fn part_behind(text: &[u8]) -> &[u8]
    ensures { result.now ≡ last_part text.now }
{
    let mut rest = text;
    while let Some(place) = place_of(rest, b'/') {
        rest = behind(rest, place);
    }
    rest
}

/// Returns the front of a text, without as many bytes as an end has.
fn before<'t>(text: &'t [u8], end: &[u8]) -> &'t [u8]
    requires { length end.now ≤ length text.now }
    ensures { result.now ≡ paths.front_before text.now end.now }
{
    &text[..text.len() - end.len()]
}

/// Returns the directory of a pattern, and the last component that the pattern means in it.
fn place_in(pattern: &[u8]) -> (&[u8], &[u8])
    ensures { (result.0.now, result.1.now) ≡ paths.place_of pattern.now }
{
    if pattern == b"/".as_slice() {
        return (b"/".as_slice(), b"*".as_slice());
    }
    let path = bare_name(pattern);
    let name = part_behind(path);
    (before(path, name), name)
}

/// Marks the paths that a pattern means. Returns whether there are any.
#[tactic(auto, unfolding(crate::specs::MarkedPaths::paths_by))]
fn mark_path(tree: &mut Tree<'_>, pattern: &str) -> bool
    ensures met { result ≡ paths.is_met tree.old.view pattern.now }
    ensures marks { tree.new ≡ after_mark tree.old (paths.paths_by tree.old.view pattern.now) }
{
    let pattern = pattern.as_bytes();
    if !pattern.starts_with(b"/") {
        return false;
    }
    let (directory, name) = place_in(pattern);
    tree.mark(directory, name).is_some()
}

/// Marks the paths that a pattern means, or notes the pattern if there are none.
fn mark_or_note<'p>(
    tree: &mut Tree<'_>,
    pattern: &'p str,
    missed: &mut Vec<&'p str>,
) -> Result<(), AllocError>
    ensures marks { OnOk result (tree.new ≡ after_mark tree.old (paths.paths_by tree.old.view pattern.now)) }
    ensures missed { OnOk result (texts missed.new.items ≡ texts missed.old.items ++ paths.missed_by tree.old.view (pattern.now ∷ [])) }
{
    if !mark_path(tree, pattern) {
        if missed.push(pattern).is_err() {
            return Err(AllocError);
        }
    }
    Ok(())
}

/// Marks the paths that patterns mean. Returns the patterns that mean none, in order.
fn mark_paths<'p>(
    alloc: Global,
    tree: &mut Tree<'_>,
    patterns: &[&'p str],
) -> Result<Vec<&'p str>, AllocError>
    ensures view { OnOk result (tree.new.view ≡ tree.old.view) }
    ensures marks { OnOk result (tree.new.marked ≡ paths.marks_from tree.old.view tree.old.marked (texts patterns.now)) }
    ensures missed { IfOk result (λ missed. texts missed.items ≡ paths.missed_by tree.old.view (texts patterns.now)) }
{
    let mut missed = Vec::new(alloc);
    for pattern in patterns {
        mark_or_note(tree, pattern, &mut missed)?;
    }
    Ok(missed)
}

/// Makes the tree of the view of the chosen jobs, in which nothing is marked.
#[tactic(auto, unfolding(crate::specs::MarkedPaths::unmarked_view))]
pub(crate) fn tree_for<'h>(alloc: Global, asked: &JobSelection<'h>) -> Result<Tree<'h>, PlanFault>
    ensures { Answers (λ tree. tree) cause result (paths.unmarked_view asked.now) }
{
    let jobs = asked.jobs(alloc)?;
    let view = View::build(alloc, &jobs)?;
    Ok(Tree::build(alloc, view)?)
}

/// Makes the plan to restore some paths of the chosen jobs' view: each pattern marks what `mark` of the
/// console marks, in the directory before its last component. Returns also the patterns that meet no
/// path, in order.
///
/// # Errors
///
/// `UnknownClient`, `UnknownFileSet` or `NoFull` as for `choose`, then `NothingMarked` if no pattern
/// meets a path.
pub fn plan_paths<'p>(
    alloc: Global,
    asked: &JobSelection<'_>,
    patterns: &[&'p str],
) -> Result<(Plan, Vec<&'p str>), PlanFault>
    ensures plan { Answers (λ made. made.0) cause result (paths.plan_of_paths asked.now (texts patterns.now)) }
    ensures missed { IfOk result (λ made. paths.missed_of_paths asked.now (texts patterns.now) ≡ Ok (texts made.1.items)) }
{
    let mut tree = tree_for(alloc, asked)?;
    let missed = mark_paths(alloc, &mut tree, patterns)?;
    let plan = Plan::for_marked(alloc, asked, &tree)?;
    Ok((plan, missed))
}
