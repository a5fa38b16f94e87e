//! The planning of restores: the marks of a script, and the plan for them.
ghost use Rattle.std.specs.Prelude.{◌≡◌, [], map, OnOk};
ghost use Rattle.br_model.specs.Answer.{Answers};
ghost use Rattle.br_mark.specs.Said.{said};
ghost use Rattle.br_plan.specs.Fault.{cause};
ghost use Rattle.br_core.specs.Machine.{plan_for};
ghost use Rattle.br_core.specs.Planning.{after_command, after_script, console_after};

use br_history::History;
use br_mark::{Command, Console, MarkFault};
use br_plan::{JobSelection, Plan, PlanFault, Request};
use br_tree::Tree;
use br_types::Path;
use br_view::View;
use std::alloc::{AllocError, Global};

/// Returns the console over the view of the chosen jobs, at `/` and without marks.
#[tactic(auto, unfolding(crate::specs::Planning::console_after))]
fn console_over<'h>(alloc: Global, asked: &JobSelection<'h>) -> Result<Console<'h>, PlanFault>
    ensures { Answers (λ console. console) cause result (console_after asked.now.history asked.now.request []) }
{
    let jobs = asked.jobs(alloc)?;
    let view = View::build(alloc, &jobs)?;
    let tree = Tree::build(alloc, view)?;
    Ok(Console::new(alloc, tree)?)
}

/// Runs a command. A refused command changes nothing.
fn run_command(console: &mut Console<'_>, command: &Command) -> Result<(), AllocError>
    ensures { OnOk result (console.new ≡ after_command console.old (said command.now)) }
{
    match console.apply(command) {
        Ok(_) => Ok(()),
        Err(MarkFault::Memory) => Err(AllocError),
        Err(_) => Ok(()),
    }
}

/// Runs all commands of a script.
fn run_script(console: &mut Console<'_>, script: &[Command]) -> Result<(), AllocError>
    ensures { OnOk result (console.new ≡ after_script console.old (map said script.now)) }
{
    for command in script {
        run_command(console, command)?;
    }
    Ok(())
}

/// Returns the marks of a script in the view of the chosen jobs, and the plan for them.
pub(crate) fn planned(
    alloc: Global,
    history: &History,
    request: &Request,
    script: &[Command],
) -> Result<(Vec<Path>, Plan), PlanFault>
    ensures { Answers (λ p. (p.0.items, p.1)) cause result (plan_for history.now request.now (map said script.now)) }
{
    let asked = JobSelection::new(alloc, history, request);
    let mut console = console_over(alloc, &asked)?;
    run_script(&mut console, script)?;
    let plan = Plan::for_marked(alloc, &asked, console.tree())?;
    Ok((console.marked(alloc)?, plan))
}
