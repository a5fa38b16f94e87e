ghost use Rattle.std.specs.Prelude.{◌≡◌, length, map, IfOk};
ghost use Rattle.br_model.specs.Answer.{Answers};
ghost use Rattle.br_model.specs.Plan as model;
ghost use Rattle.br_model.specs.Restored.{planned_in};
ghost use Rattle.br_plan.specs.Fault.{cause};
ghost use Rattle.br_plan.specs.Means.{MeansSelection, IsViewOfChosen, plan_by, plan_with};
ghost use Rattle.br_view.specs.Shown.{shown_pair};

use crate::fault::PlanFault;
use crate::job_selection::JobSelection;
use crate::naming::names_of;
use crate::part::files_of;
use crate::plan_group::groups_of;
use crate::request::Request;
use crate::select::{flags_of, selected};
use br_bsr::Bootstrap;
use br_choose::choose;
use br_history::{History, JobRows};
use br_model::plan_means_selection;
use br_tree::{Shown, Tree};
use br_types::{Names, Path};
use br_view::View;
use std::alloc::{AllocError, Global};
use std::marker::Model;

/// The greatest number of groups of a bootstrap: 2^32 - 1.
const MAX_GROUPS: usize = 4_294_967_295;

/// How selected files are restored: the parts of volumes that are read, and the path under which
/// each file is expected. It owns all that it names.
#[derive(Drop)]
pub struct Plan {
    bootstrap: Bootstrap,
    names: Names,
}

impl Model for Plan {
    ghost use Rattle.br_model.specs.Plan as model;
    ghost use Rattle.br_model.specs.Restored.{planned_in};

    ghost Value = { model.Plan };

    ghost view = { λ p. record { groups = p.bootstrap; names = planned_in p.names } };
}

/// Makes the plan for selected entries of the jobs. 2^32 groups count as out of memory.
fn plan_for(alloc: Global, entries: &[Shown<'_>], jobs: &[&JobRows]) -> Result<Plan, AllocError>
    ensures { IfOk result (λ plan. plan ≡ plan_with (map shown_pair entries.now) (map (λ j. j.now) jobs.now)) }
{
    let files = files_of(alloc, entries)?;
    let groups = groups_of(alloc, &files, jobs)?;
    if groups.len() > MAX_GROUPS {
        return Err(AllocError);
    }
    let names = names_of(alloc, entries)?;
    Ok(Plan {
        bootstrap: Bootstrap::from_valid(groups),
        names,
    })
}

/// Makes the plan for the flagged entries of the view of some jobs, and for the entries of the
/// files to which these are hard links.
fn plan_from(
    alloc: Global,
    entries: &[Shown<'_>],
    flags: &[bool],
    jobs: &[&JobRows],
) -> Result<Plan, PlanFault>
    requires { length flags.now ≡ length entries.now }
    ensures { Answers (λ plan. plan) cause result (plan_by entries.now flags.now (map (λ j. j.now) jobs.now)) }
{
    let selected = selected(alloc, entries, flags)?;
    if selected.is_empty() {
        return Err(PlanFault::NothingMarked);
    }
    Ok(plan_for(alloc, &selected, jobs)?)
}

impl Plan {
    /// Makes the plan for the marked paths. It builds the view of the chosen jobs; `for_marked`
    /// takes an existing view.
    ///
    /// # Errors
    ///
    /// `UnknownClient`, `UnknownFileSet` or `NoFull` as for `choose`, then `NothingMarked` if no
    /// marked path is in the view.
    pub fn make(
        alloc: Global,
        history: &History,
        request: &Request,
        marks: &[Path],
    ) -> Result<Plan, PlanFault>
        ensures answers { Answers (λ plan. plan) cause result (model.plan_of history.now request.now marks.now) }
        ensures means { IfOk result (MeansSelection history.now request.now marks.now) }
    {
        plan_means_selection();
        // The jobs are a history because of their type.
        let _ = history.jobs();
        let jobs = choose(
            alloc,
            history,
            &request.client,
            &request.fileset,
            request.moment,
        )?;
        let view = View::build(alloc, &jobs)?;
        let flags = flags_of(alloc, view.entries(), marks)?;
        plan_from(alloc, view.entries(), &flags, &jobs)
    }

    /// Makes the plan for the marked paths of a tree, as `make` does for its marks, and builds no view: the tree shows that of the
    /// chosen jobs.
    ///
    /// # Errors
    ///
    /// Those of `make`.
    pub fn for_marked(
        alloc: Global,
        asked: &JobSelection<'_>,
        tree: &Tree<'_>,
    ) -> Result<Plan, PlanFault>
        requires { IsViewOfChosen asked.now.history asked.now.request tree.now.view }
        ensures answers { Answers (λ plan. plan) cause result (model.plan_of asked.now.history asked.now.request tree.now.marked) }
        ensures means { IfOk result (MeansSelection asked.now.history asked.now.request tree.now.marked) }
    {
        plan_means_selection();
        // The jobs are a history by their type.
        let _ = asked.history().jobs();
        let jobs = asked.jobs(alloc)?;
        plan_from(alloc, tree.entries(), tree.flags(), &jobs)
    }

    /// Returns the bootstrap: the parts of volumes that are read.
    pub fn bootstrap(&self) -> &Bootstrap
        ensures { result.now ≡ self.now.groups }
    {
        &self.bootstrap
    }

    /// Returns the path under which each file is expected.
    pub fn names(&self) -> &Names
        ensures { planned_in result.now ≡ self.now.names }
    {
        &self.names
    }

    /// Returns the plan to read what another bootstrap asks for, under the same paths.
    pub fn with_bootstrap(self, bootstrap: Bootstrap) -> Plan
        ensures { result ≡ record { groups = bootstrap; names = self.names } }
    {
        Plan {
            bootstrap,
            names: self.names,
        }
    }

    /// Returns the parts of volumes that are read, and the path under which each file is expected.
    pub fn into_parts(self) -> (Bootstrap, Names)
        ensures bootstrap { result.0 ≡ self.groups }
        ensures names { planned_in result.1 ≡ self.names }
    {
        (self.bootstrap, self.names)
    }
}
