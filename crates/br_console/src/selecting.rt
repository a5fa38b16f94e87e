//! The purpose of a run of the console.
ghost use Rattle.br_console.specs.Selecting.{DrivesStandForPlans, RunsDependOnChoice, RunsMeanSelection, RunsRestoreSelection};

use br_model::plan_means_selection;

/// A run of the console restores what was marked, as it was saved.
pub fn runs_mean_selection()
    ensures { RunsMeanSelection }
{
    plan_means_selection();
}

/// A run of the console depends on the choice alone: whatever else is in the history, dialogue, plan
/// and names are the same.
pub fn runs_depend_on_choice()
    ensures { RunsDependOnChoice }
{}

/// Drives that show more than the volumes that hold the chosen jobs may be taken to show these.
pub fn drives_stand_for_plans()
    ensures { DrivesStandForPlans }
{}

/// A run of the console over drives that show more than the volumes that hold the chosen jobs
/// restores what was marked, as it was saved.
pub fn runs_restore_selection()
    ensures { RunsRestoreSelection }
{
    drives_stand_for_plans();
    runs_mean_selection();
}
