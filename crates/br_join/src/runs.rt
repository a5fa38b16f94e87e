//! The files of hits, each with its own hits, and making them.
ghost use Rattle.std.specs.Prelude.{◌≡◌, map, IfOk};
ghost use Rattle.std.specs.List.{AllByRecursion};
ghost use Rattle.std.specs.Option.{option_copied};
ghost use Rattle.br_model.specs.Meaning as model;
ghost use Rattle.br_model.specs.Restored.{files_found, files_planned, planned_in};
ghost use Rattle.br_records.specs.Runs.{AreListed, listed};
ghost use Rattle.br_join.specs.Outcome.{restored, shown};
ghost use Rattle.br_join.specs.Runs.{IsPart, IsWholeRun, file_of, files_of};
ghost use Rattle.br_join.specs.Runs as run;

use crate::item::Outcome;
use crate::making::{outcome_of, under_name};
use br_match::Hit;
use br_records::around;
use br_types::{FileKey, Names, Path};
use rayon::prelude::*;
use std::alloc::{AllocError, Global};
use std::marker::Model;
use std::thread::Threads;

/// The hits of one file, in order of place, and the path under which the file was planned, if it was.
#[derive(Drop)]
pub struct Run<'h> {
    pub key: FileKey,
    pub path: Option<&'h Path>,
    pub hits: &'h [Hit],
}

impl<'h> Model for Run<'h> {
    ghost use Rattle.std.specs.Prelude.{◌≡◌};
    ghost use Rattle.std.specs.List.{AllByRecursion};
    ghost use Rattle.std.specs.Option.{option_copied};
    ghost use Rattle.br_model.specs.Meaning as meaning;
    ghost use Rattle.br_join.specs.Runs as model;

    ghost Value = { model.Run };

    ghost view = { λ r. record { key = r.key; path = option_copied r.path; hits = r.hits.now } };

    ghost invariant = { λ r. AllByRecursion (λ (h : meaning.Hit). h.key ≡ r.key) r.hits.now };
}

/// Returns the outcome of a file under its planned path, if it has one.
pub fn named(path: Option<&Path>, outcome: Outcome) -> Outcome
    ensures { shown result ≡ run.named (option_copied path.entry) (shown outcome) }
{
    match path {
        None => outcome,
        Some(path) => under_name(path, outcome),
    }
}

impl<'h> Run<'h> {
    /// Returns the run of these hits.
    fn new(key: FileKey, path: Option<&'h Path>, hits: &'h [Hit]) -> Run<'h>
        requires { AllByRecursion (λ (h : model.Hit). h.key ≡ key) hits.now }
        ensures { result ≡ record { key = key; path = option_copied path.entry; hits = hits.now } }
    {
        Run { key, path, hits }
    }

    /// Makes the file, and returns it with its outcome.
    fn make(&self, alloc: Global) -> Result<(FileKey, Outcome), AllocError>
        ensures { IfOk result (λ file. restored file ≡ file_of self.now) }
    {
        let outcome = outcome_of(alloc, self.key, self.hits)?;
        Ok((self.key, named(self.path, outcome)))
    }
}

/// Returns the runs of the files that were hit, in order of key.
fn found_runs<'h>(alloc: Global, hits: &'h [Hit]) -> Result<Vec<Run<'h>>, AllocError>
    requires { AreListed hits.now }
    ensures files { IfOk result (λ runs. map file_of runs.items ≡ files_found (listed hits.now)) }
    ensures parts { IfOk result (λ runs. AllByRecursion (IsPart hits.now) runs.items) }
    ensures whole { IfOk result (λ runs. AllByRecursion (IsWholeRun hits.now) runs.items) }
{
    let mut runs = Vec::new(alloc);
    let mut rest = hits;
    while let Some(first) = rest.first() {
        let key = first.key;
        let (_, run, after) = around(rest, key);
        runs.push(Run::new(key, None, run))?;
        rest = after;
    }
    Ok(runs)
}

/// Returns the runs of the planned files, in order of key. The run of a file that was not hit is
/// empty.
fn planned_runs<'h>(
    alloc: Global,
    hits: &'h [Hit],
    names: &'h Names,
) -> Result<Vec<Run<'h>>, AllocError>
    requires { AreListed hits.now }
    ensures files { IfOk result (λ runs. map file_of runs.items ≡ files_planned (listed hits.now) (planned_in names.now)) }
    ensures parts { IfOk result (λ runs. AllByRecursion (IsPart hits.now) runs.items) }
    ensures whole { IfOk result (λ runs. AllByRecursion (IsWholeRun hits.now) runs.items) }
{
    let mut runs = Vec::new(alloc);
    for (key, path) in names.iter() {
        let (_, run, _) = around(hits, *key);
        runs.push(Run::new(*key, Some(path), run))?;
    }
    Ok(runs)
}

/// Returns the runs of the files of sorted hits, in order of key: the planned files if there is a plan,
/// else those that were found. A planned file that was not hit has no hits.
///
/// # Errors
///
/// `AllocError` if memory runs out.
#[tactic(auto, unfolding(br_model::specs::Restored::files_listed))]
pub fn runs_of<'h>(
    alloc: Global,
    hits: &'h [Hit],
    names: Option<&'h Names>,
) -> Result<Vec<Run<'h>>, AllocError>
    requires { AreListed hits.now }
    ensures files { IfOk result (λ runs. map file_of runs.items ≡ files_of hits.now (option_copied names.entry)) }
    ensures parts { IfOk result (λ runs. AllByRecursion (IsPart hits.now) runs.items) }
    ensures whole { IfOk result (λ runs. AllByRecursion (IsWholeRun hits.now) runs.items) }
{
    match names {
        None => found_runs(alloc, hits),
        Some(names) => planned_runs(alloc, hits, names),
    }
}

/// Makes the files of runs, in their order, in as many threads as there are processors.
fn make_all(
    rt: &(impl Threads + Sync),
    alloc: Global,
    runs: &[Run<'_>],
) -> Result<Vec<(FileKey, Outcome)>, AllocError>
    ensures { IfOk result (λ outcomes. map restored outcomes.items ≡ map file_of runs.now) }
{
    // Files differ in size, and making one is worth a thread.
    runs.par_iter()
        .with_min_len(1)
        .map(
            |run: &Run<'_>| -> Result<(FileKey, Outcome), AllocError>
                ensures { IfOk result (λ file. restored file ≡ file_of run.now) }
            { run.make(alloc) },
        )
        .collect::<Result<Vec<(FileKey, Outcome)>, AllocError>>(rt, alloc)?
}

/// Returns the files of sorted hits: the planned ones if there is a plan, else those that were
/// found.
pub(crate) fn files_of(
    rt: &(impl Threads + Sync),
    alloc: Global,
    hits: &[Hit],
    names: Option<&Names>,
) -> Result<Vec<(FileKey, Outcome)>, AllocError>
    requires { AreListed hits.now }
    ensures { IfOk result (λ outcomes. map restored outcomes.items ≡ files_of hits.now (option_copied names.entry)) }
{
    let runs = runs_of(alloc, hits, names)?;
    make_all(rt, alloc, &runs)
}
