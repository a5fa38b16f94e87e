//! The jobs that a request chooses of a history.
ghost use Rattle.std.specs.Prelude.{◌≡◌, true, ◌==◌, map, IfOk};
ghost use Rattle.br_model.specs.Job.{no_pair};
ghost use Rattle.br_choose.specs.Wanted.{Chooses};

use crate::request::Request;
use br_choose::{ChooseFault, choose};
use br_history::{History, JobRows};
use std::alloc::Global;
use std::marker::Model;

/// The jobs that a request chooses of a history, or why it chooses none. They are chosen once, when it is made.
#[derive(Drop)]
pub struct JobSelection<'h> {
    history: &'h History,
    request: &'h Request,
    chosen: Result<Vec<&'h JobRows>, ChooseFault>,
}

impl<'h> Model for JobSelection<'h> {
    ghost use Rattle.br_plan.specs.Asked.{Asked, AreChosen};

    ghost Value = { Asked };

    ghost view = { λ s. record { history = s.history.now; request = s.request.now } };

    ghost invariant = { λ s. AreChosen s.history.now s.request.now s.chosen };
}

impl<'h> JobSelection<'h> {
    /// Chooses the jobs of a request. If memory runs out, `jobs` says so.
    pub fn new(alloc: Global, history: &'h History, request: &'h Request) -> JobSelection<'h>
        ensures history { result.history ≡ history.now }
        ensures request { result.request ≡ request.now }
    {
        let chosen = choose(
            alloc,
            history,
            &request.client,
            &request.fileset,
            request.moment,
        );
        JobSelection {
            history,
            request,
            chosen,
        }
    }

    /// Returns all jobs of the history.
    pub fn history(&self) -> &'h History
        ensures { result.now ≡ self.now.history }
    {
        self.history
    }

    /// Returns what was asked for.
    pub fn request(&self) -> &'h Request
        ensures { result.now ≡ self.now.request }
    {
        self.request
    }

    /// Returns the chosen jobs: a Full, then a Differential, if there is one, then Incrementals.
    ///
    /// # Errors
    ///
    /// As those of `choose` of br_choose.
    pub fn jobs(&self, alloc: Global) -> Result<Vec<&'h JobRows>, ChooseFault>
        ensures answers { Chooses self.now.history self.now.request result }
        ensures distinct { IfOk result (λ jobs. no_pair (λ j k. j.row.id == k.row.id) (map (λ j. j.now) jobs.items) ≡ true) }
    {
        match &self.chosen {
            Ok(jobs) => Ok(Vec::from_slice(alloc, jobs)?),
            Err(fault) => Err(*fault),
        }
    }
}
