//! A job of which some lines have been read.
ghost use Rattle.std.specs.Prelude.{◌≡◌, ◌==◌, ◌++◌, ◌∷◌, [], true, false, IfOk, OnErr, OnOk};
ghost use Rattle.std.specs.List.{AllByRecursion};
ghost use Rattle.br_session.specs.Outcome.{ArePlaces};
ghost use Rattle.br_model.specs.Answer.{AnswersAlways};
ghost use Rattle.br_history.specs.Saving.{checked_job};
ghost use Rattle.br_history.specs.Drafting.{Drafts, ReadsLine, TakesBlock, TakesLine, begins, ended};
ghost use Rattle.br_history.specs.Drafting.{given_up, gives_up, has_places, is_of_job, taken_of, to_commit};
ghost use Rattle.br_history.specs.JobLineFault.{end_number};
ghost use Rattle.br_history.specs.JobLine.{line_asked};
ghost use Rattle.br_history.specs.JobLine.LineAsked.{Give};

use crate::fault::SavedJobFault;
use crate::job_head::JobHead;
use crate::job_line::{JobLine, read_job_line};
use crate::job_line_fault::JobLineFault;
use crate::row::JobRow;
use crate::saved_job::SavedJob;
use br_session::{Place, SavedFile};
use br_types::{Path, cut};
use std::alloc::{AllocError, Global};
use std::marker::Model;
use thiserror::Error;

/// Why a job can't be committed when it ends.
#[derive(Clone, Copy, Debug, Error)]
pub enum EndFault {
    #[error("the job saves files, and its last place does not take all blocks that are left")]
    NoLastPlace,
    #[error("{0}")]
    Job(SavedJobFault),
}

impl EndFault {
    /// Returns the number of the refusal: 90 without a last place, 16 files out of order, 42 a
    /// start after the year 9999.
    pub fn number(self) -> u32
        ensures { result ≡ end_number self }
    {
        match self {
            EndFault::NoLastPlace => 90,
            EndFault::Job(fault) => fault.number(),
        }
    }
}

/// What a job took.
#[derive(Clone, Copy)]
pub enum Taken {
    /// A line after which the job goes on.
    Line,
    /// The line that ends it.
    End,
}

/// A job whose lines so far have been read.
#[derive(Drop)]
pub struct Draft {
    row: JobRow,
    limit: u32,
    files: Vec<SavedFile>,
    deleted: Vec<Path>,
    places: Vec<Place>,
    /// Whether the last place takes all remaining blocks.
    is_closed: bool,
    /// Whether one of its lines was refused.
    is_given_up: bool,
}

impl Model for Draft {
    ghost use Rattle.br_history.specs.Drafting.{Drafting, IsDraft};

    ghost Value = { Drafting };

    ghost view = { λ d. record {
      row = d.row;
      limit = d.limit;
      files = d.files.items;
      deleted = d.deleted.items;
      places = d.places.items;
      closed = d.is_closed;
      given_up = d.is_given_up;
    } };

    ghost invariant = { λ d. IsDraft d.limit d.places.items d.is_closed };
}

/// Tests whether a line saves a file, notes a deletion or gives a place, whatever its fields are.
#[tactic(auto, unfolding(crate::specs::Drafting::is_of_job))]
fn is_job_line(line: &[u8]) -> bool
    ensures { result ≡ is_of_job line.now }
{
    let (word, _) = cut(line);
    word == b"put".as_slice()
        || word == b"putd".as_slice()
        || word == b"del".as_slice()
        || word == b"place".as_slice()
}

/// Returns whether a line ends its job.
fn taken_of(line: &JobLine) -> Taken
    ensures { result ≡ taken_of (line_asked line.now) }
{
    match line {
        JobLine::End => Taken::End,
        JobLine::Save(_) | JobLine::Delete(_) | JobLine::Place(_) => Taken::Line,
    }
}

/// Appends a place to places that each take a block. Returns whether it takes all remaining blocks.
#[tactic(auto, using(crate::proofs::PlaceLaws::places_push, crate::proofs::PlaceLaws::takes_push, crate::proofs::PlaceLaws::some_push))]
fn push_place(places: &mut Vec<Place>, place: Place) -> Result<bool, AllocError>
    requires { AllByRecursion TakesBlock places.old.items }
    ensures pushed { OnOk result (places.new.items ≡ places.old.items ++ place ∷ []) }
    ensures kept { OnErr result (places.new.items ≡ places.old.items) }
    ensures last { IfOk result (λ is_last. is_last ≡ (place.blocks == 0)) }
    ensures each { IfOk result (λ is_last. is_last ≡ false → AllByRecursion TakesBlock places.new.items) }
    ensures are { OnOk result (ArePlaces places.new.items) }
    ensures some { OnOk result (places.new.items ≡ [] → ⊥) }
{
    let is_last = place.blocks == 0;
    places.push(place).map_err(AllocError::from)?;
    Ok(is_last)
}

impl Draft {
    /// Begins a job, with no file and no place.
    pub fn new(alloc: Global, head: JobHead) -> Draft
        ensures { result ≡ begins head }
    {
        let JobHead { row, limit } = head;
        Draft {
            row,
            limit,
            files: Vec::new(alloc),
            deleted: Vec::new(alloc),
            places: Vec::new(alloc),
            is_closed: false,
            is_given_up: false,
        }
    }

    /// Adds a place.
    fn add_place(&mut self, place: Place) -> Result<(), JobLineFault>
        ensures { Drafts (Give place) self.old self.new result }
    {
        if self.is_closed {
            return Err(JobLineFault::BadScript);
        }
        self.is_closed = push_place(&mut self.places, place)?;
        Ok(())
    }

    /// Adds what a line asks for.
    fn add(&mut self, line: JobLine) -> Result<(), JobLineFault>
        ensures { Drafts (line_asked line) self.old self.new result }
    {
        match line {
            JobLine::Save(file) => Ok(self.files.push(file).map_err(AllocError::from)?),
            JobLine::Delete(path) => Ok(self.deleted.push(path).map_err(AllocError::from)?),
            JobLine::Place(place) => self.add_place(place),
            JobLine::End => Ok(()),
        }
    }

    /// Gives the job up: nothing of it is stored.
    pub fn give_up(&mut self)
        ensures { self.new ≡ given_up self.old }
    {
        self.is_given_up = true;
    }

    /// Gives the job up if this line is one of a job's own.
    fn refuse(&mut self, line: &[u8])
        ensures { self.new ≡ gives_up line.now self.old }
    {
        if is_job_line(line) {
            self.give_up();
        }
    }

    /// Reads a line and adds what it asks for.
    fn read(&mut self, alloc: Global, line: &[u8]) -> Result<Taken, JobLineFault>
        ensures { ReadsLine line.now self.old self.new result }
    {
        let asked = read_job_line(alloc, line)?;
        let taken = taken_of(&asked);
        self.add(asked)?;
        Ok(taken)
    }

    /// Takes the next line, as `read_job_line` reads it.
    ///
    /// # Errors
    ///
    /// Those of `read_job_line`, and `BadScript` for a place after the last one. If it is one of a
    /// job's own lines, `put`, `putd`, `del` or `place`, the job is given up.
    pub fn take(&mut self, alloc: Global, line: &[u8]) -> Result<Taken, JobLineFault>
        ensures { TakesLine line.now self.old self.new result }
    {
        match self.read(alloc, line) {
            Ok(taken) => Ok(taken),
            Err(fault) => {
                self.refuse(line);
                Err(fault)
            }
        }
    }

    /// Tests whether the blocks of all files have places.
    fn has_places(&self) -> bool
        ensures { result ≡ has_places self.now }
    {
        self.files.is_empty() || self.is_closed
    }

    /// Makes the job that is to be committed.
    #[tactic(auto, using(crate::proofs::PlaceLaws::no_place_no_file))]
    fn into_job(self) -> Result<SavedJob, EndFault>
        requires { has_places self ≡ true }
        ensures { AnswersAlways (λ j. j) end_number result (checked_job (to_commit self)) }
    {
        let Draft {
            row,
            limit,
            files,
            deleted,
            places,
            is_closed: _,
            is_given_up: _,
        } = self;
        match SavedJob::new(row, files, deleted, limit, places) {
            Ok(job) => Ok(job),
            Err(fault) => Err(EndFault::Job(fault)),
        }
    }

    /// Ends the job. Returns what is to be committed, or `None` if the job was given up.
    ///
    /// # Errors
    ///
    /// - `NoLastPlace` if the job saves files, and its last place does not take all blocks that are
    ///   left.
    /// - `Job` if its files are out of order, or it starts after the year 9999.
    #[tactic(auto, unfolding(crate::specs::Drafting::ended))]
    pub fn end(self) -> Result<Option<SavedJob>, EndFault>
        ensures { AnswersAlways (λ o. o) end_number result (ended self) }
    {
        if self.is_given_up {
            return Ok(None);
        }
        if !self.has_places() {
            return Err(EndFault::NoLastPlace);
        }
        match self.into_job() {
            Ok(job) => Ok(Some(job)),
            Err(fault) => Err(fault),
        }
    }
}
