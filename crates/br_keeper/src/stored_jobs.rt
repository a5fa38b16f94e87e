//! The stored jobs: those that are published, and the one that waits.
ghost use Rattle.std.specs.Prelude.{◌≡◌, ◌<◌, ◌++◌, [], length, IfOk, MatchBool, MatchResult, MatchOption};
ghost use Rattle.br_keeper.specs.Beginnings.{beginning};
ghost use Rattle.br_keeper.specs.Publishing.{all_published, publishing, with_added};
ghost use Rattle.br_keeper.specs.Sessions.{AllKnow};
ghost use Rattle.br_keeper.specs.Listing.{Announces, IsListing, KnowsStored, PublishesAdded, PublishesAll, Republishes, Waits};

use crate::publisher::Publisher;
use crate::sessions::{Receipt, Session};
use br_history::{History, JobRows};
use std::alloc::{AllocError, Global};
use std::marker::Model;
use std::mem;
use std::sync::Wait;

/// A job that is stored and not published.
#[derive(Drop)]
pub(crate) enum Waiting {
    Nothing,
    /// A job that the publisher has not taken.
    Stored(JobRows),
    /// A job that the publisher has taken.
    Taken,
}

/// A list of stored jobs, which are all published, or all but the last. It cannot be dropped:
/// `close` ends it.
pub(crate) struct Listing {
    publisher: Publisher,
    waiting: Waiting,
}

impl Model for Listing {
    ghost use Rattle.br_keeper.specs.Publishing.{Publishing};
    ghost use Rattle.br_keeper.specs.Listing.{IsListing, with_waiting};

    ghost Value = { Publishing };

    ghost view = { λ l. with_waiting l.publisher l.waiting };

    ghost invariant = { λ l. IsListing l.publisher l.waiting };
}

/// Publishes a job that the publisher has taken. Returns what waits then.
fn publish_taken<R: Wait>(rt: &R, publisher: &mut Publisher) -> Waiting
    ensures { PublishesAdded publisher.old publisher.new result }
{
    match publisher.publish(rt) {
        Ok(()) => Waiting::Nothing,
        Err(_) => Waiting::Taken,
    }
}

/// Publishes what waits. Returns what waits then.
fn publish_all<R: Wait>(rt: &R, publisher: &mut Publisher, waiting: Waiting) -> Waiting
    requires { IsListing publisher.old waiting }
    ensures { PublishesAll publisher.old waiting publisher.new result }
{
    match waiting {
        Waiting::Nothing => Waiting::Nothing,
        Waiting::Taken => publish_taken(rt, publisher),
        Waiting::Stored(rows) => match publisher.add(rows) {
            Ok(()) => publish_taken(rt, publisher),
            Err(rows) => Waiting::Stored(rows),
        },
    }
}

impl Listing {
    /// Publishes a history, and opens this number of sessions.
    pub(crate) fn new<R: Wait>(
        rt: &R,
        alloc: Global,
        opening: History,
        sessions: u32,
    ) -> Result<(Listing, Vec<Session>), AllocError>
        requires sessions { (0 < sessions) × (sessions < 17) }
        ensures listing { IfOk result (λ r. r.0 ≡ publishing r.0.book opening [] []) }
        ensures sessions { IfOk result (λ r. AllKnow r.0.book opening [] r.1.items × (length r.1.items ≡ sessions)) }
    {
        let (publisher, list) = Publisher::new(rt, alloc, opening, sessions)?;
        let listing = Listing {
            publisher,
            waiting: Waiting::Nothing,
        };
        Ok((listing, list))
    }

    /// Ends the list. Its sessions take no more snapshots.
    pub(crate) fn close<R: Wait>(self, rt: &R) {
        let Listing {
            publisher,
            waiting: _waiting,
        } = self;
        publisher.close(rt);
    }

    /// Returns what is published.
    pub(crate) fn history(&self) -> &History
        ensures { result.now ≡ self.now.opening ++ self.now.published }
    {
        self.publisher.history()
    }

    /// States that a session knows no more than what is published, and the job that waits.
    pub(crate) fn compare(&mut self, session: &Session)
        requires { session.now.book ≡ self.old.book }
        ensures same { self.new ≡ self.old }
        ensures shown { KnowsStored session.now.list self.old }
    {
        self.publisher.compare(session);
    }

    /// Returns the receipt of the last job that is published, if one was.
    fn receipt(&self) -> Option<Receipt>
        ensures { MatchOption result (self.now.published ≡ []) (λ r. r ≡ beginning self.now.book self.now.published) }
    {
        self.publisher.receipt()
    }

    /// Returns whether all stored jobs are published.
    fn is_published(&self) -> bool
        ensures { MatchBool result (self.now.published ≡ self.now.added) (Waits self.now × (self.now.added ≡ [] → ⊥)) }
    {
        matches!(self.waiting, Waiting::Nothing)
    }

    /// Adds a job that waits. None waits before.
    fn put(&mut self, rows: JobRows)
        requires { self.old.published ≡ self.old.added }
        ensures { self.new ≡ with_added self.old rows }
    {
        self.waiting = Waiting::Stored(rows);
    }

    /// Publishes the job that waits, if one does. Nothing is changed if memory runs out.
    pub(crate) fn publish<R: Wait>(&mut self, rt: &R) -> Result<(), AllocError>
        ensures { MatchResult result (λ _. self.new ≡ all_published self.old) (λ _. self.new ≡ self.old) }
    {
        let waiting = mem::replace(&mut self.waiting, Waiting::Nothing);
        self.waiting = publish_all(rt, &mut self.publisher, waiting);
        if matches!(self.waiting, Waiting::Nothing) {
            Ok(())
        } else {
            Err(AllocError)
        }
    }

    /// Publishes one more job, and returns its receipt. If memory runs out, the job waits.
    pub(crate) fn announce<R: Wait>(&mut self, rt: &R, rows: JobRows) -> Result<Receipt, AllocError>
        requires { self.old.published ≡ self.old.added }
        ensures { MatchResult result (Announces self.old rows self.new) (λ _. self.new ≡ with_added self.old rows) }
    {
        self.put(rows);
        self.publish(rt)?;
        match self.receipt() {
            Some(receipt) => Ok(receipt),
            None => unreachable!(),
        }
    }

    /// Publishes the job that waits, and returns its receipt; `None` if none waits. Nothing is
    /// changed if memory runs out.
    pub(crate) fn republish<R: Wait>(&mut self, rt: &R) -> Result<Option<Receipt>, AllocError>
        ensures { MatchResult result (Republishes self.old self.new) (λ _. self.new ≡ self.old) }
    {
        if self.is_published() {
            return Ok(None);
        }
        self.publish(rt)?;
        match self.receipt() {
            Some(receipt) => Ok(Some(receipt)),
            None => unreachable!(),
        }
    }
}
