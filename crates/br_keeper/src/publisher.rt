//! The publisher, which has all jobs.
ghost use Rattle.std.specs.Prelude.{◌≡◌, ◌++◌, [], ◌<◌, length, IfOk, MatchResult, MatchOption, Some, None};
ghost use mathlib.Core.List.{IsPrefix};
ghost use Rattle.left_right.specs.Sides.{view};
ghost use Rattle.br_keeper.specs.Beginnings.{beginning};
ghost use Rattle.br_keeper.specs.Keeps.{knowing};
ghost use Rattle.br_keeper.specs.Writers.{Shows, ShowsAsBefore, ShowsIfDone, listed, waiting_in};
ghost use Rattle.br_keeper.specs.Sessions.{AllKnow};
ghost use Rattle.br_keeper.specs.Publishing.{all_published, publishing, with_added};

use crate::beginnings::{Front, JobList};
use crate::published::{Added, Begins, HistoryWriter, Published, Publishes};
use crate::sessions::{Receipt, Session};
use br_history::{History, JobRows};
use std::alloc::{AllocError, Global};
use std::marker::Model;
use std::mem;
use std::snapshot::Snapshot;
use std::sync::Wait;

/// The greatest number of jobs that can be added.
const MOST: u64 = 1 << 32;

/// A history, to which it adds jobs that it then publishes. It cannot be dropped: `close` ends it.
pub struct Publisher {
    writer: Option<HistoryWriter>,
    /// All jobs that were added.
    jobs: JobList,
    /// Those that are published.
    shown: Front,
    /// A job that the writer has not taken yet.
    unsent: Option<Added>,
    opening: Snapshot<History>,
}

impl Model for Publisher {
    ghost use Rattle.br_keeper.specs.Publishing.{Publishing};
    ghost use Rattle.br_keeper.specs.PublisherFields.{publisher_view, IsPublisher};

    ghost Value = { Publishing };

    ghost view = { publisher_view };

    ghost invariant = { IsPublisher };
}

/// Gives a waiting job to the writer. It comes back if memory runs out.
fn send(mut writer: HistoryWriter, unsent: Option<Added>) -> (HistoryWriter, Option<Added>)
    ensures desk { result.0.desk ≡ writer.desk }
    ensures waits { waiting_in result.0 ++ listed result.1 ≡ waiting_in writer ++ listed unsent }
{
    let Some(added) = unsent else {
        return (writer, None);
    };
    match writer.append(added) {
        Ok(()) => (writer, None),
        Err(back) => (writer, Some(back)),
    }
}

/// Publishes all waiting jobs. The last result is whether it did.
fn publish_all<R: Wait>(
    rt: &R,
    writer: HistoryWriter,
    unsent: Option<Added>,
    opening: &Snapshot<History>,
    shown: &Front,
    front: &Front,
) -> (HistoryWriter, Option<Added>, bool)
    requires { Shows writer (waiting_in writer ++ listed unsent) opening.now.value shown.now front.now }
    ensures { ShowsIfDone result.2 result.0 (waiting_in result.0 ++ listed result.1)
        opening.now.value shown.now front.now }
{
    let (writer, unsent) = send(writer, unsent);
    if unsent.is_some() {
        return (writer, unsent, false);
    }
    let (writer, done) = writer.publish_as::<Publishes, R>(rt);
    match done {
        Ok(()) => (writer, unsent, true),
        Err(_) => (writer, unsent, false),
    }
}

/// Opens this number of sessions.
fn open_sessions(
    alloc: Global,
    writer: &mut HistoryWriter,
    front: &Front,
    sessions: u32,
) -> Result<Vec<Session>, AllocError>
    requires { view writer.old.desk.place ≡ knowing front.now.book (view writer.old.desk.place).opening }
    ensures kept { ShowsAsBefore writer.old writer.new }
    ensures ok { IfOk result (λ v. AllKnow front.now.book (view writer.old.desk.place).opening front.now.log v.items
        × (length v.items ≡ sessions)) }
{
    let mut list = Vec::with_capacity(alloc, sessions as usize)?;
    for count in 0..sessions {
        let session = Session::open(writer, front)?;
        list.push_reserved(session);
    }
    Ok(list)
}

/// Makes a writer of two equal histories, and publishes the first, so that the writer knows the
/// list.
fn begin<R: Wait>(
    rt: &R,
    alloc: Global,
    opening: History,
    front: &Front,
    sessions: u32,
) -> Result<HistoryWriter, AllocError>
    requires none { front.now.log ≡ [] }
    requires sessions { (0 < sessions) × (sessions < 17) }
    ensures { IfOk result (λ w. Shows w (waiting_in w) opening front.now front.now) }
{
    let history = opening.copy(alloc)?;
    let second = Published {
        alloc,
        history,
        front: front.again(),
    };
    let first = Published {
        alloc,
        history: opening,
        front: front.again(),
    };
    let writer = HistoryWriter::new(alloc, first, second, sessions as usize)?;
    let (writer, done) = writer.publish_as::<Begins, R>(rt);
    if done.is_err() {
        writer.take(rt);
        return Err(AllocError);
    }
    Ok(writer)
}

impl Publisher {
    /// Publishes a history, and opens this number of sessions.
    pub fn new<R: Wait>(
        rt: &R,
        alloc: Global,
        opening: History,
        sessions: u32,
    ) -> Result<(Publisher, Vec<Session>), AllocError>
        requires sessions { (0 < sessions) × (sessions < 17) }
        ensures publisher { IfOk result (λ r. r.0 ≡ publishing r.0.book opening [] []) }
        ensures sessions { IfOk result (λ r. AllKnow r.0.book opening [] r.1.items × (length r.1.items ≡ sessions)) }
    {
        let Some(jobs) = JobList::open() else {
            return Err(AllocError);
        };
        let known = Snapshot::of(&opening);
        let mut writer = begin(rt, alloc, opening, jobs.front(), sessions)?;
        match open_sessions(alloc, &mut writer, jobs.front(), sessions) {
            Ok(list) => {
                let publisher = Publisher {
                    writer: Some(writer),
                    shown: jobs.front().again(),
                    jobs,
                    unsent: None,
                    opening: known,
                };
                Ok((publisher, list))
            }
            Err(_) => {
                writer.take(rt);
                Err(AllocError)
            }
        }
    }

    /// Ends the publisher. Its sessions take no more snapshots.
    pub fn close<R: Wait>(self, rt: &R) {
        let Publisher {
            writer,
            jobs: _jobs,
            shown: _shown,
            unsent: _unsent,
            opening: _opening,
        } = self;
        if let Some(writer) = writer {
            writer.take(rt);
        }
    }

    /// Returns what is published.
    pub fn history(&self) -> &History
        ensures { result.now ≡ self.now.opening ++ self.now.published }
    {
        match &self.writer {
            Some(writer) => &writer.published().history,
            None => unreachable!(),
        }
    }

    /// Returns the receipt of the last job that is published, if one was.
    #[tactic(auto, using(crate::proofs::BeginningLaws::no_last))]
    pub fn receipt(&self) -> Option<Receipt>
        ensures { MatchOption result (self.now.published ≡ []) (λ r. r ≡ beginning self.now.book self.now.published) }
    {
        match self.shown.last() {
            Some(job) => Some(Receipt::new(job, self.shown.again())),
            None => None,
        }
    }

    /// States that the jobs which a session knows to be published begin the added jobs.
    pub fn compare(&mut self, session: &Session)
        requires { session.now.book ≡ self.old.book }
        ensures same { self.new ≡ self.old }
        ensures begins { IsPrefix session.now.list self.old.added }
    {
        session.compare(&mut self.jobs);
    }

    /// Adds a job, which is not published yet. It takes no memory.
    ///
    /// # Errors
    ///
    /// The job comes back if another one waits because memory ran out, or if 2^32 jobs were added.
    pub fn add(&mut self, rows: JobRows) -> Result<(), JobRows>
        ensures { MatchResult result (λ _. self.new ≡ with_added self.old rows) (λ back. (back ≡ rows) × (self.new ≡ self.old)) }
    {
        if self.jobs.front().len() >= MOST || self.unsent.is_some() {
            return Err(rows);
        }
        if !self.jobs.add(&rows) {
            return Err(rows);
        }
        let front = self.jobs.front().again();
        self.unsent = Some(Added { rows, front });
        Ok(())
    }

    /// Publishes all jobs that were added.
    ///
    /// # Errors
    ///
    /// If memory runs out. Then nothing is changed.
    pub fn publish<R: Wait>(&mut self, rt: &R) -> Result<(), AllocError>
        ensures { MatchResult result (λ _. self.new ≡ all_published self.old) (λ _. self.new ≡ self.old) }
    {
        let Some(writer) = self.writer.take() else {
            unreachable!()
        };
        let unsent = self.unsent.take();
        let (writer, unsent, done) = publish_all(
            rt,
            writer,
            unsent,
            &self.opening,
            &self.shown,
            self.jobs.front(),
        );
        let none = mem::replace(&mut self.writer, Some(writer));
        let None = none else { unreachable!() };
        self.unsent = unsent;
        if !done {
            return Err(AllocError);
        }
        self.shown = self.jobs.front().again();
        Ok(())
    }
}
