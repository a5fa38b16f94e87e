//! Sessions, the snapshots that they take and the receipts that they learn.
ghost use Rattle.std.specs.Prelude.{◌≡◌, ◌++◌, length, IfOk, MatchResult, Some};
ghost use mathlib.Core.List.{IsPrefix};
ghost use Rattle.left_right.specs.Sides.{view};
ghost use Rattle.br_keeper.specs.Keeps.{knowing};
ghost use Rattle.br_keeper.specs.Beginnings.{last_id};
ghost use Rattle.br_keeper.specs.Sessions.{Extends, known};
ghost use Rattle.br_keeper.specs.Writers.{ShowsAsBefore};

use crate::beginnings::{Front, JobList};
use crate::published::{HistoryReader, HistoryReading, HistoryWriter, Notes, Sees};
use br_history::History;
use br_types::JobId;
use std::alloc::AllocError;
use std::marker::Model;

/// The proof that a job is published.
#[derive(Drop)]
pub struct Receipt {
    job: JobId,
    front: Front,
}

impl Model for Receipt {
    ghost use Rattle.std.specs.Prelude.{◌≡◌, Some};
    ghost use Rattle.br_keeper.specs.Beginnings.{Beginning, last_id};

    ghost Value = { Beginning };

    ghost view = { λ r. r.front };

    ghost invariant = { λ r. last_id r.front.log ≡ Some r.job };
}

impl Receipt {
    /// Makes the receipt of the last job of a list.
    pub(crate) fn new(job: JobId, front: Front) -> Receipt
        requires { last_id front.log ≡ Some job }
        ensures { result ≡ front }
    {
        Receipt { job, front }
    }

    /// Returns the number of jobs that were added up to this one.
    pub fn number(&self) -> u64
        ensures { result ≡ length self.now.log }
    {
        self.front.len()
    }

    /// Returns the number of the job.
    pub fn job(&self) -> JobId
        ensures { last_id self.now.log ≡ Some result }
    {
        self.job
    }
}

/// A reader that takes snapshots, one at a time.
#[derive(Drop)]
pub struct Session {
    reader: HistoryReader,
    front: Front,
}

impl Model for Session {
    ghost use Rattle.br_keeper.specs.Sessions.{Known};

    ghost Value = { Known };

    ghost use Rattle.br_keeper.specs.SessionFields.{session_view, IsSession};

    ghost view = { session_view };

    ghost invariant = { IsSession };
}

/// All that was published at one moment. It cannot be dropped: `release` ends it.
pub struct Snapshot {
    reading: HistoryReading,
    front: Front,
}

impl Model for Snapshot {
    ghost use Rattle.br_keeper.specs.Sessions.{Known};

    ghost Value = { Known };

    ghost use Rattle.br_keeper.specs.SessionFields.{snapshot_view, IsSnapshot};

    ghost view = { snapshot_view };

    ghost invariant = { IsSnapshot };
}

impl Session {
    /// Opens a session of the writer. It knows that this beginning of the list is published.
    pub(crate) fn open(writer: &mut HistoryWriter, front: &Front) -> Result<Session, AllocError>
        requires { view writer.old.desk.place ≡ knowing front.now.book (view writer.old.desk.place).opening }
        ensures kept { ShowsAsBefore writer.old writer.new }
        ensures ok { IfOk result (λ s. s ≡ known front.now.book (view writer.old.desk.place).opening front.now.log) }
    {
        let mut reader = writer.factory().reader()?;
        let note = writer.tell::<Notes>();
        reader.learn::<Notes>(note);
        Ok(Session {
            reader,
            front: front.again(),
        })
    }

    /// States that what the session knows begins the list.
    pub(crate) fn compare(&self, jobs: &mut JobList)
        requires { self.now.book ≡ jobs.old.book }
        ensures same { jobs.new ≡ jobs.old }
        ensures begins { IsPrefix self.now.list jobs.old.log }
    {
        jobs.cover(&self.front);
    }

    /// Learns a receipt: the session's snapshots contain the receipt's job from now on.
    pub fn learn(self, receipt: &Receipt) -> Session
        requires { receipt.now.book ≡ self.book }
        ensures mine { Extends self result }
        ensures told { IsPrefix receipt.now.log result.list }
    {
        let Session { reader, front } = self;
        if front.len() < receipt.front.len() {
            front.compare(&receipt.front);
            let told = receipt.front.again();
            Session {
                reader,
                front: told,
            }
        } else {
            receipt.front.compare(&front);
            Session { reader, front }
        }
    }

    /// Takes a snapshot of what is published. It never waits.
    ///
    /// # Errors
    ///
    /// The session comes back if no snapshot is available, as after the publisher has ended.
    pub fn snapshot(self) -> Result<Snapshot, Session>
        ensures { MatchResult result (λ s. Extends self s) (λ s. s ≡ self) }
    {
        let Session { reader, front } = self;
        let reading = match reader.enter_as::<Sees>() {
            Ok(reading) => reading,
            Err(reader) => return Err(Session { reader, front }),
        };
        let shown = reading.get();
        if shown.front.len() < front.len() {
            let reader = reading.leave();
            return Err(Session { reader, front });
        }
        front.compare(&shown.front);
        let now = shown.front.again();
        Ok(Snapshot {
            reading,
            front: now,
        })
    }
}

impl Snapshot {
    /// Returns the history: the opening jobs, and then the list.
    pub fn history(&self) -> &History
        ensures { result.now ≡ self.now.opening ++ self.now.list }
    {
        &self.reading.get().history
    }

    /// Returns the number of jobs that were published since the keeper was made.
    pub fn number(&self) -> u64
        ensures { result ≡ length self.now.list }
    {
        let known = &self.front;
        known.len()
    }

    /// Ends the snapshot, and returns its session.
    pub fn release(self) -> Session
        ensures { result ≡ self }
    {
        let Snapshot { reading, front } = self;
        Session {
            reader: reading.leave(),
            front,
        }
    }
}
