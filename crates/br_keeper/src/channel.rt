//! A keeper that serves requests from a channel.
ghost use Rattle.std.specs.Prelude.{◌≡◌};
ghost use Rattle.br_keeper.specs.Outcomes.{lasting};
ghost use Rattle.br_keeper.specs.Channel.{HasServed, IsCommit, IsLeftByCommits, IsReply};

use crate::fault::KeeperFault;
use crate::job_store::JobStore;
use crate::keeper::Keeper;
use crate::sessions::Receipt;
use br_history::SavedJob;
use br_types::JobId;
use br_volume::VolumeStore;
use crossbeam_channel::{Receiver, Sender};
use std::marker::{Brand, Model, PhantomData};
use std::sync::Wait;

/// Names the list to which a keeper adds its jobs. Each call that makes a keeper's
/// channel chooses it.
pub trait Naming {
    ghost use Rattle.logbook.specs.Pages.{Book};

    /// The list.
    ghost book: { Book };
}

impl Naming for Brand {
    ghost book = { record { number = 0; log_name = 0; cells_name = 0 } };
}

/// The reply to a request: the receipt of the requested job, or the refusal.
#[derive(Drop)]
pub struct Reply<K: Naming> {
    job: JobId,
    receipt: Result<Receipt, KeeperFault>,
    of: PhantomData<K>,
}

impl<K: Naming> Model for Reply<K> {
    ghost use Rattle.br_keeper.specs.Channel.{Replied, IsReply};

    ghost Value = { Replied };

    ghost view = { λ r. record { job = r.job; receipt = r.receipt } };

    ghost invariant = { λ r. IsReply K.book r.job r.receipt };
}

impl<K: Naming> Reply<K> {
    /// Returns the number of the requested job.
    pub fn job(&self) -> JobId
        ensures { result ≡ self.now.job }
    {
        self.job
    }

    /// Returns the receipt, or the refusal. A receipt is of the list, and of the job.
    pub fn receipt(&self) -> &Result<Receipt, KeeperFault>
        ensures receipt { result.now ≡ self.now.receipt }
        ensures valid { IsReply K.book self.now.job self.now.receipt }
    {
        &self.receipt
    }
}

/// A request to commit a job.
#[derive(Drop)]
pub struct Ask<K: Naming> {
    pub job: SavedJob,
    /// The reply goes to this sender.
    pub reply: Sender<Reply<K>>,
}

/// Makes the reply to a request.
fn reply_to<K: Naming>(job: JobId, receipt: Result<Receipt, KeeperFault>) -> Reply<K>
    requires { IsReply K.book job receipt }
    ensures { result ≡ record { job = job; receipt = receipt } }
{
    Reply {
        job,
        receipt,
        of: PhantomData,
    }
}

/// Commits a job, and makes the reply.
fn answer<K: Naming, C: JobStore, W: VolumeStore, R: Wait>(
    rt: &R,
    keeper: &mut Keeper<C, W>,
    job: SavedJob,
) -> Reply<K>
    requires { keeper.old.list.book ≡ K.book }
    ensures job { result.job ≡ job.row.id }
    ensures commit { IsCommit (lasting C.JobStore W.VolumeStore) job keeper.old keeper.new result.receipt }
{
    let id = job.row().id;
    let receipt = keeper.commit(rt, job);
    reply_to::<K>(id, receipt)
}

/// Commits the job of each request and sends the reply, until all senders of requests are dropped.
/// Returns the keeper.
///
/// A reply whose receiver was dropped, or for which there is no memory, is lost. The job stays as
/// the commit left it.
pub fn serve<K: Naming, C: JobStore, W: VolumeStore, R: Wait>(
    rt: &R,
    keeper: Keeper<C, W>,
    inbox: &Receiver<Ask<K>>,
) -> Keeper<C, W>
    requires { keeper.list.book ≡ K.book }
    ensures commits { IsLeftByCommits (lasting C.JobStore W.VolumeStore) keeper result }
    ensures list { HasServed keeper.list result.list }
{
    let mut keeper = keeper;
    for _ in rt.forever() {
        let Ok(ask) = inbox.recv(rt) else {
            break;
        };
        let Ask { job, reply } = ask;
        let _ = reply.send(rt, answer::<K, C, W, R>(rt, &mut keeper, job));
    }
    keeper
}
