//! The keeper.
ghost use Rattle.std.specs.Prelude.{◌≡◌, ◌<◌, [], length, Err, IfErr, IfOk, Ok, OnErr, OnOk, MatchResult};
ghost use Rattle.br_volume.specs.Store.{AppendsInPartTo, AppendsTo, FailsOn, Lasts};
ghost use Rattle.br_keeper.specs.Sessions.{AllKnow};
ghost use Rattle.br_keeper.specs.Listing.{KnowsStored};
ghost use Rattle.br_keeper.specs.Vouching.{vouched};
ghost use Rattle.br_keeper.specs.Keeping.{IsNew, RepublishesKept, jobs_of, shelf_of};
ghost use Rattle.br_keeper.specs.Writing.{AreDurable};
ghost use Rattle.br_keeper.specs.Committing.{IsNotMade};
ghost use Rattle.br_keeper.specs.Holding.{HoldsJob, OutlastsCrash, StandsIfHeld, StandsOn};
ghost use Rattle.br_keeper.specs.Outcomes.{AppendsFrontAndRetires, CommitsDurably, IsEarly, OnlyAppends, Refuses, StoresAndPublishes, StoresDurably, StoresUnpublished};
ghost use Rattle.br_keeper.specs.Outcomes.{backing, lasting};
ghost use Rattle.br_keeper.specs.declared.fault.KeeperFault.TheVariants.{Store, StoredNotPublished, Volume};

use crate::appending::write_blocks;
use crate::fault::KeeperFault;
use crate::job_store::{JobStore, JobStoreFault};
use crate::prepared::{Prepared, prepare};
use crate::sessions::{Receipt, Session};
use crate::stored_jobs::Listing;
use crate::vouched_lengths::{Vouch, vouched};
use br_history::{JobRows, SavedJob};
use br_types::VolName;
use br_volume::{VolumeFault, VolumeStore};
use std::alloc::Global;
use std::marker::Model;
use std::sync::Wait;

/// A catalogue and volumes, to which it commits jobs, which it then publishes. It cannot be
/// dropped: `close` ends it and gives both back.
pub struct Keeper<C: JobStore, W: VolumeStore> {
    alloc: Global,
    catalogue: C,
    volumes: W,
    vouches: Vec<Vouch>,
    listing: Listing,
}

impl<C: JobStore, W: VolumeStore> Model for Keeper<C, W> {
    ghost use Rattle.std.specs.Coded.{codes};
    ghost use Rattle.br_keeper.specs.Keeping.{Keeping, keeping_code};

    ghost Value = { Keeping C W };

    ghost coded = { keeping_code C.code W.code (Prim.hlevel codes) };

    ghost view = { λ k. record { catalogue = k.catalogue; volumes = k.volumes; vouches = k.vouches.items; list = k.listing } };
}

/// Inserts the rows of a job, whose blocks are durable: all bytes of the volumes of its spans.
fn insert<C: JobStore, W: VolumeStore>(
    catalogue: &mut C,
    volumes: &W,
    rows: &JobRows,
) -> Result<(), JobStoreFault>
    requires durable { AreDurable rows.now.spans (W.holds volumes.now) (W.durable volumes.now) }
    ensures inserted { OnOk result (C.inserts rows.now catalogue.old catalogue.new) }
    ensures refused { OnErr result (C.refuses rows.now catalogue.old catalogue.new) }
{
    let _ = volumes;
    catalogue.insert_job(rows)
}

impl<C: JobStore + Drop, W: VolumeStore + Drop> Keeper<C, W> {
    /// Publishes the jobs of the catalogue, and opens this number of sessions.
    ///
    /// # Errors
    ///
    /// `Store` if the catalogue fails, `BadCatalogue` if its rows form no history.
    pub fn new<R: Wait>(
        rt: &R,
        alloc: Global,
        catalogue: C,
        volumes: W,
        sessions: u32,
    ) -> Result<(Keeper<C, W>, Vec<Session>), KeeperFault>
        requires sessions { (0 < sessions) × (sessions < 17) }
        ensures opening { IfOk result (λ r. C.loads catalogue r.0.catalogue (Ok r.0.list.opening)) }
        ensures keeper { IfOk result (λ r. IsNew volumes r.0) }
        ensures sessions { IfOk result (λ r. AllKnow r.0.list.book r.0.list.opening [] r.1.items × (length r.1.items ≡ sessions)) }
        ensures refused { IfErr result (λ why. IsNotMade C.loads catalogue why) }
        ensures stands { IfOk result (λ r. StandsIfHeld (shelf_of W.holds W.failures) r.0) }
    {
        let mut catalogue = catalogue;
        let opening = catalogue.load_history()?;
        let (listing, list) = Listing::new(rt, alloc, opening, sessions)?;
        let keeper = Keeper {
            alloc,
            catalogue,
            volumes,
            vouches: Vec::new(alloc),
            listing,
        };
        Ok((keeper, list))
    }
}

impl<C: JobStore, W: VolumeStore> Keeper<C, W> {
    /// Ends the keeper, and returns its catalogue and its volumes. Its sessions take no more
    /// snapshots.
    pub fn close<R: Wait>(self, rt: &R) -> (C, W)
        ensures { (result.0 ≡ self.catalogue) × (result.1 ≡ self.volumes) }
    {
        let Keeper {
            alloc: _,
            catalogue,
            volumes,
            vouches: _vouches,
            listing,
        } = self;
        listing.close(rt);
        (catalogue, volumes)
    }

    /// Commits a job: writes its session to the volumes, makes these durable, inserts its rows into
    /// the catalogue, and publishes them. Returns the receipt. Spans begin at the vouched lengths.
    /// Each block is one append. Each volume that gets a block is synced, once.
    ///
    /// A job that waits to be published is published first.
    ///
    /// # Errors
    ///
    /// In this order. Up to `RetiredVolume` nothing is changed, but a job that waited is published.
    ///
    /// - `DuplicateJob` if another job has the number, `DuplicateSession` if one has the session.
    /// - `BadRow` if a span would end after the address 2^63 - 2, or there would be 2^32 spans or
    ///   more.
    /// - `RetiredVolume` if an append or a sync by this keeper failed at a volume of the places, or
    ///   the volume has another length than the vouched one.
    /// - `Volume` if the store fails at a volume of the places. At a length nothing is changed. At an
    ///   append the blocks before it are on the volumes, and the first of its bytes may be. At a
    ///   sync all blocks are. The volume whose append or sync failed is retired. Nothing is tried
    ///   again: with a receipt, `Store` and `StoredNotPublished` no call of the store has failed.
    /// - `Store` if the catalogue fails. All blocks are appended and durable.
    /// - `StoredNotPublished` if memory runs out for the publishing. All blocks are appended and
    ///   durable, and the catalogue has the job.
    pub fn commit<R: Wait>(&mut self, rt: &R, job: SavedJob) -> Result<Receipt, KeeperFault>
        ensures stored { IfOk result (StoresAndPublishes (backing C.JobStore W.VolumeStore) job self.old self.new) }
        ensures waits { result ≡ Err StoredNotPublished → StoresUnpublished (backing C.JobStore W.VolumeStore) job self.old self.new }
        ensures blocks { result ≡ Err Store → OnlyAppends (backing C.JobStore W.VolumeStore) job self.old self.new }
        ensures torn { result ≡ Err Volume → AppendsFrontAndRetires (backing C.JobStore W.VolumeStore) job self.old self.new }
        ensures refused { IfErr result (λ why. IsEarly why → Refuses (backing C.JobStore W.VolumeStore) job self.old self.new why) }
        ensures holds { HoldsJob (backing C.JobStore W.VolumeStore) job self.old self.new result }
        ensures outlasts { OutlastsCrash (lasting C.JobStore W.VolumeStore) job self.old self.new result }
    {
        // A clause of `commit_saved` says all outcomes at once: it is proved step by step.
        self.commit_saved(rt, &job)
    }

    /// Writes the session of a job to the volumes, makes these durable, and inserts the job's rows
    /// into the catalogue. Returns the rows.
    #[tactic(auto, using(br_volume::proofs::SyncLaws::lasts_itself))]
    fn store(&mut self, job: &SavedJob) -> Result<JobRows, KeeperFault>
        ensures job { StoresDurably (lasting C.JobStore W.VolumeStore) job.now self.old self.new result }
        ensures list { self.new.list ≡ self.old.list }
        ensures lasts { Lasts (W.durable self.old.volumes) (W.durable self.new.volumes) }
    {
        let Prepared {
            rows,
            blocks,
            starts,
        } = prepare(self.alloc, &self.vouches, self.listing.history(), job)?;
        write_blocks(
            self.alloc,
            &mut self.volumes,
            &mut self.vouches,
            &rows,
            &starts,
            &blocks,
        )?;
        match insert(&mut self.catalogue, &self.volumes, &rows) {
            Ok(()) => Ok(rows),
            Err(_) => Err(KeeperFault::Store),
        }
    }

    /// Commits a job.
    #[tactic(auto, using(br_volume::proofs::SyncLaws::lasts_itself))]
    fn commit_saved<R: Wait>(&mut self, rt: &R, job: &SavedJob) -> Result<Receipt, KeeperFault>
        ensures commits { CommitsDurably (lasting C.JobStore W.VolumeStore) job.now self.old self.new result }
        ensures lasts { Lasts (W.durable self.old.volumes) (W.durable self.new.volumes) }
    {
        self.listing.publish(rt)?;
        let rows = self.store(job)?;
        match self.listing.announce(rt, rows) {
            Ok(receipt) => Ok(receipt),
            Err(_) => Err(KeeperFault::StoredNotPublished),
        }
    }

    /// Publishes the job that waits to be published, and returns its receipt; `None` if no job
    /// waits.
    ///
    /// # Errors
    ///
    /// If memory runs out. Then nothing is changed.
    pub fn republish<R: Wait>(&mut self, rt: &R) -> Result<Option<Receipt>, KeeperFault>
        ensures list { MatchResult result (RepublishesKept self.old self.new)
            (λ why. (why ≡ KeeperFault.Memory) × (self.new ≡ self.old)) }
        ensures stands { StandsOn (shelf_of W.holds W.failures) self.old self.new }
        ensures settled { W.durable self.new.volumes ≡ W.durable self.old.volumes }
    {
        // The publishing has a clause of its own, from which these are proved.
        self.publish_waiting(rt)
    }

    /// Publishes the job that waits to be published.
    fn publish_waiting<R: Wait>(&mut self, rt: &R) -> Result<Option<Receipt>, KeeperFault>
        ensures { MatchResult result (RepublishesKept self.old self.new)
            (λ why. (why ≡ KeeperFault.Memory) × (self.new ≡ self.old)) }
    {
        match self.listing.republish(rt) {
            Ok(receipt) => Ok(receipt),
            Err(_) => Err(KeeperFault::Memory),
        }
    }

    /// Appends bytes to a volume, for which no job vouches.
    ///
    /// # Errors
    ///
    /// `Failed` if the store of volumes failed. Then none of the bytes, or the first of them, are
    /// appended.
    pub fn append_raw(&mut self, vol: &VolName, bytes: &[u8]) -> Result<(), VolumeFault>
        ensures appended { OnOk result (AppendsTo vol.now bytes.now (W.holds self.old.volumes) (W.holds self.new.volumes)) }
        ensures refused { OnErr result (AppendsInPartTo vol.now bytes.now (W.holds self.old.volumes) (W.holds self.new.volumes)) }
        ensures failed { OnErr result (FailsOn vol.now (W.failures self.old.volumes) (W.failures self.new.volumes)) }
        ensures same { self.new ≡ record self.old { volumes = self.new.volumes } }
        ensures stands { StandsOn (shelf_of W.holds W.failures) self.old self.new }
        ensures lasts { Lasts (W.durable self.old.volumes) (W.durable self.new.volumes) }
    {
        self.volumes.append(vol, bytes)
    }

    /// States that a session knows no more jobs than are published. While a job waits to be
    /// published, the session knows no more than these and that job.
    pub fn compare(&mut self, session: &Session)
        requires { session.now.book ≡ self.old.list.book }
        ensures same { self.new ≡ self.old }
        ensures shown { KnowsStored session.now.list self.old.list }
    {
        self.listing.compare(session);
    }

    /// Returns the volumes for reading.
    pub fn volumes(&self) -> &W
        ensures { result.now ≡ self.now.volumes }
    {
        &self.volumes
    }

    /// Returns the vouched length of a volume, at which the next commit begins.
    pub fn vouched(&self, vol: &VolName) -> u64
        ensures { self.now.list.published ≡ self.now.list.added → result ≡ vouched self.now.vouches (jobs_of self.now) vol.now }
    {
        vouched(&self.vouches, self.listing.history().jobs(), vol)
    }
}
