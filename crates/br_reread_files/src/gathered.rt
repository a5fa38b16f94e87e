ghost use Rattle.std.specs.Prelude.{◌≡◌, ◌<◌, ◌≤◌, ◌==◌, length, map, nat_abs, Err, OnErr, OnOk, IfOk};
ghost use Rattle.std.specs.List.{AllZip, list_any};
ghost use Rattle.br_data.specs.declared.reread_fault.AgainFault.TheVariants.{Changed, Failed};
ghost use Rattle.br_model.specs.Meaning as meaning;
ghost use Rattle.br_model.specs.Meaning.{hits_of};
ghost use Rattle.br_join.specs.Outcome.{restored};
ghost use Rattle.br_data.specs.ManyDrives.{GoOn, HaveFailed};
ghost use Rattle.br_join.specs.Runs.{files_of};
ghost use Rattle.br_sink.specs.Delivery.{items_in};
ghost use Rattle.br_reread_files.specs.Again.{AreSameIfGiven, CanMakeAll, IsLike};
ghost use Rattle.br_sink.specs.declared.file_parts.PartsFault.TheVariants.{Fault};
ghost use Rattle.br_sink.specs.declared.file_parts.PartsFault.TheVariants as why;
ghost use Rattle.br_reread_parts.specs.FileParts.{PutsAlike};
ghost use Rattle.br_reread_files.specs.FileParts.{GivesItem};
ghost use Rattle.br_reread_parts.specs.Given.{GivesHits};
ghost use Rattle.br_reread_files.specs.TwoFiles.{ChangesAny, ChangesEither, FailsAny, FailsEither, GivesKeyed, LosesAny, LosesEither};
ghost use Rattle.br_reread_files.specs.TwoFiles.{PutsAny, PutsTwo, keyed_files};

use crate::files_once_more::made_once_more;
use crate::light_hits::lightened;
use crate::making::files_by;
use crate::putting::{has_sparse_data, plain_run, put_whole};
use crate::two_files::{KeyedItem, TwoDone, put_two};
use br_data::{AgainFault, OverMany, standing_stays};
use br_join::{Fronts, Item, Joined, Joiner, Outcome};
use br_match::Hit;
use br_reread_parts::{PlainFile, put_plain};
use br_sink::{PartsFault, Sink};
use br_types::{FileKey, Names};
use br_volume::Drive;
use std::alloc::{AllocError, Global};
use std::marker::Model;
use std::thread::Threads;

/// The hits of a restore, in order of file and place, the names of its plan, if it has one, and what
/// was made of the first hits of files.
#[derive(Drop)]
pub struct Gathered {
    hits: Vec<Hit>,
    names: Option<Names>,
    fronts: Fronts,
}

impl Model for Gathered {
    ghost use Rattle.br_join.specs.Front.{AreFronts};
    ghost use Rattle.br_records.specs.Runs.{AreListed};
    ghost use Rattle.br_reread_files.specs.Code.{coded_gathered};
    ghost use Rattle.br_reread_files.specs.Gathered as model;

    ghost Value = { model.Gathered };

    ghost coded = { coded_gathered };

    ghost view = { λ g. record { hits = g.hits.items; names = g.names } };

    ghost invariant = { λ g. AreListed g.hits.items × AreFronts g.fronts g.hits.items };
}

impl Gathered {
    /// Returns the hits and names that the joiner took, and what it made of the first hits of files.
    ///
    /// # Errors
    ///
    /// `AllocError` if memory runs out. Then the hits are lost.
    pub fn of(joiner: Joiner) -> Result<Gathered, AllocError>
        ensures hits { IfOk result (λ g. hits_of g.hits ≡ joiner.hits) }
        ensures names { IfOk result (λ g. g.names ≡ joiner.names) }
    {
        let Joined {
            hits,
            names,
            fronts,
        } = joiner.into_hits()?;
        Ok(Gathered {
            hits,
            names,
            fronts,
        })
    }

    /// Returns the same without the file bytes that are in memory: they are read again each time.
    /// Attributes and digests stay, and what was made of the first hits of files.
    pub fn let_go(self) -> Gathered
        ensures { result ≡ self }
    {
        Gathered {
            hits: lightened(self.hits),
            names: self.names,
            fronts: self.fronts,
        }
    }

    /// Returns whether some of the data are sparse.
    pub fn has_sparse_data(&self) -> bool
        ensures { result ≡ list_any (λ (h : meaning.Hit). nat_abs h.fragment.stream == 6) self.now.hits }
    {
        has_sparse_data(&self.hits)
    }

    /// Makes the files, in order of key: the planned ones if there is a plan, else those that were
    /// found. Each drive makes some of them, in its own thread. A drive has at most two windows of
    /// data in memory, each of about 1 MiB, one of which another thread digests; of a file with
    /// sparse data it has all data. The bytes of the file are not kept. What was made of the first
    /// hits of a file is not read again.
    ///
    /// # Errors
    ///
    /// Those of `many`, and `Memory` if memory runs out. Of several faults it is the first in order
    /// of the files.
    pub fn files<D: Drive + Send>(
        &self,
        rt: &(impl Threads + Sync),
        alloc: Global,
        many: &mut OverMany<'_, D>,
    ) -> Result<Vec<(FileKey, Outcome)>, AgainFault>
        ensures files { IfOk result (λ made. GivesHits many.old self.now.hits → map restored made.items ≡ files_of self.now.hits self.now.names) }
        ensures on { GoOn many.old many.new }
        ensures changed { result ≡ Err Changed → GivesHits many.old self.now.hits → ⊥ }
        ensures failed { result ≡ Err Failed → HaveFailed many.old many.new }
    {
        files_by(
            rt,
            alloc,
            many,
            &self.hits,
            self.names.as_ref(),
            &self.fronts,
        )
    }

    /// Makes the files among these outcomes once more, in their order, and skips the faults. Their
    /// data are in memory together. Each file is like the one in the outcomes: they have the same
    /// path, numbers and link, and bytes of the same length and digest.
    ///
    /// # Errors
    ///
    /// Those of `many`, `Changed` if a file is not like the one in the outcomes, and `Memory` if
    /// memory runs out. There is no error if there is no file among the outcomes.
    pub fn again<D: Drive>(
        &self,
        alloc: Global,
        many: &mut OverMany<'_, D>,
        outcomes: &[(FileKey, Outcome)],
    ) -> Result<Vec<(FileKey, Outcome)>, AgainFault>
        ensures like { IfOk result (λ made. AllZip IsLike (items_in made.items) (items_in outcomes.now)) }
        ensures same { IfOk result (λ made. AreSameIfGiven many.old self.now.hits outcomes.now made.items) }
        ensures some { OnErr result (0 < length (items_in outcomes.now)) }
        ensures on { GoOn many.old many.new }
        ensures changed { result ≡ Err Changed → CanMakeAll many.old self.now.hits outcomes.now → ⊥ }
        ensures failed { result ≡ Err Failed → HaveFailed many.old many.new }
    {
        made_once_more(alloc, many, &self.hits, outcomes)
    }

    /// Puts a file like this one, made from the hits with its key, into a sink. They have the same
    /// path, numbers and link, and bytes of the same length and digest. The data are read again
    /// while the file is put: at most two windows of them are in memory, each of about 4 MiB, one
    /// of which another thread digests. A file with sparse data is in memory as a whole.
    ///
    /// # Errors
    ///
    /// The sink has what it had; one that does not report its files may hold a part of this one.
    ///
    /// - `NoDriveLeft` if each drive failed.
    /// - `Changed` if the data are no longer those that were found.
    /// - `Fault` if the sink failed.
    /// - `Memory` if memory ran out.
    pub fn put_by_parts<D: Drive, S: Sink>(
        &self,
        rt: &impl Threads,
        alloc: Global,
        many: &mut OverMany<'_, D>,
        key: FileKey,
        item: &Item,
        sink: &mut S,
    ) -> Result<(), PartsFault>
        ensures put { OnOk result (PutsAlike (GivesItem many.old self.now.hits key item.now) item.now (S.has sink.old) (S.has sink.new)) }
        ensures refused { OnErr result (S.has sink.new ≡ S.has sink.old) }
        ensures counted { S.failures sink.old ≤ S.failures sink.new }
        ensures failed { result ≡ Err Fault → S.failures sink.old < S.failures sink.new }
        ensures changed { result ≡ Err why.Changed → GivesItem many.old self.now.hits key item.now → ⊥ }
        ensures lost { result ≡ Err why.NoDriveLeft → HaveFailed many.old many.new }
        ensures on { GoOn many.old many.new }
    {
        let Some(run) = plain_run(&self.hits, key, item) else {
            return put_whole(alloc, many, &self.hits, key, item, sink);
        };
        put_plain(rt, alloc, many, run, item, sink)
    }

    /// Puts two files like these side by side, if neither has sparse data. Returns `None`, and the
    /// sink has what it had, if one has, or if the sink does not put these two side by side.
    #[tactic(auto, using(br_data::proofs::GoOnLaws::go_itself))]
    fn put_side_by_side<D: Drive, S: Sink>(
        &self,
        rt: &impl Threads,
        alloc: Global,
        many: &mut OverMany<'_, D>,
        one: &KeyedItem<'_>,
        other: &KeyedItem<'_>,
        sink: &mut S,
    ) -> Option<TwoDone>
        ensures put { PutsAny result (GivesKeyed many.old self.now one.now other.now) (keyed_files one.now other.now) (S.has sink.old) (S.has sink.new) }
        ensures counted { S.failures sink.old ≤ S.failures sink.new }
        ensures failed { FailsAny result → S.failures sink.old < S.failures sink.new }
        ensures changed { ChangesAny result → GivesKeyed many.old self.now one.now other.now → ⊥ }
        ensures lost { LosesAny result → HaveFailed many.old many.new }
        ensures on { GoOn many.old many.new }
    {
        let Some(run) = plain_run(&self.hits, one.key, one.item) else {
            return None;
        };
        let Some(more) = plain_run(&self.hits, other.key, other.item) else {
            return None;
        };
        let first = PlainFile {
            hits: run,
            item: one.item,
        };
        let second = PlainFile {
            hits: more,
            item: other.item,
        };
        put_two(rt, alloc, many, &first, &second, sink)
    }

    /// Puts two files like these, one after the other.
    #[tactic(auto, using(br_data::proofs::GoOnLaws::go_more, br_data::proofs::GoOnLaws::failed_on))]
    fn put_one_by_one<D: Drive, S: Sink>(
        &self,
        rt: &impl Threads,
        alloc: Global,
        many: &mut OverMany<'_, D>,
        one: &KeyedItem<'_>,
        other: &KeyedItem<'_>,
        sink: &mut S,
    ) -> TwoDone
        ensures put { PutsTwo result (GivesKeyed many.old self.now one.now other.now) (keyed_files one.now other.now) (S.has sink.old) (S.has sink.new) }
        ensures counted { S.failures sink.old ≤ S.failures sink.new }
        ensures failed { FailsEither result → S.failures sink.old < S.failures sink.new }
        ensures changed { ChangesEither result → GivesKeyed many.old self.now one.now other.now → ⊥ }
        ensures lost { LosesEither result → HaveFailed many.old many.new }
        ensures on { GoOn many.old many.new }
    {
        standing_stays();
        if let Err(why) = self.put_by_parts(rt, alloc, many, one.key, one.item, sink) {
            return TwoDone::Neither(why);
        }
        match self.put_by_parts(rt, alloc, many, other.key, other.item, sink) {
            Ok(()) => TwoDone::Both,
            Err(why) => TwoDone::One(why),
        }
    }

    /// Puts two files like these, made from the hits with their keys, into a sink, as
    /// `put_by_parts` does: side by side, if neither has sparse data and the sink does so, else one
    /// after the other. Side by side, two other threads digest, and at most two windows of each
    /// file are in memory.
    ///
    /// The caller makes sure that the two paths differ and that neither is below the other. If the
    /// first can't be put, neither is. A sink that does not report its files may hold a part of a
    /// file that was not put.
    #[tactic(auto, using(br_data::proofs::GoOnLaws::go_more, br_data::proofs::GoOnLaws::failed_on))]
    pub fn put_two_by_parts<D: Drive, S: Sink>(
        &self,
        rt: &impl Threads,
        alloc: Global,
        many: &mut OverMany<'_, D>,
        one: &KeyedItem<'_>,
        other: &KeyedItem<'_>,
        sink: &mut S,
    ) -> TwoDone
        ensures put { PutsTwo result (GivesKeyed many.old self.now one.now other.now) (keyed_files one.now other.now) (S.has sink.old) (S.has sink.new) }
        ensures counted { S.failures sink.old ≤ S.failures sink.new }
        ensures failed { FailsEither result → S.failures sink.old < S.failures sink.new }
        ensures changed { ChangesEither result → GivesKeyed many.old self.now one.now other.now → ⊥ }
        ensures lost { LosesEither result → HaveFailed many.old many.new }
        ensures on { GoOn many.old many.new }
    {
        standing_stays();
        if let Some(done) = self.put_side_by_side(rt, alloc, many, one, other, sink) {
            return done;
        }
        self.put_one_by_one(rt, alloc, many, one, other, sink)
    }
}
