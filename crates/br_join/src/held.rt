ghost use Rattle.std.specs.Prelude.{◌≡◌, ◌+◌, ◌≤◌, ◌++◌, vec_capacity, vec_len, IfOk, IfErr, OnOk, OnErr};
ghost use Rattle.std.specs.FinMap.{empty};
ghost use Rattle.br_model.specs.Meaning.{hits_of, with_hits};
ghost use Rattle.br_join.specs.Room.{data_in, filled};
ghost use Rattle.br_join.specs.Front.{AreFronts, AreOf};
ghost use Rattle.br_records.specs.Runs.{AreListed};

use crate::floor::Floor;
use crate::fronts::Fronts;
use crate::room::{Room, let_go_if};
use br_match::Hit;
use br_records::settle;
use std::alloc::{AllocError, Global};
use std::collections::BTreeMap;
use std::marker::Model;
use std::mem;

/// The number of hits that are taken before the list is sorted for the first time.
const FIRST_LEN: usize = 4096;

/// A set of hits. Of several hits at one place of one file it keeps the first that was taken.
///
/// Hits are appended to a list and sorted when they are moved out: a list needs a third of the
/// memory of a tree. Hits that come again, as after a drive failed, make it longer. So it is also
/// sorted each time that it has become twice as long as after the last sort, and of hits at one
/// place the first is kept.
///
/// From the first data on for which there is no room, no data are held. The data of a hit are then
/// digested as it is taken, if it is the next one of its file. That costs two look-ups of its file
/// and its digest, and no walk over the hits that were taken before. Hits that come before those in
/// front of them hold their data until these are there, while half of the room is enough for that.
#[derive(Drop)]
pub(crate) struct Held {
    hits: Vec<Hit>,
    /// The number of hits from which the list is sorted before more are taken.
    full: usize,
    /// The fronts of the files of the hits, once data are let go.
    fronts: Fronts,
}

/// Hits in order of file and place, and fronts of their files.
#[derive(Drop)]
pub(crate) struct Listed {
    pub(crate) hits: Vec<Hit>,
    pub(crate) fronts: Fronts,
}

impl Model for Held {
    ghost use Rattle.br_model.specs.Meaning as model;
    ghost use Rattle.br_model.specs.Meaning.{hits_of};
    ghost use Rattle.br_join.specs.Code.{coded_hits};
    ghost use Rattle.br_join.specs.Front.{AreOf};

    ghost Value = { model.Hits };

    ghost coded = { coded_hits };

    ghost view = { λ h. hits_of h.hits.items };

    ghost invariant = { λ h. AreOf (hits_of h.hits.items) h.fronts };
}

/// Reserves room for the data of hits that come. If there is too little, their data are let go, and
/// those of the hits that were taken before. Data that were not digested before they were let go
/// are read again.
fn make_room(room: &mut Room, taken: &mut Vec<Hit>, hits: &mut Vec<Hit>, fronts: &mut Fronts)
    ensures room { room.new ≡ filled room.old (data_in hits.old.items) }
    ensures taken { taken.new.items ≡ taken.old.items }
    ensures taken_len { vec_len taken.new ≡ vec_len taken.old }
    ensures capacity { vec_capacity taken.new ≡ vec_capacity taken.old }
    ensures hits { hits.new.items ≡ hits.old.items }
    ensures hits_len { vec_len hits.new ≡ vec_len hits.old }
    ensures fronts { AreOf (hits_of taken.old.items) fronts.old → AreOf (with_hits (hits_of taken.old.items) hits.old.items) fronts.new }
{
    let held = room.holds_all();
    room.take(hits);
    let holds = room.holds_all();
    fronts.begin_if(held != holds, taken, room.half());
    fronts.note(hits);
    let_go_if(taken, held != holds);
    let_go_if(hits, !holds);
}

/// Appends hits to a list that has room for them.
fn append(list: &mut Vec<Hit>, mut hits: Vec<Hit>)
    requires { vec_len list.old + vec_len hits ≤ vec_capacity list.old }
    ensures { list.new.items ≡ list.old.items ++ hits.items }
{
    let _appended = list.append(&mut hits);
}

impl Held {
    /// Returns a set without hits of these pieces, which grows by this allocator.
    pub(crate) fn new(alloc: Global, floor: Floor) -> Held
        ensures { result ≡ empty }
    {
        Held {
            hits: Vec::new(alloc),
            full: FIRST_LEN,
            fronts: Fronts::none(alloc, floor),
        }
    }

    /// Sorts the list if it is twice as long as after the last sort. If there is no memory for
    /// that, it stays as it is until it is twice as long again.
    fn shorten(&mut self)
        ensures { self.new ≡ self.old }
    {
        if self.hits.len() < self.full {
            return;
        }
        let _sorted = settle(&mut self.hits);
        self.full = self.hits.len().saturating_mul(2);
    }

    /// Takes hits, and lets data go if there is no room for them. If memory runs out, nothing
    /// changes, and the hits are returned.
    pub(crate) fn take(&mut self, room: &mut Room, mut hits: Vec<Hit>) -> Result<(), Vec<Hit>>
        ensures ok { OnOk result (self.new ≡ with_hits self.old hits.items) }
        ensures room { OnOk result (room.new ≡ filled room.old (data_in hits.items)) }
        ensures err { OnErr result (self.new ≡ self.old) }
        ensures same { OnErr result (room.new ≡ room.old) }
        ensures back { IfErr result (λ value. value ≡ hits) }
    {
        self.shorten();
        if self.hits.try_reserve(hits.len()).is_err() {
            return Err(hits);
        }
        make_room(room, &mut self.hits, &mut hits, &mut self.fronts);
        append(&mut self.hits, hits);
        Ok(())
    }

    /// Moves all hits out, in order of file and place. A refusal changes nothing.
    pub(crate) fn take_out(&mut self) -> Result<Vec<Hit>, AllocError>
        ensures ok { OnOk result (self.new ≡ empty) }
        ensures err { OnErr result (self.new ≡ self.old) }
        ensures listed { IfOk result (λ hits. AreListed hits.items) }
        ensures same { IfOk result (λ hits. hits_of hits.items ≡ self.old) }
    {
        settle(&mut self.hits)?;
        let alloc = *self.hits.allocator();
        self.full = FIRST_LEN;
        self.fronts.forget();
        Ok(mem::replace(&mut self.hits, Vec::new(alloc)))
    }

    /// Takes back the hits that were moved out.
    pub(crate) fn put_back(&mut self, hits: Vec<Hit>)
        ensures { self.new ≡ hits_of hits.items }
    {
        self.fronts.forget();
        self.hits = hits;
    }

    /// Digests the data of hits that waited for those of a piece that is closed now.
    pub(crate) fn rise(&mut self, pieces: &BTreeMap<u32, bool>)
        ensures { self.new ≡ self.old }
    {
        self.fronts.rise(pieces);
    }

    /// Returns all hits, in order of file and place, and the fronts of their files.
    ///
    /// # Errors
    ///
    /// `AllocError` if memory runs out. Then the hits are lost.
    pub(crate) fn into_listed(self) -> Result<Listed, AllocError>
        ensures listed { IfOk result (λ r. AreListed r.hits.items) }
        ensures same { IfOk result (λ r. hits_of r.hits.items ≡ self) }
        ensures fronts { IfOk result (λ r. AreFronts r.fronts r.hits.items) }
    {
        let Held {
            mut hits,
            full: _full,
            fronts,
        } = self;
        settle(&mut hits)?;
        Ok(Listed { hits, fronts })
    }
}
