ghost use Rattle.std.specs.Prelude.{◌≡◌, ◌≢◌, ◌++◌, ℕ, Bool, true, false, None, Some, map, option_map, IfOk, OnOk, OnErr, IfErr, IsErr};
ghost use Rattle.std.specs.List.{list_all};
ghost use Rattle.std.specs.BTreeMap.{values, IsOrdered};
ghost use Rattle.std.specs.Ordering.{nat_cmp};
ghost use Rattle.std.specs.FinMap as finite;
ghost use Rattle.br_model.specs.Meaning.{hits_of};
ghost use Rattle.br_model.specs.Restored.{files, planned_in};
ghost use Rattle.br_join.specs.Outcome.{restored};
ghost use Rattle.br_join.specs.Joining.{begun, begun_within, taken, with_batch, with_closed, is_ready, emptied};
ghost use Rattle.br_join.specs.Front.{AreFronts};
ghost use Rattle.br_join.specs.Pieces.{as_map, opens};
ghost use Rattle.br_records.specs.Runs.{AreListed};
ghost use Rattle.br_join.specs.declared.fault.JoinFault.TheVariants.{StrangerPiece};

use crate::fault::{JoinFault, Refused};
use crate::floor::Floor;
use crate::fronts::Fronts;
use crate::held::{Held, Listed};
use crate::item::Outcome;
use crate::room::{Room, let_all_go};
use crate::runs::files_of;
use br_match::{Batch, Found, Hit};
use br_piece::Piece;
use br_types::{FileKey, Names};
use std::alloc::{AllocError, Global};
use std::collections::BTreeMap;
use std::marker::Model;
use std::thread::Threads;

/// Gathers the hits of the pieces of a bootstrap, and makes files of them. Of several hits at one
/// place of one file it keeps the first that was taken. It appends hits to a list, and sorts the
/// list at the end.
///
/// At the first data for which there is no room, all data are let go, except attributes and
/// digests. The memory is then free for what follows. From then on the plain data of a hit are
/// digested as it is taken, if all hits of its file that are before it were digested, too: the file
/// has a front, and its first data are not read again to be digested. Fronts begin with the first
/// hit of a file. A hit that comes too early, from a later volume, waits with its data until those
/// before it are digested, while half of the room is enough for all such hits. A hit that comes
/// before those that are digested, or again, ends the front, and so do sparse data. The files are
/// made of their fronts and of data that are read again.
///
/// For contracts the hits stay the same: they see the bytes whether these are in memory or not, and
/// beside them how much room is left and whether all data are held.
#[derive(Drop)]
pub struct Joiner {
    /// The number of each piece, and whether the piece is closed.
    pieces: BTreeMap<u32, bool>,
    /// The path under which each file was planned, if there is a plan.
    names: Option<Names>,
    hits: Held,
    room: Room,
}

/// What a joiner took: the hits, in order of file and place, the names of the plan, if there is one,
/// and fronts of files of the hits.
#[derive(Drop)]
pub struct Joined {
    pub hits: Vec<Hit>,
    pub names: Option<Names>,
    pub fronts: Fronts,
}

impl Model for Joiner {
    ghost use Rattle.br_join.specs.Joining.{Joining};
    ghost use Rattle.br_join.specs.Pieces.{as_map};
    ghost use Rattle.br_join.specs.Code.{coded_joining};

    ghost Value = { Joining };

    ghost coded = { coded_joining };

    ghost view = { λ j. record { pieces = as_map j.pieces; names = j.names; hits = j.hits; room = j.room } };
}

/// Returns the numbers of the pieces, each of them open.
fn opened(alloc: Global, pieces: &[Piece]) -> Result<BTreeMap<u32, bool>, AllocError>
    ensures { IfOk result (λ numbers. as_map numbers ≡ finite.from_entries (opens pieces.now)) }
{
    let mut numbers = BTreeMap::new(alloc);
    for piece in pieces {
        numbers.insert(piece.number, false)?;
    }
    Ok(numbers)
}

/// Closes a piece.
fn close(pieces: &mut BTreeMap<u32, bool>, piece: u32)
    requires { finite.get (as_map pieces.old) piece ≢ None }
    ensures { as_map pieces.new ≡ finite.insert (as_map pieces.old) piece true }
{
    if let Some(closed) = pieces.get_mut(&piece) {
        *closed = true;
    }
}

/// Opens each piece again.
fn open_again(pieces: &mut BTreeMap<u32, bool>)
    ensures { as_map pieces.new ≡ finite.from_entries (map (λ (p : ℕ × Bool). (p.0, false)) (finite.entries (as_map pieces.old))) }
{
    pieces.retain(|_, closed| {
        *closed = false;
        true
    });
}

/// Returns whether each piece is closed.
fn all_closed(pieces: &BTreeMap<u32, bool>) -> bool
    ensures all { result ≡ list_all (λ (closed : Bool). closed) (values pieces.now) }
    ensures ordered { IsOrdered nat_cmp pieces.now }
{
    pieces.values().all(|closed| *closed)
}

impl Joiner {
    /// Returns a joiner of these pieces, each of them open. With names it restores the planned
    /// files and no others, else all files that are found. It has room for all data, so none are
    /// ever let go.
    pub fn new(alloc: Global, pieces: &[Piece], names: Option<Names>) -> Result<Joiner, AllocError>
        ensures { IfOk result (λ joiner. joiner ≡ begun pieces.now names) }
    {
        Joiner::within(alloc, pieces, names, None)
    }

    /// Returns a joiner as `new` does, with room for this number of bytes of data. Attributes and
    /// digests are not counted.
    pub fn with_room(
        alloc: Global,
        pieces: &[Piece],
        names: Option<Names>,
        room: u64,
    ) -> Result<Joiner, AllocError>
        ensures { IfOk result (λ joiner. joiner ≡ begun_within (Some room) pieces.now names) }
    {
        Joiner::within(alloc, pieces, names, Some(room))
    }

    /// Returns a joiner as `new` does, with room for this number of bytes of data if there is a
    /// bound.
    fn within(
        alloc: Global,
        pieces: &[Piece],
        names: Option<Names>,
        bound: Option<u64>,
    ) -> Result<Joiner, AllocError>
        ensures { IfOk result (λ joiner. joiner ≡ begun_within bound pieces.now names) }
    {
        Ok(Joiner {
            pieces: opened(alloc, pieces)?,
            names,
            hits: Held::new(alloc, Floor::of(alloc, pieces)?),
            room: Room::new(bound),
        })
    }

    /// Takes what was found of a piece, and closes the piece. A hit at a place of a file that was
    /// taken already changes nothing. The hits are moved, and their bytes are not copied.
    ///
    /// # Errors
    ///
    /// `StrangerPiece` if the number is not that of one of the pieces, `Memory` if memory runs out.
    /// Then the joiner is unchanged, and what was found is returned with the fault.
    pub fn take(&mut self, found: Found) -> Result<(), Refused<Found>>
        ensures ok { OnOk result (self.new ≡ taken self.old found.piece found.hits.items) }
        ensures err { OnErr result (self.new ≡ self.old) }
        ensures back { IfErr result (λ refused. refused.value ≡ found) }
        ensures stranger { finite.get self.old.pieces found.piece ≡ None → IfErr result (λ refused. refused.fault ≡ StrangerPiece) }
        ensures known { IfErr result (λ refused. refused.fault ≡ StrangerPiece → finite.get self.old.pieces found.piece ≡ None) }
        ensures refused { finite.get self.old.pieces found.piece ≡ None → IsErr result }
    {
        if !self.pieces.contains_key(&found.piece) {
            return Err(Refused {
                value: found,
                fault: JoinFault::StrangerPiece,
            });
        }
        let piece = found.piece;
        if let Err(hits) = self.hits.take(&mut self.room, found.hits) {
            return Err(Refused {
                value: Found { piece, hits },
                fault: JoinFault::Memory,
            });
        }
        close(&mut self.pieces, piece);
        self.hits.rise(&self.pieces);
        Ok(())
    }

    /// Takes the hits in a block of a piece, which stays as it is, open or closed. A hit at a place
    /// of a file that was taken already changes nothing. The hits are moved, and their bytes are not
    /// copied.
    ///
    /// # Errors
    ///
    /// `StrangerPiece` if the number is not that of one of the pieces, `Memory` if memory runs out.
    /// Then the joiner is unchanged, and the batch is returned with the fault.
    pub fn take_batch(&mut self, piece: u32, batch: Batch) -> Result<(), Refused<Batch>>
        ensures ok { OnOk result (self.new ≡ with_batch self.old batch.hits.items) }
        ensures err { OnErr result (self.new ≡ self.old) }
        ensures back { IfErr result (λ refused. refused.value ≡ batch) }
        ensures stranger { finite.get self.old.pieces piece ≡ None → IfErr result (λ refused. refused.fault ≡ StrangerPiece) }
        ensures known { IfErr result (λ refused. refused.fault ≡ StrangerPiece → finite.get self.old.pieces piece ≡ None) }
        ensures refused { finite.get self.old.pieces piece ≡ None → IsErr result }
    {
        if !self.pieces.contains_key(&piece) {
            let fault = JoinFault::StrangerPiece;
            return Err(Refused {
                value: batch,
                fault,
            });
        }
        match self.take_hits(batch) {
            Ok(()) => Ok(()),
            Err(value) => Err(Refused {
                value,
                fault: JoinFault::Memory,
            }),
        }
    }

    /// Takes the hits in a block of one of the pieces, as `take_batch` does. If memory runs out the
    /// joiner is unchanged, and the batch is returned.
    pub fn take_hits(&mut self, batch: Batch) -> Result<(), Batch>
        ensures ok { OnOk result (self.new ≡ with_batch self.old batch.hits.items) }
        ensures err { OnErr result (self.new ≡ self.old) }
        ensures back { IfErr result (λ value. value ≡ batch) }
    {
        match self.hits.take(&mut self.room, batch.hits) {
            Ok(()) => Ok(()),
            Err(hits) => Err(Batch { hits }),
        }
    }

    /// Closes a piece. The caller knows that all hits of the piece were taken.
    ///
    /// # Errors
    ///
    /// `StrangerPiece` if the number is not that of one of the pieces. Then the joiner is unchanged.
    pub fn close_piece(&mut self, piece: u32) -> Result<(), JoinFault>
        ensures ok { OnOk result (self.new ≡ with_closed self.old piece) }
        ensures err { OnErr result (self.new ≡ self.old) }
        ensures stranger { IfErr result (λ fault. (fault ≡ StrangerPiece) × (finite.get self.old.pieces piece ≡ None)) }
        ensures refused { finite.get self.old.pieces piece ≡ None → IsErr result }
    {
        if !self.pieces.contains_key(&piece) {
            return Err(JoinFault::StrangerPiece);
        }
        close(&mut self.pieces, piece);
        self.hits.rise(&self.pieces);
        Ok(())
    }

    /// Returns whether each piece is closed, that is, whether all hits were taken.
    pub fn ready(&self) -> bool
        ensures { result ≡ is_ready self.now }
    {
        all_closed(&self.pieces)
    }

    /// Returns the files of what was taken, in order of key, each with its outcome. If there are
    /// names, these are the planned files, with 63 for a file of which nothing was found. The
    /// joiner keeps its names, and is then empty, its pieces open.
    ///
    /// The files are made in as many threads as there are processors; the result is that of one
    /// thread. The hits are sorted first, which needs a second list as long as theirs. Hits that
    /// came in order are not sorted.
    ///
    /// # Errors
    ///
    /// `AllocError` if memory runs out. Then the joiner is unchanged.
    pub fn finish(
        &mut self,
        rt: &(impl Threads + Sync),
    ) -> Result<Vec<(FileKey, Outcome)>, AllocError>
        requires ready { is_ready self.old ≡ true }
        requires held { self.old.room.holds_all ≡ true }
        ensures ok { OnOk result (self.new ≡ emptied self.old) }
        ensures err { OnErr result (self.new ≡ self.old) }
        ensures files { IfOk result (λ outcomes. map restored outcomes.items ≡ files self.old.hits (option_map planned_in self.old.names)) }
    {
        let hits = self.hits.take_out()?;
        match files_of(rt, *hits.allocator(), &hits, self.names.as_ref()) {
            Ok(outcomes) => {
                open_again(&mut self.pieces);
                self.room = self.room.emptied();
                Ok(outcomes)
            }
            Err(refused) => {
                self.hits.put_back(hits);
                Err(refused)
            }
        }
    }

    /// Returns whether all data that were taken are in memory, as `finish` needs them. If not, the
    /// files are made from the result of `into_hits`. A joiner with room for all data holds all.
    pub fn holds_all(&self) -> bool
        ensures { result ≡ self.now.room.holds_all }
    {
        self.room.holds_all()
    }

    /// Returns the hits that were taken, in order of file and place, the names of the plan, if there
    /// is one, and fronts of files: what was made of the first hits of a file when they were taken.
    /// The data of hits are let go, except attributes and digests, so that there is room for the
    /// data of one file.
    ///
    /// # Errors
    ///
    /// `AllocError` if memory runs out. Then the hits are lost.
    pub fn into_hits(self) -> Result<Joined, AllocError>
        ensures listed { IfOk result (λ r. AreListed r.hits.items) }
        ensures same { IfOk result (λ r. hits_of r.hits.items ≡ self.hits) }
        ensures names { IfOk result (λ r. r.names ≡ self.names) }
        ensures fronts { IfOk result (λ r. AreFronts r.fronts r.hits.items) }
    {
        let Joiner {
            pieces: _pieces,
            names,
            hits,
            room: _room,
        } = self;
        let Listed { mut hits, fronts } = hits.into_listed()?;
        let_all_go(&mut hits);
        Ok(Joined {
            hits,
            names,
            fronts,
        })
    }
}
