ghost use Rattle.std.specs.Prelude.{◌≡◌, ⊤, IfOk};
ghost use Rattle.br_core.specs.Parts.{AreFirst, AreParts};

use crate::fault::StepFault;
use crate::piece_status::{Status, address_at, all_finished, all_waiting, waits};
use crate::reading::next_of;
use br_join::{Joiner, Outcome};
use br_match::Batch;
use br_piece::{Piece, split};
use br_plan::{Plan, Request};
use br_types::{FileKey, Path, VolName};
use std::alloc::{AllocError, Global};
use std::thread::Threads;

/// A restore that is not over. Its jobs and volumes are those that the world had after `commits`
/// commits.
#[derive(Drop)]
pub(crate) struct OpenRestore {
    pub(crate) commits: u64,
    request: Request,
    marks: Vec<Path>,
    plan: Plan,
    /// The pieces of the plan's bootstrap, each at the place of its number.
    pieces: Vec<Piece>,
    statuses: Vec<Status>,
    /// The hits that are on their way, block by block, each with the number of its piece.
    transit: Vec<(u32, Batch)>,
    /// The joiner with the hits that were taken.
    joiner: Joiner,
    ghost parts: { AreParts plan pieces.items statuses.items transit.items joiner },
}

/// A move of a restore. Reads and ends of walks are over these volumes.
#[derive(Clone, Copy)]
pub(crate) enum Move<'v> {
    Claim(u32),
    Read(u32, &'v [(VolName, Vec<u8>)]),
    Fail(u32),
    Finish(u32, &'v [(VolName, Vec<u8>)]),
    Take(u64),
}

/// Returns the pieces of a plan, each waiting, and the joiner for their hits.
fn parts_of(alloc: Global, plan: &Plan) -> Result<(Vec<Piece>, Vec<Status>, Joiner), AllocError>
    ensures { IfOk result (λ parts. AreFirst plan.now parts.0.items parts.1.items parts.2) }
{
    let pieces = split(alloc, plan.bootstrap())?;
    let statuses = all_waiting(alloc, &pieces)?;
    let names = plan.names().copy(alloc)?;
    let joiner = Joiner::new(alloc, &pieces, Some(names))?;
    Ok((pieces, statuses, joiner))
}

impl OpenRestore {
    ghost use Rattle.br_volume.specs.Memory.{volumes_of};
    ghost use Rattle.br_core.specs.Machine.{IsTaken};
    ghost use Rattle.br_core.specs.View.{Claims, Fails, FinishesIf, IsPlanned, IsSeenAs, MovesIf, ReadsIf, TellsWhole};
    ghost use Rattle.br_core.specs.Moving.{asked, moved};
    ghost use Rattle.std.specs.Prelude.{true, map, Some, IfErr};
    ghost use Rattle.br_model.specs.Restored.{files};
    ghost use Rattle.br_join.specs.Outcome.{restored};

    /// Returns a restore that was just planned, after this number of commits.
    pub(crate) fn new(
        alloc: Global,
        commits: u64,
        request: Request,
        marks: Vec<Path>,
        plan: Plan,
    ) -> Result<OpenRestore, AllocError>
        ensures { IfOk result (IsPlanned commits request marks.items plan) }
    {
        let (pieces, statuses, joiner) = parts_of(alloc, &plan)?;
        Ok(OpenRestore {
            commits,
            request,
            marks,
            plan,
            pieces,
            statuses,
            transit: Vec::new(alloc),
            joiner,
        })
    }

    /// A walk takes a piece that waits.
    pub(crate) fn claim(&mut self, piece: u32) -> Result<(), StepFault>
        ensures { MovesIf (λ _. ⊤) (Claims piece) self.old self.new result }
    {
        if waits(&self.statuses, piece) {
            self.statuses[piece as usize] = Status::Claimed(0);
            Ok(())
        } else {
            Err(StepFault::NotEnabled)
        }
    }

    /// The walk of a claimed piece fails, and the piece waits again.
    pub(crate) fn fail(&mut self, piece: u32) -> Result<(), StepFault>
        ensures { MovesIf (λ _. ⊤) (Fails piece) self.old self.new result }
    {
        match address_at(&self.statuses, piece) {
            Some(_) => {
                self.statuses[piece as usize] = Status::Waiting;
                Ok(())
            }
            None => Err(StepFault::NotEnabled),
        }
    }

    /// The walk of a claimed piece reads its next block, over these volumes. Its hits are then on
    /// their way.
    pub(crate) fn read(
        &mut self,
        alloc: Global,
        piece: u32,
        volumes: &[(VolName, Vec<u8>)],
    ) -> Result<(), StepFault>
        ensures { ReadsIf piece (volumes_of volumes.now) self.old self.new result }
    {
        match next_of(alloc, &self.pieces, &self.statuses, piece, volumes) {
            Ok(Some((batch, next))) => {
                if self.transit.push((piece, batch)).is_err() {
                    return Err(StepFault::Memory);
                }
                self.statuses[piece as usize] = Status::Claimed(next);
                Ok(())
            }
            Ok(None) => Err(StepFault::NotEnabled),
            Err(fault) => Err(fault),
        }
    }

    /// The walk of a claimed piece is at its end, over these volumes.
    pub(crate) fn finish(
        &mut self,
        alloc: Global,
        piece: u32,
        volumes: &[(VolName, Vec<u8>)],
    ) -> Result<(), StepFault>
        ensures { FinishesIf piece (volumes_of volumes.now) self.old self.new result }
    {
        match next_of(alloc, &self.pieces, &self.statuses, piece, volumes) {
            Ok(None) => {
                // The piece is one of the joiner's.
                let _ = self.joiner.close_piece(piece);
                self.statuses[piece as usize] = Status::Finished;
                Ok(())
            }
            Ok(Some(_)) => Err(StepFault::NotEnabled),
            Err(fault) => Err(fault),
        }
    }

    /// The hits of a block that are on their way are taken: those at this place.
    pub(crate) fn take(&mut self, place: u64) -> Result<(), StepFault>
        ensures { MovesIf (λ _. ⊤) (λ r after. IsTaken r place after) self.old self.new result }
    {
        if place >= self.transit.len() as u64 {
            return Err(StepFault::NotEnabled);
        }
        let (piece, batch) = self.transit.remove(place as usize);
        match self.joiner.take_batch(piece, batch) {
            Ok(()) => Ok(()),
            Err(refused) => {
                // There is room, since a batch was removed.
                let _ = self.transit.insert(place as usize, (piece, refused.value));
                Err(StepFault::Memory)
            }
        }
    }

    /// Makes a move.
    pub(crate) fn go(&mut self, alloc: Global, what: Move<'_>) -> Result<(), StepFault>
        ensures { MovesIf (asked what.entry) (moved what.entry) self.old self.new result }
    {
        match what {
            Move::Claim(piece) => self.claim(piece),
            Move::Read(piece, volumes) => self.read(alloc, piece, volumes),
            Move::Fail(piece) => self.fail(piece),
            Move::Finish(piece, volumes) => self.finish(alloc, piece, volumes),
            Move::Take(place) => self.take(place),
        }
    }

    /// Returns whether all pieces are read, and nothing is on its way.
    pub(crate) fn is_whole(&self) -> bool
        ensures { TellsWhole self.now result }
    {
        self.transit.is_empty() && all_finished(&self.statuses)
    }

    /// Returns the files of what was taken, in order of key. The restore is then over; it is
    /// returned if memory runs out.
    pub(crate) fn deliver(
        self,
        rt: &(impl Threads + Sync),
    ) -> Result<Vec<(FileKey, Outcome)>, OpenRestore>
        requires { TellsWhole self true }
        ensures given { IfOk result (λ outcomes. map restored outcomes.items ≡ files self.joiner.hits (Some self.plan.names)) }
        ensures back { IfErr result (λ r. IsSeenAs self r) }
    {
        let OpenRestore {
            commits,
            request,
            marks,
            plan,
            pieces,
            statuses,
            transit,
            mut joiner,
        } = self;
        match joiner.finish(rt) {
            Ok(outcomes) => Ok(outcomes),
            Err(_) => Err(OpenRestore {
                commits,
                request,
                marks,
                plan,
                pieces,
                statuses,
                transit,
                joiner,
            }),
        }
    }
}
