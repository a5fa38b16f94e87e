ghost use Rattle.std.specs.Prelude.{◌≡◌, ℕ, ◌<◌, ◌≤◌, ◌+◌, ◌^◌, false, true, None, Ok, IfOk, IfErr, IfSome, option_map};
ghost use Rattle.std.specs.List.{AllZip};
ghost use Rattle.br_match.specs.Groups.{AreAlike, all_alike_once};
ghost use Rattle.br_model.specs.Meaning.{bound_of, is_covered, just_groups};
ghost use Rattle.br_model.specs.Volume.{is_above};
ghost use Rattle.br_volume.specs.Drive.{OnlyGrows, IsSized};
ghost use Rattle.br_match.specs.Fault.{FailsWithDrive, IsAt, cause_number, fault_number, cause, named_address, refusal};
ghost use Rattle.br_match.specs.Walk.{AfterWalk, GoesOn, HeadAnswers, IsRefusedFor, PassesBlock, ReadsOver, TakesStep, unknown};
ghost use Rattle.br_volume.specs.Fault as drive;
ghost use Rattle.br_volume.specs.declared.fault.DriveFault.TheVariants.{Fault};
ghost use Rattle.br_match.specs.declared.walk.Step.TheVariants.{End, Passed};

use crate::block_hits::push_hits;
use crate::fault::{PieceCause, PieceFault};
use crate::hit::{Batch, Hit};
use crate::matchers::{Matchers, covers_any};
use br_block::{Block, BlockHead};
use br_bsr::Group;
use br_piece::Piece;
use br_types::VolName;
use br_volume::{Drive, DriveFault, Got};
use std::alloc::{AllocError, Global};

/// The greatest length of a block's header in bytes.
const HEADER_LEN: u32 = 24;

/// Returns the refusal of the block at this address for this cause, or `Memory`.
fn refused(alloc: Global, why: PieceCause, vol: &VolName, addr: u64) -> PieceFault
    ensures why { IsRefusedFor (refusal why vol.now addr) (cause result) }
    ensures number { fault_number result ≡ 13 → cause_number why ≡ 13 }
    ensures named { (at : ℕ) → addr ≡ named_address why at → IsAt vol.now at result }
{
    match vol.copy(alloc) {
        Err(_) => PieceFault::Memory,
        Ok(vol) => PieceFault::Block {
            cause: why,
            vol,
            addr,
        },
    }
}

/// Returns the refusal for a drive's fault at this address. An unknown volume is refused at address
/// 0.
fn refused_by_drive(alloc: Global, fault: DriveFault, vol: &VolName, addr: u64) -> PieceFault
    ensures why { IsRefusedFor (option_map (λ number. unknown vol.now) (drive.cause fault)) (cause result) }
    ensures number { fault_number result ≡ 13 → fault ≡ Fault }
    ensures named { IsAt vol.now addr result }
{
    match fault {
        DriveFault::Memory => PieceFault::Memory,
        DriveFault::Fault => refused(alloc, PieceCause::DriveFault, vol, addr),
        DriveFault::UnknownVolume => refused(alloc, PieceCause::UnknownVolume, vol, 0),
    }
}

/// Reads a block of the volume into `buf`, as `Drive::block_at` does.
fn read_bytes<D: Drive>(
    alloc: Global,
    drive: &mut D,
    vol: &VolName,
    addr: u64,
    size: u32,
    buf: &mut Vec<u8>,
) -> Result<Got, PieceFault>
    ensures read { ReadsOver (D.shows drive.new) vol.now addr size buf.new.items result }
    ensures sized { IfOk result (IsSized addr size buf.new.items) }
    ensures grows { OnlyGrows (D.shows drive.old) (D.shows drive.new) }
    ensures counted { D.failures drive.old ≤ D.failures drive.new }
    ensures failed { FailsWithDrive D.failures drive.old drive.new result }
    ensures named { IfErr result (IsAt vol.now addr) }
{
    match drive.block_at(vol, addr, size, buf) {
        Ok(got) => Ok(got),
        Err(fault) => Err(refused_by_drive(alloc, fault, vol, addr)),
    }
}

/// Returns the header of the block at this address, which is not above the bound; none at the
/// volume's end.
fn head_at<D: Drive>(
    alloc: Global,
    drive: &mut D,
    piece: &Piece,
    addr: u64,
    buf: &mut Vec<u8>,
) -> Result<Option<BlockHead>, PieceFault>
    requires near { is_above (bound_of (just_groups piece.now.groups)) addr ≡ false }
    ensures head { AfterWalk (D.shows drive.old) (D.shows drive.new) piece.now addr (HeadAnswers piece.now addr result) }
    ensures least { IfOk result (λ head. IfSome head (λ h. 16 ≤ h.size)) }
    ensures most { IfOk result (λ head. IfSome head (λ h. h.size ≤ 4194304)) }
    ensures sized { IfOk result (λ head. IfSome head (λ h. addr < 2 ^ 63)) }
    ensures grows { OnlyGrows (D.shows drive.old) (D.shows drive.new) }
    ensures counted { D.failures drive.old ≤ D.failures drive.new }
    ensures failed { FailsWithDrive D.failures drive.old drive.new result }
    ensures named { IfErr result (IsAt piece.now.volume addr) }
{
    match read_bytes(alloc, drive, &piece.vol, addr, HEADER_LEN, buf)? {
        Got::End => Ok(None),
        Got::Block(_) => match BlockHead::read(buf) {
            Ok(head) => Ok(Some(head)),
            Err(fault) => Err(refused(alloc, PieceCause::of_block(fault), &piece.vol, addr)),
        },
    }
}

/// Returns the greatest address at which one of the groups asks for records; none if one asks at
/// every address.
#[tactic(auto, unfolding(br_model::specs::Meaning::bound_of))]
pub fn bound_for(groups: &[(u32, Group)]) -> Option<u64>
    ensures { result ≡ bound_of (just_groups groups.now) }
{
    let mut bound = 0;
    for (_, group) in groups {
        match group.last_address() {
            None => return None,
            Some(last) => bound = last.max(bound),
        }
    }
    Some(bound)
}

/// The result of a step of a walk.
#[derive(Clone, Copy)]
enum Step {
    /// The walk passed a block.
    Passed,
    /// The walk has reached its end.
    End,
}

/// A walk of a piece's volume, before the block at its address.
#[derive(Drop)]
pub struct Walk<'p> {
    piece: &'p Piece,
    /// The groups of the piece.
    matchers: Matchers,
    /// The walk ends above this address; none if it goes to the volume's end.
    bound: Option<u64>,
    addr: u64,
    /// The bytes of the header that was read last.
    head: Vec<u8>,
    ghost alike: { AllZip AreAlike matchers piece.now.groups } by { all_alike_once matchers piece.now.groups },
    ghost bounded: { bound ≡ bound_of (just_groups piece.now.groups) },
}

impl<'p> Walk<'p> {
    ghost use Rattle.br_match.specs.Seen.{GivesBlock, piece_of, address_of};

    /// Returns a walk before the first block of the piece's volume.
    ///
    /// # Errors
    ///
    /// `AllocError` if memory runs out.
    pub fn new(alloc: Global, piece: &'p Piece) -> Result<Walk<'p>, AllocError>
        ensures of { IfOk result (λ walk. piece_of walk ≡ piece.now) }
        ensures start { IfOk result (λ walk. address_of walk ≡ 0) }
    {
        Walk::resume(alloc, piece, 0)
    }

    /// Returns a walk before the block at this address, in bytes from the start of the volume. An
    /// earlier walk of the piece has reached it.
    ///
    /// # Errors
    ///
    /// `AllocError` if memory runs out.
    pub fn resume(alloc: Global, piece: &'p Piece, addr: u64) -> Result<Walk<'p>, AllocError>
        ensures of { IfOk result (λ walk. piece_of walk ≡ piece.now) }
        ensures start { IfOk result (λ walk. address_of walk ≡ addr) }
    {
        Ok(Walk {
            piece,
            matchers: Matchers::new(alloc, &piece.groups)?,
            bound: bound_for(&piece.groups),
            addr,
            head: Vec::new(alloc),
        })
    }

    /// Returns the address of the block that the walk is before, in bytes from the start of the
    /// volume.
    pub fn addr(&self) -> u64
        ensures { result ≡ address_of self.now }
    {
        self.addr
    }

    /// Returns whether the walk ends here, for any contents of the volume.
    fn is_above(&self) -> bool
        ensures { result ≡ is_above (bound_of (just_groups self.now.piece.now.groups)) self.now.addr }
    {
        match self.bound {
            None => false,
            Some(bound) => bound < self.addr,
        }
    }

    /// Reads the block at the address, which a group covers and which has this header, and appends
    /// its hits.
    fn push_covered<D: Drive>(
        &self,
        alloc: Global,
        drive: &mut D,
        head: BlockHead,
        buf: &mut Vec<u8>,
        hits: &mut Vec<Hit>,
    ) -> Result<(), PieceFault>
        requires near { is_above (bound_of (just_groups self.now.piece.now.groups)) self.now.addr ≡ false }
        requires covered { is_covered (just_groups self.now.piece.now.groups) self.now.addr ≡ true }
        ensures hits { PassesBlock D.shows drive.old drive.new self.now.piece.now self.now.addr head hits.old.items hits.new.items result }
        ensures grows { OnlyGrows (D.shows drive.old) (D.shows drive.new) }
        ensures counted { D.failures drive.old ≤ D.failures drive.new }
        ensures failed { FailsWithDrive D.failures drive.old drive.new result }
        ensures named { IfErr result (IsAt self.now.piece.now.volume self.now.addr) }
    {
        let piece = self.piece;
        let addr = self.addr;
        read_bytes(alloc, drive, &piece.vol, addr, head.size, buf)?;
        match Block::read(buf) {
            Ok(block) => Ok(push_hits(alloc, &self.matchers, addr, &block, hits)?),
            Err(fault) => Err(refused(alloc, PieceCause::of_block(fault), &piece.vol, addr)),
        }
    }

    /// Appends the hits in the block at the address, which has this header. A block that no group
    /// covers is not read.
    fn push_block<D: Drive>(
        &self,
        alloc: Global,
        drive: &mut D,
        head: BlockHead,
        buf: &mut Vec<u8>,
        hits: &mut Vec<Hit>,
    ) -> Result<(), PieceFault>
        requires near { is_above (bound_of (just_groups self.now.piece.now.groups)) self.now.addr ≡ false }
        ensures hits { PassesBlock D.shows drive.old drive.new self.now.piece.now self.now.addr head hits.old.items hits.new.items result }
        ensures grows { OnlyGrows (D.shows drive.old) (D.shows drive.new) }
        ensures counted { D.failures drive.old ≤ D.failures drive.new }
        ensures failed { FailsWithDrive D.failures drive.old drive.new result }
        ensures named { IfErr result (IsAt self.now.piece.now.volume self.now.addr) }
    {
        if covers_any(&self.matchers, self.addr) {
            self.push_covered(alloc, drive, head, buf, hits)
        } else {
            Ok(())
        }
    }

    /// Passes one block and appends its hits, or finds the end of the walk. After a refusal the
    /// walk is still before that block.
    fn step<D: Drive>(
        &mut self,
        alloc: Global,
        drive: &mut D,
        buf: &mut Vec<u8>,
        hits: &mut Vec<Hit>,
    ) -> Result<Step, PieceFault>
        ensures hits { TakesStep D.shows drive.old drive.new
            self.old.piece.now self.old.addr self.new.addr hits.old.items hits.new.items result }
        ensures of { self.new.piece.now ≡ self.old.piece.now }
        ensures nearer { result ≡ Ok Passed → GoesOn self.old.addr self.new.addr }
        ensures ended { result ≡ Ok End → self.new.addr ≡ self.old.addr }
        ensures stays { IfErr result (λ _. self.new.addr ≡ self.old.addr) }
        ensures grows { OnlyGrows (D.shows drive.old) (D.shows drive.new) }
        ensures counted { D.failures drive.old ≤ D.failures drive.new }
        ensures failed { FailsWithDrive D.failures drive.old drive.new result }
        ensures named { IfErr result (IsAt self.old.piece.now.volume self.old.addr) }
    {
        if self.is_above() {
            return Ok(Step::End);
        }
        let Some(head) = head_at(alloc, drive, self.piece, self.addr, &mut self.head)? else {
            return Ok(Step::End);
        };
        self.push_block(alloc, drive, head, buf, hits)?;
        self.addr += u64::from(head.size);
        Ok(Step::Passed)
    }

    /// Passes one block and returns its hits; none at the end of the walk. The buffer is for the
    /// block's bytes.
    ///
    /// # Errors
    ///
    /// `BadId`, `BadBlockSize` or `Truncated` with the address of the block, `DriveFault` with the
    /// address that the walk had reached, `UnknownVolume` with address 0, `Memory` if memory runs
    /// out. Then the walk is still before that block.
    pub fn next<D: Drive>(
        &mut self,
        alloc: Global,
        drive: &mut D,
        buf: &mut Vec<u8>,
    ) -> Result<Option<Batch>, PieceFault>
        ensures hits { GivesBlock (D.shows drive.old) (D.shows drive.new) self.old self.new result }
        ensures of { piece_of self.new ≡ piece_of self.old }
        ensures nearer { IfOk result (λ batch. IfSome batch (λ _. GoesOn (address_of self.old) (address_of self.new))) }
        ensures ended { result ≡ Ok None → address_of self.new ≡ address_of self.old }
        ensures stays { IfErr result (λ _. address_of self.new ≡ address_of self.old) }
        ensures grows { OnlyGrows (D.shows drive.old) (D.shows drive.new) }
        ensures counted { D.failures drive.old ≤ D.failures drive.new }
        ensures failed { FailsWithDrive D.failures drive.old drive.new result }
        ensures named { IfErr result (IsAt (piece_of self.old).volume (address_of self.old)) }
    {
        let mut hits = Vec::new(alloc);
        match self.step(alloc, drive, buf, &mut hits)? {
            Step::Passed => Ok(Some(Batch { hits })),
            Step::End => Ok(None),
        }
    }
}
