//! A walk over the blocks that a piece asks for.
ghost use Rattle.std.specs.Prelude.{◌≡◌, ◌≤◌, ◌<◌, ◌^◌, IfOk, false};
ghost use Rattle.std.specs.List.{list_any};
ghost use Rattle.br_model.specs.Meaning.{bound_of, covers, is_covered, just_groups};
ghost use Rattle.br_model.specs.Volume.{is_above};
ghost use Rattle.br_volume.specs.Drive.{OnlyGrows};
ghost use Rattle.br_check.specs.ChecksumWalk.{GoesOn, HasSize, InLater, IsCompared, IsSeen, IsUnseen, seen_of};

use crate::checksum_lines::push_differing;
use br_block::{BlockHead, Crc};
use br_bsr::Group;
use br_match::bound_for;
use br_types::VolName;
use br_volume::{Drive, DriveFault, Got};
use std::alloc::AllocError;

/// The greatest length of a block's header in bytes.
const HEADER_LEN: u32 = 24;

/// What was read of a volume at an address.
#[derive(Clone, Copy)]
enum AtAddress {
    /// Bytes, which are in the buffer.
    Bytes,
    /// Nothing: the volume ends there, or does not exist.
    Nothing,
    /// Nothing, because the drive failed.
    Unread,
}

/// The result of a step of a walk.
#[derive(Clone, Copy)]
pub(crate) enum ChecksumStep {
    /// The walk passed a block of this number of bytes.
    Passed(u32),
    /// The walk has reached its end.
    Ended,
    /// The drive failed.
    Failed,
}

/// Returns what was seen if a drive read this.
fn seen_by(got: Got) -> AtAddress
    ensures { result ≡ seen_of got }
{
    match got {
        Got::Block(_) => AtAddress::Bytes,
        Got::End => AtAddress::Nothing,
    }
}

/// Returns what was seen if a drive read nothing for this reason, unless memory ran out.
fn unseen(fault: DriveFault) -> Result<AtAddress, AllocError>
    ensures { IfOk result (IsUnseen fault) }
{
    match fault {
        DriveFault::Memory => Err(AllocError),
        DriveFault::Fault => Ok(AtAddress::Unread),
        DriveFault::UnknownVolume => Ok(AtAddress::Nothing),
    }
}

/// Reads bytes of a volume into `buf`, as `Drive::block_at` does.
fn read<D: Drive>(
    drive: &mut D,
    vol: &VolName,
    addr: u64,
    size: u32,
    buf: &mut Vec<u8>,
) -> Result<AtAddress, AllocError>
    ensures seen { IfOk result (IsSeen (D.shows drive.new) (D.failures drive.old) (D.failures drive.new) vol.now addr size buf.new.items) }
    ensures grows { OnlyGrows (D.shows drive.old) (D.shows drive.new) }
    ensures counted { D.failures drive.old ≤ D.failures drive.new }
{
    match drive.block_at(vol, addr, size, buf) {
        Ok(got) => Ok(seen_by(got)),
        Err(fault) => unseen(fault),
    }
}

/// Returns if one of the groups asks for records of the block at this address.
fn any_covers(groups: &[(u32, Group)], addr: u64) -> bool
    ensures { result ≡ list_any (λ g. covers g.1 addr) groups.now }
{
    groups.iter().any(|numbered| numbered.1.covers(addr))
}

/// Returns if one of the groups asks for records of the block at this address.
fn covers_any(groups: &[(u32, Group)], addr: u64) -> bool
    ensures { result ≡ is_covered (just_groups groups.now) addr }
{
    // The search has a clause of its own, from which this one is proved.
    any_covers(groups, addr)
}

/// The blocks of a volume for which groups ask.
#[derive(Drop)]
pub(crate) struct AskedBlocks<'p> {
    crc: &'p Crc,
    vol: &'p VolName,
    groups: &'p [(u32, Group)],
    /// Such blocks begin at this address or below; none if a group asks for blocks everywhere.
    bound: Option<u64>,
    ghost bounded: { bound ≡ bound_of (just_groups groups.now) },
}

impl<'p> AskedBlocks<'p> {
    ghost use Rattle.br_check.specs.AskedBlocks.{StepOver, groups_of, volume_of};
    ghost use Rattle.br_check.specs.Shown.{shown_between};

    /// Returns the blocks of a volume for which these groups ask.
    pub(crate) fn new(crc: &'p Crc, vol: &'p VolName, groups: &'p [(u32, Group)]) -> AskedBlocks<'p>
        ensures volume { volume_of result ≡ vol.now }
        ensures groups { groups_of result ≡ groups.now }
    {
        AskedBlocks {
            crc,
            vol,
            groups,
            bound: bound_for(groups),
        }
    }

    /// Returns whether the walk ends at this address, for any contents of the volume.
    fn is_above(&self, addr: u64) -> bool
        ensures { result ≡ is_above (bound_of (just_groups (groups_of self.now))) addr }
    {
        match self.bound {
            None => false,
            Some(bound) => bound < addr,
        }
    }

    /// Appends the line of a block of this size, for which a group asks, if it is whole and its
    /// checksum differs.
    fn compare(
        &self,
        text: &mut Vec<u8>,
        addr: u64,
        size: u32,
        block: &[u8],
    ) -> Result<ChecksumStep, AllocError>
        requires least { 16 ≤ size }
        ensures { IfOk result (IsCompared (volume_of self.now) addr size block.now text.old.items text.new.items) }
    {
        if block.len() < size as usize {
            return Ok(ChecksumStep::Ended);
        }
        push_differing(self.crc, text, self.vol, addr, block)?;
        Ok(ChecksumStep::Passed(size))
    }

    /// Passes the block at the address, which has this size, and appends its line if a group asks
    /// for it and its checksum differs.
    fn pass<D: Drive>(
        &self,
        text: &mut Vec<u8>,
        drive: &mut D,
        addr: u64,
        size: u32,
        buf: &mut Vec<u8>,
    ) -> Result<ChecksumStep, AllocError>
        requires near { is_above (bound_of (just_groups (groups_of self.now))) addr ≡ false }
        requires least { 16 ≤ size }
        requires low { addr < 2 ^ 63 }
        requires sized { InLater (D.shows drive.now) (volume_of self.now) (λ bytes. HasSize bytes addr size) }
        ensures step { IfOk result
            (StepOver (shown_between D.Drive drive.old drive.new) self.now addr text.old.items text.new.items) }
        ensures on { IfOk result (GoesOn addr) }
        ensures grows { OnlyGrows (D.shows drive.old) (D.shows drive.new) }
        ensures counted { D.failures drive.old ≤ D.failures drive.new }
    {
        if !covers_any(self.groups, addr) {
            return Ok(ChecksumStep::Passed(size));
        }
        match read(drive, self.vol, addr, size, buf)? {
            AtAddress::Bytes => self.compare(text, addr, size, buf),
            AtAddress::Nothing => Ok(ChecksumStep::Ended),
            AtAddress::Unread => Ok(ChecksumStep::Failed),
        }
    }

    /// Passes the block at the address, or finds the end of the walk there, and appends the block's
    /// line if a group asks for it and its checksum differs. The buffer is for the block's bytes.
    pub(crate) fn step<D: Drive>(
        &self,
        text: &mut Vec<u8>,
        drive: &mut D,
        addr: u64,
        buf: &mut Vec<u8>,
    ) -> Result<ChecksumStep, AllocError>
        ensures step { IfOk result
            (StepOver (shown_between D.Drive drive.old drive.new) self.now addr text.old.items text.new.items) }
        ensures on { IfOk result (GoesOn addr) }
        ensures grows { OnlyGrows (D.shows drive.old) (D.shows drive.new) }
        ensures counted { D.failures drive.old ≤ D.failures drive.new }
    {
        if self.is_above(addr) {
            return Ok(ChecksumStep::Ended);
        }
        match read(drive, self.vol, addr, HEADER_LEN, buf)? {
            AtAddress::Bytes => match BlockHead::read(buf) {
                Ok(head) => self.pass(text, drive, addr, head.size, buf),
                Err(_) => Ok(ChecksumStep::Ended),
            },
            AtAddress::Nothing => Ok(ChecksumStep::Ended),
            AtAddress::Unread => Ok(ChecksumStep::Failed),
        }
    }
}
