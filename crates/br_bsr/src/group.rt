ghost use Rattle.std.specs.Prelude.{◌≡◌, ◌||◌, max, fold, nat_abs, IfOk, OnOk, Some, None, if◌then◌else◌};
ghost use Rattle.std.specs.Int.{is_in_range, is_positive};
ghost use Rattle.std.specs.List.{list_any};
ghost use Rattle.br_model.specs.Bootstrap.{admits, hits_by, group_on, with_ranges};
ghost use Rattle.br_model.specs.BootstrapText.{is_group};
ghost use Rattle.br_model.specs.Meaning.{covers, last_address};
ghost use Rattle.br_model.specs.Text.{is_empty};
ghost use Rattle.br_bsr.specs.Statement.{criterion_of};

use crate::criterion::Criterion;
use crate::range::Range;
use br_types::{SessionKey, VolName};
use std::alloc::{AllocError, Global};
use std::marker::Model;

/// The number of bytes of a volume that one VolFile counts: 2^32.
const FILE_BYTES: u64 = 4_294_967_296;

/// Returns whether one of the ranges contains the number.
fn contains_any(ranges: &[Range], number: u64) -> bool
    ensures { result ≡ list_any (λ r. is_in_range r.low r.high number) ranges.now }
{
    ranges.iter().any(|range| range.contains(number))
}

/// Returns whether a criterion with these ranges admits the number: without ranges it admits all.
pub fn admits_number(ranges: &[Range], number: u64) -> bool
    ensures { result ≡ admits ranges.now number }
{
    ranges.is_empty() || contains_any(ranges, number)
}

/// Returns whether the index is that of a file.
fn is_of_file(index: i32) -> bool
    ensures { result ≡ is_positive index }
{
    index > 0
}

/// Returns the number without its sign.
fn magnitude(number: i32) -> u64
    ensures { result ≡ nat_abs number }
{
    u64::from(number.unsigned_abs())
}

/// Returns the greatest end of the ranges; 0 without ranges.
fn greatest_end(ranges: &[Range]) -> u64
    ensures { result ≡ fold (λ n r. max n r.high) 0 ranges.now }
{
    ranges
        .iter()
        .fold(0, |greatest, range| range.high.max(greatest))
}

/// A selection of records of one volume: those that each criterion admits. A criterion admits the
/// numbers in its ranges, and all numbers if it has no ranges.
#[derive(Drop)]
pub struct Group {
    /// The volume.
    pub vol: VolName,
    /// VolSessionId: the number of the session.
    pub session_ids: Vec<Range>,
    /// VolSessionTime: the time of the session.
    pub session_times: Vec<Range>,
    /// VolFile: the address of the block divided by 2^32.
    pub files: Vec<Range>,
    /// VolBlock: the address of the block modulo 2^32.
    pub blocks: Vec<Range>,
    /// VolAddr: the address of the block, in bytes from the start of the volume.
    pub addrs: Vec<Range>,
    /// FileIndex: the number of the file in its session.
    pub indexes: Vec<Range>,
    /// Stream: the kind of the record, without the sign that marks a continuation.
    pub streams: Vec<Range>,
}

impl Model for Group {
    ghost use Rattle.br_model.specs.Bootstrap as model;

    ghost Value = { model.Group };

    ghost view = { λ g. record {
      volume = g.vol;
      session_ids = g.session_ids.items;
      session_times = g.session_times.items;
      files = g.files.items;
      blocks = g.blocks.items;
      addresses = g.addrs.items;
      indexes = g.indexes.items;
      streams = g.streams.items;
    } };
}

impl Group {
    /// Makes the group that selects every record of a volume.
    pub fn on(alloc: Global, vol: VolName) -> Group
        ensures { result ≡ group_on vol }
    {
        Group {
            vol,
            session_ids: Vec::new(alloc),
            session_times: Vec::new(alloc),
            files: Vec::new(alloc),
            blocks: Vec::new(alloc),
            addrs: Vec::new(alloc),
            indexes: Vec::new(alloc),
            streams: Vec::new(alloc),
        }
    }

    /// Returns whether the group hits a record of this session, file index and stream, in a block
    /// at the address `addr` of its volume. It never hits a label, whose index is below 1.
    pub fn hits(&self, addr: u64, session: SessionKey, index: i32, stream: i32) -> bool
        ensures { result ≡ hits_by self.now addr session index stream }
    {
        is_of_file(index)
            && admits_number(&self.session_ids, u64::from(session.id))
            && admits_number(&self.session_times, u64::from(session.time))
            && admits_number(&self.files, addr / FILE_BYTES)
            && admits_number(&self.blocks, addr % FILE_BYTES)
            && admits_number(&self.addrs, addr)
            && admits_number(&self.indexes, magnitude(index))
            && admits_number(&self.streams, magnitude(stream))
    }

    /// Returns whether the group may hit records of a block at the address `addr`.
    pub fn covers(&self, addr: u64) -> bool
        ensures { result ≡ covers self.now addr }
    {
        admits_number(&self.addrs, addr)
    }

    /// Returns the last address at which the group may hit records; `None` if there is no last one.
    pub fn last_address(&self) -> Option<u64>
        ensures { result ≡ if is_empty self.now.addresses then None else Some (last_address self.now) }
    {
        if self.addrs.is_empty() {
            None
        } else {
            Some(greatest_end(&self.addrs))
        }
    }

    /// Returns an equal group.
    pub fn copy(&self, alloc: Global) -> Result<Group, AllocError>
        ensures { IfOk result (λ g. g ≡ self.now) }
    {
        Ok(Group {
            vol: self.vol.copy(alloc)?,
            session_ids: Vec::from_slice(alloc, &self.session_ids)?,
            session_times: Vec::from_slice(alloc, &self.session_times)?,
            files: Vec::from_slice(alloc, &self.files)?,
            blocks: Vec::from_slice(alloc, &self.blocks)?,
            addrs: Vec::from_slice(alloc, &self.addrs)?,
            indexes: Vec::from_slice(alloc, &self.indexes)?,
            streams: Vec::from_slice(alloc, &self.streams)?,
        })
    }

    /// Returns whether a text can state the group: the low end of each range is at most its high
    /// end, and the criterion may have both numbers.
    #[tactic(auto, unfolding(br_model::specs::BootstrapText::is_group))]
    pub fn is_valid(&self) -> bool
        ensures { result ≡ is_group self.now }
    {
        // The name is valid by its type.
        let _ = self.vol.bytes();
        Criterion::SessionId.takes_all(&self.session_ids)
            && Criterion::SessionTime.takes_all(&self.session_times)
            && Criterion::VolFile.takes_all(&self.files)
            && Criterion::VolBlock.takes_all(&self.blocks)
            && Criterion::VolAddr.takes_all(&self.addrs)
            && Criterion::FileIndex.takes_all(&self.indexes)
            && Criterion::Stream.takes_all(&self.streams)
    }

    /// Appends ranges of a criterion to those of the group.
    pub(crate) fn admit(&mut self, criterion: Criterion, ranges: &[Range]) -> Result<(), AllocError>
        ensures { OnOk result (self.new ≡ with_ranges (criterion_of criterion) ranges.now self.old) }
    {
        match criterion {
            Criterion::SessionId => self.session_ids.extend_from_slice(ranges),
            Criterion::SessionTime => self.session_times.extend_from_slice(ranges),
            Criterion::VolFile => self.files.extend_from_slice(ranges),
            Criterion::VolBlock => self.blocks.extend_from_slice(ranges),
            Criterion::VolAddr => self.addrs.extend_from_slice(ranges),
            Criterion::FileIndex => self.indexes.extend_from_slice(ranges),
            Criterion::Stream => self.streams.extend_from_slice(ranges),
        }
    }
}
