ghost use Rattle.std.specs.Prelude.{◌≡◌, IfOk, map};
ghost use Rattle.std.specs.List.{AllZip};
ghost use Rattle.br_model.specs.Meaning.{covers};
ghost use Rattle.br_match.specs.Groups.{AreAlike, admits_block, admits_record, admits_session, first_admitting};
ghost use Rattle.br_match.specs.Near.{BeginsAt, EndsBy};

use crate::admitted::Admitted;
use br_bsr::Group;
use br_types::SessionKey;
use std::alloc::{AllocError, Global};
use std::marker::Model;

/// The number of bytes of a volume in one VolFile: 2^32.
const FILE_BYTES: u64 = 4_294_967_296;

/// A group of a piece, prepared for many look-ups.
#[derive(Drop)]
pub(crate) struct Matcher {
    /// The number of the group in the bootstrap.
    number: u32,
    session_ids: Admitted,
    session_times: Admitted,
    files: Admitted,
    blocks: Admitted,
    addrs: Admitted,
    indexes: Admitted,
    streams: Admitted,
}

impl Model for Matcher {
    ghost use Rattle.std.specs.Prelude.{ℕ, []};
    ghost use Rattle.br_model.specs.Bootstrap as model;

    ghost Value = { ℕ × model.Group };

    ghost view = { λ m. (
      m.number,
      record {
        volume = [];
        session_ids = m.session_ids;
        session_times = m.session_times;
        files = m.files;
        blocks = m.blocks;
        addresses = m.addrs;
        indexes = m.indexes;
        streams = m.streams;
      },
    ) };
}

impl Matcher {
    /// Prepares the group with this number.
    fn new(alloc: Global, number: u32, group: &Group) -> Result<Matcher, AllocError>
        ensures { IfOk result (λ m. AreAlike m (number, group.now)) }
    {
        Ok(Matcher {
            number,
            session_ids: Admitted::new(alloc, &group.session_ids)?,
            session_times: Admitted::new(alloc, &group.session_times)?,
            files: Admitted::new(alloc, &group.files)?,
            blocks: Admitted::new(alloc, &group.blocks)?,
            addrs: Admitted::new(alloc, &group.addrs)?,
            indexes: Admitted::new(alloc, &group.indexes)?,
            streams: Admitted::new(alloc, &group.streams)?,
        })
    }

    /// Returns whether the group asks for records of the block at this address.
    pub(crate) fn covers(&self, addr: u64) -> bool
        ensures { result ≡ covers self.now.1 addr }
    {
        self.addrs.contains(addr)
    }

    /// Returns an address below which the group covers none.
    pub(crate) fn first_address(&self) -> u64
        ensures { BeginsAt self.now result }
    {
        self.addrs.least()
    }

    /// Returns an address above which the group covers none.
    pub(crate) fn last_address(&self) -> u64
        ensures { EndsBy self.now result }
    {
        self.addrs.greatest()
    }

    /// Returns whether the group hits records of the session, if there is one.
    fn admits_session(&self, session: &Option<SessionKey>) -> bool
        ensures { result ≡ admits_session self.now.1 session.now }
    {
        match session {
            None => true,
            Some(key) => {
                self.session_ids.contains(u64::from(key.id))
                    && self.session_times.contains(u64::from(key.time))
            }
        }
    }

    /// Returns whether the group may hit a record in a block at this address, whose header has this
    /// session or none.
    pub(crate) fn admits_block(&self, addr: u64, session: &Option<SessionKey>) -> bool
        ensures { result ≡ admits_block self.now.1 addr session.now }
    {
        // If a volume has many groups, the address excludes most of them.
        self.addrs.contains(addr)
            && self.admits_session(session)
            && self.files.contains(addr / FILE_BYTES)
            && self.blocks.contains(addr % FILE_BYTES)
    }

    /// Returns whether the group hits a record of this index and stream, in a block whose records
    /// it may hit. `own` is the session of the record, if the header of its block has none.
    fn admits_record(&self, own: &Option<SessionKey>, index: i32, stream: i32) -> bool
        ensures { result ≡ admits_record self.now.1 own.now index stream }
    {
        index > 0
            && self.admits_session(own)
            && self.indexes.contains(u64::from(index.unsigned_abs()))
            && self.streams.contains(u64::from(stream.unsigned_abs()))
    }
}

/// Prepares the groups, in their order.
pub(crate) fn matchers_for(
    alloc: Global,
    groups: &[(u32, Group)],
) -> Result<Vec<Matcher>, AllocError>
    ensures { IfOk result (λ ms. AllZip AreAlike ms.items groups.now) }
{
    let mut matchers = Vec::new(alloc);
    for (number, group) in groups {
        matchers.push(Matcher::new(alloc, *number, group)?)?;
    }
    Ok(matchers)
}

/// Returns the number of the first of these groups that hits a record of this index and stream.
/// `own` is the session of the record, if the header of its block has none.
pub(crate) fn first_admitting(
    near: &[&Matcher],
    own: &Option<SessionKey>,
    index: i32,
    stream: i32,
) -> Option<u32>
    ensures { result ≡ first_admitting own.now index stream (map (λ m. m.now) near.now) }
{
    for matcher in near {
        if matcher.admits_record(own, index, stream) {
            return Some(matcher.number);
        }
    }
    None
}
