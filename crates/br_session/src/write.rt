ghost use Rattle.std.specs.Prelude.{◌≡◌, [], IfOk};
ghost use Rattle.std.specs.List.{AllByRecursion};
ghost use Rattle.br_block.specs.Building.{IsBlockLimit};
ghost use Rattle.br_session.specs.Outcome.{IsOutcome, ArePlaces, SessionHolds};

use crate::deal::deal;
use crate::fault::SessionFault;
use crate::order::check_order;
use crate::place::Place;
use crate::records::pack;
use crate::saved::SavedFile;
use crate::span::Span;
use crate::spans::spans_of;
use br_model::written_sessions_hold;
use br_types::{SessionKey, VolName};
use std::alloc::Global;
use std::marker::Model;

/// The result of writing a session.
#[derive(Drop)]
pub struct Written {
    /// The blocks in order, each with the volume to which it is appended.
    pub blocks: Vec<(VolName, Vec<u8>)>,
    /// The spans of the places that took blocks, in order.
    pub spans: Vec<Span>,
}

impl Model for Written {
    ghost use Rattle.std.specs.Prelude.{map};
    ghost use Rattle.br_model.specs.Session as model;

    ghost Value = { model.Written };

    ghost view = { λ w. record { blocks = map (λ b. (b.0, b.1.items)) w.blocks.items; spans = w.spans.items } };
}

/// Writes the files of a session, numbered from 1, as blocks of at most `limit` bytes. It deals the
/// blocks out over the places, to volumes of the lengths in `starts`. A volume that is not named
/// there is empty. If one is named twice, the first length counts. Several places may name one
/// volume.
///
/// Each file has a record of stream 1 with its attributes, and records of stream 2 with 65,536 of
/// its bytes each, the last with the rest. If its type is 2 or 3 and its digest is wanted, a record
/// of stream 3 has the MD5 digest of its bytes. Each place takes its number of blocks, and the last
/// all that are left. A place that takes a block has a span.
///
/// # Errors
///
/// - `BadFileOrder` if a hard link does not name an earlier file of type 2 or 3, or there are 2^31
///   files or more.
/// - `BadRow` if a span ends after the address 2^63 - 2, or there are 2^32 spans or more.
pub fn write_session(
    alloc: Global,
    files: &[SavedFile],
    session: SessionKey,
    limit: u32,
    places: &[Place],
    starts: &[(VolName, u64)],
) -> Result<Written, SessionFault>
    requires bounds { IsBlockLimit limit }
    requires places { ArePlaces places.now }
    requires some_place { places.now ≡ [] → files.now ≡ [] }
    ensures outcome { IsOutcome files.now session limit (places.now, starts.now) result }
    ensures holds { IfOk result (λ written. SessionHolds files.now session places.now starts.now written) }
{
    written_sessions_hold();
    check_order(files)?;
    let blocks = pack(alloc, files, session, limit)?;
    let spans = spans_of(alloc, &blocks, places, starts)?;
    let blocks = deal(alloc, blocks, places)?;
    Ok(Written { blocks, spans })
}
