//! Two files that are put into a sink side by side.
ghost use Rattle.std.specs.Prelude.{◌≡◌, ◌<◌, ◌≤◌, option_map};
ghost use Rattle.br_data.specs.ManyDrives.{GoOn, HaveFailed};
ghost use Rattle.br_reread_parts.specs.TwoParts.{GivesPlain};
ghost use Rattle.br_reread_files.specs.TwoFiles.{ChangesAny, FailsAny, LosesAny, PutsAny, done_as, plain_files};

use br_data::OverMany;
use br_join::Item;
use br_reread_parts::{PlainFile, put_two_plain};
use br_sink::{PartsFault, Sink, TwoPut};
use br_types::FileKey;
use br_volume::Drive;
use std::alloc::Global;
use std::thread::Threads;

/// A file to put, and its key.
#[derive(Drop)]
pub struct KeyedItem<'i> {
    pub key: FileKey,
    pub item: &'i Item,
}

/// What was put of two files.
#[derive(Clone, Copy)]
pub enum TwoDone {
    /// Both were put.
    Both,
    /// The first one was put, and the other was not.
    One(PartsFault),
    /// Neither was put.
    Neither(PartsFault),
}

/// Returns what was put of two files.
fn done_of(put: TwoPut) -> TwoDone
    ensures { result ≡ done_as put }
{
    match put {
        TwoPut::Both { .. } => TwoDone::Both,
        TwoPut::One { why, .. } => TwoDone::One(why),
        TwoPut::Neither { why } => TwoDone::Neither(why),
    }
}

/// Returns what was put of two files, if an attempt was made.
fn done_if_any(put: Option<TwoPut>) -> Option<TwoDone>
    ensures { result ≡ option_map done_as put }
{
    match put {
        Some(put) => Some(done_of(put)),
        None => None,
    }
}

/// Puts two files like these into a sink, side by side. Returns `None`, and the sink has what it
/// had, if it does not put these two side by side.
pub(crate) fn put_two<D: Drive, S: Sink>(
    rt: &impl Threads,
    alloc: Global,
    many: &mut OverMany<'_, D>,
    one: &PlainFile<'_, '_>,
    other: &PlainFile<'_, '_>,
    sink: &mut S,
) -> Option<TwoDone>
    ensures put { PutsAny result (GivesPlain many.old one.now other.now) (plain_files one.now other.now) (S.has sink.old) (S.has sink.new) }
    ensures counted { S.failures sink.old ≤ S.failures sink.new }
    ensures failed { FailsAny result → S.failures sink.old < S.failures sink.new }
    ensures changed { ChangesAny result → GivesPlain many.old one.now other.now → ⊥ }
    ensures lost { LosesAny result → HaveFailed many.old many.new }
    ensures on { GoOn many.old many.new }
{
    let put = put_two_plain(rt, alloc, many, one, other, sink);
    done_if_any(put)
}
