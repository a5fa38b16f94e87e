//! Reads the data of two files again, side by side, while both are put.
ghost use Rattle.std.specs.Prelude.{◌≡◌, None, Ok, Some};
ghost use Rattle.br_data.specs.ManyDrives.{GoOn, HaveFailed};
ghost use Rattle.br_sink.specs.TwoParts.{AreTwoAlike, AreTwoSame, IsLost, NotChanged, WritesTwo, held_by};
ghost use Rattle.br_sink.specs.declared.file_parts.PartsFault.TheVariants as why;
ghost use Rattle.br_reread_parts.specs.Steps.{IfPut, either_fault};
ghost use Rattle.br_reread_parts.specs.TwoParts.{AreReadSame, ComesOf, EndsAs, FailsBy, GivesTwo, IsChangedBy};

use crate::ahead::finish;
use crate::both::{BothRead, PlainFile, open_two, put_both};
use br_data::{OverMany, Reading, standing_stays};
use br_join::{FileBytes, Item};
use br_match::Hit;
use br_sink::{PartsFault, TwoParts, TwoPut};
use br_volume::Drive;
use std::alloc::Global;
use std::io::Write;
use std::thread::Threads;

/// Returns the result for two files: the first was put with these bytes, and the second was read to
/// its end.
fn after_both(alloc: Global, one: FileBytes, reading: Reading, other: &Item) -> TwoPut
    ensures ends { EndsAs result None one reading other.now }
    ensures reason { FailsBy result None }
    ensures changed { reading ≡ other.now.bytes → NotChanged result }
    ensures lost { IsLost result → ⊥ }
{
    match finish(alloc, reading, other) {
        Ok(bytes) => TwoPut::Both { one, other: bytes },
        Err(why) => TwoPut::One { one, why },
    }
}

/// Returns the result for two files: the first was put with these bytes, and the second failed with
/// this fault, or was read to its end.
fn after_first(
    alloc: Global,
    one: FileBytes,
    fault: Option<PartsFault>,
    reading: Reading,
    other: &Item,
) -> TwoPut
    ensures ends { EndsAs result fault one reading other.now }
    ensures reason { FailsBy result fault }
    ensures changed { IfPut fault (reading ≡ other.now.bytes) → IsChangedBy result fault }
    ensures lost { IsLost result → fault ≡ Some why.NoDriveLeft }
{
    match fault {
        Some(why) => TwoPut::One { one, why },
        None => after_both(alloc, one, reading, other),
    }
}

/// Returns the result for two files: the first was read to its end, and the second failed with this
/// fault, or was read to its end.
fn after_reading(
    alloc: Global,
    read: BothRead,
    fault: Option<PartsFault>,
    one: &Item,
    other: &Item,
) -> TwoPut
    ensures comes { ComesOf result (Ok fault) read.one read.other one.now other.now }
    ensures reason { FailsBy result fault }
    ensures changed { AreReadSame (Ok fault) read.one read.other one.now other.now → IsChangedBy result fault }
    ensures lost { IsLost result → fault ≡ Some why.NoDriveLeft }
{
    let BothRead {
        one: first,
        other: second,
    } = read;
    match finish(alloc, first, one) {
        Ok(bytes) => after_first(alloc, bytes, fault, second, other),
        Err(why) => TwoPut::Neither { why },
    }
}

/// Returns the result for two files after what could be read of them was written.
fn two_put(
    alloc: Global,
    read: BothRead,
    put: Result<Option<PartsFault>, PartsFault>,
    one: &Item,
    other: &Item,
) -> TwoPut
    ensures comes { ComesOf result put read.one read.other one.now other.now }
    ensures reason { FailsBy result (either_fault put) }
    ensures changed { AreReadSame put read.one read.other one.now other.now → IsChangedBy result (either_fault put) }
    ensures lost { IsLost result → either_fault put ≡ Some why.NoDriveLeft }
{
    match put {
        Ok(fault) => after_reading(alloc, read, fault, one, other),
        Err(why) => TwoPut::Neither { why },
    }
}

/// The hits of two files without sparse data, in order of place, and the drives that read them again.
#[derive(Drop)]
pub(crate) struct BothParts<'h, 'b, D: Drive, R> {
    rt: &'h R,
    alloc: Global,
    one: &'h [Hit],
    other: &'h [Hit],
    many: OverMany<'b, D>,
}

impl<'h, 'b, D: Drive, R: Threads> BothParts<'h, 'b, D, R> {
    /// Returns the source for the files with these hits.
    pub(crate) fn new(
        rt: &'h R,
        alloc: Global,
        one: &'h [Hit],
        other: &'h [Hit],
        many: OverMany<'b, D>,
    ) -> BothParts<'h, 'b, D, R>
        ensures one { result.one.now ≡ one.now }
        ensures other { result.other.now ≡ other.now }
        ensures many { result.many ≡ many.entry }
    {
        BothParts {
            rt,
            alloc,
            one,
            other,
            many,
        }
    }

    /// Returns the drives that read the data again.
    pub(crate) fn into_many(self) -> OverMany<'b, D>
        ensures { result ≡ self.entry.many }
    {
        self.many
    }

    /// Writes the plain data of two files, each if they have the length and the digest of its
    /// item's bytes.
    fn write_two<W: Write>(
        &mut self,
        one: &Item,
        other: &Item,
        first: &mut W,
        second: &mut W,
    ) -> TwoPut
        ensures written { WritesTwo one.now other.now (held_by W.contents first.old second.old) (held_by W.contents first.new second.new) result }
        ensures alike { AreTwoAlike one.now other.now result }
        ensures same { GivesTwo self.old.many self.old.one.now self.old.other.now one.now other.now → AreTwoSame one.now other.now result }
        ensures changed { GivesTwo self.old.many self.old.one.now self.old.other.now one.now other.now → NotChanged result }
        ensures lost { IsLost result → HaveFailed self.old.many self.new.many }
        ensures on { GoOn self.old.many self.new.many }
    {
        standing_stays();
        let one_file = PlainFile {
            hits: self.one,
            item: one,
        };
        let other_file = PlainFile {
            hits: self.other,
            item: other,
        };
        let mut next = match open_two(self.alloc, &mut self.many, &one_file, &other_file) {
            Ok(next) => next,
            Err(why) => return TwoPut::Neither { why },
        };
        let mut read = BothRead {
            one: Reading::new(),
            other: Reading::new(),
        };
        let put = put_both(self.rt, &mut self.many, &mut read, &mut next, first, second);
        two_put(self.alloc, read, put, one, other)
    }
}

impl<'h, 'b, D: Drive, R: Threads> TwoParts for BothParts<'h, 'b, D, R> {
    ghost use Rattle.br_data.specs.ManyDrives.{GoOn, HaveFailed};
    ghost use Rattle.br_data.proofs.GoOnLaws.{go_itself};
    ghost use Rattle.br_reread_parts.specs.TwoParts.{GivesTwo};

    ghost gives = { λ p one other. GivesTwo p.many p.one.now p.other.now one other };

    ghost goes_on = { λ p q. GoOn p.many q.many };

    ghost loses = { λ p q. HaveFailed p.many q.many };

    fn write_both<W: Write>(
        &mut self,
        one: &Item,
        other: &Item,
        first: &mut W,
        second: &mut W,
    ) -> TwoPut {
        // `write_two` is proved by its own clauses, from which those of the trait follow.
        self.write_two(one, other, first, second)
    }

    ghost stays = { λ p. go_itself p.many };
}
