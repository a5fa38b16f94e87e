//! A file of which the plain data are read again while it is put. While the data of one window are digested
//! in another thread they are written, and those of the next one are read: these two are in memory.
ghost use Rattle.std.specs.Prelude.{◌≡◌, Err, IfOk, OnErr};
ghost use Rattle.std.specs.Io.KnownBytes.{Appends};
ghost use Rattle.br_data.specs.ManyDrives.{GoOn, HaveFailed};
ghost use Rattle.br_sink.specs.FileParts.{AreAlike, WritesSome};
ghost use Rattle.br_sink.specs.declared.file_parts.PartsFault.TheVariants as why;
ghost use Rattle.br_reread_parts.specs.FileParts.{GivesFile};

use crate::ahead::{finish, open_file, put_rest};
use br_data::{OverMany, Reading, standing_stays};
use br_join::{FileBytes, Item};
use br_match::Hit;
use br_sink::{Parts, PartsFault};
use br_volume::Drive;
use std::alloc::Global;
use std::io::Write;
use std::thread::Threads;

/// Writes the plain data of the hits, if they have the length and the digest of the item's bytes.
/// Returns these bytes, which are not in memory.
///
/// # Errors
///
/// As `open_file`, `put_rest` and `finish`.
fn write_file<D: Drive, W: Write>(
    rt: &impl Threads,
    alloc: Global,
    many: &mut OverMany<'_, D>,
    hits: &[Hit],
    item: &Item,
    writer: &mut W,
) -> Result<FileBytes, PartsFault>
    ensures all { IfOk result (λ bytes. Appends (W.contents writer.old) (W.contents writer.new) bytes) }
    ensures alike { IfOk result (λ bytes. AreAlike bytes item.now.bytes) }
    ensures same { IfOk result (λ bytes. GivesFile many.old hits.now item.now → bytes ≡ item.now.bytes) }
    ensures front { OnErr result (WritesSome item.now.bytes (W.contents writer.old) (W.contents writer.new)) }
    ensures changed { result ≡ Err why.Changed → GivesFile many.old hits.now item.now → ⊥ }
    ensures lost { result ≡ Err why.NoDriveLeft → HaveFailed many.old many.new }
    ensures on { GoOn many.old many.new }
{
    standing_stays();
    let mut ahead = open_file(alloc, many, hits, item)?;
    let mut reading = Reading::new();
    put_rest(rt, many, &mut reading, &mut ahead, writer)?;
    finish(alloc, reading, item)
}

/// The hits of a file without sparse data, in order of place, and the drives that read them again.
#[derive(Drop)]
pub(crate) struct FileParts<'h, 'b, D: Drive, R> {
    rt: &'h R,
    alloc: Global,
    hits: &'h [Hit],
    many: OverMany<'b, D>,
}

impl<'h, 'b, D: Drive, R: Threads> FileParts<'h, 'b, D, R> {
    /// Returns the source for the file with these hits.
    pub(crate) fn new(
        rt: &'h R,
        alloc: Global,
        hits: &'h [Hit],
        many: OverMany<'b, D>,
    ) -> FileParts<'h, 'b, D, R>
        ensures hits { result.hits.now ≡ hits.now }
        ensures many { result.many ≡ many.entry }
    {
        FileParts {
            rt,
            alloc,
            hits,
            many,
        }
    }

    /// Returns the drives that read the data again.
    pub(crate) fn into_many(self) -> OverMany<'b, D>
        ensures { result ≡ self.entry.many }
    {
        self.many
    }
}

impl<'h, 'b, D: Drive, R: Threads> Parts for FileParts<'h, 'b, D, R> {
    ghost use Rattle.br_data.specs.ManyDrives.{GoOn, HaveFailed};
    ghost use Rattle.br_data.proofs.GoOnLaws.{go_itself};
    ghost use Rattle.br_reread_parts.specs.FileParts.{GivesFile};

    ghost gives = { λ p item. GivesFile p.many p.hits.now item };

    ghost goes_on = { λ p q. GoOn p.many q.many };

    ghost loses = { λ p q. HaveFailed p.many q.many };

    fn write_to<W: Write>(&mut self, item: &Item, writer: &mut W) -> Result<FileBytes, PartsFault> {
        write_file(self.rt, self.alloc, &mut self.many, self.hits, item, writer)
    }

    ghost stays = { λ p. go_itself p.many };
}
