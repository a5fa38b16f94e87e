//! The lines of all pieces of a bootstrap.
ghost use Rattle.std.specs.Prelude.{◌≡◌, ◌≤◌, length, OnOk};
ghost use Rattle.br_model.specs.Meaning.{pieces_of};
ghost use Rattle.br_volume.specs.Drive.{OnlyGrows};
ghost use Rattle.br_check.specs.ChecksumPieces.{PieceOver, SumsOver};
ghost use Rattle.br_check.specs.Shown.{shown_between};
ghost use Rattle.br_check.specs.Told.{TellsFrom, TellsMore};

use crate::checksum_lines::push_failed;
use crate::checksum_walk::{AskedBlocks, ChecksumStep};
use br_block::Crc;
use br_bsr::Bootstrap;
use br_piece::{Piece, split};
use br_volume::Drive;
use std::alloc::Global;
use std::io::{self, Write};

/// Writes what a text has after this number of bytes, if it has more.
#[tactic(auto, using(crate::proofs::TellLaws::tells_end))]
fn tell<W: Write>(writer: &mut W, text: &[u8], from: usize) -> io::Result<()>
    requires { from ≤ length text.now }
    ensures { OnOk result (TellsFrom from (W.contents writer.old) (W.contents writer.new) text.now) }
{
    if from == text.len() {
        return Ok(());
    }
    writer.write_all(&text[from..])
}

/// Appends the lines of a piece's blocks, and writes each as it is found. If the drive fails, it
/// appends a line that says so and stops there.
fn push_piece<D: Drive, W: Write>(
    crc: &Crc,
    text: &mut Vec<u8>,
    drive: &mut D,
    piece: &Piece,
    buf: &mut Vec<u8>,
    writer: &mut W,
) -> io::Result<()>
    ensures tells { OnOk result (PieceOver (shown_between D.Drive drive.old drive.new) piece.now text.old.items text.new.items) }
    ensures written { OnOk result (TellsMore (W.contents writer.old) (W.contents writer.new) text.old.items text.new.items) }
    ensures grows { OnlyGrows (D.shows drive.old) (D.shows drive.new) }
    ensures counted { D.failures drive.old ≤ D.failures drive.new }
{
    let asked = AskedBlocks::new(crc, &piece.vol, &piece.groups);
    let mut addr = 0;
    loop {
        let from = text.len();
        match asked.step(text, drive, addr, buf)? {
            ChecksumStep::Passed(size) => {
                tell(writer, text, from)?;
                addr += u64::from(size);
            }
            ChecksumStep::Ended => return Ok(()),
            ChecksumStep::Failed => {
                push_failed(text, &piece.vol, addr)?;
                return tell(writer, text, from);
            }
        }
    }
}

/// Appends the lines of the blocks of some pieces, and writes each as it is found.
fn push_pieces<D: Drive, W: Write>(
    alloc: Global,
    text: &mut Vec<u8>,
    drive: &mut D,
    pieces: &[Piece],
    writer: &mut W,
) -> io::Result<()>
    ensures tells { OnOk result (SumsOver (shown_between D.Drive drive.old drive.new) pieces.now text.old.items text.new.items) }
    ensures written { OnOk result (TellsMore (W.contents writer.old) (W.contents writer.new) text.old.items text.new.items) }
    ensures grows { OnlyGrows (D.shows drive.old) (D.shows drive.new) }
    ensures counted { D.failures drive.old ≤ D.failures drive.new }
{
    let crc = Crc::new(alloc)?;
    let mut buf = Vec::new(alloc);
    for piece in pieces {
        push_piece(&crc, text, drive, piece, &mut buf, writer)?;
    }
    Ok(())
}

/// Appends a line `checksum VOLUME ADDRESS` for each block that the bootstrap asks for by its volume and its
/// address and whose checksum, if it is not 0, is not the CRC-32 of the bytes after it. The volumes come in
/// the order in which the bootstrap first names them, and the blocks in the order of their addresses, up to
/// the end of the volume or the first block that can't be read. Each line is also written as it is found.
///
/// If the drive fails, the line `volume 13 VOLUME ADDRESS` replaces those of the volume's blocks
/// from there on.
///
/// # Errors
///
/// If memory runs out or the writer fails.
pub fn push_checksums<D: Drive, W: Write>(
    alloc: Global,
    text: &mut Vec<u8>,
    bootstrap: &Bootstrap,
    drive: &mut D,
    writer: &mut W,
) -> io::Result<()>
    ensures tells { OnOk result (SumsOver (shown_between D.Drive drive.old drive.new) (pieces_of bootstrap.now) text.old.items text.new.items) }
    ensures written { OnOk result (TellsMore (W.contents writer.old) (W.contents writer.new) text.old.items text.new.items) }
    ensures grows { OnlyGrows (D.shows drive.old) (D.shows drive.new) }
    ensures counted { D.failures drive.old ≤ D.failures drive.new }
{
    let pieces = split(alloc, bootstrap)?;
    push_pieces(alloc, text, drive, &pieces, writer)
}
