ghost use Rattle.std.specs.Prelude.{◌≡◌, ◌++◌, ◌∷◌, ℕ, List, decimal, codes, OnOk};
ghost use Rattle.br_model.specs.Text.{line, refused_line, escaped};
ghost use Rattle.br_model.specs.Refusal.{line_fault, piece_fault};
ghost use Rattle.br_bsr.specs.Fault.{cause};
ghost use Rattle.br_engine.specs.declared.fault.ExtractFault.TheVariants.{Memory, Bootstrap, Piece, Io};
ghost use Rattle.br_engine.specs.declared.fault.ExtractFault.TheVariants as of;
ghost use Rattle.br_engine.specs.Fault.{OfAgain, fault_number, fault_text, bootstrap_text, piece_text, pool_text};

use crate::turns::NoEnd;
use br_bsr::BsrFault;
use br_data::AgainFault;
use br_match::PieceFault;
use br_pool::PoolFault;
use br_types::{push_escaped, push_number};
use std::alloc::AllocError;
use std::io;
use thiserror::Error;

/// Why a restore wrote no manifest, or not all of it.
#[derive(Debug, Drop, Error)]
pub enum ExtractFault {
    #[error("out of memory")]
    Memory,
    /// A line of the bootstrap was refused.
    #[error("{0}")]
    Bootstrap(BsrFault),
    /// A volume could not be read, or no drive is left.
    #[error("{0}")]
    Piece(PoolFault),
    /// Data that are read again are no longer those that were found.
    #[error("a volume was changed while it was read")]
    Changed,
    /// Reading the bootstrap or writing the manifest failed.
    #[error("{0}")]
    Io(io::Error),
    /// The input with the bootstrap has no end.
    #[error("{0}")]
    NoEnd(NoEnd),
}

impl From<AllocError> for ExtractFault {
    ghost from_gives = { λ _ e. e ≡ Memory };

    fn from(_e: AllocError) -> ExtractFault {
        ExtractFault::Memory
    }
}

impl From<BsrFault> for ExtractFault {
    ghost from_gives = { λ fault e. e ≡ Bootstrap fault };

    fn from(fault: BsrFault) -> ExtractFault {
        ExtractFault::Bootstrap(fault)
    }
}

impl From<PoolFault> for ExtractFault {
    ghost from_gives = { λ fault e. e ≡ Piece fault };

    fn from(fault: PoolFault) -> ExtractFault {
        ExtractFault::Piece(fault)
    }
}

impl From<io::Error> for ExtractFault {
    ghost from_gives = { λ fault e. e ≡ Io fault };

    fn from(fault: io::Error) -> ExtractFault {
        ExtractFault::Io(fault)
    }
}

impl From<AgainFault> for ExtractFault {
    ghost from_gives = { λ fault e. OfAgain fault e };

    fn from(fault: AgainFault) -> ExtractFault {
        match fault {
            AgainFault::Memory => ExtractFault::Memory,
            AgainFault::Failed => ExtractFault::Piece(PoolFault::NoDriveLeft),
            AgainFault::Changed => ExtractFault::Changed,
        }
    }
}

impl From<NoEnd> for ExtractFault {
    ghost from_gives = { λ fault e. e ≡ of.NoEnd fault };

    fn from(fault: NoEnd) -> ExtractFault {
        ExtractFault::NoEnd(fault)
    }
}

fn push_refused(text: &mut Vec<u8>, number: u32) -> Result<(), AllocError>
    ensures { OnOk result (text.new.items ≡ text.old.items ++ (codes "refused " ++ decimal number)) }
{
    text.extend_from_slice(b"refused ")?;
    push_number(text, u64::from(number))
}

/// Appends the line `refused N`.
///
/// If memory runs out, a part of the line may have been appended.
pub fn push_refused_line(text: &mut Vec<u8>, number: u32) -> Result<(), AllocError>
    ensures { OnOk result (text.new.items ≡ text.old.items ++ refused_line number) }
{
    push_refused(text, number)?;
    text.push(b'\n')?;
    Ok(())
}

/// Appends `refused N line K`, or `refused 1` if memory ran out.
fn push_bootstrap_line(text: &mut Vec<u8>, fault: BsrFault) -> Result<(), AllocError>
    ensures { OnOk result (text.new.items ≡ text.old.items ++ bootstrap_text (cause fault)) }
{
    match fault.line() {
        None => push_refused_line(text, 1),
        Some(line) => {
            push_refused(text, fault.number())?;
            text.extend_from_slice(b" line ")?;
            push_number(text, line)?;
            text.push(b'\n')?;
            Ok(())
        }
    }
}

/// Appends `refused N VOLUME ADDRESS`.
fn push_block_line(text: &mut Vec<u8>, number: u32, vol: &[u8], addr: u64) -> Result<(), AllocError>
    ensures { OnOk result (text.new.items ≡ text.old.items ++ piece_fault (record { number = number; volume = vol.now; address = addr })) }
{
    push_refused(text, number)?;
    text.push(b' ')?;
    push_escaped(text, vol)?;
    text.push(b' ')?;
    push_number(text, addr)?;
    text.push(b'\n')?;
    Ok(())
}

/// Appends the line of a piece that was refused: `refused N VOLUME ADDRESS` with the volume escaped,
/// or `refused 1` if memory ran out.
fn push_piece_line(text: &mut Vec<u8>, fault: &PieceFault) -> Result<(), AllocError>
    ensures { OnOk result (text.new.items ≡ text.old.items ++ piece_text fault.now) }
{
    match fault {
        PieceFault::Memory => push_refused_line(text, 1),
        PieceFault::Block { cause, vol, addr } => {
            push_block_line(text, cause.number(), vol.bytes(), *addr)
        }
    }
}

/// Appends the line for pieces that were not read: that of the first piece that has a fault,
/// `refused 1` if memory ran out, or `refused 70` if no drive is left.
///
/// If memory runs out here, a part of the line may have been appended.
pub fn push_pool_line(text: &mut Vec<u8>, fault: &PoolFault) -> Result<(), AllocError>
    ensures { OnOk result (text.new.items ≡ text.old.items ++ pool_text fault.now) }
{
    match fault {
        PoolFault::Memory => push_refused_line(text, 1),
        PoolFault::Piece(fault) => push_piece_line(text, fault),
        PoolFault::NoDriveLeft => push_refused_line(text, 70),
    }
}

impl ExtractFault {
    /// Returns the number of the refusal: 1 out of memory, 10 to 12 and 14 a volume, 30 to 34 a
    /// line of the bootstrap, 70 no drive left, 72 a volume that was changed. A fault of reading or
    /// writing is no refusal, and neither is an input without an end.
    pub fn number(&self) -> Option<u32>
        ensures { result ≡ fault_number self.now }
    {
        match self {
            ExtractFault::Memory => Some(1),
            ExtractFault::Bootstrap(fault) => Some(fault.number()),
            ExtractFault::Piece(fault) => Some(fault.number()),
            ExtractFault::Changed => Some(72),
            ExtractFault::Io(_) | ExtractFault::NoEnd(_) => None,
        }
    }

    /// Appends the line of the refusal: `refused N line K` for a line of the bootstrap, counted from 1;
    /// `refused N VOLUME ADDRESS` for 10 to 14, with the volume escaped; `refused 1` if memory ran out,
    /// `refused 70` if no drive is left, and `refused 72` if a volume was changed.
    /// Appends nothing for a fault of reading or writing, or an input that has no end.
    ///
    /// If memory runs out here, a part of the line may have been appended.
    pub fn push_line(&self, text: &mut Vec<u8>) -> Result<(), AllocError>
        ensures { OnOk result (text.new.items ≡ text.old.items ++ fault_text self.now) }
    {
        match self {
            ExtractFault::Memory => push_refused_line(text, 1),
            ExtractFault::Bootstrap(fault) => push_bootstrap_line(text, *fault),
            ExtractFault::Piece(fault) => push_pool_line(text, fault),
            ExtractFault::Changed => push_refused_line(text, 72),
            ExtractFault::Io(_) | ExtractFault::NoEnd(_) => Ok(()),
        }
    }
}
