ghost use Rattle.std.specs.Prelude.{◌≡◌};
ghost use Rattle.br_records.specs.Making.{file_fault};
ghost use Rattle.br_records.specs.declared.making_fault.MakingFault.TheVariants.{Memory, File};

use std::alloc::AllocError;

/// The reason why the fragments of a file make no file.
#[derive(Clone, Copy)]
pub enum FileFault {
    /// A fragment continues a record, but no record is open.
    Orphan,
    /// A record is not continued, or is not whole at the end.
    Torn,
    /// A fragment continues the open record with another size than is left.
    SizeDiffers,
    /// No record has the file's attributes.
    NoAttributes,
    /// More than one record has attributes, or they cannot be read.
    BadAttributes,
    /// A record of this stream is not supported.
    Unsupported(u32),
    /// The digest is not that of the bytes.
    DigestDiffers,
    /// The address of sparse data is missing, or goes back.
    SparseBack,
    /// The file is larger than 2^30 bytes.
    TooLarge,
    /// The file has another path than the planned one.
    NameDiffers,
}

impl FileFault {
    /// Returns the number of the refusal: 60 to 69.
    pub fn number(self) -> u32
        ensures { result ≡ (file_fault self).number }
    {
        match self {
            FileFault::Orphan => 60,
            FileFault::Torn => 61,
            FileFault::SizeDiffers => 62,
            FileFault::NoAttributes => 63,
            FileFault::BadAttributes => 64,
            FileFault::Unsupported(_) => 65,
            FileFault::DigestDiffers => 66,
            FileFault::SparseBack => 67,
            FileFault::TooLarge => 68,
            FileFault::NameDiffers => 69,
        }
    }

    /// Returns the stream that is not supported, else 0.
    pub fn stream(self) -> u32
        ensures { result ≡ (file_fault self).stream }
    {
        match self {
            FileFault::Unsupported(stream) => stream,
            _ => 0,
        }
    }
}

/// The reason why no file was made.
#[derive(Clone, Copy)]
pub enum MakingFault {
    /// Memory ran out, or data that are needed are no longer in memory.
    Memory,
    /// The fragments make no file.
    File(FileFault),
}

impl From<AllocError> for MakingFault {
    ghost from_gives = { λ _ e. e ≡ Memory };

    fn from(_e: AllocError) -> MakingFault {
        MakingFault::Memory
    }
}

impl From<FileFault> for MakingFault {
    ghost from_gives = { λ f e. e ≡ File f };

    fn from(fault: FileFault) -> MakingFault {
        MakingFault::File(fault)
    }
}
