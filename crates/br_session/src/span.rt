use br_types::VolName;
use std::marker::Model;

/// A visit of a job to a volume: the bytes that it wrote there, and the files of which they have
/// parts.
#[derive(Debug, Drop)]
pub struct Span {
    /// The volume.
    pub vol: VolName,
    /// The least index of a file with a part in the span.
    pub first: u32,
    /// The greatest index of a file with a part in the span.
    pub last: u32,
    /// The address of the span's first byte on the volume.
    pub start: u64,
    /// The address of the span's last byte on the volume.
    pub end: u64,
    /// The number of the visit in the job, from 1.
    pub vol_index: u32,
}

impl Model for Span {
    ghost use Rattle.br_model.specs.Job as model;

    ghost Value = { model.Span };

    ghost view = { λ s. record { volume = s.vol; first = s.first; last = s.last; start = s.start; end = s.end; vol_index = s.vol_index } };
}
