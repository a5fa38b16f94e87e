use br_attr::Stat;
use br_data::FileBytes;
use br_types::Path;
use std::marker::Model;

/// A restored file.
#[derive(Drop)]
pub struct Item {
    /// The path under which the file was saved.
    pub path: Path,
    /// The file's type: 1 a hard link, 2 an empty file, 3 a file, 4 a symbolic link, 5 a directory,
    /// and others.
    pub kind: u32,
    /// The file's numbers.
    pub stat: Stat,
    /// The target of a link.
    pub link: Vec<u8>,
    /// The bytes of a file of type 2 or 3, else none.
    pub bytes: FileBytes,
    /// The number of records that were skipped.
    pub skipped: u64,
}

impl Model for Item {
    ghost use Rattle.br_model.specs.File as model;

    ghost Value = { model.Item };

    ghost view = { λ i. record { path = i.path; kind = i.kind; stat = i.stat; link = i.link.items; bytes = i.bytes; skipped = i.skipped } };
}

/// The result of a restore for one file.
#[derive(Drop)]
pub enum Outcome {
    /// The file.
    File(Item),
    /// The reason why there is no file: 60 a continuation of no record, 61 a torn record, 62 a
    /// continuation of another size, 63 no attributes, 64 bad attributes, 65 a stream that is not
    /// supported, 66 another digest, 67 sparse data that goes back, 68 a file that is too large, 69
    /// another path than the planned one. `stream` is that of 65, else 0.
    Fault { number: u32, stream: u32 },
}
