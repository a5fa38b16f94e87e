use crate::number::FileIndex;
use std::marker::Model;

/// The run of a backup that wrote a record: VolSessionId and VolSessionTime of its blocks.
#[derive(Clone, Copy, Debug, PartialEq, Eq, PartialOrd, Ord)]
pub struct SessionKey {
    pub id: u32,
    pub time: u32,
}

impl Model for SessionKey {
    ghost use Rattle.br_model.specs.Name as model;

    ghost Value = { model.SessionKey };

    ghost view = { λ k. record { id = k.id; time = k.time } };

    ghost inverse = { λ k. record { id = k.id; time = k.time } };
}

/// One file of one session. Keys are ordered by session number, session time and index.
#[derive(Clone, Copy, Debug, PartialEq, Eq, PartialOrd, Ord)]
pub struct FileKey {
    pub session: SessionKey,
    pub index: FileIndex,
}

impl Model for FileKey {
    ghost use Rattle.br_model.specs.Name as model;

    ghost Value = { model.FileKey };

    ghost view = { λ k. record { session = k.session; index = k.index } };

    ghost inverse = { λ k. record { session = k.session; index = k.index } };
}
