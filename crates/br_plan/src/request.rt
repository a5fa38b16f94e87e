use br_types::Name;
use std::marker::Model;

/// What is to be restored: the state of a file set of a client before a moment.
#[derive(Drop)]
pub struct Request {
    pub client: Name,
    pub fileset: Name,
    /// In seconds since 1970 in UTC; a job that began at it or later is not used.
    pub moment: u64,
}

impl Model for Request {
    ghost use Rattle.br_model.specs.Choice as model;

    ghost Value = { model.Request };

    ghost view = { λ r. record { client = r.client; fileset = r.fileset; moment = r.moment } };
}
