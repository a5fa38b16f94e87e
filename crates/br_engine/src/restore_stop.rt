//! Where and why the delivery of a restore stops.
ghost use Rattle.std.specs.Prelude.{◌≡◌};
ghost use Rattle.br_sink.specs.FileParts.{parts_number};
ghost use Rattle.br_engine.specs.Stopping.{again_number, restore_number};

use br_data::AgainFault;
use br_sink::{PartsFault, SinkStop, StopCause};
use std::marker::Model;
use thiserror::Error;

/// Why the delivery of a restore stopped at a file.
#[derive(Clone, Copy, Debug, Error)]
pub enum RestoreCause {
    /// As a delivery of files in memory stops.
    #[error("{0}")]
    Sink(StopCause),
    /// No drive is left that reads the data of the file again.
    #[error("no drive is left that reads the data of the file again")]
    NoDriveLeft,
    /// The data of the file are no longer those that were found.
    #[error("a volume was changed while it was read")]
    Changed,
}

/// A stop of the delivery of a restore, which may read data again: the number of files before it, and
/// the reason.
#[derive(Debug, Drop, Error)]
#[error("stopped after {done} files: {cause}")]
pub struct RestoreStop {
    cause: RestoreCause,
    done: u64,
}

impl Model for RestoreStop {
    ghost use Rattle.br_model.specs.Delivery.{Stop};
    ghost use Rattle.br_engine.specs.Stopping.{restore_number};

    ghost Value = { Stop };

    ghost view = { λ s. record { number = restore_number s.cause; done = s.done } };
}

impl RestoreStop {
    /// Creates the stop after `done` files for this reason.
    pub fn new(cause: RestoreCause, done: u64) -> RestoreStop
        ensures { result ≡ record { number = restore_number cause; done = done } }
    {
        RestoreStop { cause, done }
    }

    /// Returns the same stop as that of a delivery of files in memory.
    pub fn of_sink(stop: SinkStop) -> RestoreStop
        ensures { result ≡ stop }
    {
        RestoreStop {
            cause: RestoreCause::Sink(stop.cause()),
            done: stop.done(),
        }
    }

    /// Returns why the delivery stopped.
    pub fn cause(&self) -> RestoreCause
        ensures { restore_number result ≡ self.now.number }
    {
        self.cause
    }

    /// Returns the number of the refusal: 1 out of memory, 70 no drive left, 72 a volume that was changed,
    /// 80 a sink that failed, 81 a path that conflicts with one put before.
    pub fn number(&self) -> u32
        ensures { result ≡ self.now.number }
    {
        match self.cause {
            RestoreCause::Sink(StopCause::Memory) => 1,
            RestoreCause::Sink(StopCause::Fault) => 80,
            RestoreCause::Sink(StopCause::Conflict) => 81,
            RestoreCause::NoDriveLeft => 70,
            RestoreCause::Changed => 72,
        }
    }

    /// Returns the number of files that were put before the stop.
    pub fn done(&self) -> u64
        ensures { result ≡ self.now.done }
    {
        self.done
    }
}

/// Returns why a delivery stops at a file that was not put part by part.
pub(crate) fn cause_of_parts(fault: PartsFault) -> RestoreCause
    ensures { restore_number result ≡ parts_number fault }
{
    match fault {
        PartsFault::Memory => RestoreCause::Sink(StopCause::Memory),
        PartsFault::Fault => RestoreCause::Sink(StopCause::Fault),
        PartsFault::NoDriveLeft => RestoreCause::NoDriveLeft,
        PartsFault::Changed => RestoreCause::Changed,
    }
}

/// Returns why a delivery stops if making a file once more failed.
pub(crate) fn cause_of_again(fault: AgainFault) -> RestoreCause
    ensures { restore_number result ≡ again_number fault }
{
    match fault {
        AgainFault::Memory => RestoreCause::Sink(StopCause::Memory),
        AgainFault::Failed => RestoreCause::NoDriveLeft,
        AgainFault::Changed => RestoreCause::Changed,
    }
}

/// Returns what came of a delivery of files in memory.
pub(crate) fn as_in_memory(put: Result<(), SinkStop>) -> Result<(), RestoreStop>
    ensures { result ≡ put }
{
    match put {
        Ok(()) => Ok(()),
        Err(stop) => Err(RestoreStop::of_sink(stop)),
    }
}
