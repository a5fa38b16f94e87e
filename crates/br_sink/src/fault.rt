ghost use Rattle.std.specs.Prelude.{◌≡◌};
ghost use Rattle.br_sink.specs.Fault.{fault_number, cause_number};
ghost use Rattle.br_sink.specs.declared.fault.SinkFault.TheVariants as sink;
ghost use Rattle.br_sink.specs.declared.fault.StopCause.TheVariants as stop;

use std::alloc::AllocError;
use std::marker::Model;
use thiserror::Error;

/// Why a sink did not take a file.
#[derive(Clone, Copy, Debug, Error)]
pub enum SinkFault {
    #[error("out of memory")]
    Memory,
    #[error("the sink failed to put a file")]
    Fault,
}

impl SinkFault {
    /// Returns the number of the refusal: 1 out of memory, 80 a sink that failed.
    pub fn number(self) -> u32
        ensures { result ≡ fault_number self }
    {
        match self {
            SinkFault::Memory => 1,
            SinkFault::Fault => 80,
        }
    }
}

impl From<AllocError> for SinkFault {
    ghost from_gives = { λ _ e. e ≡ sink.Memory };

    fn from(_e: AllocError) -> SinkFault {
        SinkFault::Memory
    }
}

/// Why a delivery stopped at a file.
#[derive(Clone, Copy, Debug, Error)]
pub enum StopCause {
    #[error("out of memory")]
    Memory,
    #[error("the sink failed to put a file")]
    Fault,
    /// Its path conflicts with one put before.
    #[error("the path conflicts with one put before")]
    Conflict,
}

impl From<AllocError> for StopCause {
    ghost from_gives = { λ _ e. e ≡ stop.Memory };

    fn from(_e: AllocError) -> StopCause {
        StopCause::Memory
    }
}

/// A stop of a delivery: the number of files before it, and the reason.
#[derive(Debug, Drop, Error)]
#[error("stopped after {done} files: {cause}")]
pub struct SinkStop {
    cause: StopCause,
    done: u64,
}

impl Model for SinkStop {
    ghost use Rattle.br_model.specs.Delivery.{Stop};
    ghost use Rattle.br_sink.specs.Fault.{cause_number};

    ghost Value = { Stop };

    ghost view = { λ s. record { number = cause_number s.cause; done = s.done } };
}

impl SinkStop {
    /// Creates the stop after `done` files for this reason.
    pub fn new(cause: StopCause, done: u64) -> SinkStop
        ensures { result ≡ record { number = cause_number cause; done = done } }
    {
        SinkStop { cause, done }
    }

    /// Creates the stop after `done` files for a fault of the sink at the next one.
    pub fn of_sink(fault: SinkFault, done: u64) -> SinkStop
        ensures { result ≡ record { number = fault_number fault; done = done } }
    {
        match fault {
            SinkFault::Memory => SinkStop::new(StopCause::Memory, done),
            SinkFault::Fault => SinkStop::new(StopCause::Fault, done),
        }
    }

    /// Returns why the delivery stopped.
    pub fn cause(&self) -> StopCause
        ensures { cause_number result ≡ self.now.number }
    {
        self.cause
    }

    /// Returns the number of the refusal: 1 out of memory, 80 a sink that failed, 81 a path that conflicts
    /// with one put before.
    pub fn number(&self) -> u32
        ensures { result ≡ self.now.number }
    {
        match self.cause {
            StopCause::Memory => 1,
            StopCause::Fault => 80,
            StopCause::Conflict => 81,
        }
    }

    /// Returns the number of files that were put before the stop.
    pub fn done(&self) -> u64
        ensures { result ≡ self.now.done }
    {
        self.done
    }
}
