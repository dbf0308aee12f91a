//! Why a line has not become a column.
use pool_scripts::{Fault, LineError, Reason, Stopped};
use std::alloc::{AllocError, AllocFailed};

/// Why a line has not become a column.
#[derive(Clone, Copy, Debug, PartialEq, Eq)]
pub enum Stop {
    NotAMove(Reason),
    TooMuch,
    OtherReply,
    OutOfMemory,
}

impl Stop {
    /// How the run ended at the line with this number.
    pub fn at(self, number: u64) -> Stopped {
        match self {
            Stop::NotAMove(reason) => Stopped::at(number, LineError::NotAMove(reason)),
            Stop::TooMuch => Stopped::from(Fault::TooMuch(number)),
            Stop::OtherReply => Stopped::from(Fault::OtherReply(number)),
            Stop::OutOfMemory => Stopped::from(Fault::OutOfMemory),
        }
    }

    /// What is written beside the line.
    pub fn why(self) -> &'static str {
        match self {
            Stop::NotAMove(_) => "not a move",
            Stop::TooMuch => "too much to draw",
            Stop::OtherReply => "the pool has another reply",
            Stop::OutOfMemory => "out of memory",
        }
    }
}

/// Whether a run found no memory, so that nothing is drawn of it.
pub fn is_out_of_memory(ending: &Result<(), Stopped>) -> bool {
    match ending {
        Err(stopped) => stopped.fault == Fault::OutOfMemory,
        Ok(()) => false,
    }
}

impl From<LineError> for Stop {
    fn from(cause: LineError) -> Stop {
        match cause {
            LineError::NotAMove(reason) => Stop::NotAMove(reason),
            LineError::OutOfMemory => Stop::OutOfMemory,
        }
    }
}

impl<T: Drop> From<AllocFailed<T>> for Stop {
    fn from(_refused: AllocFailed<T>) -> Stop {
        Stop::OutOfMemory
    }
}

impl From<AllocError> for Stop {
    fn from(_refused: AllocError) -> Stop {
        Stop::OutOfMemory
    }
}
