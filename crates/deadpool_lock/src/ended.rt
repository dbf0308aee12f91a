//! How a drain ends that does not end well.

use deadpool_parts::Status;
use std::fmt;

/// Why a drain ended before the end of its pool, which is closed. It says how the pool stood then.
#[derive(Clone, Copy, Debug, PartialEq, Eq)]
pub enum DrainError {
    /// Something was left in the pool, and the time to wait was over.
    Timeout(Status),
    /// Something was left in the pool, and there was no memory to wait by.
    OutOfMemory(Status),
    /// Nothing was left in the pool, but what had left it was not detached and dropped yet, and there was no time or no
    /// memory to wait for that.
    Departing(Status),
}

impl fmt::Display for DrainError {
    ghost use Rattle.std.specs.Prelude.{Some};
    ghost use Rattle.deadpool_lock.specs.Ends.{drain_error_text};

    ghost output = { λ error. Some (drain_error_text error) };

    fn fmt<W: fmt::Write>(&self, f: &mut fmt::Formatter<W>) -> fmt::Result {
        match self {
            DrainError::Timeout(status) => {
                write!(f, "Timeout occurred while draining the pool: {status}")
            }
            DrainError::OutOfMemory(status) => {
                write!(f, "Out of memory while draining the pool: {status}")
            }
            DrainError::Departing(status) => {
                write!(f, "An object is still being given up: {status}")
            }
        }
    }
}
