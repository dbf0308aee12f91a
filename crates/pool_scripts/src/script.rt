//! The lines of a script: first a pool, and then the moves of its kind of pool.
mod forms;
mod managed;
mod pool;
mod reason;
mod unmanaged;
mod words;

pub use forms::Language;
pub use managed::{ManagedLine, ScriptLine, parse_managed, parse_script_line};
pub use pool::{ManagedPool, PoolLine, Settings, UnmanagedPool, parse_pool};
pub use reason::{Excerpt, Reason, Wanted};
use std::alloc::{AllocError, AllocFailed};
pub use unmanaged::{UnmanagedLine, parse_unmanaged, parse_unmanaged_line};
pub use words::parse_number;

/// Why a line was not done.
#[derive(Clone, Copy, Debug, PartialEq, Eq)]
pub enum LineError {
    /// It is not in the language, for this reason.
    NotAMove(Reason),
    /// It found no memory.
    OutOfMemory,
}

impl LineError {
    /// The same, with the reason that a reader tells who sees the whole line.
    pub fn in_line(self, language: Language, line: &[u8]) -> LineError {
        match self {
            LineError::NotAMove(reason) => LineError::NotAMove(reason.in_line(language, line)),
            LineError::OutOfMemory => LineError::OutOfMemory,
        }
    }
}

impl From<AllocError> for LineError {
    fn from(_refused: AllocError) -> LineError {
        LineError::OutOfMemory
    }
}

impl<T: Drop> From<AllocFailed<T>> for LineError {
    fn from(_refused: AllocFailed<T>) -> LineError {
        LineError::OutOfMemory
    }
}

/// A reason is why a line was not done.
impl From<Reason> for LineError {
    fn from(reason: Reason) -> LineError {
        LineError::NotAMove(reason)
    }
}

/// Whether a line, which is given without its line feed, says nothing and has no reply: it is empty or a comment.
pub fn is_skipped(line: &[u8]) -> bool {
    line.is_empty() || line[0] == b'#'
}
