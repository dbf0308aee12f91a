//! How a run ended before its input did, with all that is said of it.
use crate::fault::Fault;
use crate::script::{LineError, Reason};
use std::alloc::AllocError;
use std::fmt;

/// Why a run ended before its input did, and what more there is to say. Its text is what the program says on standard
/// error: first the text of the fault, and in lines behind it the rest.
#[derive(Drop)]
pub struct Stopped {
    pub fault: Fault,
    pub detail: Detail,
}

/// What is said of a line at which a run ended.
#[derive(Drop)]
pub enum Detail {
    /// Nothing more.
    Nothing,
    /// Why it is not in the language.
    Reason(Reason),
    /// The reply that is written behind it, and the one that came.
    Replies { written: String, came: String },
}

impl Stopped {
    /// The line with this number was not done.
    pub fn at(number: u64, cause: LineError) -> Stopped {
        match cause {
            LineError::NotAMove(reason) => Stopped {
                fault: Fault::NotAMove(number),
                detail: Detail::Reason(reason),
            },
            LineError::OutOfMemory => Stopped::from(Fault::OutOfMemory),
        }
    }
}

impl From<Fault> for Stopped {
    fn from(fault: Fault) -> Stopped {
        Stopped {
            fault,
            detail: Detail::Nothing,
        }
    }
}

impl From<AllocError> for Stopped {
    fn from(_refused: AllocError) -> Stopped {
        Stopped::from(Fault::OutOfMemory)
    }
}

impl From<Stopped> for Fault {
    fn from(stopped: Stopped) -> Fault {
        stopped.fault
    }
}

impl fmt::Display for Stopped {
    fn fmt<W: fmt::Write>(&self, f: &mut fmt::Formatter<W>) -> fmt::Result {
        let Stopped { fault, detail } = self;
        write!(f, "{fault}")?;
        let number = fault.line().unwrap_or(0);
        match detail {
            Detail::Nothing => Ok(()),
            Detail::Reason(reason) => write!(f, "\nline {number}: {reason}"),
            Detail::Replies { written, came } => {
                write!(f, "\nwritten: {written}\nreply:   {came}")
            }
        }
    }
}
