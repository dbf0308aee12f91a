//! Why a run ended before its input did.
use std::alloc::AllocError;
use std::{fmt, io};

const USAGE: &str =
    "usage: poolrun [check | draw [journal] | watch [--colour] | threads N M [journal K] \
    | buffers MOST | help [script]]";

/// Why a run ended before its input did. Its text is what the program says on standard error.
#[derive(Clone, Copy, Debug, PartialEq, Eq)]
pub enum Fault {
    /// The program was given arguments that it does not know.
    Usage,
    /// The line with this number, from 1, is not in the language.
    NotAMove(u64),
    /// The line with this number, from 1, is beyond what is drawn.
    TooMuch(u64),
    /// The step in the line with this number, from 1, has another reply when it is made again.
    OtherReply(u64),
    /// The reply to the line with this number, from 1, is another than is written behind it.
    OtherWritten(u64),
    /// The program itself found no memory.
    OutOfMemory,
    /// A read failed.
    InputFailed,
    /// A write failed.
    OutputFailed,
}

impl Fault {
    /// The status that the program ends with.
    pub fn status(self) -> u8 {
        match self {
            Fault::Usage | Fault::NotAMove(_) | Fault::TooMuch(_) | Fault::OtherReply(_) => 2,
            Fault::OtherWritten(_) => 1,
            Fault::OutOfMemory | Fault::InputFailed | Fault::OutputFailed => 1,
        }
    }

    /// The number of the line at which the run ended, from 1, if it ended at one.
    pub fn line(self) -> Option<u64> {
        match self {
            Fault::NotAMove(number) | Fault::TooMuch(number) => Some(number),
            Fault::OtherReply(number) | Fault::OtherWritten(number) => Some(number),
            Fault::Usage | Fault::OutOfMemory | Fault::InputFailed | Fault::OutputFailed => None,
        }
    }

    /// Why a line was not read.
    pub fn from_read(error: io::Error) -> Fault {
        if is_out_of_memory(error) {
            Fault::OutOfMemory
        } else {
            Fault::InputFailed
        }
    }

    /// Why the arguments were not read. One that is not text is one that the program does not know.
    pub fn from_arguments(error: io::Error) -> Fault {
        if is_out_of_memory(error) {
            Fault::OutOfMemory
        } else {
            Fault::Usage
        }
    }
}

fn is_out_of_memory(error: io::Error) -> bool {
    error.kind() == io::ErrorKind::OutOfMemory
}

impl From<AllocError> for Fault {
    fn from(_refused: AllocError) -> Fault {
        Fault::OutOfMemory
    }
}

impl fmt::Display for Fault {
    fn fmt<W: fmt::Write>(&self, f: &mut fmt::Formatter<W>) -> fmt::Result {
        match self {
            Fault::Usage => f.write_str(USAGE),
            Fault::NotAMove(number) => write!(f, "line {number}: not a move"),
            Fault::TooMuch(number) => write!(f, "line {number}: too much to draw"),
            Fault::OtherReply(number) => write!(f, "line {number}: the pool has another reply"),
            Fault::OtherWritten(number) => write!(f, "line {number}: another reply is written"),
            Fault::OutOfMemory => f.write_str("out of memory"),
            Fault::InputFailed => f.write_str("input failed"),
            Fault::OutputFailed => f.write_str("output failed"),
        }
    }
}
