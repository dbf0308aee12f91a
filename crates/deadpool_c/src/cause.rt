//! Why an order has ended, as plain numbers.
ghost use Rattle.std.specs.Prelude.{◌≡◌};
ghost use Rattle.deadpool_c.specs.Orders.{cause_of};

use deadpool_order::Cause;

/// The object is out, is back, or was taken.
pub const DONE: u64 = 0;

/// The pool is closed, or does not know what the get holds.
pub const CLOSED: u64 = 1;

/// No place came in time.
pub const NO_PLACE: u64 = 2;

/// As many wait as may.
pub const CROWDED: u64 = 3;

/// There was no memory for the entry in the queue, for what is to wake the get, or for a new object.
pub const OUT_OF_MEMORY: u64 = 4;

/// No object number is left.
pub const NUMBERS_EXHAUSTED: u64 = 5;

/// Nothing is there that could tell the time.
pub const NO_RUNTIME: u64 = 6;

/// The creation took too long.
pub const LATE: u64 = 7;

/// No object was made.
pub const FAILED: u64 = 8;

/// A hook has refused the new object.
pub const REFUSED: u64 = 9;

/// It was given up.
pub const DROPPED: u64 = 10;

/// The cause of this number. Another number is that of `FAILED`.
pub fn cause_of(code: u64) -> Cause
    ensures { result ≡ cause_of code }
{
    match code {
        DONE => Cause::Done,
        CLOSED => Cause::Closed,
        NO_PLACE => Cause::NoPlace,
        CROWDED => Cause::Crowded,
        OUT_OF_MEMORY => Cause::OutOfMemory,
        NUMBERS_EXHAUSTED => Cause::NumbersExhausted,
        NO_RUNTIME => Cause::NoRuntime,
        LATE => Cause::Late,
        REFUSED => Cause::Refused,
        DROPPED => Cause::Dropped,
        _ => Cause::Failed,
    }
}

/// The number of a cause.
pub fn code_of(cause: Cause) -> u64
    ensures { cause_of result ≡ cause }
{
    match cause {
        Cause::Done => DONE,
        Cause::Closed => CLOSED,
        Cause::NoPlace => NO_PLACE,
        Cause::Crowded => CROWDED,
        Cause::OutOfMemory => OUT_OF_MEMORY,
        Cause::NumbersExhausted => NUMBERS_EXHAUSTED,
        Cause::NoRuntime => NO_RUNTIME,
        Cause::Late => LATE,
        Cause::Failed => FAILED,
        Cause::Refused => REFUSED,
        Cause::Dropped => DROPPED,
    }
}
