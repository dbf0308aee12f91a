//! Replies as plain numbers.
ghost use Rattle.std.specs.Prelude.{◌≡◌};
ghost use Rattle.deadpool_c.specs.Replies.{plain, numbered, keyed, raw_handle, raw_wake, raw_standing};

use deadpool_gate::gate::Ticket;
use deadpool_parts::{HandleReply, Status};

/// A reply: its kind, and what comes with it, else 0.
#[repr(C)]
#[derive(Clone, Copy, Debug, PartialEq, Eq)]
pub struct Reply {
    /// One of the constants of this module.
    pub kind: u64,
    /// The number of an object or of a ticket, or how many idle objects went.
    pub number: usize,
    /// The key of an object.
    pub key: u64,
    /// How many more idle objects this poll may take, or how many stay.
    pub left: usize,
}

/// How a pool stands. Each is a number of objects or, for `waiting`, of gets.
#[repr(C)]
#[derive(Clone, Copy, Debug, PartialEq, Eq)]
pub struct Standing {
    /// How many objects there may be.
    pub max_size: usize,
    /// How many there are: idle, under preparation or out.
    pub size: usize,
    /// How many are idle, in a managed pool less the gets that have no object yet.
    pub available: usize,
    /// How many gets wait, in a managed pool less the idle objects.
    pub waiting: usize,
}

/// What the call names is not there, and nothing has changed: no such step, ticket, object or key, nothing held,
/// nobody to wake. With it comes the object that was brought.
pub const UNKNOWN: u64 = 0;

/// The step is made. With it comes what the call says.
pub const DONE: u64 = 1;

/// The get is given an idle object: its key, and of a managed pool its number and how many more this poll may take.
pub const OBJECT: u64 = 2;

/// The get has begun a creation, which is counted.
pub const CREATE: u64 = 3;

/// Objects are idle, but this poll may take no more. The get keeps its place.
pub const GOING: u64 = 4;

/// No object number is left. The get has no place any more.
pub const EXHAUSTED: u64 = 5;

/// The pool is closed. With it comes the key that an add brought.
pub const CLOSED: u64 = 6;

/// Nothing is free, and the get or the add does not wait. With it comes the key that an add brought.
pub const FULL: u64 = 7;

/// The get or the add is in the queue. With it comes its ticket, and the key that an add brought.
pub const WAITING: u64 = 8;

/// There was no memory, and nothing has changed. With it comes the key that an add brought.
pub const OUT_OF_MEMORY: u64 = 9;

/// The get has waited long enough, and left the queue.
pub const EXPIRED: u64 = 10;

/// The creation has ended well: the new object has this number.
pub const CREATED: u64 = 11;

/// The pool keeps the object.
pub const KEPT: u64 = 12;

/// The object leaves the pool, and has to be detached.
pub const DETACH: u64 = 13;

/// The pool gives the object up, and it is not detached.
pub const DROPPED: u64 = 14;

/// The object has left for good, and is not detached.
pub const TAKEN: u64 = 15;

/// The pool has the object that the add brought.
pub const STORED: u64 = 16;

/// No handle is left, and nothing has changed.
pub const NO_HANDLE: u64 = 17;

/// As many gets wait as may, or as many adds. With it comes the key that an add brought.
pub const CROWDED: u64 = 18;

/// A reply of this kind, with nothing else.
pub fn plain(kind: u64) -> Reply
    ensures { result ≡ plain kind }
{
    numbered(kind, 0)
}

/// A reply of this kind, with a number.
pub fn numbered(kind: u64, number: usize) -> Reply
    ensures { result ≡ numbered kind number }
{
    keyed(kind, number, 0)
}

/// A reply of this kind, with a number and a key.
pub fn keyed(kind: u64, number: usize, key: u64) -> Reply
    ensures { result ≡ keyed kind number key }
{
    Reply {
        kind,
        number,
        key,
        left: 0,
    }
}

/// The reply to a handle that is counted or given back.
pub fn handle(reply: HandleReply) -> Reply
    ensures { result ≡ raw_handle reply }
{
    match reply {
        HandleReply::Done => plain(DONE),
        HandleReply::NoHandle => plain(NO_HANDLE),
    }
}

/// The ticket that is to be woken, if there is one.
pub fn wake(ticket: Option<Ticket>) -> Reply
    ensures { result ≡ raw_wake ticket }
{
    match ticket {
        Some(ticket) => numbered(DONE, ticket.number()),
        None => plain(UNKNOWN),
    }
}

/// How a pool stands, as plain numbers.
pub fn stood(status: Status) -> Standing
    ensures { result ≡ raw_standing status }
{
    Standing {
        max_size: status.max_size,
        size: status.size,
        available: status.available,
        waiting: status.waiting,
    }
}
