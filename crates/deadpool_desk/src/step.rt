//! The steps of a pool that a get or an object makes, as values, and their replies.
use crate::gate::Ticket;

/// A step. An object that it takes or gives is in the hand of whoever makes it.
#[derive(Clone, Copy, Debug, PartialEq, Eq)]
pub enum Step {
    /// A new get asks for a place, and joins the queue where none is free and it may wait.
    Enter { wait: bool },
    /// A get in the queue asks for its place. `expired` says that it has waited long enough.
    Ask { ticket: Ticket, expired: bool },
    /// A get that holds a place is served. It may take so many idle objects; none set is as many as are idle.
    Again { allowance: Option<usize> },
    /// An object that was idle, and is prepared, is given up, and its get keeps the place.
    Discard,
    /// A creation under way has ended well.
    Created,
    /// A creation under way has ended without an object.
    Failed,
    /// A new object is given up.
    Refused,
    /// An object comes back.
    Back,
    /// A get leaves the queue.
    Withdraw { ticket: Ticket },
    /// A get gives back what it holds.
    Cancel(Held),
    /// An object that is out leaves the pool for good, and its place is free.
    Take,
}

/// What a get holds at its desk, if anything: an entry in the queue is none of it.
#[derive(Clone, Copy, Debug, PartialEq, Eq)]
pub enum Held {
    /// A place, and nothing else.
    Place,
    /// A creation under way.
    Creation,
    /// An object that it prepares or has given out.
    Object,
}

/// The reply to a step.
#[derive(Clone, Copy, Debug, PartialEq, Eq)]
pub enum Reply {
    /// An idle object is in the hand, and this poll may take so many more.
    Object { left: usize },
    /// A creation has begun, and is counted.
    Create,
    /// Objects are idle, but this poll may take no more. The get keeps its place.
    Going,
    /// No object number is left. The get has no place any more.
    Exhausted,
    Closed,
    /// No place is free, and the get does not wait.
    Full,
    /// No place is free, and as many gets wait as may.
    Crowded,
    /// The get waits, under this ticket.
    Waiting(Ticket),
    /// The entry in the queue found no memory.
    OutOfMemory,
    /// The get has waited long enough, and left the queue.
    Expired,
    Done,
    /// The new object has this number.
    Number(usize),
    /// The pool keeps the object.
    Kept,
    /// The pool has too many: the object is given up, stays in the hand, and has to be detached.
    Detach,
    /// The pool has no handle left, and no use for the object, which stays in the hand.
    Dropped,
    /// The object has left, and has to be detached if the pool has a handle left.
    Taken { detach: bool },
    /// There is nothing to lower, or nobody has the ticket. Nothing has changed.
    Unknown,
}
