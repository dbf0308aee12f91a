//! What a run is made of: moves and their replies.
use deadpool_managed::{PoolError, RetainResult, Timeouts};
use deadpool_parts::{Moment, Status};

/// One move of a run. Parties are numbered from 0 in order of their start; objects have the numbers of their slots.
#[derive(Drop)]
pub enum Move<T> {
    /// A party starts, with these timeouts or the configured ones.
    Start(Option<Timeouts>),
    /// The party advances once, at the moment.
    Advance(usize, Moment),
    /// The party advances until there is nothing more to do at once.
    Poll(usize, Moment),
    /// The party is cancelled.
    Cancel(usize),
    /// An object that is out gets another value.
    Put(usize, T),
    /// An object comes back.
    Back(usize),
    /// An object leaves the pool for good.
    Take(usize),
    /// The pool gets another limit.
    Resize(usize),
    /// Of the idle objects those with these numbers are kept.
    Retain(Vec<usize>),
    /// The pool is closed.
    Close,
    /// The pool's state is asked for.
    Status,
    /// The pool gets one more handle.
    Clone,
    /// A handle of the pool is dropped.
    DropHandle,
    /// The pool gets one more handle, from an owner that has none.
    Upgrade,
}

/// The reply to a move.
#[derive(Drop)]
pub enum Reply<T, E> {
    /// The party has this number.
    Started(usize),
    /// No more parties may start.
    NoRoom,
    /// There is no such party, or no such object is out.
    NoSuch,
    /// The pool has no handle left.
    NoHandle,
    More,
    Pending,
    /// The party has the object with this number.
    Object(usize),
    Failed(PoolError<E>),
    Cancelled,
    Done,
    Kept,
    Detached,
    Dropped,
    /// The value of an object that has left the pool.
    Taken(T),
    /// Memory was not found, and nothing has changed.
    OutOfMemory,
    Retained(RetainResult<T>),
    Stands(Status),
    Upgraded(bool),
}
