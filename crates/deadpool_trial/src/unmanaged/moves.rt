//! What a run is made of: objects, moves and their replies.
use deadpool_parts::tables::Numbered;
use deadpool_unmanaged::{Moment, PoolError, Status};
use std::time::Duration;

/// An object: its number in its trial, and its value. Numbers are drawn from 0 on, over all the runs of the trial: one
/// for each value whose own move is answered `Started`, `Added` or `Refused`. A move with another answer, as
/// `Exhausted`, draws none.
#[derive(Drop)]
pub struct Item<T> {
    pub number: usize,
    pub value: T,
}

impl<T> Numbered for Item<T> {
    ghost number_of = { λ item. item.number };

    fn number(&self) -> usize {
        self.number
    }
}

/// One move of a run. Parties are numbered from 0 in order of their start, and objects in order of being handed in.
#[derive(Drop)]
pub enum Move<T> {
    /// A get starts, which may wait so long; none set is without an end.
    Get(Option<Duration>),
    /// An add starts, with its object.
    Add(T),
    /// The party is polled, at the moment.
    Poll(usize, Moment),
    /// An object is taken out, if one is free.
    TryGet,
    /// An object is added, if there is room.
    TryAdd(T),
    /// The party is cancelled.
    Cancel(usize),
    /// An object comes back.
    Back(usize),
    /// An object leaves the pool for good.
    Take(usize),
    /// The pool is closed.
    Close,
    /// The pool's state is asked for.
    Status,
    /// The pool gets one more handle.
    Clone,
    /// A handle of the pool is dropped.
    DropHandle,
    /// The pool gets one more handle, from an owner that has none.
    Upgrade,
}

/// The reply to a move.
#[derive(Drop)]
pub enum Reply<T> {
    /// The party has this number.
    Started(usize),
    /// No more parties may start. A value that came with the move is dropped.
    NoRoom,
    /// There is no such party, or no such object is out.
    NoSuch,
    /// The pool has no handle left. A value that came with the move is dropped.
    NoHandle,
    /// No object number is left, and the value comes back.
    Exhausted(T),
    Pending,
    /// The object with this number is out.
    Object(usize),
    /// The object with this number is in the pool.
    Added(usize),
    Failed(PoolError),
    /// The add was refused, and the value comes back.
    Refused(PoolError, T),
    Cancelled,
    Kept,
    Dropped,
    /// The value of an object that has left the pool.
    Taken(T),
    Done,
    Stands(Status),
    Upgraded(bool),
}
