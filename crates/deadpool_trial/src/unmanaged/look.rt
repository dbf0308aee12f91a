//! How a party of a trial stands, seen from outside.

/// How a party stands. The object that an add brings is named by its number.
#[derive(Clone, Copy, PartialEq, Eq, Debug)]
pub enum Look {
    /// No party has the number, or it was cancelled.
    NoSuch,
    /// A get that was not polled yet.
    NewGet,
    /// A get that waits for an object.
    QueuedGet,
    /// A get that was granted an object, and has not asked since.
    GrantedGet,
    /// An add that was not polled yet.
    NewAdd(usize),
    /// An add that waits for room.
    QueuedAdd(usize),
    /// An add that was granted room, and has not asked since.
    GrantedAdd(usize),
    Finished,
}
