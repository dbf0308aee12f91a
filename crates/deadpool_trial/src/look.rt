//! How a party of a trial stands, seen from outside.

/// How a party stands. An object is named by its number.
#[derive(Clone, Copy, PartialEq, Eq, Debug)]
pub enum Look {
    /// No party has the number, or it was cancelled.
    NoSuch,
    Unpolled,
    /// It waits for a place.
    Queued,
    /// It was granted a place, and has not asked since.
    Granted,
    /// With a place and nothing else.
    Going,
    /// With a creation under way.
    Creating,
    /// With this object, which was idle and is prepared.
    Recycling(usize),
    /// With this new object, which the hooks see.
    Checking(usize),
    Finished,
}
