//! How far a get is, by name.

use crate::gate::Ticket;

/// How far a get is, without its deadline and what user code keeps. An object is named by its number.
#[derive(Clone, Copy, PartialEq, Eq, Debug)]
pub enum StageKind {
    Unpolled,
    /// In the queue.
    Queued(Ticket),
    /// With a place and nothing else.
    Going,
    /// With a creation under way.
    Creating,
    /// With this object, which was idle and is prepared.
    Recycling(usize),
    /// With this new object, which the hooks see.
    Checking(usize),
    Finished,
}
