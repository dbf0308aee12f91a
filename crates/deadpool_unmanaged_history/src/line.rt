//! A line of a pool's history.

use deadpool_unmanaged::gate::Ticket;
use deadpool_unmanaged_journal::Entry;

/// Who is told that its wait has ended.
#[derive(Drop)]
pub enum Wake {
    /// The get in the queue with this ticket.
    Get(Ticket),
    /// The add in the queue with this ticket.
    Add(Ticket),
}

/// A line of a pool's history. The first says how the pool opened, and each other one is a step, or says who was told,
/// or how many wait for the end of the pool.
#[derive(Drop)]
pub enum Line<T> {
    /// The pool opened with nothing idle and one handle.
    Opening {
        limit: usize,
        max_waiting: Option<usize>,
    },
    /// A step was made, with its object as it was then, and its reply.
    Next(Entry<T>),
    /// One in a queue was named, to be told that its wait has ended. It is no step.
    Told(Wake),
    /// From here on so many drains wait for the end of the pool, and so many holders have let go of an object that they
    /// have not dropped yet. It is no step.
    Ending {
        drains: usize,
        departing: u64,
    },
}
