//! A line of a pool's history.

use deadpool_desk::QueueMode;
use deadpool_desk::gate::Ticket;
use deadpool_journal::Entry;

/// A line of a pool's history. The first says how the pool opened, and each other one is a step, or says who was told,
/// or how many wait for the end of the pool.
#[derive(Drop)]
pub enum Line {
    /// The pool opened with nothing idle and one handle. Its first object gets the number 0.
    Opening {
        limit: usize,
        mode: QueueMode,
        min_idle: usize,
        /// How many gets may wait for a place, if that is bounded.
        max_waiting: Option<usize>,
    },
    /// A step was made, with its reply.
    Next(Entry),
    /// The get in the queue with this ticket was named, to be told that its wait has ended. It is no step.
    Told(Ticket),
    /// From here on so many drains wait for the end of the pool, and so many holders have let go of something that they
    /// have not dropped yet. It is no step.
    Ending {
        drains: usize,
        departing: u64,
    },
}
