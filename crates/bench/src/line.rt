//! A line of waiters, as the bench needs it.

use std::io;

/// A line that waiters join at its end, and leave wherever they stand.
pub trait Line: Drop {
    /// Who waits.
    type Waiter: Drop;

    /// One more waiter, at the end.
    fn join(&mut self) -> io::Result<Self::Waiter>;

    /// Takes a waiter out.
    fn leave(&mut self, waiter: Self::Waiter);

    /// How many wait.
    fn waiting(&self) -> usize;
}
