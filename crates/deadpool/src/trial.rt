//! Runs of moves over a managed pool on one thread, by any number of parties; `unmanaged` has those over an unmanaged
//! one.

pub mod unmanaged;

pub use deadpool_journal::{Journal, Journaled};
pub use deadpool_trial::{Look, Move, Reply, Trial, laws};
