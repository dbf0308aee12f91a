//! Runs of moves over an unmanaged pool on one thread, by any number of parties.
pub mod laws;
mod look;
mod moves;
mod tallied_core;
mod trial;

pub use look::Look;
pub use moves::{Item, Move, Reply};
pub use trial::Trial;
