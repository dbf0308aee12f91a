//! Runs of moves over a pool on one thread, by any number of parties. Those over an unmanaged pool are in `unmanaged`.
#![tactic(auto)]

pub mod laws;
mod look;
mod moves;
mod tallied_core;
mod trial;
pub mod unmanaged;

pub use look::Look;
pub use moves::{Move, Reply};
pub use trial::Trial;
