//! Object and connection pools: the managed and the unmanaged pool's state, gets over it, and trials, which play moves
//! and lose no place, no object and no get that waits.
#![tactic(auto)]

pub mod limits;
pub mod managed;
pub mod threads;
pub mod timer;
pub mod trial;
pub mod unmanaged;

pub use deadpool_gate::gate;
pub use deadpool_parts::{Clock, Moment, NoTime, Runtime, Status};
