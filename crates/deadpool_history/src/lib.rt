//! A managed pool's state beside the one history of all its callers, which leads to it.
#![tactic(auto)]

pub mod laws;
mod line;
mod recorded;

pub use line::Line;
pub use recorded::Recorded;
