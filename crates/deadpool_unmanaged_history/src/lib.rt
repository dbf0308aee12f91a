//! An unmanaged pool's state beside the one history of all its callers, which leads to it.
#![tactic(auto)]

mod keeps_state;
mod kept;
pub mod laws;
mod line;
mod recorded;

pub use keeps_state::KeepsState;
pub use line::{Line, Wake};
pub use recorded::Recorded;
