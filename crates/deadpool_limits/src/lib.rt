//! How long the objects of a managed pool may serve: a lifetime, an idle time and a number of uses, which a hook asks
//! at each get, and whoever retains meanwhile.
#![tactic(auto)]

mod limits;
mod retain;
mod retire;

pub use limits::Limits;
pub use retire::{Retire, Watch};
