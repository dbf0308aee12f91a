//! The unmanaged pool on one thread: its user adds the objects. Gets wait for an object, and adds for room, in order of
//! arrival.
#![tactic(auto)]

mod add;
mod config;
mod config_json;
mod counts;
mod error;
mod get;
pub mod laws;
mod state;
mod step;

pub use add::{AddStage, AddState};
pub use config::PoolConfig;
pub use counts::Counts;
pub use deadpool_gate::gate;
pub use deadpool_parts::errors::ConfigError;
pub use deadpool_parts::{Clock, HandleReply, Moment, NoTime, Runtime, Status};
pub use error::PoolError;
pub use get::{GetStage, GetState};
pub use state::Core;
pub use step::{Reply, Step};
