//! What both pools stand on beside the queue of those that wait: configuration, errors, the clock and the status.
#![tactic(auto)]

pub mod config;
pub mod config_json;
pub mod deadline;
pub mod errors;
mod moment;
mod replies;
mod status;
pub mod tables;

pub use moment::{Clock, Moment, NoTime, Runtime};
pub use replies::HandleReply;
pub use status::Status;
