//! The state of a managed pool on one thread, and its steps.
//!
//! A pool is asked for one step at a time, by a get or an object (`desk`) or by its owner (`owner_desk`). `state` has
//! `Core`, which is a desk to both. Nothing here asks a manager or a hook; a retain asks its retainer (`retain`,
//! `review`).
#![tactic(auto)]

mod counts;
mod desk;
pub mod laws;
mod object_id;
mod owner_desk;
mod owner_step;
mod retain;
mod review;
mod slot;
mod state;
mod step;

pub use counts::Counts;
pub use deadpool_gate::gate;
pub use deadpool_parts::Status;
pub use deadpool_parts::config::QueueMode;
pub use desk::Desk;
pub use object_id::ObjectId;
pub use owner_desk::OwnerDesk;
pub use owner_step::{OwnerReply, OwnerStep};
pub use retain::{Removal, Removals, RetainResult, Retainer};
pub use slot::Slot;
pub use state::Core;
pub use step::{Held, Reply, Step};
