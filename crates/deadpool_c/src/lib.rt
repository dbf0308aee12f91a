//! The steps of both pools for programs that are not Rattle, each a call on a pool behind a pointer.
//!
//! An object is a key of the caller's, any `u64`, and in a managed pool its number too. The caller keeps the values
//! by key, the wakers by ticket, and a lock: it makes one call at a time on a pool. `deadpool_managed_new` and
//! `deadpool_unmanaged_new` make a pool in a block whose pointer is null; each other call wants a block in which a
//! pool was made.
#![tactic(auto)]

mod cause;
mod choice;
mod command;
mod entry;
mod keys;
pub mod managed;
mod managed_block;
pub mod managed_owner;
mod managed_owner_steps;
mod managed_reply;
mod managed_state;
mod managed_steps;
mod order;
mod order_kinds;
pub mod orders;
mod reply;
mod step;
pub mod unmanaged;
mod unmanaged_block;
mod unmanaged_reply;
mod unmanaged_state;
mod unmanaged_step;
mod unmanaged_steps;

pub use entry::NotedStep;
pub use managed_block::ManagedPool;
pub use order::{Hooks, Order};
pub use reply::{Reply, Standing};
pub use unmanaged_block::UnmanagedPool;
