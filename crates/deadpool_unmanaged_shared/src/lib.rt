//! The unmanaged pool, shared by threads and tasks: one lock, gets, adds and drains as futures, and objects
//! that go back.
#![tactic(auto)]

mod asking;
mod draining;
mod locked;
mod object;
mod pool;
mod recorded;
mod shared;

pub use asking::{Adding, Getting, Removing};
pub use deadpool_lock::DrainError;
pub use draining::Draining;
pub use object::Object;
pub use pool::{Add, AddRef, Drain, Get, GetRef, Pool, Remove};
