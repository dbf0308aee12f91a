//! What a managed pool is made of, before it is made.
//!
//! A `PoolBuilder` opens a pool on one thread. For threads and tasks one is built of it by the crate that has that
//! pool.
#![tactic(auto)]

mod builder;

pub use builder::{OpenPool, PoolBuilder, PoolParts};
