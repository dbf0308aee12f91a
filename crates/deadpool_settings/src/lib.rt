//! Strict readings of both pools' configurations, whose faults name the key, and the name of a pool before its errors.
#![tactic(auto)]

mod fault;
mod keys;
pub mod managed;
mod named;
#[cfg(test)]
mod tests;
pub mod unmanaged;

pub use fault::{Fault, StrictError, Why};
pub use named::Named;
