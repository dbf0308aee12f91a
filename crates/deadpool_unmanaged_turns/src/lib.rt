//! Who waits is served in turn: laws of the unmanaged pool's steps, as a history has them.
#![tactic(auto)]

pub mod laws;
