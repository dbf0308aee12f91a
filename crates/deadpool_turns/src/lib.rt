//! Who waits is served in turn: laws of the managed pool's steps, as a history has them.
#![tactic(auto)]

pub mod laws;
