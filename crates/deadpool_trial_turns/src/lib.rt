//! Who waits is served in turn: a law of every run of a managed pool on one thread.
#![tactic(auto)]

pub mod laws;
