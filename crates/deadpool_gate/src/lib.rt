//! The queue of those that wait at a pool: one list in order of arrival, whatever they wait for.
#![tactic(auto)]

pub mod gate;
