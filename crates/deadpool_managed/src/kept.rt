//! What a pool keeps of an object.

use crate::Metrics;

/// What a pool keeps of an object beside its number: its value, and what is known of its past.
#[derive(Drop)]
pub struct Kept<T> {
    pub value: T,
    pub metrics: Metrics,
}
