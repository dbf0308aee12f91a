//! How long the objects of a managed pool may serve.

pub use deadpool_limits::{Limits, Retire, Watch};
