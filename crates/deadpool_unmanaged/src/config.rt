//! How an unmanaged pool is configured.
ghost use Rattle.std.specs.Prelude.{◌≡◌, ◌*◌, min, None};

use crate::Runtime;
use std::time::Duration;

/// How an unmanaged pool is configured.
#[derive(Clone, Copy, Debug, PartialEq, Eq)]
pub struct PoolConfig {
    /// How many objects the pool may have.
    pub max_size: usize,
    /// How long a get may wait that names no wait of its own.
    pub timeout: Option<Duration>,
    /// How many gets may wait for an object, and how many adds for room. One more is refused at once. None is no bound.
    pub max_waiting: Option<usize>,
    /// What ends such a wait. It is not written, and never read.
    pub runtime: Option<Runtime>,
}

impl PoolConfig {
    /// A pool of at most `max_size` objects, whose gets wait without an end.
    pub fn new(max_size: usize) -> Self
        ensures size { result.max_size ≡ max_size }
        ensures timeout { result.timeout ≡ None }
        ensures bound { result.max_waiting ≡ None }
        ensures runtime { result.runtime ≡ None }
    {
        PoolConfig {
            max_size,
            timeout: None,
            max_waiting: None,
            runtime: None,
        }
    }

    /// A pool for a machine with `count` processors: twice as many objects.
    pub fn with_processors(count: usize) -> Self
        ensures size { result.max_size ≡ min (2 * count) usize.MAX }
        ensures timeout { result.timeout ≡ None }
        ensures bound { result.max_waiting ≡ None }
        ensures runtime { result.runtime ≡ None }
    {
        PoolConfig::new(count.saturating_mul(2))
    }
}
