//! How a pool is configured.
ghost use Rattle.std.specs.Prelude.{◌≡◌, ◌*◌, min, None, IsSomeAnd};
ghost use Rattle.std.specs.Duration.{as_nanos};
ghost use Rattle.deadpool_parts.specs.Timeouts.{no_timeouts};

use std::time::Duration;

/// How long each phase of a get may last. None is no limit.
#[derive(Clone, Copy, Debug, Default, PartialEq, Eq)]
pub struct Timeouts {
    /// The wait for a place. Zero does not wait.
    pub wait: Option<Duration>,
    /// The creation of an object.
    pub create: Option<Duration>,
    /// The recycling of an idle object.
    pub recycle: Option<Duration>,
}

impl Timeouts {
    /// No limit at all.
    pub fn new() -> Self
        ensures { result ≡ no_timeouts }
    {
        Timeouts::default()
    }

    /// Limits the wait alone.
    pub fn wait_millis(wait: u64) -> Self
        ensures wait { IsSomeAnd result.wait (λ d. as_nanos d ≡ wait * 1_000_000) }
        ensures others { result ≡ record no_timeouts { wait = result.wait } }
    {
        Timeouts {
            wait: Some(Duration::from_millis(wait)),
            ..Timeouts::new()
        }
    }
}

/// Which idle object is handed out first.
#[derive(Clone, Copy, Debug, Default, PartialEq, Eq)]
pub enum QueueMode {
    /// The one that came back first.
    #[default]
    Fifo,
    /// The one that came back last.
    Lifo,
}

/// How a managed pool is configured.
#[derive(Clone, Copy, Debug, PartialEq, Eq)]
pub struct PoolConfig {
    /// How many objects the pool may have.
    pub max_size: usize,
    /// What a get is limited to that names no timeouts of its own.
    pub timeouts: Timeouts,
    /// Which idle object is handed out first.
    pub queue_mode: QueueMode,
    /// How many objects a shrink and a retain leave idle, if as many are. It may be above
    /// `max_size`.
    pub min_idle: usize,
    /// How many gets may wait for a place. One more is refused at once. None is no bound.
    pub max_waiting: Option<usize>,
}

impl PoolConfig {
    /// A pool of at most `max_size` objects, first in first out.
    pub fn new(max_size: usize) -> Self
        ensures size { result.max_size ≡ max_size }
        ensures timeouts { result.timeouts ≡ no_timeouts }
        ensures mode { result.queue_mode ≡ QueueMode.Fifo }
        ensures min_idle { result.min_idle ≡ 0 }
        ensures bound { result.max_waiting ≡ None }
    {
        PoolConfig {
            max_size,
            timeouts: Timeouts::new(),
            queue_mode: QueueMode::default(),
            min_idle: 0,
            max_waiting: None,
        }
    }

    /// A pool for a machine with `count` processors: twice as many objects.
    pub fn with_processors(count: usize) -> Self
        ensures size { result.max_size ≡ min (2 * count) usize.MAX }
        ensures timeouts { result.timeouts ≡ no_timeouts }
        ensures mode { result.queue_mode ≡ QueueMode.Fifo }
        ensures min_idle { result.min_idle ≡ 0 }
        ensures bound { result.max_waiting ≡ None }
    {
        PoolConfig::new(count.saturating_mul(2))
    }
}
