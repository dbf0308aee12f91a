//! How long an object may serve.
ghost use Rattle.std.specs.Prelude.{◌≡◌, ◌↔◌, ◌+◌, ◌<◌, Option, IfSome, IsTrue};
ghost use Rattle.std.specs.Duration.{as_nanos};
ghost use Rattle.deadpool_limits.specs.Limits.{IsWithin, no_limits};

use deadpool_managed::{Metrics, Moment};
use std::time::Duration;

/// How long an object may serve. A limit that is not set allows every object.
#[derive(Clone, Copy, Debug, PartialEq, Eq)]
pub struct Limits {
    /// How long ago it may have been created. From this age on it is given up.
    pub lifetime: Option<Duration>,
    /// How long ago it may have been handed out last.
    pub idle: Option<Duration>,
    /// How often it may be handed out: once when it is created, and once for each time that it was recycled.
    pub uses: Option<usize>,
}

impl Limits {
    /// Objects serve without an end.
    pub fn none() -> Self
        ensures { result ≡ no_limits }
    {
        Limits {
            lifetime: None,
            idle: None,
            uses: None,
        }
    }

    /// With this lifetime.
    pub fn lifetime(self, most: Duration) -> Self
        ensures { result ≡ record self { lifetime = Option.Some most } }
    {
        Limits {
            lifetime: Some(most),
            ..self
        }
    }

    /// With this idle time.
    pub fn idle(self, most: Duration) -> Self
        ensures { result ≡ record self { idle = Option.Some most } }
    {
        Limits {
            idle: Some(most),
            ..self
        }
    }

    /// With so many uses.
    pub fn uses(self, most: usize) -> Self
        ensures { result ≡ record self { uses = Option.Some most } }
    {
        Limits {
            uses: Some(most),
            ..self
        }
    }

    /// Whether an idle object with these metrics may be handed out once more at this moment.
    pub fn allow(&self, metrics: &Metrics, now: Moment) -> bool
        ensures { IsTrue result ↔ IsWithin self.now metrics.now now }
    {
        is_shorter(metrics.age(now), self.lifetime)
            && is_shorter(metrics.last_used(now), self.idle)
            && has_use_left(metrics.recycle_count, self.uses)
    }
}

// Whether the time is below what is set.
fn is_shorter(past: Duration, most: Option<Duration>) -> bool
    ensures { IsTrue result ↔ IfSome most (λ limit. as_nanos past < as_nanos limit) }
{
    match most {
        Some(limit) => past.as_nanos() < limit.as_nanos(),
        None => true,
    }
}

// Whether an object that was recycled so often may be handed out once more.
fn has_use_left(recycled: usize, most: Option<usize>) -> bool
    ensures { IsTrue result ↔ IfSome most (λ limit. recycled + 1 < limit) }
{
    let Some(limit) = most else {
        return true;
    };
    recycled.saturating_add(1) < limit
}
