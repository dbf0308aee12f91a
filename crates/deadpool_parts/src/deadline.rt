//! Deadlines of the phases of a get or an add, and the runtime that they need.
ghost use Rattle.std.specs.Prelude.{◌≡◌};
ghost use Rattle.std.specs.Duration.{as_nanos};
ghost use Rattle.deadpool_parts.specs.Moments.{deadline_after, is_reached, is_positive, lacks_runtime, cannot_wait};
ghost use Rattle.deadpool_parts.specs.Moments.{moment_after, nanos_between};

use crate::{Moment, Runtime};
use std::time::Duration;

/// The moment so much later, or the greatest moment.
pub fn moment_after(now: Moment, duration: Duration) -> Moment
    ensures { result ≡ moment_after now duration }
{
    Moment(now.0.saturating_add(duration.as_nanos()))
}

/// The deadline of a phase that begins now, if it has a timeout.
pub fn deadline_after(now: Moment, timeout: Option<Duration>) -> Option<Moment>
    ensures { result ≡ deadline_after now timeout }
{
    match timeout {
        Some(duration) => Some(moment_after(now, duration)),
        None => None,
    }
}

/// Whether there is a deadline, and now is at or past it.
pub fn is_reached(deadline: Option<Moment>, now: Moment) -> bool
    ensures { result ≡ is_reached deadline now }
{
    match deadline {
        Some(deadline) => deadline.0 <= now.0,
        None => false,
    }
}

/// Whether there is a timeout, and it is above zero.
pub fn is_positive(timeout: Option<Duration>) -> bool
    ensures { result ≡ is_positive timeout }
{
    match timeout {
        Some(duration) => duration.as_nanos() > 0,
        None => false,
    }
}

/// Whether a timeout is set that nothing is there to serve.
pub fn lacks_runtime(runtime: Option<Runtime>, timeout: Option<Duration>) -> bool
    ensures { result ≡ lacks_runtime runtime timeout }
{
    timeout.is_some() && runtime.is_none()
}

/// Whether a wait above zero is set that nothing is there to end. A wait of zero needs no runtime.
pub fn cannot_wait(runtime: Option<Runtime>, wait: Option<Duration>) -> bool
    ensures { result ≡ cannot_wait runtime wait }
{
    is_positive(wait) && runtime.is_none()
}

const NANOS_PER_SECOND: u128 = 1_000_000_000;

/// How long after `from` it is now: zero if `from` is still to come, and at most the longest duration.
pub fn duration_between(from: Moment, now: Moment) -> Duration
    ensures { as_nanos result ≡ nanos_between from now }
{
    let nanos = now.0.saturating_sub(from.0);
    let seconds = nanos / NANOS_PER_SECOND;
    if seconds > u64::MAX as u128 {
        return Duration::MAX;
    }
    Duration::new(seconds as u64, (nanos % NANOS_PER_SECOND) as u32)
}
