//! A sleep of the timer's thread, and how long it lasts.
ghost use Rattle.std.specs.Prelude.{◌≡◌};
ghost use Rattle.std.specs.Duration.{as_nanos};
ghost use Rattle.deadpool_timer.specs.Rounds.{nanos_until};

use crate::alarms::Alarms;
use deadpool_parts::Moment;
use std::sync::{Condvar, MutexGuard, Wait, WaitTimeoutResult};
use std::time::{Clock, Duration};

/// A sleep that has ended. There is none without a wait: what it ended by is of a type that such a wait alone gives.
#[derive(Drop)]
pub(crate) struct Nap {
    // For how long at most.
    lasting: Duration,
    end: WaitTimeoutResult,
}

impl Nap {
    // Gives the lock back and sleeps, for so long or until the alarms change.
    pub(crate) fn take<R: Wait + Clock>(
        rt: &R,
        alarms: MutexGuard<'_, Alarms>,
        changed: &Condvar,
        lasting: Duration,
    ) -> Nap
        ensures { result.lasting ≡ lasting }
    {
        let (alarms, end) = changed.wait_timeout(rt, alarms, lasting);
        drop(alarms);
        Nap { lasting, end }
    }
}

// How long it is from one moment to another, at most some five hundred years.
pub(crate) fn between(now: Moment, at: Moment) -> Duration
    ensures { as_nanos result ≡ nanos_until now.0 at.0 }
{
    let nanos = at.0.saturating_sub(now.0);
    Duration::from_nanos(u64::try_from(nanos).unwrap_or(u64::MAX))
}
