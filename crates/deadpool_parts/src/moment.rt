//! Moments, and the clock that is handed to a pool.
ghost use Rattle.futures.specs.Task.{Keeps};

use futures::task::Context;

/// A point in time, in nanoseconds since a beginning that the clock chooses.
#[derive(Clone, Copy, Debug, PartialEq, Eq, PartialOrd, Ord)]
pub struct Moment(pub u128);

/// Tells the time. A pool on one thread is told the moment and asks no clock.
pub trait Clock: Drop {
    /// What a wait keeps while it is to be woken. Dropping it takes the waking back.
    type Alarm: Drop;

    /// The present moment.
    fn now(&self) -> Moment;

    /// Wakes the task of `cx` when the moment has come. The alarm is the wait's own: none at first, then what the last
    /// call left. A call with another moment or in another task moves it.
    fn wake_at(&self, at: Moment, alarm: &mut Option<Self::Alarm>, cx: &mut Context<'_>)
        ensures { Keeps cx.old cx.new };
}

/// A clock that stands still at its beginning and wakes nobody, for a pool without timeouts.
#[derive(Clone, Copy, Debug)]
pub struct NoTime;

impl Clock for NoTime {
    type Alarm = ();

    fn now(&self) -> Moment {
        Moment(0)
    }

    fn wake_at(&self, _at: Moment, _alarm: &mut Option<()>, _cx: &mut Context<'_>) {}
}

/// What may serve a pool's timeouts.
#[derive(Clone, Copy, Debug, PartialEq, Eq)]
pub enum Runtime {
    /// The timers of the clock that the pool was given.
    Clock,
}
