//! The lock of a timer's alarms. It is taken in this file alone, whose calls hand wakers out and wake nobody.
ghost use Rattle.std.specs.Prelude.{◌≡◌, IfOk, IfErr};
ghost use Rattle.std.specs.Sync.Mutex.{mutex_guard_value};
ghost use Rattle.deadpool_timer.specs.Rounds.{ComesOf};

use crate::alarms::{Alarms, Next, Place};
use crate::nap::{Nap, between};
use deadpool_parts::Moment;
use futures::task::Waker;
use std::alloc::Global;
use std::sync::{Condvar, Mutex, MutexGuard, Wait};
use std::time::{Clock, Duration};

/// The alarms under their lock.
#[derive(Drop)]
pub(crate) struct AlarmLock {
    alarms: Mutex<Alarms>,
    // Rings when the first alarm is another one, or the timer is stopped.
    changed: Condvar,
}

/// What comes of a round of the timer's thread, which has given the lock back.
pub(crate) enum Round {
    /// This one is to be woken.
    Due(Waker),
    /// The thread has slept.
    Slept(Nap),
    /// The thread is to end.
    Over,
}

impl AlarmLock {
    // No alarm so far.
    pub(crate) fn new(alloc: Global) -> Self {
        AlarmLock {
            alarms: Mutex::new(Alarms::new(alloc)),
            changed: Condvar::new(),
        }
    }

    // One round of the thread: it wakes one that is due at this moment, sleeps, or ends.
    pub(crate) fn round<R: Wait + Clock>(&self, rt: &R, now: Moment) -> Round {
        self.follow(rt, self.alarms.lock(rt), now)
    }

    // A round of a thread that has the lock.
    fn follow<R: Wait + Clock>(&self, rt: &R, alarms: MutexGuard<'_, Alarms>, now: Moment) -> Round
        ensures { ComesOf (mutex_guard_value alarms.entry).is_stopped
            (mutex_guard_value alarms.entry).wakers.entries now.0 result }
    {
        let mut alarms = alarms;
        match alarms.next(now) {
            Next::Wake(waker) => Round::Due(waker),
            Next::Until(at) => {
                Round::Slept(Nap::take(rt, alarms, &self.changed, between(now, at)))
            }
            Next::Wait => Round::Slept(Nap::take(rt, alarms, &self.changed, Duration::MAX)),
            Next::End => Round::Over,
        }
    }

    // Sets an alarm, and gives its place. The waker comes back if it was not set.
    pub(crate) fn set<R: Wait>(&self, rt: &R, at: Moment, waker: Waker) -> Result<Place, Waker>
        ensures moment { IfOk result (λ place. place.0 ≡ at.0) }
        ensures refused { IfErr result (λ back. back ≡ waker) }
    {
        let mut alarms = self.alarms.lock(rt);
        let set = alarms.set(at, waker);
        let is_first = alarms.first() == Some(at);
        drop(alarms);
        if is_first {
            self.changed.notify_one();
        }
        set
    }

    // The waker of an alarm that has not rung.
    pub(crate) fn take_back<R: Wait>(&self, rt: &R, place: Place) -> Option<Waker> {
        self.alarms.lock(rt).take_back(place)
    }

    pub(crate) fn is_stopped<R: Wait>(&self, rt: &R) -> bool {
        self.alarms.lock(rt).is_stopped()
    }

    pub(crate) fn stop<R: Wait>(&self, rt: &R) {
        self.alarms.lock(rt).stop();
        self.changed.notify_all();
    }

    // How many alarms are set.
    pub(crate) fn count<R: Wait>(&self, rt: &R) -> usize {
        self.alarms.lock(rt).count()
    }
}
