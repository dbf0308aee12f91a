//! A clock of real time, and the thread that wakes by it.

use crate::alarms::Place;
use crate::lock::{AlarmLock, Round};
use deadpool_parts::{Clock, Moment};
use futures::task::{Context, Poll, Source, Waker};
use std::alloc::{AllocError, Global};
use std::sync::{Arc, Wait};
use std::thread;
use std::thread::{JoinHandle, Threads};
use std::time::Clock as SystemClock;

// What the thread of a timer shares with its clocks and their alarms.
#[derive(Drop)]
struct Shared<R: Wait + SystemClock + Drop> {
    lock: AlarmLock,
    source: Source,
    rt: R,
}

impl<R: Wait + SystemClock + Drop> Shared<R> {
    // A clock that cannot be read shows its beginning.
    fn now(&self) -> Moment {
        match self.rt.monotonic() {
            Ok(since_start) => Moment(since_start.as_nanos()),
            Err(_) => Moment(0),
        }
    }

    // Wakes those that are due, one at a time, until the timer is stopped.
    fn keep_time(&self) {
        for _ in self.rt.forever() {
            match self.lock.round(&self.rt, self.now()) {
                Round::Due(waker) => waker.wake(),
                Round::Slept(_) => {}
                Round::Over => return,
            }
        }
    }
}

/// A thread that wakes tasks at their deadlines. Dropping the timer ends the thread and waits for it; all alarms ring
/// then.
pub struct Timer<R: Wait + Threads + SystemClock + Drop> {
    shared: Arc<Shared<R>, Global>,
    thread: JoinHandle<()>,
}

impl<R: Wait + Threads + SystemClock + Drop + Send + Sync + 'static> Timer<R> {
    /// Starts the thread. `AllocError` says that there was no memory for it, and none runs then.
    pub fn start(alloc: Global, rt: R) -> Result<Self, AllocError>
    where
        R: Copy,
    {
        let shared = Arc::new(
            alloc,
            Shared {
                lock: AlarmLock::new(alloc),
                source: Source::new(),
                rt,
            },
        )?;
        let theirs = Arc::try_clone(&shared)?;
        let thread = thread::spawn(&rt, move || theirs.keep_time())?;
        Ok(Timer { shared, thread })
    }
}

impl<R: Wait + Threads + SystemClock + Drop> Timer<R> {
    /// A clock for one pool, of either kind. `AllocError` says that there was no memory for it.
    pub fn clock(&self) -> Result<TimerClock<R>, AllocError> {
        Ok(TimerClock {
            shared: Arc::try_clone(&self.shared)?,
        })
    }

    /// How many alarms are set: at most one for each get that waits.
    pub fn alarms(&self) -> usize {
        self.shared.lock.count(&self.shared.rt)
    }
}

impl<R: Wait + Threads + SystemClock + Drop> Drop for Timer<R> {
    fn drop(self) {
        let Self { shared, thread } = self;
        shared.lock.stop(&shared.rt);
        thread.join(&shared.rt);
    }
}

/// The system's monotonic clock, with the alarms of a timer. Its moments count from a start of the system's own.
///
/// When its timer is dropped each task that waits with a deadline is woken once. From then on the clock goes on telling
/// the time and wakes nobody: a wait that is polled after its deadline ends, and nothing else has it polled.
#[derive(Drop)]
pub struct TimerClock<R: Wait + SystemClock + Drop> {
    shared: Arc<Shared<R>, Global>,
}

/// An alarm that is set for one wait. Dropping it takes it back, and wakes the task once if it has not rung.
pub struct TimerAlarm<R: Wait + SystemClock + Drop> {
    shared: Arc<Shared<R>, Global>,
    place: Place,
}

impl<R: Wait + SystemClock + Drop> TimerAlarm<R> {
    // Its waker, if it has not rung.
    fn take_back(self) -> Option<Waker> {
        let Self { shared, place } = self;
        shared.lock.take_back(&shared.rt, place)
    }
}

impl<R: Wait + SystemClock + Drop> Drop for TimerAlarm<R> {
    fn drop(self) {
        drop(self.take_back());
    }
}

impl<R: Wait + SystemClock + Drop> TimerClock<R> {
    // A new alarm. If there is no memory for it, the task is woken at once.
    fn set(&self, at: Moment, waker: Waker) -> Option<TimerAlarm<R>> {
        let Ok(shared) = Arc::try_clone(&self.shared) else {
            return None;
        };
        match shared.lock.set(&shared.rt, at, waker) {
            Ok(place) => Some(TimerAlarm { shared, place }),
            Err(_) => None,
        }
    }
}

impl<R: Wait + SystemClock + Drop> Clock for TimerClock<R> {
    type Alarm = TimerAlarm<R>;

    fn now(&self) -> Moment {
        self.shared.now()
    }

    fn wake_at(&self, at: Moment, alarm: &mut Option<TimerAlarm<R>>, cx: &mut Context<'_>) {
        // A waker of the same task is used again, so that moving an alarm wakes nobody.
        let mut slot = match alarm.take() {
            Some(old) => old.take_back(),
            None => None,
        };
        if self.shared.lock.is_stopped(&self.shared.rt) {
            return;
        }
        let _pending: Poll<()> = cx.register(&self.shared.source, &mut slot);
        if let Some(waker) = slot {
            *alarm = self.set(at, waker);
        }
    }
}
