//! A get that waits while too little memory is left for its alarm.
use deadpool_parts::Runtime;
use deadpool_timer::{Timer, TimerClock};
use deadpool_unmanaged::{PoolConfig, PoolError};
use deadpool_unmanaged_shared::{Get, Object, Pool};
use futures::task::Poll;
use futures::test::MockTask;
use std::random::RandomSource;
use std::sync::Wait;
use std::test::Fail;
use std::thread;
use std::thread::Threads;
use std::time::{Clock, Duration};
use test_support::expected::expect;
use test_support::hoard::{Hoard, more};

// For how many milliseconds a get waits at most.
const WAIT: u64 = 5;

// With how many amounts of memory a get is tried at most.
const TRIES: usize = 1_000;

// What the first poll of a get came to.
#[derive(Clone, Copy, Debug, PartialEq, Eq)]
enum Came {
    // There was no memory to wait.
    Refused,
    // It waits without an alarm, and is to be polled again.
    Again,
    // It waits with an alarm.
    Alarm,
    // It waits without an alarm, and nothing has it polled again.
    Forgotten,
}

// What a timer wants.
trait Timed: Wait
    + Threads
    + Clock
    + RandomSource
    + AllocGlobal
    + Drop
    + Copy
    + Send
    + Sync
    + 'static {}

impl<
    R: Wait + Threads + Clock + RandomSource + AllocGlobal + Drop + Copy + Send + Sync + 'static,
> Timed for R {}

type Number<R> = Object<u64, TimerClock<R>, R>;

type NumberGet<R> = Get<u64, TimerClock<R>, R>;

type Got<R> = Result<Number<R>, PoolError>;

// A pool of one object, whose gets wait for so long at most.
fn pool_of_one<R: Timed>(
    rt: R,
    timer: &Timer<R>,
    timeout: Duration,
) -> Result<Pool<u64, TimerClock<R>, R>, Fail> {
    let config = PoolConfig {
        timeout: Some(timeout),
        runtime: Some(Runtime::Clock),
        ..PoolConfig::new(1)
    };
    let pool = Pool::from_config(rt.alloc(), &config, timer.clock()?, rt)?;
    match pool.try_add(41) {
        Ok(()) => Ok(pool),
        Err(_) => Err(Fail::new("not added")),
    }
}

// A poll of a get while the one object is out.
fn first_poll<R: Timed>(task: &MockTask, timer: &Timer<R>, get: &mut NumberGet<R>) -> Came {
    let polled = task.poll(get);
    let has_alarm = timer.alarms() > 0;
    match polled {
        Poll::Ready(_) => Came::Refused,
        Poll::Pending if has_alarm => Came::Alarm,
        Poll::Pending if task.is_woken() => Came::Again,
        Poll::Pending => Came::Forgotten,
    }
}

// How a get ends that is polled whenever it is woken. None if it isn't, for ten seconds.
fn end_of<R: Timed>(rt: &R, task: &MockTask, get: &mut NumberGet<R>) -> Option<Got<R>> {
    for _look in 0..10_000 {
        if task.is_woken() {
            if let Poll::Ready(ended) = task.poll(get) {
                return Some(ended);
            }
        }
        thread::sleep(rt, Duration::from_millis(1));
    }
    None
}

// Whether a get that waits ends with its timeout.
fn ends_late<R: Timed>(rt: &R, task: &MockTask, get: &mut NumberGet<R>) -> bool {
    matches!(end_of(rt, task, get), Some(Err(PoolError::Timeout)))
}

// A get waits while so much memory is left. None if it does not end with its timeout.
fn waits_short<R: Timed>(
    rt: R,
    timer: &Timer<R>,
    hoard: &mut Hoard,
    left: usize,
) -> Result<Option<Came>, Fail> {
    let pool = pool_of_one(rt, timer, Duration::from_millis(WAIT))?;
    let task = MockTask::new(&rt)?;
    let Ok(_object) = pool.try_get() else {
        return Err(Fail::new("no object"));
    };
    let mut get = pool.get();
    hoard.take(left)?;
    let came = first_poll(&task, timer, &mut get);
    let is_well = came == Came::Refused || ends_late(&rt, &task, &mut get);
    hoard.let_go();
    Ok(if is_well { Some(came) } else { None })
}

// Lets gets wait with more and more memory, until there is enough for an alarm. Gives how many waited without one.
fn waits_without_alarm<R: Timed>(rt: R) -> Result<usize, Fail> {
    let timer = Timer::start(rt.alloc(), rt)?;
    let mut hoard = Hoard::new(rt.alloc())?;
    let (mut left, mut without) = (0, 0usize);
    for _try in 0..TRIES {
        match waits_short(rt, &timer, &mut hoard, left)? {
            Some(Came::Refused) => {}
            Some(Came::Again) => without = without.saturating_add(1),
            Some(Came::Alarm) => return Ok(without),
            Some(Came::Forgotten) | None => return Err(Fail::new("a get was forgotten")),
        }
        left = more(left);
    }
    Err(Fail::new("there was never enough memory"))
}

fn no_get_is_forgotten<R: Timed>(rt: R) -> Result<(), Fail> {
    let without = waits_without_alarm(rt)?;
    expect("whether gets waited without an alarm", without > 0, true)
}

#[test]
fn a_get_without_memory_for_its_alarm_ends_with_its_timeout(rt: HostRuntime) -> Result<(), Fail> {
    no_get_is_forgotten(rt)
}
