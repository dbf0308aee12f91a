//! Calls of a shared unmanaged pool, made while too little memory is left.
use super::calls::{Came, Polled, TRIES};
use super::tracked::{Counts, SharedCounts, Tracked};
use deadpool_parts::{NoTime, Status};
use deadpool_unmanaged::PoolError;
use deadpool_unmanaged_shared::{Add, DrainError, Get, Pool, Remove};
use futures::task::Poll;
use futures::test::MockTask;
use std::alloc::AllocError;
use std::random::RandomSource;
use std::sync::Wait;
use std::test::Fail;
use test_support::expected::{expect, stands};
use test_support::hoard::{Hoard, more};

type TestPool<R> = Pool<Tracked, NoTime, R>;

// A call that is made while too little memory is left.
#[derive(Clone, Copy, Debug, PartialEq, Eq)]
enum Call {
    New,
    Clone,
    TryGet,
    TryAdd,
    // A get, a removal and an add that have to wait.
    Get,
    Remove,
    Add,
    // A drain that has to wait.
    Drain,
}

const CALLS: [Call; 8] = [
    Call::New,
    Call::Clone,
    Call::TryGet,
    Call::TryAdd,
    Call::Get,
    Call::Remove,
    Call::Add,
    Call::Drain,
];

impl Call {
    // Handles are counts of what is shared, and the pool has room for all its objects.
    fn takes_memory(self) -> bool {
        match self {
            Call::New | Call::Get | Call::Remove | Call::Add | Call::Drain => true,
            Call::Clone | Call::TryGet | Call::TryAdd => false,
        }
    }

    // How often it was refused, which is never if it takes no memory.
    fn refused(self, refusals: usize) -> Result<usize, Fail> {
        if self.takes_memory() == (refusals > 0) {
            return Ok(refusals);
        }
        Err(Fail::new(format_args!("{self:?}: refused {refusals} times")))
    }
}

// What waits for an object.
#[derive(Drop)]
enum Waiting<R: Wait + Drop> {
    Get(Get<Tracked, NoTime, R>),
    Remove(Remove<Tracked, NoTime, R>),
}

impl<R: Wait + Drop> Waiting<R> {
    fn of(pool: &TestPool<R>, call: Call) -> Self {
        match call {
            Call::Remove => Waiting::Remove(pool.remove()),
            _ => Waiting::Get(pool.get()),
        }
    }

    fn poll(&mut self, task: &MockTask) -> Polled {
        match self {
            Waiting::Get(get) => polled(task.poll(get)),
            Waiting::Remove(removal) => polled(task.poll(removal)),
        }
    }
}

fn polled<T: Drop>(poll: Poll<Result<T, PoolError>>) -> Polled {
    match poll {
        Poll::Pending => Polled::Pending,
        Poll::Ready(Ok(_)) => Polled::Served,
        Poll::Ready(Err(PoolError::OutOfMemory)) => Polled::Refused,
        Poll::Ready(Err(_)) => Polled::Failed,
    }
}

// A pool with one idle object and room for so many.
fn pool_of_one<R>(rt: R, room: usize, object: Tracked) -> Result<TestPool<R>, Fail>
where
    R: Wait + AllocGlobal + Copy + Drop + Send + Sync,
{
    let pool: TestPool<R> = Pool::new(rt.alloc(), room, NoTime, rt)?;
    match pool.try_add(object) {
        Ok(()) => Ok(pool),
        Err(_) => Err(Fail::new("no room")),
    }
}

// A pool is made.
fn try_new<R>(rt: R, hoard: &mut Hoard, counts: &SharedCounts, left: usize) -> Result<Came, Fail>
where
    R: Wait + AllocGlobal + Copy + Drop + Send + Sync,
{
    hoard.take(left)?;
    let made: Result<TestPool<R>, AllocError> = Pool::new(rt.alloc(), 8, NoTime, rt);
    hoard.let_go();
    let Ok(pool) = made else {
        return Ok(Came::Refused);
    };
    let is_added = pool.try_add(Tracked::new(counts)?).is_ok();
    expect(
        "a new pool",
        (is_added, pool.status()),
        (true, stands(8, 1, 1, 0)),
    )?;
    Ok(Came::Made)
}

// Makes a call that makes no party, while so much memory is left. What it gives is dropped.
fn make_short<R: Wait + Drop>(
    pool: &TestPool<R>,
    hoard: &mut Hoard,
    call: Call,
    object: Tracked,
    left: usize,
) -> Result<bool, AllocError> {
    hoard.take(left)?;
    let is_made = match call {
        Call::TryGet => pool.try_get().is_ok(),
        Call::TryAdd => pool.try_add(object).is_ok(),
        _ => pool.clone().is_ok(),
    };
    hoard.let_go();
    Ok(is_made)
}

// Such a call over a pool with one idle object and room for another.
fn try_at_once<R>(
    rt: R,
    hoard: &mut Hoard,
    counts: &SharedCounts,
    call: Call,
    left: usize,
) -> Result<Came, Fail>
where
    R: Wait + AllocGlobal + Copy + Drop + Send + Sync,
{
    let pool = pool_of_one(rt, 2, Tracked::new(counts)?)?;
    let is_made = make_short(&pool, hoard, call, Tracked::new(counts)?, left)?;
    let size = if is_made && call == Call::TryAdd {
        2
    } else {
        1
    };
    expect(
        "the status after a call",
        pool.status(),
        stands(2, size, size, 0),
    )?;
    Ok(if is_made { Came::Made } else { Came::Refused })
}

// Polls what waits while so much memory is left.
fn poll_short<R: Wait + Drop>(
    task: &MockTask,
    hoard: &mut Hoard,
    waiting: &mut Waiting<R>,
    left: usize,
) -> Result<Polled, AllocError> {
    hoard.take(left)?;
    let polled = waiting.poll(task);
    hoard.let_go();
    Ok(polled)
}

// What was refused stays at its end, and the pool does not count it. The next takes its place, and waits.
fn wait_again<R: Wait + Drop>(
    task: &MockTask,
    pool: &TestPool<R>,
    waiting: &mut Waiting<R>,
    call: Call,
) -> Result<(), Fail> {
    let ended = (waiting.poll(task), pool.status());
    *waiting = Waiting::of(pool, call);
    expect(
        "one at its end, and the next",
        (ended, waiting.poll(task)),
        ((Polled::Pending, stands(1, 0, 0, 0)), Polled::Pending),
    )
}

// What waits has the object that comes, which a get gives back and a removal does not.
fn serve<R: Wait + Drop>(
    task: &MockTask,
    pool: &TestPool<R>,
    waiting: &mut Waiting<R>,
    object: Tracked,
) -> Result<(), Fail> {
    let before = pool.status();
    let is_added = pool.try_add(object).is_ok();
    let (is_woken, polled) = (task.is_woken(), waiting.poll(task));
    let size = match waiting {
        Waiting::Get(_) => 1,
        Waiting::Remove(_) => 0,
    };
    expect(
        "one that waits, and is served",
        (before, is_added, is_woken, polled, pool.status()),
        (
            stands(1, 0, 0, 1),
            true,
            true,
            Polled::Served,
            stands(1, size, size, 0),
        ),
    )
}

// A get or a removal over an empty pool. If it is refused, it stays at its end, and the next waits. The one that waits
// has the object that comes.
fn try_wait<R>(
    rt: R,
    hoard: &mut Hoard,
    counts: &SharedCounts,
    call: Call,
    left: usize,
) -> Result<Came, Fail>
where
    R: Wait + RandomSource + AllocGlobal + Copy + Drop + Send + Sync,
{
    let task = MockTask::new(&rt)?;
    let pool: TestPool<R> = Pool::new(rt.alloc(), 1, NoTime, rt)?;
    let mut waiting = Waiting::of(&pool, call);
    let came = poll_short(&task, hoard, &mut waiting, left)?.came();
    if came == Came::Refused {
        wait_again(&task, &pool, &mut waiting, call)?;
    }
    serve(&task, &pool, &mut waiting, Tracked::new(counts)?)?;
    Ok(came)
}

fn poll_add<R: Wait + Drop>(
    task: &MockTask,
    add: &mut Add<Tracked, NoTime, R>,
) -> Poll<Result<(), (Tracked, PoolError)>> {
    task.poll(add)
}

// An add that was refused stays at its end. Its object was not dropped, and is added by the next, which waits.
fn add_again<R: Wait + Drop>(
    task: &MockTask,
    pool: &TestPool<R>,
    counts: &SharedCounts,
    add: &mut Add<Tracked, NoTime, R>,
    object: Tracked,
) -> Result<(), Fail> {
    let living = counts.living();
    let is_ended = poll_add(task, add).is_pending();
    *add = pool.add(object);
    expect(
        "an add at its end, and the next",
        (living, is_ended, poll_add(task, add).is_pending()),
        (Some(2), true, true),
    )
}

// Polls an add while so much memory is left. If it is refused, the next waits.
fn add_short<R: Wait + Drop>(
    task: &MockTask,
    pool: &TestPool<R>,
    hoard: &mut Hoard,
    counts: &SharedCounts,
    add: &mut Add<Tracked, NoTime, R>,
    left: usize,
) -> Result<Came, Fail> {
    hoard.take(left)?;
    let polled = poll_add(task, add);
    hoard.let_go();
    match polled {
        Poll::Pending => Ok(Came::Made),
        Poll::Ready(Err((object, PoolError::OutOfMemory))) => {
            add_again(task, pool, counts, add, object)?;
            Ok(Came::Refused)
        }
        Poll::Ready(_) => Ok(Came::Wrong),
    }
}

// An add that waits has the room of an object that leaves.
fn make_room<R: Wait + Drop>(
    task: &MockTask,
    pool: &TestPool<R>,
    add: &mut Add<Tracked, NoTime, R>,
) -> Result<(), Fail> {
    let before = pool.status();
    let is_removed = pool.try_remove().is_ok();
    let is_woken = task.is_woken();
    let is_added = matches!(poll_add(task, add), Poll::Ready(Ok(())));
    let full = stands(1, 1, 1, 0);
    expect(
        "an add that waits, and finds room",
        (before, is_removed, is_woken, is_added, pool.status()),
        (full, true, true, true, full),
    )
}

// An add to a full pool. If it is refused, its object comes back and is added by the next, which waits for room.
fn try_add<R>(rt: R, hoard: &mut Hoard, counts: &SharedCounts, left: usize) -> Result<Came, Fail>
where
    R: Wait + RandomSource + AllocGlobal + Copy + Drop + Send + Sync,
{
    let task = MockTask::new(&rt)?;
    let pool = pool_of_one(rt, 1, Tracked::new(counts)?)?;
    let mut add = pool.add(Tracked::new(counts)?);
    let came = add_short(&task, &pool, hoard, counts, &mut add, left)?;
    make_room(&task, &pool, &mut add)?;
    Ok(came)
}

// What a drain came to that has one object to wait for.
fn drained(polled: Poll<Result<Status, DrainError>>) -> Came {
    match polled {
        Poll::Pending => Came::Made,
        Poll::Ready(Err(DrainError::OutOfMemory(status))) if status == stands(1, 1, 0, 0) => {
            Came::Refused
        }
        Poll::Ready(_) => Came::Wrong,
    }
}

// Polls a drain while so much memory is left and an object is out. If it is refused, it stays at its end. The pool is
// drained once the object is back.
fn try_to_drain<R>(
    rt: R,
    hoard: &mut Hoard,
    counts: &SharedCounts,
    left: usize,
) -> Result<Came, Fail>
where
    R: Wait + RandomSource + AllocGlobal + Copy + Drop + Send + Sync,
{
    let task = MockTask::new(&rt)?;
    let pool = pool_of_one(rt, 1, Tracked::new(counts)?)?;
    let object = pool.try_get()?;
    let mut drain = pool.drain();
    hoard.take(left)?;
    let polled = task.poll(&mut drain);
    hoard.let_go();
    let rests = task.poll(&mut drain).is_pending();
    drop(object);
    let ended = pool.try_drain();
    expect(
        "a drain, and the pool in the end",
        (rests, ended),
        (true, Ok(stands(1, 0, 0, 0))),
    )?;
    Ok(drained(polled))
}

// Makes a call over a new pool while so much memory is left. In the end each object was dropped once.
fn try_once<R>(rt: R, hoard: &mut Hoard, call: Call, left: usize) -> Result<Came, Fail>
where
    R: Wait + RandomSource + AllocGlobal + Copy + Drop + Send + Sync,
{
    let counts = Counts::shared(rt.alloc())?;
    let came = match call {
        Call::New => try_new(rt, hoard, &counts, left),
        Call::Get | Call::Remove => try_wait(rt, hoard, &counts, call, left),
        Call::Add => try_add(rt, hoard, &counts, left),
        Call::Drain => try_to_drain(rt, hoard, &counts, left),
        call => try_at_once(rt, hoard, &counts, call, left),
    }?;
    expect("the objects in the end", counts.living(), Some(0))?;
    Ok(came)
}

// Makes a call with more and more memory, until it finds enough. Gives how often it was refused.
fn try_call<R>(rt: R, hoard: &mut Hoard, call: Call) -> Result<usize, Fail>
where
    R: Wait + RandomSource + AllocGlobal + Copy + Drop + Send + Sync,
{
    let mut left = 0;
    for refusals in 0..TRIES {
        match try_once(rt, hoard, call, left)? {
            Came::Made => return call.refused(refusals),
            Came::Refused => left = more(left),
            Came::Wrong => return Err(Fail::new("neither made nor refused")),
        }
    }
    Err(Fail::new("memory is always refused"))
}

#[test]
fn calls_of_an_unmanaged_shared_pool_that_find_no_memory(rt: HostRuntime) -> Result<(), Fail> {
    let mut hoard = Hoard::new(rt.alloc())?;
    let mut refused = 0usize;
    for call in CALLS {
        let refusals = try_call(rt, &mut hoard, call)?;
        refused = refused.saturating_add(refusals);
    }
    println!(rt; "{refused} refusals")?;
    Ok(())
}
