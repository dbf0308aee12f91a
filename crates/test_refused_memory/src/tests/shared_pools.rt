//! Calls of a shared managed pool, made while too little memory is left.

ghost use Rattle.std.specs.Prelude.{◌≡◌};

use super::calls::{Came, Polled, TRIES};
use super::tracked::{Counts, Maker, SharedCounts};
use deadpool_builder::PoolBuilder;
use deadpool_managed::{BuildError, NoHook, PoolError};
use deadpool_parts::{NoTime, Status};
use deadpool_shared::{Blanks, Build, DrainError, Get, Ledgers, Object, Pool, WeakPool};
use futures::task::Poll;
use futures::test::MockTask;
use std::alloc::{AllocError, Global};
use std::marker::Brand;
use std::random::RandomSource;
use std::sync::Wait;
use std::test::Fail;
use test_support::expected::{expect, stands};
use test_support::hoard::{Hoard, more};

// How many objects a pool has at most.
const LIMIT: usize = 2;

type Builder = PoolBuilder<Maker, NoHook, NoHook, NoTime>;

type TestPool<R, L> = Pool<Maker, NoHook, NoHook, NoTime, R, L>;

type TestWeak<R, L> = WeakPool<Maker, NoHook, NoHook, NoTime, R, L>;

type TestObject<R, L> = Object<Maker, NoHook, NoHook, NoTime, R, L>;

type TestGet<R, L> = Get<Maker, NoHook, NoHook, NoTime, R, L, TestObject<R, L>>;

// A call that is made while too little memory is left.
#[derive(Clone, Copy, Debug, PartialEq, Eq)]
enum Call {
    Build,
    Clone,
    Weak,
    Upgrade,
    ObjectPool,
    Journal,
    Resize,
    Retain,
    // A get for which an object is idle, and one for which no place is free.
    Get,
    Queue,
    // The same in a pool that has room for all gets that may wait.
    QueueWithRoom,
    // A drain while an object is out.
    Drain,
}

const CALLS: [Call; 12] = [
    Call::Build,
    Call::Clone,
    Call::Weak,
    Call::Upgrade,
    Call::ObjectPool,
    Call::Journal,
    Call::Resize,
    Call::Retain,
    Call::Get,
    Call::Queue,
    Call::QueueWithRoom,
    Call::Drain,
];

impl Call {
    // Handles are counts of what is shared, an idle object is handed out as it is, and where there is room to wait none
    // is taken.
    fn takes_memory(self) -> bool {
        match self {
            Call::Build | Call::Journal | Call::Resize | Call::Retain => true,
            Call::Queue | Call::Drain => true,
            Call::Clone | Call::Weak | Call::Upgrade | Call::ObjectPool => false,
            Call::Get | Call::QueueWithRoom => false,
        }
    }

    // How often it was refused, which is never if it takes no memory.
    fn refused(self, refusals: usize) -> Result<usize, Fail> {
        if self.takes_memory() == (refusals > 0) {
            return Ok(refusals);
        }
        Err(Fail::new(format_args!("{self:?}: refused {refusals} times")))
    }
}

// A pool of which one object is out and one is idle.
#[derive(Drop)]
struct Scene<R: Wait + Drop, L: Ledgers> {
    task: MockTask,
    pool: TestPool<R, L>,
    weak: TestWeak<R, L>,
    out: TestObject<R, L>,
}

// An object that the get gives goes back.
fn poll_get<R: Wait + Drop, L: Ledgers>(task: &MockTask, get: &mut TestGet<R, L>) -> Polled {
    match task.poll(get) {
        Poll::Pending => Polled::Pending,
        Poll::Ready(Ok(_)) => Polled::Served,
        Poll::Ready(Err(PoolError::OutOfMemory)) => Polled::Refused,
        Poll::Ready(Err(_)) => Polled::Failed,
    }
}

fn get_object<R: Wait + Drop, L: Ledgers>(
    task: &MockTask,
    pool: &TestPool<R, L>,
) -> Result<TestObject<R, L>, Fail> {
    match task.poll(&mut pool.get()) {
        Poll::Ready(Ok(object)) => Ok(object),
        _ => Err(Fail::new("no object")),
    }
}

// An object that is out, while another is idle.
fn get_beside_idle<R: Wait + Drop, L: Ledgers>(
    task: &MockTask,
    pool: &TestPool<R, L>,
) -> Result<TestObject<R, L>, Fail> {
    let out = get_object(task, pool)?;
    let idle = get_object(task, pool)?;
    drop(idle);
    Ok(out)
}

impl<R: Wait + Drop, L: Ledgers> Scene<R, L> {
    fn new<H: RandomSource + AllocGlobal>(rt: &H, pool: TestPool<R, L>) -> Result<Self, Fail> {
        let task = MockTask::new(rt)?;
        let weak = pool.weak()?;
        let out = get_beside_idle(&task, &pool)?;
        Ok(Scene {
            task,
            pool,
            weak,
            out,
        })
    }

    // Makes a call. What it gives is dropped.
    fn make(&self, call: Call) -> Came {
        match call {
            Call::Build | Call::Queue | Call::QueueWithRoom | Call::Drain => Came::Wrong,
            Call::Clone => Came::of(self.pool.clone()),
            Call::Weak => Came::of(self.pool.weak()),
            Call::Upgrade => Came::of_some(self.weak.upgrade()),
            Call::ObjectPool => Came::of_some(Object::pool(&self.out)),
            Call::Journal => Came::of(self.pool.journal()),
            Call::Resize => Came::of(self.pool.resize(100)),
            Call::Retain => Came::of(self.pool.retain(|_value, _metrics| false)),
            Call::Get => match poll_get(&self.task, &mut self.pool.get()) {
                Polled::Served => Came::Made,
                Polled::Refused => Came::Refused,
                Polled::Pending | Polled::Failed => Came::Wrong,
            },
        }
    }

    // How the pool stands once the call was made.
    fn after(&self, call: Call) -> Status {
        match call {
            Call::Resize => stands(100, 2, 1, 0),
            Call::Retain => stands(LIMIT, 1, 0, 0),
            _ => stands(LIMIT, 2, 1, 0),
        }
    }
}

// Makes a call while so much memory is left. If it is refused, the pool stands as before, and the call is made again.
fn try_in_scene<R: Wait + Drop, L: Ledgers>(
    hoard: &mut Hoard,
    scene: &Scene<R, L>,
    call: Call,
    left: usize,
) -> Result<Came, Fail> {
    let before = scene.pool.status();
    hoard.take(left)?;
    let came = scene.make(call);
    hoard.let_go();
    let again = if came == Came::Refused {
        (scene.pool.status(), scene.make(call))
    } else {
        (before, Came::Made)
    };
    expect(
        "the status before a call, the call made again, and the status after it",
        (before, again, scene.pool.status()),
        (
            stands(LIMIT, 2, 1, 0),
            (before, Came::Made),
            scene.after(call),
        ),
    )?;
    Ok(came)
}

// A get that was refused stays at its end, and the pool does not count it. The next takes its place, and waits.
fn queue_again<R: Wait + Drop, L: Ledgers>(
    task: &MockTask,
    pool: &TestPool<R, L>,
    get: &mut TestGet<R, L>,
) -> Result<(), Fail> {
    let refused = pool.status();
    let ended = (poll_get(task, get), pool.status());
    *get = pool.get();
    let out = stands(LIMIT, 2, 0, 0);
    expect(
        "a get at its end, and the next",
        (refused, ended, poll_get(task, get)),
        (out, (Polled::Pending, out), Polled::Pending),
    )
}

// Polls a get while so much memory is left. If it is refused, the next waits.
fn queue_short<R: Wait + Drop, L: Ledgers>(
    task: &MockTask,
    hoard: &mut Hoard,
    pool: &TestPool<R, L>,
    get: &mut TestGet<R, L>,
    left: usize,
) -> Result<Came, Fail> {
    hoard.take(left)?;
    let came = poll_get(task, get).came();
    hoard.let_go();
    if came == Came::Refused {
        queue_again(task, pool, get)?;
    }
    Ok(came)
}

// A get that waits is woken by a return, and has the object.
fn serve<R: Wait + Drop, L: Ledgers>(
    task: &MockTask,
    pool: &TestPool<R, L>,
    get: &mut TestGet<R, L>,
    out: TestObject<R, L>,
) -> Result<(), Fail> {
    let before = pool.status();
    drop(out);
    expect(
        "a get that waits, and is served",
        (before, task.is_woken(), poll_get(task, get)),
        (stands(LIMIT, 2, 0, 1), true, Polled::Served),
    )
}

// Polls a get for which no place is free while so much memory is left. If it is refused, it stays at its end, and the
// next is queued. The one that is queued is woken by a return, and has the object.
fn try_queue<R: Wait + Drop, L: Ledgers>(
    hoard: &mut Hoard,
    scene: Scene<R, L>,
    left: usize,
) -> Result<Came, Fail> {
    let Scene {
        task,
        pool,
        weak: _,
        out,
    } = scene;
    let other = get_object(&task, &pool)?;
    let mut get: TestGet<R, L> = pool.get();
    let came = queue_short(&task, hoard, &pool, &mut get, left)?;
    serve(&task, &pool, &mut get, out)?;
    drop(other);
    expect(
        "the status in the end",
        pool.status(),
        stands(LIMIT, 2, 2, 0),
    )?;
    Ok(came)
}

// What a drain came to that has one object to wait for.
fn drained(polled: Poll<Result<Status, DrainError>>) -> Came {
    match polled {
        Poll::Pending => Came::Made,
        Poll::Ready(Err(DrainError::OutOfMemory(status))) if status == stands(0, 1, 0, 0) => {
            Came::Refused
        }
        Poll::Ready(_) => Came::Wrong,
    }
}

// Polls a drain while so much memory is left and an object is out. If it is refused, it stays at its end. The pool is
// drained once the object is back.
fn try_drain<R: Wait + Drop, L: Ledgers>(
    hoard: &mut Hoard,
    scene: Scene<R, L>,
    left: usize,
) -> Result<Came, Fail> {
    let Scene {
        task,
        pool,
        weak: _,
        out,
    } = scene;
    let mut drain = pool.drain();
    hoard.take(left)?;
    let polled = task.poll(&mut drain);
    hoard.let_go();
    let rests = task.poll(&mut drain).is_pending();
    drop(out);
    let ended = pool.try_drain();
    expect(
        "a drain, and the pool in the end",
        (rests, ended),
        (true, Ok(stands(0, 0, 0, 0))),
    )?;
    Ok(drained(polled))
}

// What a pool is built of whose objects are counted here.
fn builder_of(alloc: Global, counts: &SharedCounts) -> Result<Builder, AllocError> {
    let builder: Builder = PoolBuilder::new(alloc, Maker::of(counts)?, NoTime);
    Ok(builder.max_size(LIMIT).journal(8))
}

// Makes a call over a pool that was built, if it was, while so much memory is left.
fn try_built<R: Wait + Drop, L: Ledgers, H: RandomSource + AllocGlobal>(
    rt: &H,
    hoard: &mut Hoard,
    built: Result<TestPool<R, L>, BuildError>,
    call: Call,
    left: usize,
) -> Result<Came, Fail> {
    let scene = match built {
        Ok(pool) => Scene::new(rt, pool)?,
        Err(BuildError::OutOfMemory) => return Ok(Came::Refused),
        Err(_) => return Ok(Came::Wrong),
    };
    match call {
        Call::Build => Ok(Came::Made),
        Call::Queue | Call::QueueWithRoom => try_queue(hoard, scene, left),
        Call::Drain => try_drain(hoard, scene, left),
        call => try_in_scene(hoard, &scene, call, left),
    }
}

// Makes a call over a new pool while so much memory is left. In the end each object was dropped once.
fn try_over<R, L: Ledgers>(
    rt: R,
    hoard: &mut Hoard,
    call: Call,
    left: usize,
    blanks: Blanks,
) -> Result<Came, Fail>
where
    R: Wait + RandomSource + AllocGlobal + Copy + Drop + Send + Sync,
    requires { blanks ≡ L.names }
{
    let counts = Counts::shared(rt.alloc())?;
    let mut builder = builder_of(rt.alloc(), &counts)?;
    if call == Call::QueueWithRoom {
        builder = builder.max_waiting(Some(1)).room_for_waiting();
    }
    if call == Call::Build {
        hoard.take(left)?;
    }
    let built: Result<TestPool<R, L>, BuildError> = builder.build(blanks, rt);
    hoard.let_go();
    let came = try_built(&rt, hoard, built, call, left)?;
    expect("the objects in the end", counts.living(), Some(0))?;
    Ok(came)
}

// Names the ledgers of a pool.
fn try_once<R>(rt: R, hoard: &mut Hoard, call: Call, left: usize) -> Result<Came, Fail>
where
    R: Wait + RandomSource + AllocGlobal + Copy + Drop + Send + Sync,
{
    let blanks = Blanks::new();
    try_over::<_, Brand>(rt, hoard, call, left, blanks)
}

// Makes a call with more and more memory, until it finds enough. Gives how often it was refused.
fn try_call<R>(rt: R, hoard: &mut Hoard, call: Call) -> Result<usize, Fail>
where
    R: Wait + RandomSource + AllocGlobal + Copy + Drop + Send + Sync,
{
    let mut left = 0;
    for refusals in 0..TRIES {
        match try_once(rt, hoard, call, left)? {
            Came::Made => return call.refused(refusals),
            Came::Refused => left = more(left),
            Came::Wrong => return Err(Fail::new("neither made nor refused")),
        }
    }
    Err(Fail::new("memory is always refused"))
}

#[test]
fn calls_of_a_shared_pool_that_find_no_memory(rt: HostRuntime) -> Result<(), Fail> {
    let mut hoard = Hoard::new(rt.alloc())?;
    let mut refused = 0usize;
    for call in CALLS {
        let refusals = try_call(rt, &mut hoard, call)?;
        refused = refused.saturating_add(refusals);
    }
    println!(rt; "{refused} refusals")?;
    Ok(())
}
