//! The managed pool.

ghost use Rattle.std.specs.Prelude.{◌≡◌};

use crate::cancels::cancel_gets;
use crate::crowd::{LIMIT, crowds};
use crate::host::Host;
use crate::line::Line;
use crate::table::Table;
use crate::work::{SharedWork, all_served, lacks_object};
use crate::zeros::Zeros;
use deadpool::NoTime;
use deadpool::managed::desk::{Kept, Slot};
use deadpool::managed::{Blanks, Build, Get, Ledgers, NoHook, Object, Pool, PoolBuilder, Timeouts};
use deadpool_threads::Blocking;
use futures::Future;
use futures::executor::block_on;
use futures::task::{Doorbell, Poll, Solo};
use futures::test::MockTask;
use std::alloc::AllocError;
use std::marker::Brand;
use std::{io, thread};

type ZeroPool<R, L> = Pool<Zeros, NoHook, NoHook, NoTime, R, L>;

type Zero<R, L> = Object<Zeros, NoHook, NoHook, NoTime, R, L>;

type ZeroGet<R, L> = Get<Zeros, NoHook, NoHook, NoTime, R, L, Zero<R, L>>;

/// Times all work of a managed pool.
pub fn measure<R: Host>(table: Table<R>) -> io::Result<()> {
    let blanks = Blanks::new();
    measure_pool::<_, Brand>(table, blanks)
}

// A blank opens each of the ledgers that the pool counts with.
fn measure_pool<R, L>(table: Table<R>, blanks: Blanks) -> io::Result<()>
where
    R: Host,
    L: Ledgers + Send + Sync + 'static,
    requires { blanks ≡ L.names }
{
    let builder = PoolBuilder::new(table.rt.alloc(), Zeros, NoTime).max_size(LIMIT);
    let Ok(pool) = builder.build(blanks, table.rt) else {
        return Err(io::Error::other("the managed pool was not built"));
    };
    let pool: ZeroPool<R, L> = pool;
    measure_built(table, &pool)
}

fn measure_built<R, L>(table: Table<R>, pool: &ZeroPool<R, L>) -> io::Result<()>
where
    R: Host,
    L: Ledgers + Send + Sync + 'static,
{
    table.head("managed pool")?;
    measure_alone(table, pool)?;
    let holds = Holds {
        pool: pool.clone()?,
        rt: table.rt,
    };
    crowds(table, &holds)?;
    measure_cancels(table, pool)
}

fn measure_alone<R: Host, L: Ledgers>(table: Table<R>, pool: &ZeroPool<R, L>) -> io::Result<()> {
    // Beside its object's slot and timeouts of its own, a get takes at most 160 bytes.
    let places = size_of::<Option<Slot<Kept<u64>>>>() + size_of::<Option<Timeouts>>();
    prove!(size_of::<ZeroGet<R, L>>() <= 160 + places);
    measure_polls(table, pool)?;
    measure_waits(table, pool)
}

// All gets of a window are polled in one poll of one task.
fn measure_polls<R: Host, L: Ledgers>(table: Table<R>, pool: &ZeroPool<R, L>) -> io::Result<()> {
    let task = Solo::new(&table.rt, Doorbell::spinning())?;
    let creates = |times| {
        let mut cx = task.begin();
        let mut served = 0u32;
        for _time in 0..times {
            if let Poll::Ready(Ok(object)) = pool.get().poll(&mut cx) {
                Object::take(object);
                served = served.saturating_add(1);
            }
        }
        cx.cancel();
        all_served(served, times)
    };
    table.figure("create and take, polled by hand", &creates)?;
    let polls = |times| {
        let mut cx = task.begin();
        let mut served = 0u32;
        for _time in 0..times {
            if let Poll::Ready(Ok(object)) = pool.get().poll(&mut cx) {
                drop(object);
                served = served.saturating_add(1);
            }
        }
        cx.cancel();
        all_served(served, times)
    };
    table.figure("get and return, polled by hand", &polls)?;
    let borrows = |times| {
        let mut cx = task.begin();
        let mut served = 0u32;
        for _time in 0..times {
            if let Poll::Ready(Ok(object)) = pool.get_ref().poll(&mut cx) {
                drop(object);
                served = served.saturating_add(1);
            }
        }
        cx.cancel();
        all_served(served, times)
    };
    table.figure("borrowed get and return, by hand", &borrows)
}

// By what a thread keeps to wait by, and by an executor for each get.
fn measure_waits<R: Host, L: Ledgers>(table: Table<R>, pool: &ZeroPool<R, L>) -> io::Result<()> {
    let rt = &table.rt;
    let waits = |times: u32| -> io::Result<()> {
        let mut waiter = Blocking::new(rt)?;
        for _time in 0..times {
            let Ok(object) = waiter.get(rt, pool) else {
                return Err(lacks_object());
            };
            drop(object);
        }
        Ok(())
    };
    table.figure("get and return, by a waiter", &waits)?;
    let begun = |times: u32| -> io::Result<()> {
        let mut waiter = Blocking::new(rt)?;
        let mut waiting = waiter.begin();
        for _time in 0..times {
            let Ok(object) = waiting.get(rt, pool) else {
                return Err(lacks_object());
            };
            drop(object);
        }
        Ok(())
    };
    table.figure("get and return, by one begun", &begun)?;
    let blocks = |times: u32| -> io::Result<()> {
        for _time in 0..times {
            let Ok(object) = block_on(rt, pool.get())? else {
                return Err(lacks_object());
            };
            drop(object);
        }
        Ok(())
    };
    table.figure("get and return, by block_on", &blocks)
}

// All objects are out, so every get waits.
fn measure_cancels<R: Host, L: Ledgers>(table: Table<R>, pool: &ZeroPool<R, L>) -> io::Result<()> {
    pool.resize(1)?;
    let mut waiter = Blocking::new(&table.rt)?;
    let Ok(held) = waiter.get(&table.rt, pool) else {
        return Err(lacks_object());
    };
    let line = PoolLine {
        pool: pool.clone()?,
        task: MockTask::new(&table.rt)?,
    };
    cancel_gets(table, line)?;
    drop(held);
    Ok(())
}

// Gets an object by what its thread keeps to wait by, holds it over a yield, and gives it back.
#[derive(Drop)]
struct Holds<R: Host, L: Ledgers> {
    pool: ZeroPool<R, L>,
    rt: R,
}

impl<R, L> SharedWork for Holds<R, L>
where
    R: Host,
    L: Ledgers + Send + Sync + 'static,
{
    fn share(&self) -> Result<Self, AllocError> {
        Ok(Holds {
            pool: self.pool.clone()?,
            rt: self.rt,
        })
    }

    fn repeat(&self, times: u32) -> io::Result<()> {
        let mut waiter = Blocking::new(&self.rt)?;
        for _time in 0..times {
            let Ok(object) = waiter.get(&self.rt, &self.pool) else {
                return Err(lacks_object());
            };
            thread::yield_now();
            drop(object);
        }
        Ok(())
    }
}

// The gets that wait in a pool.
#[derive(Drop)]
struct PoolLine<R: Host, L: Ledgers> {
    pool: ZeroPool<R, L>,
    task: MockTask,
}

impl<R: Host, L: Ledgers> Line for PoolLine<R, L> {
    type Waiter = ZeroGet<R, L>;

    fn join(&mut self) -> io::Result<ZeroGet<R, L>> {
        let mut get = self.pool.get();
        if self.task.poll(&mut get).is_pending() {
            return Ok(get);
        }
        Err(io::Error::other("a get did not wait"))
    }

    fn leave(&mut self, get: ZeroGet<R, L>) {
        drop(get);
    }

    fn waiting(&self) -> usize {
        self.pool.status().waiting
    }
}
