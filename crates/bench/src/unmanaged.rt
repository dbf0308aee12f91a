//! The unmanaged pool.

use crate::cancels::cancel_gets;
use crate::crowd::{LIMIT, crowds};
use crate::host::Host;
use crate::line::Line;
use crate::table::Table;
use crate::work::{SharedWork, all_served, lacks_object};
use deadpool::NoTime;
use deadpool::unmanaged::{Get, Pool};
use deadpool_threads::Blocking;
use futures::Future;
use futures::executor::block_on;
use futures::task::{Doorbell, Poll, Solo};
use futures::test::MockTask;
use std::alloc::AllocError;
use std::{io, thread};

type ZeroPool<R> = Pool<u64, NoTime, R>;

type ZeroGet<R> = Get<u64, NoTime, R>;

/// Times all work of an unmanaged pool.
pub fn measure<R: Host>(table: Table<R>) -> io::Result<()> {
    table.head("unmanaged pool")?;
    measure_alone(table)?;
    let zeros = [0u64; LIMIT];
    let holds = Holds {
        pool: Pool::from_items(table.rt.alloc(), zeros.into_iter(), NoTime, table.rt)?,
        rt: table.rt,
    };
    crowds(table, &holds)?;
    measure_cancels(table)
}

fn measure_alone<R: Host>(table: Table<R>) -> io::Result<()> {
    let pool = Pool::new(table.rt.alloc(), 1, NoTime, table.rt)?;
    measure_at_once(table, &pool)?;
    measure_polls(table, &pool)?;
    measure_waits(table, &pool)
}

// The pool has no object at first, and one from then on.
fn measure_at_once<R: Host>(table: Table<R>, pool: &ZeroPool<R>) -> io::Result<()> {
    let adds = |times: u32| -> io::Result<()> {
        for _time in 0..times {
            if pool.try_add(0).is_err() {
                return Err(lacks_place());
            }
            if pool.try_remove().is_err() {
                return Err(lacks_object());
            }
        }
        Ok(())
    };
    table.figure("add and remove, at once", &adds)?;
    if pool.try_add(0).is_err() {
        return Err(lacks_place());
    }
    let tries = |times: u32| -> io::Result<()> {
        for _time in 0..times {
            let Ok(object) = pool.try_get() else {
                return Err(lacks_object());
            };
            drop(object);
        }
        Ok(())
    };
    table.figure("get and return, at once", &tries)
}

// All gets of a window are polled in one poll of one task.
fn measure_polls<R: Host>(table: Table<R>, pool: &ZeroPool<R>) -> io::Result<()> {
    let task = Solo::new(&table.rt, Doorbell::spinning())?;
    let polls = |times| {
        let mut cx = task.begin();
        let mut served = 0u32;
        for _time in 0..times {
            if let Poll::Ready(Ok(object)) = pool.get().poll(&mut cx) {
                drop(object);
                served = served.saturating_add(1);
            }
        }
        cx.cancel();
        all_served(served, times)
    };
    table.figure("get and return, polled by hand", &polls)?;
    let borrows = |times| {
        let mut cx = task.begin();
        let mut served = 0u32;
        for _time in 0..times {
            if let Poll::Ready(Ok(object)) = pool.get_ref().poll(&mut cx) {
                drop(object);
                served = served.saturating_add(1);
            }
        }
        cx.cancel();
        all_served(served, times)
    };
    table.figure("borrowed get and return, by hand", &borrows)
}

// By what a thread keeps to wait by, and by an executor for each get.
fn measure_waits<R: Host>(table: Table<R>, pool: &ZeroPool<R>) -> io::Result<()> {
    let rt = &table.rt;
    let waits = |times: u32| -> io::Result<()> {
        let mut waiter = Blocking::new(rt)?;
        for _time in 0..times {
            let Ok(object) = waiter.get_unmanaged(rt, pool) else {
                return Err(lacks_object());
            };
            drop(object);
        }
        Ok(())
    };
    table.figure("get and return, by a waiter", &waits)?;
    let begun = |times: u32| -> io::Result<()> {
        let mut waiter = Blocking::new(rt)?;
        let mut waiting = waiter.begin();
        for _time in 0..times {
            let Ok(object) = waiting.get_unmanaged(rt, pool) else {
                return Err(lacks_object());
            };
            drop(object);
        }
        Ok(())
    };
    table.figure("get and return, by one begun", &begun)?;
    let blocks = |times: u32| -> io::Result<()> {
        for _time in 0..times {
            let Ok(object) = block_on(rt, pool.get())? else {
                return Err(lacks_object());
            };
            drop(object);
        }
        Ok(())
    };
    table.figure("get and return, by block_on", &blocks)
}

// The pool has no object, so every get waits.
fn measure_cancels<R: Host>(table: Table<R>) -> io::Result<()> {
    let line = PoolLine {
        pool: Pool::new(table.rt.alloc(), 1, NoTime, table.rt)?,
        task: MockTask::new(&table.rt)?,
    };
    cancel_gets(table, line)
}

// Gets an object by what its thread keeps to wait by, holds it over a yield, and gives it back.
#[derive(Drop)]
struct Holds<R: Host> {
    pool: ZeroPool<R>,
    rt: R,
}

impl<R: Host> SharedWork for Holds<R> {
    fn share(&self) -> Result<Self, AllocError> {
        Ok(Holds {
            pool: self.pool.clone()?,
            rt: self.rt,
        })
    }

    fn repeat(&self, times: u32) -> io::Result<()> {
        let mut waiter = Blocking::new(&self.rt)?;
        for _time in 0..times {
            let Ok(object) = waiter.get_unmanaged(&self.rt, &self.pool) else {
                return Err(lacks_object());
            };
            thread::yield_now();
            drop(object);
        }
        Ok(())
    }
}

// The gets that wait in a pool.
#[derive(Drop)]
struct PoolLine<R: Host> {
    pool: ZeroPool<R>,
    task: MockTask,
}

impl<R: Host> Line for PoolLine<R> {
    type Waiter = ZeroGet<R>;

    fn join(&mut self) -> io::Result<ZeroGet<R>> {
        let mut get = self.pool.get();
        if self.task.poll(&mut get).is_pending() {
            return Ok(get);
        }
        Err(io::Error::other("a get did not wait"))
    }

    fn leave(&mut self, get: ZeroGet<R>) {
        drop(get);
    }

    fn waiting(&self) -> usize {
        self.pool.status().waiting
    }
}

fn lacks_place() -> io::Error {
    io::Error::other("an object was not added")
}
