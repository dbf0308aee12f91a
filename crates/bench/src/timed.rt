//! The managed pool with a timeout, by a clock of real time.

ghost use Rattle.std.specs.Prelude.{◌≡◌};

use crate::crowd::LIMIT;
use crate::host::Host;
use crate::table::Table;
use crate::work::all_served;
use crate::zeros::Zeros;
use deadpool::Runtime;
use deadpool::managed::{Blanks, Build, Ledgers, NoHook, Pool, PoolBuilder};
use deadpool_timer::{Timer, TimerClock};
use futures::Future;
use futures::task::{Doorbell, Poll, Solo};
use std::io;
use std::marker::Brand;
use std::time::{Duration, Instant};

type TimedPool<R, L> = Pool<Zeros, NoHook, NoHook, TimerClock<R>, R, L>;

/// Times a get and its return over a pool whose gets wait for a second at most. None of them waits.
pub fn measure<R: Host>(table: Table<R>) -> io::Result<()> {
    let timer = Timer::start(table.rt.alloc(), table.rt)?;
    let blanks = Blanks::new();
    measure_pool::<_, Brand>(table, &timer, blanks)
}

fn measure_pool<R, L>(table: Table<R>, timer: &Timer<R>, blanks: Blanks) -> io::Result<()>
where
    R: Host,
    L: Ledgers,
    requires { blanks ≡ L.names }
{
    let builder = PoolBuilder::new(table.rt.alloc(), Zeros, timer.clock()?)
        .max_size(LIMIT)
        .runtime(Runtime::Clock)
        .wait_timeout(Some(Duration::from_secs(1)));
    let Ok(pool) = builder.build(blanks, table.rt) else {
        return Err(io::Error::other("the pool with a timeout was not built"));
    };
    let pool: TimedPool<R, L> = pool;
    measure_built(table, &pool)
}

fn measure_built<R: Host, L: Ledgers>(table: Table<R>, pool: &TimedPool<R, L>) -> io::Result<()> {
    table.head("managed pool with a timeout")?;
    let task = Solo::new(&table.rt, Doorbell::spinning())?;
    let polls = |times| {
        let mut cx = task.begin();
        let mut served = 0u32;
        for _time in 0..times {
            if let Poll::Ready(Ok(object)) = pool.get().poll(&mut cx) {
                drop(object);
                served = served.saturating_add(1);
            }
        }
        cx.cancel();
        all_served(served, times)
    };
    table.figure("get and return, polled by hand", &polls)?;
    let rt = &table.rt;
    let readings = |times: u32| -> io::Result<()> {
        for _time in 0..times {
            let _now = Instant::now(rt)?;
        }
        Ok(())
    };
    table.figure("read the clock", &readings)
}
