//! A get of a connection, to a database in memory.
use deadpool::NoTime;
use deadpool::managed::{Ledgers, NoHook, PoolBuilder};
use deadpool::threads::{Host, PoolUser, with_pool};
use deadpool_sqlite::{InMemory, RecyclingMethod, SqliteManager, SqlitePool, poll_connection};
use futures::task::{Doorbell, Poll, Solo};
use std::io;
use std::io::Print;

/// Polls a get once, and gives its connection back.
#[derive(Drop)]
struct Polls;

impl<R: Host> PoolUser<SqliteManager<InMemory>, NoHook, NoHook, NoTime, R> for Polls {
    /// Whether it has a connection.
    type Output = io::Result<bool>;

    fn run<L: Ledgers>(
        self,
        rt: &R,
        pool: &SqlitePool<InMemory, NoTime, R, L>,
    ) -> io::Result<bool> {
        let task = Solo::new(rt, Doorbell::spinning())?;
        let mut get = pool.get();
        let mut cx = task.begin();
        let polled = poll_connection(&mut get, &mut cx);
        cx.cancel();
        Ok(matches!(polled, Poll::Ready(Ok(_))))
    }
}

/// Prints what the call gave.
pub fn calls<R: Host + Print>(rt: R) -> io::Result<()> {
    let manager = SqliteManager {
        source: InMemory { alloc: rt.alloc() },
        batch: String::new(rt.alloc()),
        method: RecyclingMethod::Fast,
    };
    let builder = PoolBuilder::new(rt.alloc(), manager, NoTime);
    println!(rt; "connection: {}", with_pool(builder, rt, Polls)??)
}
