//! A thread that serves requests, and closes the pool if it is the last one to be done.
use crate::board::SharedBoard;
use crate::connections::{ConnectionPool, Connector, Limited};
use crate::{ASKING, LEAST_IDLE, MOST, SERVED};
use deadpool::managed::{DrainError, Ledgers, NoHook, Object, PoolError};
use deadpool::threads::{Blocking, BlockingUser, Host, Plain};
use deadpool::timer::TimerClock;
use std::io;
use std::sync::Wait;
use std::time::{Clock, Duration};

// How many requests each thread serves.
const REQUESTS: u32 = 25;

// How many seconds a request may have waited for its connection, and the last thread waits for the end.
const PATIENCE: u64 = 60;

/// Serves requests, each with a connection of its own.
#[derive(Drop)]
pub struct Server(pub SharedBoard);

impl<R: Host + Clock> BlockingUser<Plain<Connector>, Limited<R>, NoHook, TimerClock<R>, R>
    for Server {
    type Output = io::Result<()>;

    fn run<L: Ledgers>(
        self,
        rt: &R,
        blocking: &mut Blocking,
        pool: &ConnectionPool<R, L>,
    ) -> io::Result<()> {
        let ended = self.serve(rt, blocking, pool);
        if ended.is_err() {
            self.0.failed.add();
            pool.close();
        }
        ended
    }
}

impl Server {
    fn serve<R: Wait + Clock + Drop, L: Ledgers>(
        &self,
        rt: &R,
        blocking: &mut Blocking,
        pool: &ConnectionPool<R, L>,
    ) -> io::Result<()> {
        if self.is_turned_away(rt, blocking, pool)? {
            return Ok(());
        }
        for _request in 0..REQUESTS {
            let Ok(mut connection) = blocking.get(rt, pool) else {
                return Err(io::Error::other("a request was refused"));
            };
            if Object::waited(&connection) > Duration::from_secs(PATIENCE) {
                return Err(io::Error::other("a request waited too long"));
            }
            connection.requests = connection.requests.saturating_add(1);
        }
        if self.0.done.add() == SERVED - 1 {
            self.closes(rt, blocking, pool)
        } else {
            self.asks_at_the_end(rt, blocking, pool)
        }
    }

    // A request of the rush. Who is served keeps the connection until those for whom there is no room were turned away.
    fn is_turned_away<R: Wait + Clock + Drop, L: Ledgers>(
        &self,
        rt: &R,
        blocking: &mut Blocking,
        pool: &ConnectionPool<R, L>,
    ) -> io::Result<bool> {
        let turned_away = &self.0.turned_away;
        match blocking.get(rt, pool) {
            Ok(_connection) => {
                self.0
                    .wait_until(rt, || turned_away.get() == ASKING - SERVED)?;
                Ok(false)
            }
            Err(PoolError::Crowded) => {
                turned_away.add();
                Ok(true)
            }
            Err(_) => Err(io::Error::other("a request of the rush was refused")),
        }
    }

    // Waits for the keeper, and closes the pool while the others have all connections or wait for one.
    fn closes<R: Wait + Clock + Drop, L: Ledgers>(
        &self,
        rt: &R,
        blocking: &mut Blocking,
        pool: &ConnectionPool<R, L>,
    ) -> io::Result<()> {
        self.0.wait_until(rt, || pool.status().size == LEAST_IDLE)?;
        self.0.rested.add();
        self.0
            .wait_until(rt, || pool.status().waiting == SERVED - 1 - MOST)?;
        match blocking.drain_for(rt, pool, Duration::from_secs(PATIENCE)) {
            Ok(_status) => Ok(()),
            Err(DrainError::Timeout(_)) => Err(io::Error::other("a connection was not given back")),
            Err(DrainError::OutOfMemory(_)) => {
                Err(io::Error::other("no memory to wait for the end by"))
            }
            Err(DrainError::Departing(_)) => Err(io::Error::other(
                "a connection was not closed yet",
            )),
        }
    }

    // A request that is finished once the pool was closed, or sent away then.
    fn asks_at_the_end<R: Wait + Clock + Drop, L: Ledgers>(
        &self,
        rt: &R,
        blocking: &mut Blocking,
        pool: &ConnectionPool<R, L>,
    ) -> io::Result<()> {
        let rested = &self.0.rested;
        self.0.wait_until(rt, || rested.get() > 0)?;
        match blocking.get(rt, pool) {
            Ok(_connection) => self.0.wait_until(rt, || pool.is_closed()),
            Err(PoolError::Closed) => Ok(()),
            Err(_) => Err(io::Error::other("a last request was refused")),
        }
    }
}
