//! A thread that waits for the end of a pool.
ghost use Rattle.std.specs.Prelude.{true, false};
ghost use Rattle.deadpool_shared.specs.Drains.{EndsEmpty};

use crate::blocking::Blocking;
use deadpool_managed::{AsyncHook, Manager, Status, SyncHook};
use deadpool_parts::Clock;
use deadpool_shared::{DrainError, Ledgers, Pool};
use std::sync::Wait;
use std::time::Duration;

impl Blocking {
    /// Closes a managed pool and waits until nothing is left in it, as `Pool::drain`. `OutOfMemory` also says that
    /// there was no memory to wait by.
    pub fn drain<M, F, A, C, R, L, W>(
        &mut self,
        rt: &R,
        pool: &Pool<M, F, A, C, R, L, W>,
    ) -> Result<Status, DrainError>
    where
        M: Manager,
        F: SyncHook<M>,
        A: AsyncHook<M>,
        C: Clock,
        R: Wait + Drop,
        L: Ledgers,
        ensures { EndsEmpty false result }
    {
        match self.wait(rt, pool.drain()) {
            Ok(ended) => ended,
            Err(_) => without_memory(pool),
        }
    }

    /// The same, for no longer than this by the pool's clock. `Timeout` has the status at which it gave up.
    pub fn drain_for<M, F, A, C, R, L, W>(
        &mut self,
        rt: &R,
        pool: &Pool<M, F, A, C, R, L, W>,
        limit: Duration,
    ) -> Result<Status, DrainError>
    where
        M: Manager,
        F: SyncHook<M>,
        A: AsyncHook<M>,
        C: Clock,
        R: Wait + Drop,
        L: Ledgers,
        ensures { EndsEmpty true result }
    {
        let Ok(ended) = self.wait(rt, pool.drain_for(limit)) else {
            return without_memory(pool);
        };
        ended
    }
}

// How a drain ends that has no memory to wait by.
fn without_memory<M, F, A, C, R, L, W>(
    pool: &Pool<M, F, A, C, R, L, W>,
) -> Result<Status, DrainError>
where
    M: Manager,
    F: SyncHook<M>,
    A: AsyncHook<M>,
    C: Clock,
    R: Wait + Drop,
    L: Ledgers,
    ensures { EndsEmpty false result }
{
    match pool.try_drain() {
        Ok(status) => Ok(status),
        Err(DrainError::Departing(status)) => Err(DrainError::Departing(status)),
        Err(DrainError::Timeout(status) | DrainError::OutOfMemory(status)) => {
            Err(DrainError::OutOfMemory(status))
        }
    }
}
