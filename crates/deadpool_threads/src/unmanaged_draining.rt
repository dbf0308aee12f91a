//! A thread that waits for the end of an unmanaged pool.
ghost use Rattle.std.specs.Prelude.{true, false};
ghost use Rattle.deadpool_unmanaged_shared.specs.Drains.{EndsEmpty};

use crate::blocking::Blocking;
use deadpool_parts::{Clock, Status};
use deadpool_unmanaged_shared::{DrainError, Pool};
use std::sync::Wait;
use std::time::Duration;

impl Blocking {
    /// Closes an unmanaged pool and waits until no object is left, as `Pool::drain`. `OutOfMemory` also says that there
    /// was no memory to wait by.
    pub fn drain_unmanaged<T: Drop, C: Clock, R: Wait + Drop>(
        &mut self,
        rt: &R,
        pool: &Pool<T, C, R>,
    ) -> Result<Status, DrainError>
        ensures { EndsEmpty false result }
    {
        match self.wait(rt, pool.drain()) {
            Ok(ended) => ended,
            Err(_) => without_memory(pool),
        }
    }

    /// The same, for no longer than this by the pool's clock. `Timeout` has the status at which it gave up.
    pub fn drain_unmanaged_for<T: Drop, C: Clock, R: Wait + Drop>(
        &mut self,
        rt: &R,
        pool: &Pool<T, C, R>,
        limit: Duration,
    ) -> Result<Status, DrainError>
        ensures { EndsEmpty true result }
    {
        let Ok(ended) = self.wait(rt, pool.drain_for(limit)) else {
            return without_memory(pool);
        };
        ended
    }
}

// How a drain ends that has no memory to wait by.
fn without_memory<T: Drop, C: Clock, R: Wait + Drop>(
    pool: &Pool<T, C, R>,
) -> Result<Status, DrainError>
    ensures { EndsEmpty false result }
{
    match pool.try_drain() {
        Ok(status) => Ok(status),
        Err(DrainError::Departing(status)) => Err(DrainError::Departing(status)),
        Err(DrainError::Timeout(status) | DrainError::OutOfMemory(status)) => {
            Err(DrainError::OutOfMemory(status))
        }
    }
}
