//! A get by a thread that waits for no place.
ghost use Rattle.std.specs.Prelude.{◌≡◌};
ghost use Rattle.deadpool_shared.specs.Gets.{GivesReady};

use crate::blocking::Blocking;
use deadpool_managed::{AsyncHook, Manager, PoolError, SyncHook, Timeouts};
use deadpool_parts::Clock;
use deadpool_shared::{Ledgers, Object, Pool};
use std::sync::Wait;
use std::time::Duration;

impl Blocking {
    /// An object of a managed pool, if a place is free: if none is, `Timeout` of a wait says so at once. The manager
    /// and the hooks have the time that the pool's timeouts give them. `OutOfMemory` also says that there was no memory
    /// to wait by.
    pub fn try_get<M, F, A, C, R, L, W>(
        &mut self,
        rt: &R,
        pool: &Pool<M, F, A, C, R, L, W>,
    ) -> Result<W, PoolError<M::Error>>
    where
        M: Manager,
        F: SyncHook<M>,
        A: AsyncHook<M>,
        C: Clock,
        R: Wait + Drop,
        L: Ledgers,
        W: From<Object<M, F, A, C, R, L>>,
        ensures gives { GivesReady W.from_gives (λ object.
            M.is_ready object.slot.value.value × (object.out.home ≡ pool.now)) result }
    {
        let timeouts = Timeouts {
            wait: Some(Duration::ZERO),
            ..pool.timeouts()
        };
        match self.wait(rt, pool.timeout_get_ref(&timeouts)) {
            Ok(ended) => ended,
            Err(_) => Err(PoolError::OutOfMemory),
        }
    }
}
