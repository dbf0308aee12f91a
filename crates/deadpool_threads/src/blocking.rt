//! What a thread waits by.
ghost use Rattle.std.specs.Prelude.{◌≡◌, IfOk};
ghost use Rattle.deadpool_shared.specs.Gets.{GivesReady};

use crate::blocking_loop::BlockingLoop;
use deadpool_lock::Registration;
use deadpool_managed::{AsyncHook, Manager, PoolError, SyncHook};
use deadpool_parts::Clock;
use deadpool_shared::{Ledgers, Object, Pool};
use deadpool_unmanaged_shared as unmanaged;
use futures::Future;
use futures::task::{Doorbell, Queue, Solo};
use std::alloc::AllocGlobal;
use std::io;
use std::random::RandomSource;
use std::sync::Wait;

/// What a thread waits by, one future at a time. A thread makes one and keeps it: it polls in a task that is kept, and
/// sleeps while it waits.
#[derive(Drop)]
pub struct Blocking {
    // In which each future is polled first.
    task: Solo,
    // By which that task hears, from one get to the next.
    registration: Registration,
    // In which a future that was pending is polled from then on.
    queue: Queue,
}

impl Blocking {
    /// With an executor of its own, which begins with random bytes.
    pub fn new<R: RandomSource + AllocGlobal>(rt: &R) -> io::Result<Self> {
        Ok(Blocking {
            task: Solo::new(rt, Doorbell::spinning())?,
            registration: Registration::new(),
            queue: Queue::new(rt, Doorbell::parking())?,
        })
    }

    /// Begins its task for several waits in a row, each of which then costs less than by the waiter itself.
    #[inline(always)]
    pub fn begin(&mut self) -> BlockingLoop<'_> {
        BlockingLoop::new(self.task.begin(), &mut self.registration, &self.queue)
    }

    /// What the future gives, once it is ready. `Err` says that there was no memory to wait by.
    pub fn wait<R: Wait, F: Future>(&mut self, rt: &R, future: F) -> io::Result<F::Output>
        requires { F.can_poll future }
        ensures { IfOk result (F.gives future) }
    {
        let mut waiting = self.begin();
        waiting.wait(rt, future)
    }

    /// An object of a managed pool, with the pool's timeouts. It comes of one that is ready. `OutOfMemory` also says
    /// that there was no memory to wait by.
    pub fn get<M, F, A, C, R, L, W>(
        &mut self,
        rt: &R,
        pool: &Pool<M, F, A, C, R, L, W>,
    ) -> Result<W, PoolError<M::Error>>
    where
        M: Manager,
        F: SyncHook<M>,
        A: AsyncHook<M>,
        C: Clock,
        R: Wait + Drop,
        L: Ledgers,
        W: From<Object<M, F, A, C, R, L>>,
        ensures gives { GivesReady W.from_gives (λ object.
            M.is_ready object.slot.value.value × (object.out.home ≡ pool.now)) result }
    {
        let mut waiting = self.begin();
        waiting.get(rt, pool)
    }

    /// An object of an unmanaged pool, with the pool's timeout. `OutOfMemory` also says that there was no memory to
    /// wait by.
    pub fn get_unmanaged<T: Drop, C: Clock, R: Wait + Drop>(
        &mut self,
        rt: &R,
        pool: &unmanaged::Pool<T, C, R>,
    ) -> Result<unmanaged::Object<T, C, R>, deadpool_unmanaged::PoolError>
        ensures home { IfOk result (λ object. object.home ≡ pool.now) }
    {
        let mut waiting = self.begin();
        waiting.get_unmanaged(rt, pool)
    }
}
