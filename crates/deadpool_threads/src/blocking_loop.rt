//! A waiter whose task has begun.
ghost use Rattle.std.specs.Prelude.{◌≡◌, IfOk};
ghost use Rattle.deadpool_shared.specs.Gets.{GivesReady};

use deadpool_lock::Registration;
use deadpool_managed::{AsyncHook, Manager, PoolError, SyncHook};
use deadpool_parts::Clock;
use deadpool_shared::{Ledgers, Object, Pool};
use deadpool_unmanaged_shared as unmanaged;
use futures::Future;
use futures::executor::block_on_queue;
use futures::task::{Context, Poll, Queue};
use std::io;
use std::sync::Wait;

/// A waiter's task, begun for several waits in a row, so that each of them costs less than by the waiter itself.
pub struct BlockingLoop<'a> {
    // In which each future is polled first.
    task: Context<'a>,
    // By which that task hears, from one get to the next.
    registration: &'a mut Registration,
    // In which a future that was pending is polled from then on.
    queue: &'a Queue,
}

impl<'a> BlockingLoop<'a> {
    // With what a waiter keeps.
    pub(crate) fn new(
        task: Context<'a>,
        registration: &'a mut Registration,
        queue: &'a Queue,
    ) -> Self {
        BlockingLoop {
            task,
            registration,
            queue,
        }
    }

    /// As `Blocking::wait`.
    #[inline(always)]
    pub fn wait<R: Wait, F: Future>(&mut self, rt: &R, mut future: F) -> io::Result<F::Output>
        requires { F.can_poll future }
        ensures { IfOk result (F.gives future) }
    {
        match future.poll(&mut self.task) {
            Poll::Ready(output) => Ok(output),
            Poll::Pending => block_on_queue(rt, self.queue, future),
        }
    }

    /// As `Blocking::get`.
    #[inline(always)]
    pub fn get<M, F, A, C, R, L, W>(
        &mut self,
        rt: &R,
        pool: &Pool<M, F, A, C, R, L, W>,
    ) -> Result<W, PoolError<M::Error>>
    where
        M: Manager,
        F: SyncHook<M>,
        A: AsyncHook<M>,
        C: Clock,
        R: Wait + Drop,
        L: Ledgers,
        W: From<Object<M, F, A, C, R, L>>,
        ensures gives { GivesReady W.from_gives (λ object.
            M.is_ready object.slot.value.value × (object.out.home ≡ pool.now)) result }
    {
        let mut get = pool.get_ref();
        get.exchange_registration(self.registration);
        if let Poll::Ready(ended) = get.poll(&mut self.task) {
            get.exchange_registration(self.registration);
            return ended;
        }
        match block_on_queue(rt, self.queue, get) {
            Ok(ended) => ended,
            Err(_) => Err(PoolError::OutOfMemory),
        }
    }

    /// As `Blocking::get_unmanaged`.
    #[inline(always)]
    pub fn get_unmanaged<T: Drop, C: Clock, R: Wait + Drop>(
        &mut self,
        rt: &R,
        pool: &unmanaged::Pool<T, C, R>,
    ) -> Result<unmanaged::Object<T, C, R>, deadpool_unmanaged::PoolError>
        ensures home { IfOk result (λ object. object.home ≡ pool.now) }
    {
        let mut get = pool.get_ref();
        get.exchange_registration(self.registration);
        if let Poll::Ready(ended) = get.poll(&mut self.task) {
            get.exchange_registration(self.registration);
            return ended;
        }
        match block_on_queue(rt, self.queue, get) {
            Ok(ended) => ended,
            Err(_) => Err(deadpool_unmanaged::PoolError::OutOfMemory),
        }
    }
}

impl Drop for BlockingLoop<'_> {
    fn drop(self) {
        let Self {
            task,
            registration: _,
            queue: _,
        } = self;
        task.cancel();
    }
}
