//! What is known of a thread's result once the thread is joined.
ghost use Rattle.std.specs.Prelude.{◌≡◌};
ghost use Rattle.deadpool_threads.specs.Returned.{Returned};

use crate::keeper::Keeper;
use crate::user::PoolUser;
use deadpool_managed::{AsyncHook, Manager, SyncHook};
use deadpool_parts::Clock;
use deadpool_shared::{Ledgers, Pool};
use std::snapshot::Snapshot;
use std::sync::Wait;
use std::thread::Promise;

/// That a thread gives what its worker may return that is lent this pool.
#[derive(Drop)]
pub(crate) struct OfWorker<P, W> {
    pool: Snapshot<P>,
    worker: Snapshot<W>,
}

impl<P, W> OfWorker<P, W> {
    pub(crate) fn new(pool: &P, worker: &W) -> Self
        ensures pool { result.pool.value ≡ pool.now }
        ensures worker { result.worker.value ≡ worker.now }
    {
        OfWorker {
            pool: Snapshot::of(pool),
            worker: Snapshot::of(worker),
        }
    }
}

impl<M, F, A, C, R, L, W> Promise<W::Output> for OfWorker<Pool<M, F, A, C, R, L>, W>
where
    M: Manager,
    F: SyncHook<M>,
    A: AsyncHook<M>,
    C: Clock,
    R: Wait + Drop,
    L: Ledgers,
    W: PoolUser<M, F, A, C, R>,
{
    ghost kept_by = { λ promise. Returned W.returns W.returns_from
        promise.pool.value promise.worker.value };
}

/// That a thread gives what its keeper may return that is lent this pool.
#[derive(Drop)]
pub(crate) struct OfKeeper<P, K> {
    pool: Snapshot<P>,
    keeper: Snapshot<K>,
}

impl<P, K> OfKeeper<P, K> {
    pub(crate) fn new(pool: &P, keeper: &K) -> Self
        ensures pool { result.pool.value ≡ pool.now }
        ensures keeper { result.keeper.value ≡ keeper.now }
    {
        OfKeeper {
            pool: Snapshot::of(pool),
            keeper: Snapshot::of(keeper),
        }
    }
}

impl<M, F, A, C, R, L, K> Promise<K::Output> for OfKeeper<Pool<M, F, A, C, R, L>, K>
where
    M: Manager,
    F: SyncHook<M>,
    A: AsyncHook<M>,
    C: Clock,
    R: Wait + Drop,
    L: Ledgers,
    K: Keeper<M, F, A, C, R>,
{
    ghost kept_by = { λ promise. Returned K.returns K.returns_from
        promise.pool.value promise.keeper.value };
}
