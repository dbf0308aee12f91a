//! A pool that several threads use.
ghost use Rattle.std.specs.Prelude.{◌≡◌, ◌↔◌, [], true, vec_len, Err, IfOk, IfErr, IfSome};
ghost use Rattle.std.specs.List.{AllZip};
ghost use Rattle.deadpool_parts.specs.declared.errors.BuildError.TheVariants.{NoRuntimeSpecified, OutOfMemory};
ghost use Rattle.deadpool_builder.specs.Building.{lacks_any_runtime};
ghost use Rattle.deadpool_threads.specs.Returned.{Returned};

use crate::host::Host;
use crate::promised::OfWorker;
use crate::user::PoolUser;
use deadpool_builder::PoolBuilder;
use deadpool_managed::{AsyncHook, BuildError, Manager, SyncHook};
use deadpool_parts::Clock;
use deadpool_shared::{Blanks, Build, Ledgers, Pool};
use std::marker::Brand;
use std::thread;
use std::thread::PromisedHandle;

// A worker's thread, which is still to be joined.
type Thread<M, F, A, C, R, L, W> = PromisedHandle<
    <W as PoolUser<M, F, A, C, R>>::Output,
    OfWorker<Pool<M, F, A, C, R, L>, W>,
>;

/// Builds a pool with ledgers of its own, and starts a thread for each of these workers, which uses it. Once all have
/// returned, it is lent to the last user, on this thread. `OutOfMemory` also says that a thread was not started; those
/// before it are joined first.
pub fn with_threads<M, F, A, C, R, W, U>(
    builder: PoolBuilder<M, F, A, C>,
    rt: R,
    workers: Vec<W>,
    last: U,
) -> Result<(Vec<W::Output>, U::Output), BuildError>
where
    M: Manager + Send + Sync + 'static,
    F: SyncHook<M> + Send + Sync + 'static,
    A: AsyncHook<M> + Send + Sync + 'static,
    C: Clock + Send + Sync + 'static,
    R: Host,
    W: PoolUser<M, F, A, C, R> + Send + 'static,
    U: PoolUser<M, F, A, C, R>,
    W::Output: Drop + Send + 'static,
    M::Type: Send + 'static,
    M::Error: Send + 'static,
    M::Creating: Send + 'static,
    M::Recycling: Send + 'static,
    A::State: Send + 'static,
    C::Alarm: Send + 'static,
    ensures refused { (result ≡ Err NoRuntimeSpecified)
        ↔ (lacks_any_runtime builder.runtime builder.timeouts ≡ true) }
    ensures each { IfOk result (λ outputs. vec_len outputs.0 ≡ vec_len workers) }
    ensures workers { IfOk result (λ outputs. AllZip W.returns workers.items outputs.0.items) }
    ensures workers_built { IfOk result (λ outputs. AllZip
        (λ worker output. W.returns_from worker builder output) workers.items outputs.0.items) }
    ensures last { IfOk result (λ outputs. U.returns last outputs.1) }
    ensures last_built { IfOk result (λ outputs. U.returns_from last builder outputs.1) }
{
    with_threads_by::<M, F, A, C, R, W, U, Brand>(builder, rt, workers, last, Blanks::new())
}

// The same with these ledgers.
fn with_threads_by<M, F, A, C, R, W, U, L>(
    builder: PoolBuilder<M, F, A, C>,
    rt: R,
    workers: Vec<W>,
    last: U,
    blanks: Blanks,
) -> Result<(Vec<W::Output>, U::Output), BuildError>
where
    M: Manager + Send + Sync + 'static,
    F: SyncHook<M> + Send + Sync + 'static,
    A: AsyncHook<M> + Send + Sync + 'static,
    C: Clock + Send + Sync + 'static,
    R: Host,
    W: PoolUser<M, F, A, C, R> + Send + 'static,
    U: PoolUser<M, F, A, C, R>,
    W::Output: Drop + Send + 'static,
    L: Ledgers + Send + Sync + 'static,
    M::Type: Send + 'static,
    M::Error: Send + 'static,
    M::Creating: Send + 'static,
    M::Recycling: Send + 'static,
    A::State: Send + 'static,
    C::Alarm: Send + 'static,
    requires opens { blanks ≡ L.names }
    ensures refused { (result ≡ Err NoRuntimeSpecified)
        ↔ (lacks_any_runtime builder.runtime builder.timeouts ≡ true) }
    ensures each { IfOk result (λ outputs. vec_len outputs.0 ≡ vec_len workers) }
    ensures workers { IfOk result (λ outputs. AllZip W.returns workers.items outputs.0.items) }
    ensures workers_built { IfOk result (λ outputs. AllZip
        (λ worker output. W.returns_from worker builder output) workers.items outputs.0.items) }
    ensures last { IfOk result (λ outputs. U.returns last outputs.1) }
    ensures last_built { IfOk result (λ outputs. U.returns_from last builder outputs.1) }
{
    let pool: Pool<M, F, A, C, R, L> = builder.build(blanks, rt)?;
    let outputs = in_threads(&rt, workers, &pool)?;
    let output = last.run(&rt, &pool);
    Ok((outputs, output))
}

// What the workers return, each of which uses the pool in a thread of its own.
pub(crate) fn in_threads<M, F, A, C, R, W, L>(
    rt: &R,
    workers: Vec<W>,
    pool: &Pool<M, F, A, C, R, L>,
) -> Result<Vec<W::Output>, BuildError>
where
    M: Manager + Send + Sync + 'static,
    F: SyncHook<M> + Send + Sync + 'static,
    A: AsyncHook<M> + Send + Sync + 'static,
    C: Clock + Send + Sync + 'static,
    R: Host,
    W: PoolUser<M, F, A, C, R> + Send + 'static,
    W::Output: Drop + Send + 'static,
    L: Ledgers + Send + Sync + 'static,
    M::Type: Send + 'static,
    M::Error: Send + 'static,
    M::Creating: Send + 'static,
    M::Recycling: Send + 'static,
    A::State: Send + 'static,
    C::Alarm: Send + 'static,
    ensures each { IfOk result (λ outputs. vec_len outputs ≡ vec_len workers) }
    ensures workers { IfOk result (λ outputs. AllZip
        (Returned W.returns W.returns_from pool.now) workers.items outputs.items) }
    ensures short { IfErr result (λ cause. cause ≡ OutOfMemory) }
{
    let outputs = Vec::with_capacity(rt.alloc(), workers.len())?;
    match started(rt, workers, pool) {
        Ok(threads) => joined(rt, threads, outputs),
        Err(threads) => {
            let _outputs = joined(rt, threads, outputs);
            Err(BuildError::OutOfMemory)
        }
    }
}

// A thread for each worker. `Err` has those that were started, if not all were.
fn started<M, F, A, C, R, W, L>(
    rt: &R,
    workers: Vec<W>,
    pool: &Pool<M, F, A, C, R, L>,
) -> Result<Vec<Thread<M, F, A, C, R, L, W>>, Vec<Thread<M, F, A, C, R, L, W>>>
where
    M: Manager + Send + Sync + 'static,
    F: SyncHook<M> + Send + Sync + 'static,
    A: AsyncHook<M> + Send + Sync + 'static,
    C: Clock + Send + Sync + 'static,
    R: Host,
    W: PoolUser<M, F, A, C, R> + Send + 'static,
    W::Output: Drop + Send + 'static,
    L: Ledgers + Send + Sync + 'static,
    M::Type: Send + 'static,
    M::Error: Send + 'static,
    M::Creating: Send + 'static,
    M::Recycling: Send + 'static,
    A::State: Send + 'static,
    C::Alarm: Send + 'static,
    ensures workers { IfOk result (λ threads. AllZip (λ worker thread.
        (thread.promise.worker.value ≡ worker) × (thread.promise.pool.value ≡ pool.now))
        workers.items threads.items) }
{
    let Ok(mut threads) = Vec::with_capacity(rt.alloc(), workers.len()) else {
        return Err(Vec::new(rt.alloc()));
    };
    for worker in workers {
        let Some(thread) = start(*rt, worker, pool) else {
            return Err(threads);
        };
        if threads.push(thread).is_err() {
            return Err(threads);
        }
    }
    Ok(threads)
}

// A thread in which the worker uses the pool. `None` says that there was none to be had.
fn start<M, F, A, C, R, W, L>(
    rt: R,
    worker: W,
    pool: &Pool<M, F, A, C, R, L>,
) -> Option<Thread<M, F, A, C, R, L, W>>
where
    M: Manager + Send + Sync + 'static,
    F: SyncHook<M> + Send + Sync + 'static,
    A: AsyncHook<M> + Send + Sync + 'static,
    C: Clock + Send + Sync + 'static,
    R: Host,
    W: PoolUser<M, F, A, C, R> + Send + 'static,
    W::Output: Drop + Send + 'static,
    L: Ledgers + Send + Sync + 'static,
    M::Type: Send + 'static,
    M::Error: Send + 'static,
    M::Creating: Send + 'static,
    M::Recycling: Send + 'static,
    A::State: Send + 'static,
    C::Alarm: Send + 'static,
    ensures worker { IfSome result (λ thread. thread.promise.worker.value ≡ worker) }
    ensures pool { IfSome result (λ thread. thread.promise.pool.value ≡ pool.now) }
{
    let Ok(pool) = pool.clone() else {
        return None;
    };
    let promise = OfWorker::new(&pool, &worker);
    let using = move ||
        ensures { Returned W.returns W.returns_from pool worker result }
    { worker.run(&rt, &pool) };
    let Ok(thread) = thread::spawn_with(&rt, promise, using) else {
        return None;
    };
    Some(thread)
}

// What these threads give, in the room that is there for it.
fn joined<M, F, A, C, R, L, W>(
    rt: &R,
    threads: Vec<Thread<M, F, A, C, R, L, W>>,
    mut outputs: Vec<W::Output>,
) -> Result<Vec<W::Output>, BuildError>
where
    M: Manager,
    F: SyncHook<M>,
    A: AsyncHook<M>,
    C: Clock,
    R: Host,
    L: Ledgers,
    W: PoolUser<M, F, A, C, R>,
    W::Output: Drop,
    requires empty { outputs.items ≡ [] }
    ensures threads { IfOk result (λ given. AllZip
        (λ thread output. Returned W.returns W.returns_from
        thread.promise.pool.value thread.promise.worker.value output)
        threads.items given.items) }
    ensures short { IfErr result (λ cause. cause ≡ OutOfMemory) }
{
    for thread in threads {
        if outputs.push(thread.join(rt)).is_err() {
            return Err(BuildError::OutOfMemory);
        }
    }
    Ok(outputs)
}
