//! A pool that several threads use, and one keeps.
ghost use Rattle.std.specs.Prelude.{◌≡◌, ◌↔◌, true, vec_len, Err, IfOk, IfErr};
ghost use Rattle.std.specs.List.{AllZip};
ghost use Rattle.deadpool_parts.specs.declared.errors.BuildError.TheVariants.{NoRuntimeSpecified, OutOfMemory};
ghost use Rattle.deadpool_builder.specs.Building.{lacks_any_runtime};
ghost use Rattle.deadpool_threads.specs.Returned.{Returned};

use crate::host::Host;
use crate::keeper::{Keeper, Shift};
use crate::promised::OfKeeper;
use crate::threads::in_threads;
use crate::user::PoolUser;
use deadpool_builder::PoolBuilder;
use deadpool_managed::{AsyncHook, BuildError, Manager, SyncHook};
use deadpool_parts::Clock;
use deadpool_shared::{Blanks, Build, Ledgers, Pool};
use std::marker::Brand;
use std::sync::Arc;
use std::thread;

/// As `with_threads`, with a keeper in a thread of its own beside the workers. Once all workers have returned, the
/// keeper's shift is over; it is joined, and then the pool is lent to the last user, on this thread. The outputs are
/// those of the workers, of the keeper and of the last user. `OutOfMemory` also says that a thread was not started;
/// those before it are joined first, the keeper too.
pub fn with_keeper<M, F, A, C, R, W, K, U>(
    builder: PoolBuilder<M, F, A, C>,
    rt: R,
    workers: Vec<W>,
    keeper: K,
    last: U,
) -> Result<(Vec<W::Output>, K::Output, U::Output), BuildError>
where
    M: Manager + Send + Sync + 'static,
    F: SyncHook<M> + Send + Sync + 'static,
    A: AsyncHook<M> + Send + Sync + 'static,
    C: Clock + Send + Sync + 'static,
    R: Host,
    W: PoolUser<M, F, A, C, R> + Send + 'static,
    K: Keeper<M, F, A, C, R> + Send + 'static,
    U: PoolUser<M, F, A, C, R>,
    W::Output: Drop + Send + 'static,
    K::Output: Drop + Send + 'static,
    M::Type: Send + 'static,
    M::Error: Send + 'static,
    M::Creating: Send + 'static,
    M::Recycling: Send + 'static,
    A::State: Send + 'static,
    C::Alarm: Send + 'static,
    ensures refused { (result ≡ Err NoRuntimeSpecified)
        ↔ (lacks_any_runtime builder.runtime builder.timeouts ≡ true) }
    ensures each { IfOk result (λ outputs. vec_len outputs.0 ≡ vec_len workers) }
    ensures workers { IfOk result (λ outputs. AllZip W.returns workers.items outputs.0.items) }
    ensures workers_built { IfOk result (λ outputs. AllZip
        (λ worker output. W.returns_from worker builder output) workers.items outputs.0.items) }
    ensures keeper { IfOk result (λ outputs. K.returns keeper outputs.1) }
    ensures keeper_built { IfOk result (λ outputs. K.returns_from keeper builder outputs.1) }
    ensures last { IfOk result (λ outputs. U.returns last outputs.2) }
    ensures last_built { IfOk result (λ outputs. U.returns_from last builder outputs.2) }
{
    with_keeper_by::<M, F, A, C, R, W, K, U, Brand>(
        builder,
        rt,
        workers,
        keeper,
        last,
        Blanks::new(),
    )
}

// The same with these ledgers.
fn with_keeper_by<M, F, A, C, R, W, K, U, L>(
    builder: PoolBuilder<M, F, A, C>,
    rt: R,
    workers: Vec<W>,
    keeper: K,
    last: U,
    blanks: Blanks,
) -> Result<(Vec<W::Output>, K::Output, U::Output), BuildError>
where
    M: Manager + Send + Sync + 'static,
    F: SyncHook<M> + Send + Sync + 'static,
    A: AsyncHook<M> + Send + Sync + 'static,
    C: Clock + Send + Sync + 'static,
    R: Host,
    W: PoolUser<M, F, A, C, R> + Send + 'static,
    K: Keeper<M, F, A, C, R> + Send + 'static,
    U: PoolUser<M, F, A, C, R>,
    W::Output: Drop + Send + 'static,
    K::Output: Drop + Send + 'static,
    L: Ledgers + Send + Sync + 'static,
    M::Type: Send + 'static,
    M::Error: Send + 'static,
    M::Creating: Send + 'static,
    M::Recycling: Send + 'static,
    A::State: Send + 'static,
    C::Alarm: Send + 'static,
    requires opens { blanks ≡ L.names }
    ensures refused { (result ≡ Err NoRuntimeSpecified)
        ↔ (lacks_any_runtime builder.runtime builder.timeouts ≡ true) }
    ensures each { IfOk result (λ outputs. vec_len outputs.0 ≡ vec_len workers) }
    ensures workers { IfOk result (λ outputs. AllZip W.returns workers.items outputs.0.items) }
    ensures workers_built { IfOk result (λ outputs. AllZip
        (λ worker output. W.returns_from worker builder output) workers.items outputs.0.items) }
    ensures keeper { IfOk result (λ outputs. K.returns keeper outputs.1) }
    ensures keeper_built { IfOk result (λ outputs. K.returns_from keeper builder outputs.1) }
    ensures last { IfOk result (λ outputs. U.returns last outputs.2) }
    ensures last_built { IfOk result (λ outputs. U.returns_from last builder outputs.2) }
{
    let pool: Pool<M, F, A, C, R, L> = builder.build(blanks, rt)?;
    let (outputs, kept) = kept_in_threads(&rt, workers, keeper, &pool)?;
    let output = last.run(&rt, &pool);
    Ok((outputs, kept, output))
}

// What the workers and the keeper return, each in a thread of its own.
fn kept_in_threads<M, F, A, C, R, W, K, L>(
    rt: &R,
    workers: Vec<W>,
    keeper: K,
    pool: &Pool<M, F, A, C, R, L>,
) -> Result<(Vec<W::Output>, K::Output), BuildError>
where
    M: Manager + Send + Sync + 'static,
    F: SyncHook<M> + Send + Sync + 'static,
    A: AsyncHook<M> + Send + Sync + 'static,
    C: Clock + Send + Sync + 'static,
    R: Host,
    W: PoolUser<M, F, A, C, R> + Send + 'static,
    K: Keeper<M, F, A, C, R> + Send + 'static,
    W::Output: Drop + Send + 'static,
    K::Output: Drop + Send + 'static,
    L: Ledgers + Send + Sync + 'static,
    M::Type: Send + 'static,
    M::Error: Send + 'static,
    M::Creating: Send + 'static,
    M::Recycling: Send + 'static,
    A::State: Send + 'static,
    C::Alarm: Send + 'static,
    ensures each { IfOk result (λ outputs. vec_len outputs.0 ≡ vec_len workers) }
    ensures workers { IfOk result (λ outputs. AllZip
        (Returned W.returns W.returns_from pool.now) workers.items outputs.0.items) }
    ensures keeper { IfOk result (λ outputs.
        Returned K.returns K.returns_from pool.now keeper outputs.1) }
    ensures short { IfErr result (λ cause. cause ≡ OutOfMemory) }
{
    let rt = *rt;
    let shift = Shift::begin(rt.alloc())?;
    let theirs = Arc::try_clone(&shift)?;
    let kept = pool.clone()?;
    let promise = OfKeeper::new(&kept, &keeper);
    let keeping = move ||
        ensures { Returned K.returns K.returns_from kept keeper result }
    { keeper.keep(&rt, &kept, &theirs) };
    let Ok(thread) = thread::spawn_with(&rt, promise, keeping) else {
        return Err(BuildError::OutOfMemory);
    };
    let outputs = in_threads(&rt, workers, pool);
    shift.end(&rt);
    let kept = thread.join(&rt);
    Ok((outputs?, kept))
}
