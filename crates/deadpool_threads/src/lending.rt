//! A pool that is built for one user.
ghost use Rattle.std.specs.Prelude.{◌≡◌, ◌↔◌, true, Err, IfOk};
ghost use Rattle.deadpool_parts.specs.declared.errors.BuildError.TheVariants.{NoRuntimeSpecified};
ghost use Rattle.deadpool_builder.specs.Building.{lacks_any_runtime};

use crate::user::PoolUser;
use deadpool_builder::PoolBuilder;
use deadpool_managed::{AsyncHook, BuildError, Manager, SyncHook};
use deadpool_parts::Clock;
use deadpool_shared::{Blanks, Build, Ledgers, Pool};
use std::marker::Brand;
use std::sync::Wait;

/// Builds a pool with ledgers of its own, and lends it to its user.
pub fn with_pool<M, F, A, C, R, U>(
    builder: PoolBuilder<M, F, A, C>,
    rt: R,
    user: U,
) -> Result<U::Output, BuildError>
where
    M: Manager + Send + Sync,
    F: SyncHook<M> + Send + Sync,
    A: AsyncHook<M> + Send + Sync,
    C: Clock + Send + Sync,
    R: Wait + Drop + Copy + Send + Sync,
    U: PoolUser<M, F, A, C, R>,
    M::Type: Send,
    M::Error: Send,
    ensures refused { (result ≡ Err NoRuntimeSpecified)
        ↔ (lacks_any_runtime builder.runtime builder.timeouts ≡ true) }
    ensures user { IfOk result (U.returns user) }
    ensures built { IfOk result (U.returns_from user builder) }
{
    with_pool_by::<M, F, A, C, R, U, Brand>(builder, rt, user, Blanks::new())
}

// The same with these ledgers.
fn with_pool_by<M, F, A, C, R, U, L>(
    builder: PoolBuilder<M, F, A, C>,
    rt: R,
    user: U,
    blanks: Blanks,
) -> Result<U::Output, BuildError>
where
    M: Manager + Send + Sync,
    F: SyncHook<M> + Send + Sync,
    A: AsyncHook<M> + Send + Sync,
    C: Clock + Send + Sync,
    R: Wait + Drop + Copy + Send + Sync,
    U: PoolUser<M, F, A, C, R>,
    L: Ledgers,
    M::Type: Send,
    M::Error: Send,
    requires opens { blanks ≡ L.names }
    ensures refused { (result ≡ Err NoRuntimeSpecified)
        ↔ (lacks_any_runtime builder.runtime builder.timeouts ≡ true) }
    ensures user { IfOk result (U.returns user) }
    ensures built { IfOk result (U.returns_from user builder) }
{
    let pool: Pool<M, F, A, C, R, L> = builder.build(blanks, rt)?;
    Ok(user.run(&rt, &pool))
}
