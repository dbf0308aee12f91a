//! A pool for threads and tasks, built of what its builder was given.
ghost use Rattle.std.specs.Prelude.{◌≡◌, ◌↔◌, true, IfOk, Err};
ghost use Rattle.deadpool_parts.specs.declared.errors.BuildError.TheVariants.{NoRuntimeSpecified};
ghost use Rattle.deadpool_builder.specs.Building.{lacks_any_runtime};
ghost use Rattle.deadpool_shared.specs.Built.{IsBuiltOf};

use crate::ledgers::{Blanks, Ledgers};
use crate::locked::Locked;
use crate::object::Object;
use crate::pool::Pool;
use crate::shared::Shared;
use deadpool_builder::{PoolBuilder, PoolParts};
use deadpool_journal::Journaled;
use deadpool_lock::StepLock;
use deadpool_managed::{AsyncHook, BuildError, Clock, Manager, SyncHook};
use std::sync::Wait;

/// What a pool for threads and tasks is built of: a `PoolBuilder`.
pub trait Build<M: Manager, F: SyncHook<M>, A: AsyncHook<M>, C: Clock>: Sized {
    /// Opens the pool for threads and tasks, with one handle; its first object gets the number 0. Each blank has
    /// `u64::MAX` parts, of which a get takes one. A timeout that is set, zero included, needs a runtime. If the pool
    /// is not opened, the builder is dropped with all that it has. The manager is asked for nothing.
    fn build<R, L, W>(self, blanks: Blanks, rt: R) -> Result<Pool<M, F, A, C, R, L, W>, BuildError>
    where
        R: Wait + Drop + Send + Sync,
        L: Ledgers,
        W: From<Object<M, F, A, C, R, L>>,
        requires opens { blanks ≡ L.names };
}

impl<M, F, A, C> Build<M, F, A, C> for PoolBuilder<M, F, A, C>
where
    M: Manager + Send + Sync,
    F: SyncHook<M> + Send + Sync,
    A: AsyncHook<M> + Send + Sync,
    C: Clock + Send + Sync,
    M::Type: Send,
    M::Error: Send,
{
    fn build<R, L, W>(self, blanks: Blanks, rt: R) -> Result<Pool<M, F, A, C, R, L, W>, BuildError>
    where
        R: Wait + Drop + Send + Sync,
        L: Ledgers,
        W: From<Object<M, F, A, C, R, L>>,
        requires opens { blanks ≡ L.names }
        ensures refused { (result ≡ Err NoRuntimeSpecified)
            ↔ (lacks_any_runtime self.runtime self.timeouts ≡ true) }
        ensures built { IfOk result (IsBuiltOf self) }
    {
        let PoolParts {
            environment,
            clock,
            max_size,
            timeouts,
            queue_mode,
            min_idle,
            max_waiting,
            room_for_waiting,
            journal,
            alloc,
        } = self.into_parts()?;
        let pool = Journaled::new(alloc, max_size, queue_mode, journal, min_idle)?;
        let pool = pool.bounded(max_waiting);
        let (mut locked, opening) = Locked::new(alloc, pool, blanks);
        if room_for_waiting {
            locked.make_room_for_waiting()?;
        }
        let shared = Shared {
            environment,
            timeouts,
            clock,
            opening,
            lock: StepLock::new(locked, rt),
        };
        Ok(Pool::open(alloc, shared)?)
    }
}
