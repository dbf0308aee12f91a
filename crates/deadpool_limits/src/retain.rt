//! A retain by limits.
ghost use Rattle.std.specs.Prelude.{◌↔◌, IsTrue};
ghost use Rattle.deadpool_limits.specs.Limits.{IsWithin};

use crate::limits::Limits;
use deadpool_managed::{AsyncHook, Clock, Manager, Metrics, Moment, RetainResult, SyncHook};
use deadpool_shared::{Ledgers, Pool};
use std::alloc::AllocError;
use std::sync::Wait;

impl Limits {
    /// Gives up the idle objects of a pool that are past their limits at this moment, as `Pool::retain` does: as many
    /// stay as the pool's `min_idle` says, and neither the values' drops nor the manager's `detach` may use the pool.
    pub fn retain<M, F, A, C, R, L, W>(
        &self,
        pool: &Pool<M, F, A, C, R, L, W>,
        now: Moment,
    ) -> Result<RetainResult<M::Type>, AllocError>
    where
        M: Manager,
        F: SyncHook<M>,
        A: AsyncHook<M>,
        C: Clock,
        R: Wait + Drop,
        L: Ledgers,
    {
        let limits = *self;
        pool.retain(
            move |_value: &M::Type, metrics: Metrics| -> bool
                ensures { IsTrue result ↔ IsWithin limits metrics now }
            { limits.allow(&metrics, now) },
        )
    }
}
