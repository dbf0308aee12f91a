//! Who is lent a pool.
ghost use Rattle.std.specs.Prelude.{⊤};
ghost use Rattle.deadpool_builder.specs.Building.{Building};
ghost use Rattle.deadpool_threads.specs.Returned.{OfItsBuilder};

use deadpool_managed::{AsyncHook, Manager, SyncHook};
use deadpool_parts::Clock;
use deadpool_shared::{Ledgers, Pool};
use std::sync::Wait;

/// What is done with a pool that is lent, whatever ledgers it counts by.
///
/// It starts no thread that uses the pool: `with_threads` does. An implementation states by `returns` what may come of
/// it, and by `returns_from` what may come of it by the builder of its pool. Whoever lends the pool passes both on. By
/// default that may be anything.
pub trait PoolUser<M: Manager, F: SyncHook<M>, A: AsyncHook<M>, C: Clock, R: Wait + Drop>: Drop {
    /// What comes of it.
    type Output;

    // Holds of each output that may come of it.
    ghost returns: { Self → Self.Output → Type 0 } = { λ _ _. ⊤ };

    // Holds of the builder of its pool and each output that may come of it.
    ghost returns_from: { Self → Building M F A C → Self.Output → Type 0 } = { λ _ _ _. ⊤ };

    /// Uses the pool.
    fn run<L: Ledgers>(self, rt: &R, pool: &Pool<M, F, A, C, R, L>) -> Self::Output
        ensures returns { returns self result }
        ensures built { OfItsBuilder pool.now (λ builder. returns_from self builder result) };
}
