//! A user that is handed what its thread waits by.
ghost use Rattle.std.specs.Prelude.{⊤, IfOk};
ghost use Rattle.deadpool_builder.specs.Building.{Building};
ghost use Rattle.deadpool_threads.specs.Returned.{OfItsBuilder};

use crate::blocking::Blocking;
use crate::user::PoolUser;
use deadpool_managed::{AsyncHook, Manager, SyncHook};
use deadpool_parts::Clock;
use deadpool_shared::{Ledgers, Pool};
use std::io;
use std::random::RandomSource;
use std::sync::Wait;

/// What is done with a pool that is lent, by a thread that is handed what it waits by. `Handed` makes a `PoolUser` of
/// it.
pub trait BlockingUser<
    M: Manager,
    F: SyncHook<M>,
    A: AsyncHook<M>,
    C: Clock,
    R: Wait + Drop,
>: Drop {
    /// What comes of it.
    type Output;

    // Holds of each output that may come of it.
    ghost returns: { Self → Self.Output → Type 0 } = { λ _ _. ⊤ };

    // Holds of the builder of its pool and each output that may come of it.
    ghost returns_from: { Self → Building M F A C → Self.Output → Type 0 } = { λ _ _ _. ⊤ };

    /// Uses the pool.
    fn run<L: Ledgers>(
        self,
        rt: &R,
        blocking: &mut Blocking,
        pool: &Pool<M, F, A, C, R, L>,
    ) -> Self::Output
        ensures returns { returns self result }
        ensures built { OfItsBuilder pool.now (λ builder. returns_from self builder result) };
}

/// A user that is handed what its thread waits by, which is made first. `Err` says that it could not be made, and the
/// user was dropped.
#[derive(Drop)]
pub struct Handed<U>(pub U);

impl<
    M: Manager,
    F: SyncHook<M>,
    A: AsyncHook<M>,
    C: Clock,
    R: Wait + RandomSource + AllocGlobal + Drop,
    U: BlockingUser<M, F, A, C, R>,
> PoolUser<M, F, A, C, R> for Handed<U> {
    type Output = io::Result<U::Output>;

    ghost returns = { λ handed ended. IfOk ended (U.returns handed.0) };

    ghost returns_from = { λ handed builder ended. IfOk ended (U.returns_from handed.0 builder) };

    fn run<L: Ledgers>(self, rt: &R, pool: &Pool<M, F, A, C, R, L>) -> io::Result<U::Output> {
        let Handed(user) = self;
        let mut blocking = Blocking::new(rt)?;
        Ok(user.run(rt, &mut blocking, pool))
    }
}
