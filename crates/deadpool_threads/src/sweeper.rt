//! The keeper that gives up idle objects which are past their limits.
ghost use Rattle.std.specs.Prelude.{◌≡◌};

use crate::keeper::{Keeper, Shift};
use deadpool_limits::Limits;
use deadpool_managed::{AsyncHook, Manager, SyncHook};
use deadpool_parts::Clock;
use deadpool_shared::{Ledgers, Pool};
use std::sync::Wait;
use std::time::{Clock as SystemClock, Duration};

/// Gives up the idle objects that are past their limits: at once, and after each pause, until its shift is over.
#[derive(Drop)]
pub struct Sweeper<T: Clock> {
    clock: T,
    limits: Limits,
    pause: Duration,
}

impl<T: Clock> Sweeper<T> {
    /// By this clock, which tells the time by which the pool's objects were created.
    pub fn new(clock: T, limits: Limits, pause: Duration) -> Self
        ensures clock { result.clock ≡ clock }
        ensures limits { result.limits ≡ limits }
        ensures pause { result.pause ≡ pause }
    {
        Sweeper {
            clock,
            limits,
            pause,
        }
    }
}

impl<M, F, A, C, R, T> Keeper<M, F, A, C, R> for Sweeper<T>
where
    M: Manager,
    F: SyncHook<M>,
    A: AsyncHook<M>,
    C: Clock,
    R: Wait + SystemClock + Drop,
    T: Clock,
{
    /// How many it gave up.
    type Output = usize;

    fn keep<L: Ledgers>(self, rt: &R, pool: &Pool<M, F, A, C, R, L>, shift: &Shift) -> usize {
        let mut given_up: usize = 0;
        for _ in rt.forever() {
            // A look that finds no memory gives up none, and the next one may.
            if let Ok(retained) = self.limits.retain(pool, self.clock.now()) {
                given_up = given_up.saturating_add(retained.removed.len());
            }
            if shift.rest(rt, self.pause) {
                return given_up;
            }
        }
        unreachable!()
    }
}
