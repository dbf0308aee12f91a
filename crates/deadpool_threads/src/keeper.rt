//! Who keeps a pool while others use it.
ghost use Rattle.std.specs.Prelude.{⊤};
ghost use Rattle.deadpool_builder.specs.Building.{Building};
ghost use Rattle.deadpool_threads.specs.Returned.{OfItsBuilder};

use deadpool_managed::{AsyncHook, Manager, SyncHook};
use deadpool_parts::Clock;
use deadpool_shared::{Ledgers, Pool};
use std::alloc::{AllocError, Global};
use std::sync::{Arc, Condvar, Mutex, Wait};
use std::time::{Clock as SystemClock, Duration};

/// What is done with a pool beside its workers, for as long as they use it.
pub trait Keeper<M: Manager, F: SyncHook<M>, A: AsyncHook<M>, C: Clock, R: Wait + Drop>: Drop {
    /// What comes of it.
    type Output;

    // Holds of each output that may come of it.
    ghost returns: { Self → Self.Output → Type 0 } = { λ _ _. ⊤ };

    // Holds of the builder of its pool and each output that may come of it.
    ghost returns_from: { Self → Building M F A C → Self.Output → Type 0 } = { λ _ _ _. ⊤ };

    /// Keeps the pool, and returns once the shift is over.
    fn keep<L: Ledgers>(self, rt: &R, pool: &Pool<M, F, A, C, R, L>, shift: &Shift) -> Self::Output
        ensures returns { returns self result }
        ensures built { OfItsBuilder pool.now (λ builder. returns_from self builder result) };
}

/// For how long a keeper keeps a pool: until all workers have returned.
#[derive(Drop)]
pub struct Shift {
    is_over: Mutex<bool>,
    // Rings at the end.
    ends: Condvar,
}

impl Shift {
    // One that begins.
    pub(crate) fn begin(alloc: Global) -> Result<Arc<Self, Global>, AllocError> {
        let shift = Shift {
            is_over: Mutex::new(false),
            ends: Condvar::new(),
        };
        Ok(Arc::new(alloc, shift)?)
    }

    /// Whether all workers have returned.
    pub fn is_over<R: Wait>(&self, rt: &R) -> bool {
        *self.is_over.lock(rt)
    }

    /// Sleeps for so long, or until the shift is over, which it then says.
    pub fn rest<R: Wait + SystemClock>(&self, rt: &R, lasting: Duration) -> bool {
        let is_over = self.is_over.lock(rt);
        let (is_over, _end) = self
            .ends
            .wait_timeout_while(rt, is_over, lasting, |is_over| !*is_over);
        *is_over
    }

    // All workers have returned. The keeper is woken.
    pub(crate) fn end<R: Wait>(&self, rt: &R) {
        *self.is_over.lock(rt) = true;
        self.ends.notify_all();
    }
}
