//! The hook that gives up an object which is past its limits.
ghost use Rattle.std.specs.Prelude.{◌≡◌, ⊤};
ghost use Rattle.deadpool_parts.specs.declared.moment.Moment.{Moment};
ghost use Rattle.deadpool_limits.specs.Limits.{Judges};

use crate::limits::Limits;
use deadpool_managed::{Clock, HookError, HookResult, Manager, Metrics, Moment, SyncHook};

/// A clock, with a relation that says which moments it tells, so that a contract can say of a moment that a clock told
/// it. Every `Clock` is one.
pub trait Watch: Drop {
    // Holds of the moments that it may tell.
    ghost may_tell: { Self → Moment → Type 0 };

    /// The present moment.
    fn look(&self) -> Moment
        ensures { may_tell self.now result };
}

impl<C: Clock> Watch for C {
    ghost may_tell = { λ _ _. ⊤ };

    fn look(&self) -> Moment {
        self.now()
    }
}

/// A hook that refuses an object which is past its limits at the moment of the call, with the text `past its limits`.
/// It changes none. As a hook before the recycling it sees each idle object that a get takes.
#[derive(Drop)]
pub struct Retire<C: Watch> {
    clock: C,
    limits: Limits,
}

impl<C: Watch> Retire<C> {
    /// By this clock, which tells the time by which the pool's objects were created: one of the pool's own kind.
    pub fn new(clock: C, limits: Limits) -> Self
        ensures clock { result.clock ≡ clock }
        ensures limits { result.limits ≡ limits }
    {
        Retire { clock, limits }
    }
}

impl<M: Manager, C: Watch> SyncHook<M> for Retire<C> {
    ghost may_call = { λ hook value metrics answer left. (left ≡ value)
        × ((now : Moment) × (C.may_tell hook.clock now × Judges hook.limits metrics now answer)) };

    fn call(&self, _value: &mut M::Type, metrics: &Metrics) -> HookResult<M::Error> {
        if self.limits.allow(metrics, self.clock.look()) {
            Ok(())
        } else {
            Err(HookError::message("past its limits"))
        }
    }
}
