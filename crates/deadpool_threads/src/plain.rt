//! A manager of two calls.
ghost use Rattle.std.specs.Prelude.{◌≡◌, ⊤, Result, IfOk};
ghost use Rattle.deadpool_managed.specs.Answers.{LeavesOrKeeps};
ghost use Rattle.deadpool_parts.specs.declared.errors.RecycleError.{RecycleError};
ghost use Rattle.deadpool_managed.specs.declared.metrics.Metrics.{Metrics};
ghost use Rattle.deadpool_threads.specs.Answered.{IsReadyWith};

use deadpool_managed::{Manager, Metrics, NoHook, RecycleResult};
use deadpool_parts::NoTime;
use deadpool_shared::Pool;
use futures::task::{Context, Poll};

/// A pool without hooks. By default its clock stands still, so that it has no timeouts.
pub type PlainPool<M, R, L, C = NoTime> = Pool<M, NoHook, NoHook, C, R, L>;

/// Makes the objects of a pool and recycles those that came back, each in one call.
///
/// An implementation states by its relations which answers its calls may give. By default every answer is allowed.
pub trait PlainManager: Drop {
    type Type: Drop;

    type Error: Drop;

    // Holds of the values that may be handed out.
    ghost is_ready: { Self.Type → Type 0 } = { λ _. ⊤ };

    // Holds of each answer to a creation.
    ghost may_create: { Self → Result Self.Type Self.Error → Type 0 } = { λ _ _. ⊤ };

    // Holds of each answer to a recycling at a value, with the value that it leaves.
    ghost may_recycle: { Self → Self.Type → Metrics → Result (Unit {0}) (RecycleError Self.Error) → Self.Type
        → Type 0 } = { λ _ _ _ _ _. ⊤ };

    // Holds of each value that `detach` may leave.
    ghost may_detach: { Self → Self.Type → Self.Type → Type 0 } = { λ _ _ _. ⊤ };

    /// Creates an object. One that is created may be handed out.
    fn create(&self) -> Result<Self::Type, Self::Error>
        ensures answer { may_create self.now result }
        ensures ready { IfOk result is_ready };

    /// Recycles an object. If that ends well, the object may be handed out again.
    fn recycle(&self, value: &mut Self::Type, metrics: &Metrics) -> RecycleResult<Self::Error>
        ensures answer { may_recycle self.now value.old metrics.now result value.new }
        ensures ready { IfOk result (λ _. is_ready value.new) };

    /// Is told of an object that is given up, as `Manager::detach`. By default nothing is done.
    fn detach(&self, _value: &mut Self::Type)
        ensures { LeavesOrKeeps (may_detach self.now) _value.old _value.new }
    {}
}

/// A plain manager, as the manager of a pool. None of its calls is ever pending.
#[derive(Drop)]
pub struct Plain<P>(pub P);

impl<P: PlainManager> Manager for Plain<P> {
    type Type = P::Type;

    type Error = P::Error;

    type Creating = ();

    type Recycling = ();

    ghost is_ready = { P.is_ready };

    ghost may_poll_create = { λ manager _ polled _. IsReadyWith polled (P.may_create manager.0) };

    ghost may_recycle = { λ _ value _ _ left. left ≡ value };

    ghost may_poll_recycle = { λ manager _ value metrics polled _ left.
        IsReadyWith polled (λ answer. P.may_recycle manager.0 value metrics answer left) };

    ghost may_detach = { λ manager value left. LeavesOrKeeps (P.may_detach manager.0) value left };

    fn create(&self) -> () {}

    fn poll_create(
        &self,
        _creating: &mut (),
        _cx: &mut Context<'_>,
    ) -> Poll<Result<P::Type, P::Error>> {
        Poll::Ready(self.0.create())
    }

    fn recycle(&self, _value: &mut P::Type, _metrics: &Metrics) -> () {}

    fn poll_recycle(
        &self,
        _recycling: &mut (),
        value: &mut P::Type,
        metrics: &Metrics,
        _cx: &mut Context<'_>,
    ) -> Poll<RecycleResult<P::Error>> {
        Poll::Ready(self.0.recycle(value, metrics))
    }

    fn detach(&self, value: &mut P::Type) {
        self.0.detach(value);
    }
}
