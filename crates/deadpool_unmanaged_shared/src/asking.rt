//! What the futures of a pool ask: an object, one that leaves for good, or room.
ghost use Rattle.std.specs.Prelude.{◌≡◌, Some, Err, IfOk, IfErr, IfSome};
ghost use Rattle.deadpool_lock.specs.Asked.{IfRefused};
ghost use Rattle.deadpool_unmanaged.specs.Adds as adds;
ghost use Rattle.deadpool_unmanaged.specs.Adds.{held_by, IsUnpolled};
ghost use Rattle.deadpool_unmanaged.specs.Gets as gets;
ghost use Rattle.deadpool_unmanaged.specs.declared.error.PoolError.TheVariants.{OutOfMemory};
ghost use Rattle.deadpool_unmanaged_history.specs.Telling.{ThenTells};
ghost use Rattle.deadpool_unmanaged_history.specs.declared.line.Wake.TheVariants as wake;
ghost use Rattle.deadpool_unmanaged_shared.specs.Asking.{CancelsAddFrom, CancelsFrom, PollsAddFrom, PollsFrom};
ghost use Rattle.deadpool_unmanaged_shared.specs.Asking.{PollsToRemove, WaitsWhile, adding, getting};

use crate::object::Object;
use crate::shared::Shared;
use deadpool_lock::{Home, Registered, Request, Stage, wake_at};
use deadpool_unmanaged::{AddState, Clock, Core, GetState, PoolError};
use deadpool_unmanaged_history::KeepsState;
use futures::task::{Context, Poll};
use std::marker::{Model, PhantomData};
use std::sync::Wait;
use std::time::Duration;

/// What a get asks. Contracts see how far it is, and its caller.
#[derive(Drop)]
pub struct Getting<T: Drop, C: Clock, R: Wait + Drop, S: KeepsState<T> = Core<T>> {
    state: GetState,
    // From its first poll until its object has it.
    caller: Option<S::Caller>,
    // While it waits with a deadline.
    alarm: Option<C::Alarm>,
    of: PhantomData<(T, R)>,
}

impl<T: Drop, C: Clock, R: Wait + Drop, S: KeepsState<T>> Model for Getting<T, C, R, S> {
    ghost use Rattle.deadpool_unmanaged_shared.specs.Asking.{Get};

    ghost Value = { Get S.Caller };

    ghost view = { λ g. record { stage = g.state; caller = g.caller } };
}

impl<T: Drop, C: Clock, R: Wait + Drop, S: KeepsState<T>> Getting<T, C, R, S> {
    // A get that was not polled yet.
    #[inline(always)]
    pub(crate) fn new(timeout: Option<Duration>) -> Self
        ensures { result ≡ getting timeout }
    {
        Getting {
            state: GetState::new(timeout),
            caller: None,
            alarm: None,
            of: PhantomData,
        }
    }
}

impl<T: Drop, C: Clock, R: Wait + Drop, S: KeepsState<T>> Request for Getting<T, C, R, S> {
    type Shared = Shared<T, C, R, S>;

    // Its object goes back to the pool that was asked.
    type Kept = Home<Shared<T, C, R, S>>;

    type Output = Result<Object<T, C, R, S>, PoolError>;

    // The caller that gave it up.
    type Left = S::Caller;

    // While it asks, the ticket that it has is its caller's own.
    ghost fits = { λ stage get.
        WaitsWhile (λ c t. S.waits c (wake.Get t)) stage (gets.ticket_of get.stage) get.caller };

    ghost gives = { λ _ home ended. IfOk ended (λ object. object.home ≡ home) };

    ghost refuses = { λ _ ended. ended ≡ Err OutOfMemory };

    ghost polls = { λ shared get turn left. PollsFrom (λ object. object.value) (λ object. object.caller)
        (ThenTells S.keeps S.is_quiet) S.is_new S.calls shared.runtime get turn left };

    ghost cancels = { λ _ get left. CancelsFrom (ThenTells S.keeps S.is_quiet)
        S.is_new S.calls get left };

    #[inline(always)]
    fn poll(
        &mut self,
        stage: &mut Stage<Home<Shared<T, C, R, S>>>,
        shared: &Shared<T, C, R, S>,
        registered: &mut Registered,
        cx: &mut Context<'_>,
    ) -> Poll<Result<Object<T, C, R, S>, PoolError>> {
        S::waiters_stay();
        let now = shared.clock.now();
        let mut step = shared.lock.begin();
        let mut caller = step.kept().supply(self.caller.take());
        let (polled, spare) = step.kept().poll_get(
            &mut caller,
            &mut self.state,
            shared.runtime,
            now,
            registered,
        );
        shared.lock.end(step, &mut caller);
        drop(spare);
        match polled {
            Poll::Ready(Ok(value)) => Poll::Ready(Ok(Object {
                home: stage.end(),
                value,
                caller,
            })),
            Poll::Ready(Err(cause)) => {
                self.caller = Some(caller);
                *stage = Stage::Ended;
                Poll::Ready(Err(cause))
            }
            Poll::Pending => {
                self.caller = Some(caller);
                wake_at(&shared.clock, self.state.deadline(), &mut self.alarm, cx);
                Poll::Pending
            }
        }
    }

    fn cancel(self, _home: Home<Shared<T, C, R, S>>, shared: &Shared<T, C, R, S>) -> S::Caller {
        let Self {
            state,
            caller,
            alarm: _,
            of: _,
        } = self;
        let mut step = shared.lock.begin();
        let mut caller = step.kept().supply(caller);
        let spare = step.kept().cancel_get(&mut caller, state);
        shared.lock.end(step, &mut caller);
        drop(spare);
        caller
    }

    fn refuse(&mut self) -> Result<Object<T, C, R, S>, PoolError> {
        Err(PoolError::OutOfMemory)
    }

    fn leave(self) {}
}

/// What a removal asks: a get whose object leaves for good. Contracts see how far it is, and its caller.
#[derive(Drop)]
pub struct Removing<T: Drop, C: Clock, R: Wait + Drop, S: KeepsState<T> = Core<T>> {
    get: Getting<T, C, R, S>,
}

impl<T: Drop, C: Clock, R: Wait + Drop, S: KeepsState<T>> Model for Removing<T, C, R, S> {
    ghost use Rattle.deadpool_unmanaged_shared.specs.Asking.{Get};

    ghost Value = { Get S.Caller };

    ghost view = { λ r. r.get };
}

impl<T: Drop, C: Clock, R: Wait + Drop, S: KeepsState<T>> Removing<T, C, R, S> {
    // A removal that was not polled yet.
    #[inline(always)]
    pub(crate) fn new(timeout: Option<Duration>) -> Self
        ensures { result ≡ getting timeout }
    {
        Removing {
            get: Getting::new(timeout),
        }
    }
}

impl<T: Drop, C: Clock, R: Wait + Drop, S: KeepsState<T>> Request for Removing<T, C, R, S> {
    type Shared = Shared<T, C, R, S>;

    type Kept = Home<Shared<T, C, R, S>>;

    type Output = Result<T, PoolError>;

    type Left = S::Caller;

    ghost fits = { λ stage get.
        WaitsWhile (λ c t. S.waits c (wake.Get t)) stage (gets.ticket_of get.stage) get.caller };

    ghost refuses = { λ _ ended. ended ≡ Err OutOfMemory };

    ghost use Rattle.deadpool_unmanaged_shared.specs.declared.object.Object.{Object as Out};

    ghost polls = { λ shared get turn left. PollsToRemove
        (λ (o : Out T C R S C.Alarm S.Caller). o.value) (λ (o : Out T C R S C.Alarm S.Caller). o.caller)
        (ThenTells S.keeps S.is_quiet) S.is_new S.calls shared.runtime get turn left };

    ghost cancels = { λ _ get left. CancelsFrom (ThenTells S.keeps S.is_quiet)
        S.is_new S.calls get left };

    #[inline(always)]
    fn poll(
        &mut self,
        stage: &mut Stage<Home<Shared<T, C, R, S>>>,
        shared: &Shared<T, C, R, S>,
        registered: &mut Registered,
        cx: &mut Context<'_>,
    ) -> Poll<Result<T, PoolError>> {
        match self.get.poll(stage, shared, registered, cx) {
            Poll::Ready(Ok(object)) => {
                let (value, caller) = Object::take_by(object);
                self.get.caller = Some(caller);
                Poll::Ready(Ok(value))
            }
            Poll::Ready(Err(cause)) => Poll::Ready(Err(cause)),
            Poll::Pending => Poll::Pending,
        }
    }

    fn cancel(self, home: Home<Shared<T, C, R, S>>, shared: &Shared<T, C, R, S>) -> S::Caller {
        let Self { get } = self;
        get.cancel(home, shared)
    }

    fn refuse(&mut self) -> Result<T, PoolError> {
        Err(PoolError::OutOfMemory)
    }

    fn leave(self) {}
}

/// What an add asks, with its object. Contracts see how far it is, and its caller.
#[derive(Drop)]
pub struct Adding<T: Drop, C: Clock, R: Wait + Drop, S: KeepsState<T> = Core<T>> {
    state: AddState<T>,
    // From its first poll on.
    caller: Option<S::Caller>,
    of: PhantomData<(C, R)>,
}

impl<T: Drop, C: Clock, R: Wait + Drop, S: KeepsState<T>> Model for Adding<T, C, R, S> {
    ghost use Rattle.deadpool_unmanaged_shared.specs.Asking.{Add};

    ghost Value = { Add T S.Caller };

    ghost view = { λ a. record { stage = a.state; caller = a.caller } };
}

impl<T: Drop, C: Clock, R: Wait + Drop, S: KeepsState<T>> Adding<T, C, R, S> {
    // An add that was not polled yet.
    #[inline(always)]
    pub(crate) fn new(value: T) -> Self
        ensures { result ≡ adding value }
    {
        Adding {
            state: AddState::new(value),
            caller: None,
            of: PhantomData,
        }
    }
}

impl<T: Drop, C: Clock, R: Wait + Drop, S: KeepsState<T>> Request for Adding<T, C, R, S> {
    type Shared = Shared<T, C, R, S>;

    type Kept = ();

    type Output = Result<(), (T, PoolError)>;

    // Its object, and the caller that gave it up.
    type Left = (Option<T>, S::Caller);

    // One that was refused was not polled. While it asks, the ticket that it has is its caller's own.
    ghost fits = { λ stage add. IfRefused stage (IsUnpolled add.stage)
        × WaitsWhile (λ c t. S.waits c (wake.Add t)) stage (adds.ticket_of add.stage) add.caller };

    // Where it is refused it hands its own object back.
    ghost gives = { λ add _ ended. IfErr ended (λ refused. held_by add.stage ≡ Some refused.0) };

    ghost refuses = { λ add ended. IfSome (held_by add.stage) (λ value. ended ≡ Err (value, OutOfMemory)) };

    ghost polls = { λ _ add turn left. PollsAddFrom (ThenTells S.keeps S.is_quiet)
        S.is_new S.calls add turn left };

    ghost cancels = { λ _ add left. CancelsAddFrom (ThenTells S.keeps S.is_quiet)
        S.is_new S.calls add left };

    fn poll(
        &mut self,
        stage: &mut Stage<()>,
        shared: &Shared<T, C, R, S>,
        registered: &mut Registered,
        _cx: &mut Context<'_>,
    ) -> Poll<Result<(), (T, PoolError)>> {
        S::waiters_stay();
        let mut step = shared.lock.begin();
        let mut caller = step.kept().supply(self.caller.take());
        let (polled, spare) = step
            .kept()
            .poll_add(&mut caller, &mut self.state, registered);
        shared.lock.end(step, &mut caller);
        self.caller = Some(caller);
        drop(spare);
        if polled.is_ready() {
            *stage = Stage::Ended;
        }
        polled
    }

    fn cancel(self, _kept: (), shared: &Shared<T, C, R, S>) -> (Option<T>, S::Caller) {
        let Self {
            state,
            caller,
            of: _,
        } = self;
        let mut step = shared.lock.begin();
        let mut caller = step.kept().supply(caller);
        let (value, spare) = step.kept().cancel_add(&mut caller, state);
        shared.lock.end(step, &mut caller);
        drop(spare);
        (value, caller)
    }

    fn refuse(&mut self) -> Result<(), (T, PoolError)> {
        Err((self.state.withdraw(), PoolError::OutOfMemory))
    }

    fn leave(self) {}
}
