//! What a drain asks: that the pool closes, and that no object is left.
ghost use Rattle.std.specs.Prelude.{◌≡◌, is_some, IfSome};
ghost use Rattle.deadpool_unmanaged_history.specs.Telling.{ThenTells};
ghost use Rattle.deadpool_unmanaged_shared.specs.Drains.{EndsEmpty, PollsDrainFrom, draining};

use crate::shared::Shared;
use deadpool_lock::{DrainError, Registered, Request, Stage, wake_at};
use deadpool_parts::deadline::{deadline_after, is_reached};
use deadpool_unmanaged::gate::Ticket;
use deadpool_unmanaged::{Clock, Core, Moment, Status};
use deadpool_unmanaged_history::KeepsState;
use futures::task::{Context, Poll};
use std::marker::{Model, PhantomData};
use std::sync::Wait;
use std::time::Duration;

// What is seen of a pool at which nobody has looked.
const SEES_NOTHING: Status = Status {
    max_size: 0,
    size: 0,
    available: 0,
    waiting: 0,
};

/// What a drain asks. Contracts see whether its wait is limited, and its caller.
#[derive(Drop)]
pub struct Draining<T: Drop, C: Clock, R: Wait + Drop, S: KeepsState<T> = Core<T>> {
    // How long it waits from its first poll on, if not for ever.
    limit: Option<Duration>,
    // When that was.
    begun: Option<Moment>,
    // From then on.
    caller: Option<S::Caller>,
    // While it waits.
    ticket: Option<Ticket>,
    alarm: Option<C::Alarm>,
    of: PhantomData<(T, R)>,
}

impl<T: Drop, C: Clock, R: Wait + Drop, S: KeepsState<T>> Model for Draining<T, C, R, S> {
    ghost use Rattle.std.specs.Prelude.{is_some};
    ghost use Rattle.deadpool_unmanaged_shared.specs.Drains.{Drain};

    ghost Value = { Drain S.Caller };

    ghost view = { λ d. record { is_limited = is_some d.limit; caller = d.caller } };
}

impl<T: Drop, C: Clock, R: Wait + Drop, S: KeepsState<T>> Draining<T, C, R, S> {
    // A drain that was not polled yet.
    pub(crate) fn new(limit: Option<Duration>) -> Self
        ensures { result ≡ draining (is_some limit) }
    {
        Draining {
            limit,
            begun: None,
            caller: None,
            ticket: None,
            alarm: None,
            of: PhantomData,
        }
    }
}

impl<T: Drop, C: Clock, R: Wait + Drop, S: KeepsState<T>> Request for Draining<T, C, R, S> {
    type Shared = Shared<T, C, R, S>;

    type Kept = ();

    type Output = Result<Status, DrainError>;

    // Its caller, if it was polled.
    type Left = Option<S::Caller>;

    // Its caller has closed the pool.
    ghost fits = { λ _ drain. IfSome drain.caller S.has_closed };

    ghost gives = { λ drain _ ended. EndsEmpty drain.is_limited ended };

    ghost polls = { λ _ drain turn left. PollsDrainFrom (ThenTells S.keeps S.is_quiet)
        S.keeps S.is_new S.calls drain turn left };

    // That it waits no longer is no step.
    ghost cancels = { λ _ drain left. left ≡ drain.caller };

    fn poll(
        &mut self,
        stage: &mut Stage<()>,
        shared: &Shared<T, C, R, S>,
        registered: &mut Registered,
        cx: &mut Context<'_>,
    ) -> Poll<Result<Status, DrainError>> {
        S::closers_stay();
        let now = shared.clock.now();
        let begun = self.begun.unwrap_or(now);
        let deadline = deadline_after(begun, self.limit);
        let is_first = self.caller.is_none();
        let mut step = shared.lock.begin();
        let mut caller = step.kept().supply(self.caller.take());
        let (polled, spare) = step.kept().drain(
            &mut caller,
            is_first,
            is_reached(deadline, now),
            &mut self.ticket,
            registered,
        );
        shared.lock.end(step, &mut caller);
        drop(spare);
        self.begun = Some(begun);
        self.caller = Some(caller);
        if polled.is_ready() {
            self.alarm = None;
            *stage = Stage::Ended;
        } else {
            wake_at(&shared.clock, deadline, &mut self.alarm, cx);
        }
        polled
    }

    fn cancel(self, _kept: (), shared: &Shared<T, C, R, S>) -> Option<S::Caller> {
        let Self {
            limit: _,
            begun: _,
            caller,
            mut ticket,
            alarm: _,
            of: _,
        } = self;
        if ticket.is_some() {
            let spare = shared.leave_drain(&mut ticket);
            drop(spare);
        }
        caller
    }

    // `drain` makes none that is refused: nothing is kept for its output. Such a one would have seen no object.
    fn refuse(&mut self) -> Result<Status, DrainError> {
        Err(DrainError::OutOfMemory(SEES_NOTHING))
    }

    fn leave(self) {}
}
