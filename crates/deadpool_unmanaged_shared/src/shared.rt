//! What the handles of a pool share.
ghost use Rattle.std.specs.Prelude.{◌≡◌, true, IfOk, IfErr};
ghost use Rattle.deadpool_parts.specs.Result.{result_map};
ghost use Rattle.deadpool_unmanaged_journal.specs.OwnerSteps.{IsOwnerReplyTo};
ghost use Rattle.deadpool_unmanaged_journal.specs.declared.entry.Entry.TheVariants as entry;
ghost use Rattle.deadpool_unmanaged_journal.specs.declared.owner_step.OwnerReply.TheVariants as reply;
ghost use Rattle.deadpool_unmanaged_journal.specs.declared.owner_step.OwnerStep.TheVariants as step;
ghost use Rattle.deadpool_unmanaged_history.specs.Telling.{ThenTells};
ghost use Rattle.deadpool_unmanaged_shared.specs.Calling.{ByNewCaller, CallsBack, CallsTake, CallsTryAdd};
ghost use Rattle.deadpool_unmanaged_shared.specs.Calling.{CallsTryGet, CountsBy};
ghost use Rattle.deadpool_unmanaged_shared.specs.Drains.{CallsOfDrain, EndsEmpty};
ghost use Rattle.futures.specs.declared.task.Poll.TheVariants.{Ready};

use crate::locked::Locked;
use deadpool_lock::{Counted, Departure, DrainError, Registered, StepLock};
use deadpool_unmanaged::gate::Ticket;
use deadpool_unmanaged::{Clock, PoolConfig, PoolError, Runtime, Status};
use deadpool_unmanaged_history::KeepsState;
use deadpool_unmanaged_journal::{OwnerReply, OwnerStep};
use futures::task::{Poll, Source, Waker};
use std::alloc::{AllocError, Global};
use std::sync::Wait;
use std::time::Duration;

/// What the handles of a pool share. Each of its steps is one section of the lock.
#[derive(Drop)]
pub struct Shared<T: Drop, C: Clock, R: Wait + Drop, S: KeepsState<T>> {
    pub timeout: Option<Duration>,
    pub runtime: Option<Runtime>,
    pub clock: C,
    pub lock: StepLock<Locked<T, S>, R>,
}

impl<T: Drop, C: Clock, R: Wait + Drop, S: KeepsState<T>> Shared<T, C, R, S> {
    /// A pool of this state, with its first caller. The limit of the configuration is not looked at.
    pub fn new(
        alloc: Global,
        state: S,
        first: S::Caller,
        config: &PoolConfig,
        clock: C,
        rt: R,
    ) -> Self
        ensures timeout { result.timeout ≡ config.now.timeout }
        ensures runtime { result.runtime ≡ config.now.runtime }
        ensures clock { result.clock ≡ clock }
    {
        Shared {
            timeout: config.timeout,
            runtime: config.runtime,
            clock,
            lock: StepLock::new(Locked::new(alloc, state, first), rt),
        }
    }

    /// A caller that has made no step yet. It is no step.
    pub fn caller(&self) -> S::Caller
        ensures { S.is_new result }
    {
        let mut step = self.lock.begin();
        let caller = step.kept().admit();
        let mut other = step.kept().admit();
        self.lock.end(step, &mut other);
        caller
    }

    /// A drain waits no longer, and its waker is given out. It is no step.
    pub fn leave_drain(&self, ticket: &mut Option<Ticket>) -> Option<Waker> {
        let mut step = self.lock.begin();
        let spare = step.kept().leave_drain(ticket);
        let mut other = step.kept().admit();
        self.lock.end(step, &mut other);
        spare
    }

    /// Finds memory for all that may ever stand in a queue, and for the places of their wakers. It is no step.
    pub fn make_room_for_waiting(&self) -> Result<(), AllocError> {
        let mut step = self.lock.begin();
        let made = step.kept().make_room_for_waiting();
        let mut caller = step.kept().admit();
        self.lock.end(step, &mut caller);
        made
    }

    /// An object at once, with a caller of its own, or why there is none.
    pub fn try_get_by(&self, caller: &mut S::Caller) -> Result<(T, S::Caller), PoolError>
        ensures call { ThenTells S.keeps S.is_quiet (CallsTryGet S.calls (result_map (λ got. got.0) result))
            caller.old caller.new }
        ensures own { IfOk result (λ got. S.is_new got.1) }
    {
        let mut step = self.lock.begin();
        let got = step.kept().try_get(caller);
        let own = step.kept().admit();
        self.lock.end(step, caller);
        Ok((got?, own))
    }

    /// The same by a new caller, who is the object's own.
    pub fn try_get(&self) -> Result<(T, S::Caller), PoolError>
        ensures { ByNewCaller S.is_new (λ c c'.
            ThenTells S.keeps S.is_quiet (CallsTryGet S.calls (result_map (λ got. got.0) result)) c c'
            × IfOk result (λ got. got.1 ≡ c')) }
    {
        let mut step = self.lock.begin();
        let mut caller = step.kept().admit();
        let got = step.kept().try_get(&mut caller);
        self.lock.end(step, &mut caller);
        Ok((got?, caller))
    }

    /// Adds an object at once, or gives it back with the reason.
    pub fn try_add_by(&self, caller: &mut S::Caller, value: T) -> Result<(), (T, PoolError)>
        ensures value { IfErr result (λ refused. refused.0 ≡ value) }
        ensures call { ThenTells S.keeps S.is_quiet (CallsTryAdd S.calls value result)
            caller.old caller.new }
    {
        let mut step = self.lock.begin();
        let added = step.kept().try_add(caller, value);
        self.lock.end(step, caller);
        added
    }

    /// The same by a new caller.
    pub fn try_add(&self, value: T) -> Result<(), (T, PoolError)>
        ensures value { IfErr result (λ refused. refused.0 ≡ value) }
        ensures call { ByNewCaller S.is_new
            (ThenTells S.keeps S.is_quiet (CallsTryAdd S.calls value result)) }
    {
        let mut step = self.lock.begin();
        let mut caller = step.kept().admit();
        let added = step.kept().try_add(&mut caller, value);
        self.lock.end(step, &mut caller);
        added
    }

    /// An object comes back. If the pool has no use for it, it is dropped with the lock given back.
    pub fn back(&self, caller: &mut S::Caller, value: T)
        ensures { ThenTells S.keeps S.is_quiet (CallsBack S.calls value) caller.old caller.new }
    {
        S::keeps_all();
        let (mut hand, mut departure) = (Some(value), None);
        let mut step = self.lock.begin();
        step.kept().back(caller, &mut hand, &mut departure);
        self.lock.end(step, caller);
        drop(hand);
        if let Some(departure) = departure {
            self.has_departed(caller, departure);
        }
    }

    // An object that has left is dropped. Those that wait for the end are told if it has come by that.
    #[cold]
    #[inline(never)]
    fn has_departed(&self, caller: &mut S::Caller, departure: Departure)
        ensures keeps { S.keeps caller.old caller.new }
        ensures quiet { S.is_quiet caller.new }
    {
        let mut step = self.lock.begin();
        step.has_departed(departure);
        self.lock.end(step, caller);
    }

    /// An object leaves for good.
    pub fn leave(&self, caller: &mut S::Caller)
        ensures { ThenTells S.keeps S.is_quiet (CallsTake S.calls) caller.old caller.new }
    {
        let mut step = self.lock.begin();
        step.kept().take(caller);
        self.lock.end(step, caller);
    }

    /// Makes a step of the pool's owner, and gives the reply. Idle objects that go are dropped with the lock taken.
    #[inline(always)]
    pub fn make_for_owner_by(&self, caller: &mut S::Caller, step: &OwnerStep) -> OwnerReply
        ensures fits { IsOwnerReplyTo step.now result }
        ensures call { ThenTells S.keeps S.is_quiet (S.calls (entry.Owner step.now result))
            caller.old caller.new }
    {
        let mut locked = self.lock.begin();
        let reply = locked.kept().make_for_owner(caller, step);
        self.lock.end(locked, caller);
        reply
    }

    /// The same by a new caller.
    #[inline(always)]
    pub fn make_for_owner(&self, step: &OwnerStep) -> OwnerReply
        ensures fits { IsOwnerReplyTo step.now result }
        ensures call { ByNewCaller S.is_new
            (ThenTells S.keeps S.is_quiet (S.calls (entry.Owner step.now result))) }
    {
        let mut locked = self.lock.begin();
        let mut caller = locked.kept().admit();
        let reply = locked.kept().make_for_owner(&mut caller, step);
        self.lock.end(locked, &mut caller);
        reply
    }

    /// How the pool stands.
    pub fn status_by(&self, caller: &mut S::Caller) -> Status
        ensures { ThenTells S.keeps S.is_quiet (S.calls (entry.Owner step.Status (reply.Stands result)))
            caller.old caller.new }
    {
        match self.make_for_owner_by(caller, &OwnerStep::Status) {
            OwnerReply::Stands(status) => status,
            _ => unreachable!(),
        }
    }

    /// The same by a new caller.
    pub fn status(&self) -> Status
        ensures { ByNewCaller S.is_new
            (ThenTells S.keeps S.is_quiet (S.calls (entry.Owner step.Status (reply.Stands result)))) }
    {
        match self.make_for_owner(&OwnerStep::Status) {
            OwnerReply::Stands(status) => status,
            _ => unreachable!(),
        }
    }

    /// Closes the pool, and gives its status, which says whether an object is left. Idle objects are dropped with the
    /// lock taken.
    pub fn try_drain_by(&self, caller: &mut S::Caller) -> Result<Status, DrainError>
        ensures ends { EndsEmpty true result }
        ensures calls { ThenTells S.keeps S.is_quiet (CallsOfDrain S.keeps S.calls true (Ready result))
            caller.old caller.new }
    {
        let (is_first, is_late) = (true, true);
        let mut nobody = Registered::nobody();
        let mut step = self.lock.begin();
        let (polled, spare) = step
            .kept()
            .drain(caller, is_first, is_late, &mut None, &mut nobody);
        self.lock.end(step, caller);
        drop(spare);
        match polled {
            Poll::Ready(ended) => ended,
            Poll::Pending => unreachable!(),
        }
    }

    /// Whether the pool was closed. It is no step.
    pub fn is_closed(&self) -> bool {
        self.lock.look().kept().is_closed()
    }
}

impl<T: Drop, C: Clock, R: Wait + Drop, S: KeepsState<T>> Counted for Shared<T, C, R, S> {
    ghost source_of = { λ shared. shared.lock.source.id };

    ghost counts = { λ _. CountsBy step.CloneHandle (ThenTells S.keeps S.is_quiet) S.is_new S.calls };

    ghost uncounts = { λ _. CountsBy step.DropHandle (ThenTells S.keeps S.is_quiet) S.is_new S.calls };

    fn source(&self) -> &Source {
        self.lock.source()
    }

    fn clone_handle(&self) {
        self.make_for_owner(&OwnerStep::CloneHandle);
    }

    fn drop_handle(&self) {
        self.make_for_owner(&OwnerStep::DropHandle);
    }
}
