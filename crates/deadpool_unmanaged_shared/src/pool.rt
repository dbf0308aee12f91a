//! The handles of a pool.
ghost use Rattle.std.specs.Prelude.{◌≡◌, ◌⊎◌, true, false, None, Err, IfOk, IfErr, IfSome};
ghost use Rattle.deadpool_parts.specs.Result.{result_map};
ghost use Rattle.deadpool_unmanaged.specs.declared.error.PoolError.TheVariants.{OutOfMemory};
ghost use Rattle.deadpool_lock.specs.Asked.{Asks, BorrowingAsks, OwnAsks};
ghost use Rattle.deadpool_unmanaged_journal.specs.declared.entry.Entry.TheVariants as entry;
ghost use Rattle.deadpool_unmanaged_journal.specs.declared.owner_step.OwnerReply.TheVariants as reply;
ghost use Rattle.deadpool_unmanaged_journal.specs.declared.owner_step.OwnerStep.TheVariants as step;
ghost use Rattle.deadpool_unmanaged_history.specs.Telling.{ThenTells};
ghost use Rattle.deadpool_unmanaged_shared.specs.Asking.{adding, getting};
ghost use Rattle.deadpool_unmanaged_shared.specs.Calling.{ByNewCaller, CallsTryAdd, CallsTryGet, CallsTryRemove};
ghost use Rattle.deadpool_unmanaged_shared.specs.Calling.{CountsBy};
ghost use Rattle.deadpool_unmanaged_shared.specs.Drains.{CallsOfDrain, EndsEmpty, draining};
ghost use Rattle.futures.specs.declared.task.Poll.TheVariants.{Ready};

use crate::asking::{Adding, Getting, Removing};
use crate::draining::Draining;
use crate::object::Object;
use crate::shared::Shared;
use deadpool_lock::{Borrowed, DrainError, Handle, Home, Owned};
use deadpool_unmanaged::{Clock, Core, PoolConfig, PoolError, Status};
use deadpool_unmanaged_history::KeepsState;
use deadpool_unmanaged_journal::{OwnerReply, OwnerStep};
use std::alloc::{AllocError, Global};
use std::marker::Model;
use std::sync::Wait;
use std::time::Duration;

/// A get as a future. Dropping it gives back what it was granted. So does `give_up`, which returns its caller.
pub type Get<T, C, R, S = Core<T>> = Owned<Getting<T, C, R, S>>;

/// A get as a future that borrows a handle of its pool, and is none itself. It is given up as a `Get` is.
pub type GetRef<'a, T, C, R, S = Core<T>> = Borrowed<'a, Getting<T, C, R, S>>;

/// A get as a future, whose object leaves the pool for good. It is given up as a `Get` is.
pub type Remove<T, C, R, S = Core<T>> = Owned<Removing<T, C, R, S>>;

/// An add as a future. Dropping it drops its object, and gives back the room that it was granted. `give_up` gives the
/// room back too, and returns the object and its caller. If there was no memory for its handle, it drops the object and
/// returns nothing.
pub type Add<T, C, R, S = Core<T>> = Owned<Adding<T, C, R, S>>;

/// An add as a future that borrows a handle of its pool, and is none itself. It is given up as an `Add` is.
pub type AddRef<'a, T, C, R, S = Core<T>> = Borrowed<'a, Adding<T, C, R, S>>;

/// A drain as a future that borrows a handle of its pool, and is none itself: its first poll closes the pool, and it
/// ends with the pool's status once no object is left, idle or out, and none that came back is still to be dropped.
/// Then the pool stays empty. Dropping it waits no longer; the pool stays closed. `give_up` does the same, and
/// returns the caller that it had. After its end it stays pending.
pub type Drain<'a, T, C, R, S = Core<T>> = Borrowed<'a, Draining<T, C, R, S>>;

/// A handle of a pool whose objects are those that its users add. The last handle that is dropped takes the idle
/// objects with it. Each future holds a handle of its own, which it counts and gives back, but for those that borrow
/// one.
///
/// `C` tells the time, and with `R` the lock is taken. Contracts see what its handles share.
#[derive(Drop)]
pub struct Pool<T: Drop, C: Clock, R: Wait + Drop, S: KeepsState<T> = Core<T>> {
    inner: Handle<Shared<T, C, R, S>>,
}

impl<T: Drop, C: Clock, R: Wait + Drop, S: KeepsState<T>> Model for Pool<T, C, R, S> {
    ghost use Rattle.deadpool_unmanaged_shared.specs.declared.shared.Shared.{Shared as AllShare};

    ghost Value = { AllShare T C R S C.Alarm S.Caller };

    ghost view = { λ p. p.inner };
}

impl<T: Drop + Send, C: Clock + Send + Sync, R: Wait + Drop + Send + Sync> Pool<T, C, R> {
    /// An open pool with nothing in it and room for `max_size` objects, whose gets wait without an end.
    pub fn new(alloc: Global, max_size: usize, clock: C, rt: R) -> Result<Self, AllocError>
        ensures timeout { IfOk result (λ pool. pool.timeout ≡ None) }
        ensures runtime { IfOk result (λ pool. pool.runtime ≡ None) }
        ensures clock { IfOk result (λ pool. pool.clock ≡ clock) }
    {
        Pool::from_config(alloc, &PoolConfig::new(max_size), clock, rt)
    }

    /// An open pool with nothing in it.
    pub fn from_config(
        alloc: Global,
        config: &PoolConfig,
        clock: C,
        rt: R,
    ) -> Result<Self, AllocError>
        ensures timeout { IfOk result (λ pool. pool.timeout ≡ config.now.timeout) }
        ensures runtime { IfOk result (λ pool. pool.runtime ≡ config.now.runtime) }
        ensures clock { IfOk result (λ pool. pool.clock ≡ clock) }
    {
        let core = Core::new(alloc, config.max_size)?.bounded(config.max_waiting);
        Pool::open(alloc, core, (), config, clock, rt)
    }

    /// An open pool with nothing in it, for a machine with `count` processors: with room for twice as many objects.
    pub fn with_processors(alloc: Global, count: usize, clock: C, rt: R) -> Result<Self, AllocError>
        ensures timeout { IfOk result (λ pool. pool.timeout ≡ None) }
        ensures runtime { IfOk result (λ pool. pool.runtime ≡ None) }
        ensures clock { IfOk result (λ pool. pool.clock ≡ clock) }
    {
        Pool::from_config(alloc, &PoolConfig::with_processors(count), clock, rt)
    }

    /// An open pool of these objects, in which no more fit. The last goes out first.
    pub fn from_items<I: ExactSizeIterator<Item = T> + Drop>(
        alloc: Global,
        items: I,
        clock: C,
        rt: R,
    ) -> Result<Self, AllocError>
        requires { I.can_next items }
        ensures timeout { IfOk result (λ pool. pool.timeout ≡ None) }
        ensures runtime { IfOk result (λ pool. pool.runtime ≡ None) }
        ensures clock { IfOk result (λ pool. pool.clock ≡ clock) }
    {
        let mut idle = Vec::with_capacity(alloc, items.len())?;
        for item in items {
            idle.push(item)?;
        }
        let config = PoolConfig::new(idle.len());
        Pool::open(alloc, Core::from_items(alloc, idle), (), &config, clock, rt)
    }
}

impl<T: Drop, C: Clock, R: Wait + Drop, S: KeepsState<T>> Pool<T, C, R, S> {
    // The first handle of a pool of this state, with its first caller.
    pub(crate) fn open(
        alloc: Global,
        state: S,
        first: S::Caller,
        config: &PoolConfig,
        clock: C,
        rt: R,
    ) -> Result<Self, AllocError>
        ensures timeout { IfOk result (λ pool. pool.timeout ≡ config.now.timeout) }
        ensures runtime { IfOk result (λ pool. pool.runtime ≡ config.now.runtime) }
        ensures clock { IfOk result (λ pool. pool.clock ≡ clock) }
    {
        let shared = Shared::new(alloc, state, first, config, clock, rt);
        Ok(Pool {
            inner: Handle::new(alloc, shared)?,
        })
    }

    // What it shares with the others.
    pub(crate) fn shared(&self) -> &Shared<T, C, R, S>
        ensures { result.now ≡ self.now }
    {
        self.inner.shared()
    }

    /// Finds at once the memory for all that may ever wait, for an object or for room, if `max_waiting` of the
    /// configuration bounds them: for their entries in the queues, and for the places of their wakers. From then on no
    /// get and no add is refused for want of that memory. As the limit never grows, this stays so. What a future's
    /// handle, its object or its task's waker takes is another matter.
    ///
    /// `AllocError` says that there is no memory for that, or no bound. The pool can be used as before, and asked
    /// again. It is no step.
    pub fn make_room_for_waiting(&self) -> Result<(), AllocError> {
        self.shared().make_room_for_waiting()
    }

    /// A get that waits as long as the configuration says.
    pub fn get(&self) -> Get<T, C, R, S>
        ensures asks { OwnAsks self.now self.now (getting self.now.timeout) result }
        ensures counted { IfSome result.shared
            (λ _. CountsBy step.CloneHandle (ThenTells S.keeps S.is_quiet) S.is_new S.calls) }
    {
        self.timeout_get(self.shared().timeout)
    }

    /// A get that may wait so long; none set is without an end. A wait of zero tries once. The get takes a handle now;
    /// if that finds no memory, its first poll answers `OutOfMemory`.
    pub fn timeout_get(&self, timeout: Option<Duration>) -> Get<T, C, R, S>
        ensures asks { OwnAsks self.now self.now (getting timeout) result }
        ensures counted { IfSome result.shared
            (λ _. CountsBy step.CloneHandle (ThenTells S.keeps S.is_quiet) S.is_new S.calls) }
    {
        Owned::new(self.begin(), Getting::new(timeout))
    }

    /// A get that waits as long as the configuration says, and borrows this handle.
    pub fn get_ref(&self) -> GetRef<'_, T, C, R, S>
        ensures { BorrowingAsks self.now self.now (getting self.now.timeout) result }
    {
        self.timeout_get_ref(self.shared().timeout)
    }

    /// A get that may wait so long, as `timeout_get` says, and borrows this handle.
    pub fn timeout_get_ref(&self, timeout: Option<Duration>) -> GetRef<'_, T, C, R, S>
        ensures { BorrowingAsks self.now self.now (getting timeout) result }
    {
        Borrowed::new(&self.inner, self.inner.uncounted(), Getting::new(timeout))
    }

    /// An object at once, which has the caller that got it. `Timeout` if none is free, also if one is idle that a get
    /// was granted. Without memory for the object no step is made.
    pub fn try_get(&self) -> Result<Object<T, C, R, S>, PoolError>
        ensures home { IfOk result (λ object. object.home ≡ self.now) }
        ensures call { ByNewCaller S.is_new (λ c c'. ThenTells S.keeps S.is_quiet
            (CallsTryGet S.calls (result_map (λ object. object.value) result)) c c'
            × IfOk result (λ object. object.caller ≡ c'))
            ⊎ (result ≡ Err OutOfMemory) }
    {
        let Ok(home) = self.inner.uncounted() else {
            return Err(PoolError::OutOfMemory);
        };
        let (value, caller) = home.shared().try_get()?;
        Ok(Object {
            home,
            value,
            caller,
        })
    }

    /// `try_get` by a caller that the history has it of. The object has a new caller of its own. Without memory for the
    /// object no step is made.
    pub fn try_get_by(&self, caller: &mut S::Caller) -> Result<Object<T, C, R, S>, PoolError>
        ensures home { IfOk result (λ object. object.home ≡ self.now) }
        ensures call { ThenTells S.keeps S.is_quiet
            (CallsTryGet S.calls (result_map (λ object. object.value) result)) caller.old caller.new
            ⊎ ((result ≡ Err OutOfMemory) × (caller.new ≡ caller.old)) }
        ensures own { IfOk result (λ object. S.is_new object.caller) }
    {
        let Ok(home) = self.inner.uncounted() else {
            return Err(PoolError::OutOfMemory);
        };
        let (value, own) = home.shared().try_get_by(caller)?;
        Ok(Object {
            home,
            value,
            caller: own,
        })
    }

    /// An add, which waits for room without an end. If it is refused the object comes back.
    pub fn add(&self, value: T) -> Add<T, C, R, S>
        ensures asks { OwnAsks self.now tt (adding value) result }
        ensures counted { IfSome result.shared
            (λ _. CountsBy step.CloneHandle (ThenTells S.keeps S.is_quiet) S.is_new S.calls) }
    {
        Owned::new(self.begin_add(), Adding::new(value))
    }

    /// An add, which waits for room without an end, and borrows this handle. If it is refused the object comes back.
    pub fn add_ref(&self, value: T) -> AddRef<'_, T, C, R, S>
        ensures { Asks self.now tt (adding value) result }
    {
        Borrowed::new(&self.inner, Ok(()), Adding::new(value))
    }

    /// Adds an object at once. `Timeout` if there is no room, also if there is some that an add was granted.
    pub fn try_add(&self, value: T) -> Result<(), (T, PoolError)>
        ensures value { IfErr result (λ refused. refused.0 ≡ value) }
        ensures call { ByNewCaller S.is_new
            (ThenTells S.keeps S.is_quiet (CallsTryAdd S.calls value result)) }
    {
        self.shared().try_add(value)
    }

    /// `try_add` by a caller that the history has it of.
    pub fn try_add_by(&self, caller: &mut S::Caller, value: T) -> Result<(), (T, PoolError)>
        ensures value { IfErr result (λ refused. refused.0 ≡ value) }
        ensures call { ThenTells S.keeps S.is_quiet (CallsTryAdd S.calls value result)
            caller.old caller.new }
    {
        self.shared().try_add_by(caller, value)
    }

    /// A get whose object leaves the pool for good.
    pub fn remove(&self) -> Remove<T, C, R, S>
        ensures asks { OwnAsks self.now self.now (getting self.now.timeout) result }
        ensures counted { IfSome result.shared
            (λ _. CountsBy step.CloneHandle (ThenTells S.keeps S.is_quiet) S.is_new S.calls) }
    {
        self.timeout_remove(self.shared().timeout)
    }

    /// A get with a timeout of its own, whose object leaves the pool for good.
    pub fn timeout_remove(&self, timeout: Option<Duration>) -> Remove<T, C, R, S>
        ensures asks { OwnAsks self.now self.now (getting timeout) result }
        ensures counted { IfSome result.shared
            (λ _. CountsBy step.CloneHandle (ThenTells S.keeps S.is_quiet) S.is_new S.calls) }
    {
        Owned::new(self.begin(), Removing::new(timeout))
    }

    /// An object at once, which leaves the pool for good. Without memory for the object no step is made.
    pub fn try_remove(&self) -> Result<T, PoolError>
        ensures { ByNewCaller S.is_new (CallsTryRemove S.calls (ThenTells S.keeps S.is_quiet) result)
            ⊎ (result ≡ Err OutOfMemory) }
    {
        match self.try_get() {
            Ok(object) => Ok(Object::take(object)),
            Err(cause) => Err(cause),
        }
    }

    /// Closes the pool for good. Its idle objects are dropped under the lock, so such a drop must not use the pool.
    /// Whoever waits is answered `Closed` at the next poll. An object that comes back later is dropped.
    pub fn close(&self)
        ensures { ByNewCaller S.is_new
            (ThenTells S.keeps S.is_quiet (S.calls (entry.Owner step.Close reply.Done))) }
    {
        let OwnerReply::Done = self.shared().make_for_owner(&OwnerStep::Close) else {
            unreachable!();
        };
    }

    /// `close` by a caller that the history has it of.
    pub fn close_by(&self, caller: &mut S::Caller)
        ensures { ThenTells S.keeps S.is_quiet (S.calls (entry.Owner step.Close reply.Done))
            caller.old caller.new }
    {
        let OwnerReply::Done = self.shared().make_for_owner_by(caller, &OwnerStep::Close) else {
            unreachable!();
        };
    }

    /// Closes the pool, as `close`, at the first poll, and waits until all objects are dropped or were taken. It ends
    /// with the status of that moment, or with `OutOfMemory` or `Departing` if there was no memory to wait by, and
    /// never with `Timeout`.
    ///
    /// An object that its own task keeps never comes back.
    pub fn drain(&self) -> Drain<'_, T, C, R, S>
        ensures { Asks self.now tt (draining false) result }
    {
        Borrowed::new(&self.inner, Ok(()), Draining::new(None))
    }

    /// `drain`, which waits no longer than this from its first poll on, by the pool's clock. Then it ends with
    /// `Timeout`, or with `Departing` if only an object that has left is still to be dropped, and the status of that
    /// moment. The pool stays closed.
    pub fn drain_for(&self, limit: Duration) -> Drain<'_, T, C, R, S>
        ensures { Asks self.now tt (draining true) result }
    {
        Borrowed::new(&self.inner, Ok(()), Draining::new(Some(limit)))
    }

    /// Closes the pool, as `close`, and does not wait: `Timeout` says that an object is left, with the status, and
    /// `Departing` that one which has left is still to be dropped.
    pub fn try_drain(&self) -> Result<Status, DrainError>
        ensures ends { EndsEmpty true result }
        ensures calls { ByNewCaller S.is_new
            (ThenTells S.keeps S.is_quiet (CallsOfDrain S.keeps S.calls true (Ready result))) }
    {
        self.shared().try_drain_by(&mut self.caller())
    }

    /// `try_drain` by a caller that the history has its calls of: the close, and the status that it gives.
    pub fn try_drain_by(&self, caller: &mut S::Caller) -> Result<Status, DrainError>
        ensures ends { EndsEmpty true result }
        ensures calls { ThenTells S.keeps S.is_quiet (CallsOfDrain S.keeps S.calls true (Ready result))
            caller.old caller.new }
    {
        self.shared().try_drain_by(caller)
    }

    /// Whether the pool was closed.
    pub fn is_closed(&self) -> bool {
        self.shared().is_closed()
    }

    /// How the pool stands.
    pub fn status(&self) -> Status
        ensures { ByNewCaller S.is_new
            (ThenTells S.keeps S.is_quiet (S.calls (entry.Owner step.Status (reply.Stands result)))) }
    {
        self.shared().status()
    }

    /// `status` by a caller that the history has it of.
    pub fn status_by(&self, caller: &mut S::Caller) -> Status
        ensures { ThenTells S.keeps S.is_quiet (S.calls (entry.Owner step.Status (reply.Stands result)))
            caller.old caller.new }
    {
        self.shared().status_by(caller)
    }

    /// A caller that the history has nothing of yet, for calls of its own. It takes no bytes.
    pub fn caller(&self) -> S::Caller
        ensures { S.is_new result }
    {
        self.shared().caller()
    }

    /// One handle more.
    pub fn clone(&self) -> Result<Self, AllocError>
        ensures pool { IfOk result (λ pool. pool ≡ self.now) }
        ensures counted { IfOk result
            (λ _. CountsBy step.CloneHandle (ThenTells S.keeps S.is_quiet) S.is_new S.calls) }
    {
        Ok(Pool {
            inner: self.inner.clone()?,
        })
    }

    // What a new get has, if there is memory for it.
    #[inline(always)]
    fn begin(&self) -> Result<(Handle<Shared<T, C, R, S>>, Home<Shared<T, C, R, S>>), AllocError>
        ensures handle { IfOk result (λ begun. begun.0 ≡ self.now) }
        ensures home { IfOk result (λ begun. begun.1 ≡ self.now) }
        ensures counted { IfOk result
            (λ _. CountsBy step.CloneHandle (ThenTells S.keeps S.is_quiet) S.is_new S.calls) }
    {
        let home = self.inner.uncounted()?;
        Ok((self.inner.clone()?, home))
    }

    // What a new add has, if there is memory for it.
    #[inline(always)]
    fn begin_add(&self) -> Result<(Handle<Shared<T, C, R, S>>, ()), AllocError>
        ensures handle { IfOk result (λ begun. begun.0 ≡ self.now) }
        ensures counted { IfOk result
            (λ _. CountsBy step.CloneHandle (ThenTells S.keeps S.is_quiet) S.is_new S.calls) }
    {
        Ok((self.inner.clone()?, ()))
    }
}
