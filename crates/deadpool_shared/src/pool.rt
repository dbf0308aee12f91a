//! The handles of a pool.
ghost use Rattle.std.specs.Prelude.{◌≡◌, Some, None, IfOk, IfSome};
ghost use mathlib.Core.List.{IsPrefix};
ghost use Rattle.deadpool_chronicle.specs.History.{calls_by};
ghost use Rattle.deadpool_desk.specs.declared.owner_step.OwnerReply.TheVariants as reply;
ghost use Rattle.deadpool_desk.specs.declared.owner_step.OwnerStep.TheVariants as step;
ghost use Rattle.deadpool_history.specs.History.{CallsAndTells, IsBeginning, IsLegal};
ghost use Rattle.deadpool_journal.specs.Copies.{HasSteps};
ghost use Rattle.deadpool_journal.specs.Tally.{AreBalanced};
ghost use Rattle.deadpool_journal.specs.declared.entry.Entry.TheVariants as entry;
ghost use Rattle.deadpool_lock.specs.Asked.{BorrowingAsks, OwnAsks};
ghost use Rattle.deadpool_builder.specs.Building.{newly};
ghost use Rattle.deadpool_shared.specs.Calling.{AsksStatus, AsksTally, ByNewCaller, CountsBy, IsResize};
ghost use Rattle.deadpool_shared.specs.Calling.{RetainsAndTells, Upgrades};
ghost use Rattle.deadpool_shared.specs.Counts.{IsNewCaller};
ghost use Rattle.deadpool_shared.specs.Gets.{getting};

use crate::asking::Getting;
use crate::ledgers::{History, Ledgers};
use crate::object::Object;
use crate::shared::Shared;
use crate::timeouts::{LentTimeouts, OwnTimeouts};
use deadpool_builder::PoolBuilder;
use deadpool_chronicle::{Beginning, Caller};
use deadpool_history::Line;
use deadpool_journal::{Journal, Tally};
use deadpool_lock::{Borrowed, Handle, Home, Owned};
use deadpool_managed::{
    AsyncHook, Clock, Kept, Manager, Metrics, OwnerReply, OwnerStep, RetainResult, Retainer,
    Status, SyncHook, Timeouts,
};
use std::alloc::{AllocError, Global};
use std::marker::{Model, PhantomData};
use std::sync::Wait;

/// A get, as a future for one object. It counts as a handle of its pool. When it is dropped it gives back what it
/// holds, and then its handle.
///
/// Nothing happens before its first poll. It ends with `OutOfMemory` if there was no memory for its handle, or for its
/// entry in the queue, and with `NumbersExhausted` if the pool has handed out all shares or all object numbers. After
/// its end it stays pending.
pub type Get<M, F, A, C, R, L, W> = Owned<Getting<M, F, A, C, R, L, W, OwnTimeouts>>;

/// A get that borrows a handle of its pool, as a future for one object. It is no handle of its own, and takes the lock
/// twice with the return of its object, where a `Get` takes it four times. When it is dropped it gives back what it
/// holds.
///
/// Nothing happens before its first poll. It ends as a `Get` does, and after its end it stays pending.
pub type GetRef<'a, M, F, A, C, R, L, W> = Borrowed<
    'a,
    Getting<M, F, A, C, R, L, W, LentTimeouts<'a>>,
>;

/// A handle of a pool, which the pool counts: the last one, gets included, takes the idle objects with it. They are
/// dropped with the lock taken, so such a drop must not use the pool. Objects that are out stay.
///
/// What a get gives is a `W`, which is made from the object. Contracts see what the handles share.
#[derive(Drop)]
pub struct Pool<
    M: Manager,
    F: SyncHook<M>,
    A: AsyncHook<M>,
    C: Clock,
    R: Wait + Drop,
    L: Ledgers,
    W = Object<M, F, A, C, R, L>,
> {
    handle: Handle<Shared<M, F, A, C, R, L>>,
    of: PhantomData<W>,
}

impl<M: Manager, F: SyncHook<M>, A: AsyncHook<M>, C: Clock, R: Wait + Drop, L: Ledgers, W> Model
    for Pool<M, F, A, C, R, L, W> {
    ghost use Rattle.deadpool_shared.specs.declared.shared.Shared.{Shared as AllShare};

    ghost Value = { AllShare M F A C R L M.Type M.Error M.Creating M.Recycling A.State C.Alarm };

    ghost view = { λ p. p.handle };
}

/// A handle of a pool that is not counted. Contracts see what the handles share.
#[derive(Drop)]
pub struct WeakPool<
    M: Manager,
    F: SyncHook<M>,
    A: AsyncHook<M>,
    C: Clock,
    R: Wait + Drop,
    L: Ledgers,
    W = Object<M, F, A, C, R, L>,
> {
    home: Home<Shared<M, F, A, C, R, L>>,
    of: PhantomData<W>,
}

impl<M: Manager, F: SyncHook<M>, A: AsyncHook<M>, C: Clock, R: Wait + Drop, L: Ledgers, W> Model
    for WeakPool<M, F, A, C, R, L, W> {
    ghost use Rattle.deadpool_shared.specs.declared.shared.Shared.{Shared as AllShare};

    ghost Value = { AllShare M F A C R L M.Type M.Error M.Creating M.Recycling A.State C.Alarm };

    ghost view = { λ w. w.home };
}

// Asks a predicate about the idle objects, and has the manager told of those that it rejects.
#[derive(Drop)]
struct ByPredicate<'a, P, M> {
    predicate: P,
    manager: &'a M,
}

impl<M: Manager, P: FnMut(&M::Type, Metrics) -> bool + Drop> Retainer<Kept<M::Type>>
    for ByPredicate<'_, P, M> {
    type Left = M::Type;

    ghost can_call = { λ r. P.IsAlwaysCallable r.predicate };

    fn keeps(&mut self, _number: usize, kept: &Kept<M::Type>) -> bool {
        (self.predicate)(&kept.value, kept.metrics)
    }

    fn detach(&mut self, kept: Kept<M::Type>) -> M::Type {
        let mut value = kept.value;
        self.manager.detach(&mut value);
        value
    }
}

impl<M: Manager, F: SyncHook<M>, A: AsyncHook<M>, C: Clock, R: Wait + Drop, L: Ledgers, W> Pool<
    M,
    F,
    A,
    C,
    R,
    L,
    W,
> {
    /// What a pool is made of, with this manager and clock. The rest is as `PoolBuilder::new` says.
    pub fn builder(alloc: Global, manager: M, clock: C) -> PoolBuilder<M, F, A, C>
        ensures { result ≡ newly manager clock }
    {
        PoolBuilder::new(alloc, manager, clock)
    }

    // The first handle of what is shared.
    pub(crate) fn open(alloc: Global, shared: Shared<M, F, A, C, R, L>) -> Result<Self, AllocError>
        ensures { IfOk result (λ pool. pool ≡ shared) }
    {
        Ok(Pool {
            handle: Handle::new(alloc, shared)?,
            of: PhantomData,
        })
    }

    // What it shares with the others.
    pub(crate) fn handle(&self) -> &Handle<Shared<M, F, A, C, R, L>>
        ensures { result.now ≡ self.now }
    {
        &self.handle
    }

    // One handle more, if one is left.
    pub(crate) fn upgrade(home: &Home<Shared<M, F, A, C, R, L>>) -> Result<Option<Self>, AllocError>
        ensures pool { IfOk result (λ pool. IfSome pool (λ some. some ≡ home.now)) }
        ensures counted { IfOk result (Upgrades home.now.opening.log) }
    {
        let home = home.clone()?;
        match home.shared().make_for_owner(&OwnerStep::Upgrade) {
            OwnerReply::Done => Ok(Some(Pool {
                handle: Handle::counted(home),
                of: PhantomData,
            })),
            OwnerReply::NoHandle => Ok(None),
            _ => unreachable!(),
        }
    }

    /// Sets the greatest number of objects. While there are more, idle ones are dropped, the front one first, without a
    /// detach and with the lock taken: such a drop must not use the pool. A closed pool stays as it is. `AllocError`
    /// says that there was no memory for so many, and nothing has changed.
    pub fn resize(&self, limit: usize) -> Result<(), AllocError>
        ensures { ByNewCaller self.now.opening.log (CallsAndTells (IsResize limit result)) }
    {
        let step = OwnerStep::Resize { limit };
        match self.handle.shared().make_for_owner(&step) {
            OwnerReply::OutOfMemory => Err(AllocError),
            OwnerReply::Done => Ok(()),
            _ => unreachable!(),
        }
    }

    /// `resize` by a caller that the history has it of.
    pub fn resize_by(
        &self,
        caller: &mut Caller<Line, History<L>>,
        limit: usize,
    ) -> Result<(), AllocError>
        ensures { CallsAndTells (IsResize limit result) caller.old caller.new }
    {
        let step = OwnerStep::Resize { limit };
        match self.handle.shared().make_for_owner_by(caller, &step) {
            OwnerReply::OutOfMemory => Err(AllocError),
            OwnerReply::Done => Ok(()),
            _ => unreachable!(),
        }
    }

    /// Asks about each idle object once, front to back, and gives up those that are not kept. The manager detaches one
    /// before the predicate sees the next. The lock is taken all the while: neither the predicate nor the manager's
    /// `detach` may use the pool. `AllocError` says that there was no memory for the list of their values, and nothing
    /// was asked.
    pub fn retain<P: FnMut(&M::Type, Metrics) -> bool + Drop>(
        &self,
        predicate: P,
    ) -> Result<RetainResult<M::Type>, AllocError>
        requires { P.IsAlwaysCallable predicate }
        ensures call { ByNewCaller self.now.opening.log (RetainsAndTells result) }
    {
        let mut retainer = ByPredicate {
            predicate,
            manager: self.manager(),
        };
        self.handle.shared().retain(&mut retainer)
    }

    /// `retain` by a caller that the history has it of.
    pub fn retain_by<P: FnMut(&M::Type, Metrics) -> bool + Drop>(
        &self,
        caller: &mut Caller<Line, History<L>>,
        predicate: P,
    ) -> Result<RetainResult<M::Type>, AllocError>
        requires { P.IsAlwaysCallable predicate }
        ensures call { RetainsAndTells result caller.old caller.new }
    {
        let mut retainer = ByPredicate {
            predicate,
            manager: self.manager(),
        };
        self.handle.shared().retain_by(caller, &mut retainer)
    }

    /// A caller that the history has nothing of yet, for calls of its own. It has seen how the pool opened. It takes no
    /// bytes.
    pub fn caller(&self) -> Caller<Line, History<L>>
        ensures new { IsNewCaller result }
        ensures opened { IsPrefix self.now.opening.log result.seen }
    {
        self.handle.shared().caller()
    }

    /// From now on the caller has seen what somebody had seen earlier, so its next call stands in the history after
    /// all that stands there. A caller's `seen` gives what it has seen so far. It is no step.
    pub fn after(
        &self,
        caller: &mut Caller<Line, History<L>>,
        earlier: &Beginning<Line, History<L>>,
    )
        ensures caller { caller.new ≡ record caller.old { seen = caller.new.seen } }
        ensures seen { IsPrefix caller.old.seen caller.new.seen }
        ensures earlier { IsPrefix earlier.now.log caller.new.seen }
        ensures legal { IsLegal caller.new.seen }
    {
        self.handle.shared().after(caller, earlier);
    }

    /// The history is legal, begins with how the pool opened, and has of two callers what they have, which have then
    /// seen all of it. It is no step.
    pub fn audit(&self, one: &mut Caller<Line, History<L>>, two: &mut Caller<Line, History<L>>)
        ensures one { one.new ≡ record one.old { seen = one.new.seen } }
        ensures two { two.new ≡ record two.old { seen = one.new.seen } }
        ensures seen_by_one { IsPrefix one.old.seen one.new.seen }
        ensures seen_by_two { IsPrefix two.old.seen one.new.seen }
        ensures opened { IsPrefix self.now.opening.log one.new.seen }
        ensures legal { IsLegal one.new.seen }
        ensures calls_of_one { calls_by one.old.number one.new.seen ≡ one.old.mine }
        ensures calls_of_two { calls_by two.old.number one.new.seen ≡ two.old.mine }
    {
        self.handle.shared().audit(one, two);
    }

    /// The timeouts that the pool was built with.
    pub fn timeouts(&self) -> Timeouts
        ensures { result ≡ self.now.timeouts }
    {
        self.handle.shared().timeouts
    }

    /// The manager that the pool was built with.
    pub fn manager(&self) -> &M
        ensures { result.now ≡ self.now.environment.manager }
    {
        &self.handle.shared().environment.manager
    }

    /// Closes the pool for good: its limit is 0, those that wait are refused, and the idle objects are dropped without
    /// a detach and with the lock taken: such a drop must not use the pool. Objects that are out stay, and are given up
    /// when they come back.
    pub fn close(&self)
        ensures { ByNewCaller self.now.opening.log
            (CallsAndTells (λ e. e ≡ entry.Owner step.Close reply.Done)) }
    {
        match self.handle.shared().make_for_owner(&OwnerStep::Close) {
            OwnerReply::Done => {}
            _ => unreachable!(),
        }
    }

    /// `close` by a caller that the history has it of.
    pub fn close_by(&self, caller: &mut Caller<Line, History<L>>)
        ensures { CallsAndTells (λ e. e ≡ entry.Owner step.Close reply.Done)
            caller.old caller.new }
    {
        let OwnerReply::Done = self
            .handle
            .shared()
            .make_for_owner_by(caller, &OwnerStep::Close)
        else {
            unreachable!();
        };
    }

    /// Whether the pool was closed.
    pub fn is_closed(&self) -> bool {
        self.handle.shared().is_closed()
    }

    /// How the pool stands, all at one moment.
    pub fn status(&self) -> Status
        ensures { ByNewCaller self.now.opening.log (AsksStatus result) }
    {
        self.handle.shared().status()
    }

    /// `status` by a caller that the history has it of.
    pub fn status_by(&self, caller: &mut Caller<Line, History<L>>) -> Status
        ensures { AsksStatus result caller.old caller.new }
    {
        self.handle.shared().status_by(caller)
    }

    /// How often each thing has happened since the pool was opened, and how the pool stands, all at one moment. The
    /// books balance: each object that was created is in the pool, or is counted where it was given up.
    pub fn tally(&self) -> (Tally, Status)
        ensures call { ByNewCaller self.now.opening.log (AsksTally result.0 result.1) }
        ensures balances { AreBalanced result.1.size result.0 }
    {
        self.handle.shared().tally()
    }

    /// `tally` by a caller that the history has it of. The tally is that of the history.
    pub fn tally_by(&self, caller: &mut Caller<Line, History<L>>) -> (Tally, Status)
        ensures call { AsksTally result.0 result.1 caller.old caller.new }
        ensures balances { AreBalanced result.1.size result.0 }
    {
        self.handle.shared().tally_by(caller)
    }

    /// A copy of the pool's journal: the state that the pool opened with, and its first steps since, each with the
    /// reply that it got. `AllocError` says that there was no memory for the copy.
    pub fn journal(&self) -> Result<Journal, AllocError>
        ensures { IfOk result HasSteps }
    {
        self.handle.shared().journal()
    }

    /// `journal`, which is a beginning of the history: its entries are those of the first steps, of all of them if it
    /// is not full. The caller has then seen all of the history.
    pub fn journal_by(&self, caller: &mut Caller<Line, History<L>>) -> Result<Journal, AllocError>
        ensures caller { caller.new ≡ record caller.old { seen = caller.new.seen } }
        ensures seen { IsPrefix caller.old.seen caller.new.seen }
        ensures legal { IsLegal caller.new.seen }
        ensures beginning { IfOk result (λ journal. IsBeginning journal caller.new.seen) }
        ensures steps { IfOk result HasSteps }
    {
        self.handle.shared().journal_by(caller)
    }

    /// A handle that is not counted. `AllocError` says that there was no memory for it.
    pub fn weak(&self) -> Result<WeakPool<M, F, A, C, R, L, W>, AllocError>
        ensures { IfOk result (λ weak. weak ≡ self.now) }
    {
        Ok(WeakPool {
            home: self.handle.uncounted()?,
            of: PhantomData,
        })
    }

    /// One handle more. `AllocError` says that there was no memory for it, and none is counted then.
    pub fn clone(&self) -> Result<Self, AllocError>
        ensures pool { IfOk result (λ pool. pool ≡ self.now) }
        ensures counted { IfOk result (λ _. CountsBy step.CloneHandle self.now.opening.log) }
    {
        Ok(Pool {
            handle: self.handle.clone()?,
            of: PhantomData,
        })
    }
}

impl<M: Manager, F: SyncHook<M>, A: AsyncHook<M>, C: Clock, R: Wait + Drop, L: Ledgers, W> Pool<
    M,
    F,
    A,
    C,
    R,
    L,
    W,
>
where
    W: From<Object<M, F, A, C, R, L>>,
{
    /// A get with the timeouts of the pool. It is a handle of the pool from now on, if there is memory for that.
    pub fn get(&self) -> Get<M, F, A, C, R, L, W>
        ensures asks { OwnAsks self.now self.now (getting None) result }
        ensures counted { IfSome result.shared (λ _. CountsBy step.CloneHandle self.now.opening.log) }
    {
        Owned::new(self.begin(), Getting::new(OwnTimeouts::new(None)))
    }

    /// A get with timeouts of its own. It is a handle of the pool from now on, if there is memory for that.
    pub fn timeout_get(&self, timeouts: &Timeouts) -> Get<M, F, A, C, R, L, W>
        ensures asks { OwnAsks self.now self.now (getting (Some timeouts.now)) result }
        ensures counted { IfSome result.shared (λ _. CountsBy step.CloneHandle self.now.opening.log) }
    {
        Owned::new(
            self.begin(),
            Getting::new(OwnTimeouts::new(Some(*timeouts))),
        )
    }

    /// A get with the timeouts of the pool, which borrows this handle and is none itself.
    pub fn get_ref(&self) -> GetRef<'_, M, F, A, C, R, L, W>
        ensures { BorrowingAsks self.now self.now (getting self.now.timeouts) result }
    {
        self.timeout_get_ref(&self.handle.shared().timeouts)
    }

    /// A get with timeouts of its own, which borrows this handle and is none itself.
    #[inline(always)]
    pub fn timeout_get_ref<'a>(&'a self, timeouts: &'a Timeouts) -> GetRef<'a, M, F, A, C, R, L, W>
        ensures { BorrowingAsks self.now self.now (getting timeouts.now) result }
    {
        Borrowed::new(
            &self.handle,
            self.handle.uncounted(),
            Getting::new(LentTimeouts::new(timeouts)),
        )
    }

    // What a new get has, if there is memory for it.
    #[inline(always)]
    fn begin(
        &self,
    ) -> Result<
        (
            Handle<Shared<M, F, A, C, R, L>>,
            Home<Shared<M, F, A, C, R, L>>,
        ),
        AllocError,
    >
        ensures handle { IfOk result (λ begun. begun.0 ≡ self.now) }
        ensures home { IfOk result (λ begun. begun.1 ≡ self.now) }
        ensures counted { IfOk result (λ _. CountsBy step.CloneHandle self.now.opening.log) }
    {
        let home = self.handle.uncounted()?;
        Ok((self.handle.clone()?, home))
    }
}

impl<M: Manager, F: SyncHook<M>, A: AsyncHook<M>, C: Clock, R: Wait + Drop, L: Ledgers, W> WeakPool<
    M,
    F,
    A,
    C,
    R,
    L,
    W,
> {
    /// One handle more, if the pool has one left. `AllocError` says that there was no memory for it, and none is
    /// counted then.
    pub fn upgrade(&self) -> Result<Option<Pool<M, F, A, C, R, L, W>>, AllocError>
        ensures pool { IfOk result (λ pool. IfSome pool (λ some. some ≡ self.now)) }
        ensures counted { IfOk result (Upgrades self.now.opening.log) }
    {
        Pool::upgrade(&self.home)
    }
}
