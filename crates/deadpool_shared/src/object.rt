//! An object that is out.
ghost use Rattle.std.specs.Prelude.{◌≡◌, Some, None, IfOk, IfSome};
ghost use Rattle.std.specs.Duration.{as_nanos};
ghost use Rattle.deadpool_managed.specs.Answers.{LeavesOrKeeps};
ghost use Rattle.deadpool_managed.specs.Prepare.{with_value};
ghost use Rattle.deadpool_desk.specs.declared.step.Held.{Held};
ghost use Rattle.deadpool_desk.specs.declared.step.Reply.{Reply};
ghost use Rattle.deadpool_desk.specs.declared.step.Step.TheVariants as step;
ghost use Rattle.deadpool_chronicle.specs.History.{Knowing};
ghost use Rattle.deadpool_history.specs.History.{CallsAndTells};
ghost use Rattle.deadpool_history.specs.Own.{held_in};
ghost use Rattle.deadpool_history.specs.declared.line.Line.{Line};
ghost use Rattle.deadpool_journal.specs.declared.entry.Entry.TheVariants as entry;
ghost use Rattle.deadpool_shared.specs.Calling.{Upgrades};
ghost use Rattle.deadpool_shared.specs.Counts.{counts_of};

use crate::ledgers::{History, Ledgers};
use crate::pool::Pool;
use crate::seat::Seat;
use crate::shared::Shared;
use crate::shares::Shares;
use deadpool_chronicle::Caller;
use deadpool_history::Line;
use deadpool_lock::{Home, Registered};
use deadpool_managed::{
    AsyncHook, Clock, Desk, Kept, Manager, Metrics, ObjectId, Reply, Slot, Step, SyncHook,
};
use std::alloc::AllocError;
use std::ops::{Deref, DerefMut};
use std::sync::Wait;
use std::time::Duration;

// What an object has that has not gone back. It cannot be dropped, since its shares cannot.
pub(crate) struct Checkout<
    M: Manager,
    F: SyncHook<M>,
    A: AsyncHook<M>,
    C: Clock,
    R: Wait + Drop,
    L: Ledgers,
> {
    pub(crate) home: Home<Shared<M, F, A, C, R, L>>,
    pub(crate) shares: Shares<L>,
    ghost is_out: { shares.has ≡ counts_of (Some Held.Object) },
}

impl<M: Manager, F: SyncHook<M>, A: AsyncHook<M>, C: Clock, R: Wait + Drop, L: Ledgers> Checkout<
    M,
    F,
    A,
    C,
    R,
    L,
> {
    pub(crate) fn new(home: Home<Shared<M, F, A, C, R, L>>, shares: Shares<L>) -> Self
        requires { shares.has ≡ counts_of (Some Held.Object) }
        ensures home { result.home ≡ home }
        ensures shares { result.shares ≡ shares }
    {
        Checkout { home, shares }
    }
}

/// An object of a pool, with its value. When it is dropped it goes back to the pool: it is idle from then on, or given
/// up and detached if the pool has too many objects, or dropped if the pool has no handle left.
pub struct Object<
    M: Manager,
    F: SyncHook<M>,
    A: AsyncHook<M>,
    C: Clock,
    R: Wait + Drop,
    L: Ledgers,
> {
    pub(crate) out: Checkout<M, F, A, C, R, L>,
    // How long its get waited, in nanoseconds. Here it takes no room: the slot's place is a multiple of 16.
    pub(crate) waited: u64,
    pub(crate) slot: Slot<Kept<M::Type>>,
    // By the lines of its caller it has this object.
    pub ghost is_own: { held_in out.shares.caller.mine ≡ Some slot.number },
}

impl<M: Manager, F: SyncHook<M>, A: AsyncHook<M>, C: Clock, R: Wait + Drop, L: Ledgers> Object<
    M,
    F,
    A,
    C,
    R,
    L,
> {
    /// Takes the value out of the pool for good: the pool has one object less. The manager is told of it first, if the
    /// pool has a handle left.
    pub fn take(this: Self) -> M::Type
        ensures value { LeavesOrKeeps (M.may_detach this.out.home.environment.manager)
            this.slot.value.value result }
        ensures call { (reply : Reply) × ((c : Knowing Line)
            × CallsAndTells (λ e. e ≡ entry.Made step.Take None reply) this.out.shares.caller c) }
    {
        let (value, _) = Object::take_by(this);
        value
    }

    /// `take`, and the caller that the history has it of, with the steps of the object and of the get before it.
    pub fn take_by(this: Self) -> (M::Type, Caller<Line, History<L>>)
        ensures value { LeavesOrKeeps (M.may_detach this.out.home.environment.manager)
            this.slot.value.value result.0 }
        ensures call { (reply : Reply)
            × CallsAndTells (λ e. e ≡ entry.Made step.Take None reply)
            this.out.shares.caller result.1 }
    {
        let Self {
            out,
            slot,
            waited: _,
        } = this;
        let Checkout { home, shares } = out;
        let (mut nobody, mut departure) = (Registered::nobody(), None);
        let mut seat = Seat::new(home.shared(), Some(shares), &mut nobody, &mut departure);
        let mut value = slot.value.value;
        let mut hand = None;
        let reply = seat.make(&Step::Take, &mut hand);
        let Some(caller) = seat.leave() else {
            unreachable!();
        };
        if let Reply::Taken { detach: true } = reply {
            home.shared().environment.manager.detach(&mut value);
        }
        home.shared().has_departed(departure);
        (value, caller)
    }

    /// Gives the object back, as its drop does, and the caller that the history has it of, with the steps of the object
    /// and of the get before it.
    pub fn give_back(this: Self) -> Caller<Line, History<L>>
        ensures { (reply : Reply)
            × CallsAndTells (λ e. e ≡ entry.Made step.Back (Some this.slot.number) reply)
            this.out.shares.caller result }
    {
        let Self {
            out,
            slot,
            waited: _,
        } = this;
        let Checkout { home, shares } = out;
        let (mut nobody, mut departure) = (Registered::nobody(), None);
        let mut seat = Seat::new(home.shared(), Some(shares), &mut nobody, &mut departure);
        let mut hand = Some(slot);
        let reply = seat.make(&Step::Back, &mut hand);
        let Some(caller) = seat.leave() else {
            unreachable!();
        };
        if reply == Reply::Detach {
            if let Some(slot) = &mut hand {
                home.shared()
                    .environment
                    .manager
                    .detach(&mut slot.value.value);
            }
        }
        drop(hand);
        home.shared().has_departed(departure);
        caller
    }

    /// The object's identifier.
    pub fn id(this: &Self) -> ObjectId
        ensures { result ≡ this.now.slot.number }
    {
        this.slot.id()
    }

    /// What is known of its past.
    pub fn metrics(this: &Self) -> &Metrics
        ensures { result.now ≡ this.now.slot.value.metrics }
    {
        &this.slot.value.metrics
    }

    /// How long its get waited for a place, by the pool's clock: zero if the get was served at once. It counts from the
    /// poll that joined the queue to the poll that left it, so what the manager and the hooks took is no part of it.
    pub fn waited(this: &Self) -> Duration
        ensures { as_nanos result ≡ this.now.waited }
    {
        Duration::from_nanos(this.waited)
    }

    /// One more handle of its pool, if the pool has a handle left. `AllocError` says that there was no memory for it,
    /// and none is counted then.
    pub fn pool(this: &Self) -> Result<Option<Pool<M, F, A, C, R, L>>, AllocError>
        ensures pool { IfOk result (λ pool. IfSome pool (λ some. some ≡ this.now.out.home)) }
        ensures counted { IfOk result (Upgrades this.now.out.home.opening.log) }
    {
        Pool::upgrade(&this.out.home)
    }
}

impl<M: Manager, F: SyncHook<M>, A: AsyncHook<M>, C: Clock, R: Wait + Drop, L: Ledgers> Drop
    for Object<M, F, A, C, R, L> {
    fn drop(self)
        ensures { (reply : Reply) × ((c : Knowing Line)
            × CallsAndTells (λ e. e ≡ entry.Made step.Back (Some self.slot.number) reply)
            self.out.shares.caller c) }
    {
        Object::give_back(self);
    }
}

impl<M: Manager, F: SyncHook<M>, A: AsyncHook<M>, C: Clock, R: Wait + Drop, L: Ledgers> Deref
    for Object<M, F, A, C, R, L> {
    type Target = M::Type;

    ghost deref_gives = { λ o x. x ≡ o.slot.value.value };

    fn deref(&self) -> &M::Type {
        &self.slot.value.value
    }
}

impl<M: Manager, F: SyncHook<M>, A: AsyncHook<M>, C: Clock, R: Wait + Drop, L: Ledgers> DerefMut
    for Object<M, F, A, C, R, L> {
    ghost use Rattle.std.specs.Borrow.{Lends, sem};
    ghost use Rattle.deadpool_shared.specs.contracts.object.Object.{the_row};

    ghost deref_mut_gives = { λ o x. x ≡ o.slot.value.value };

    fn deref_mut(&mut self) -> &mut M::Type
        ensures* writes_back { sem 𝓛 (Lends (the_row M.row F.row A.row
            C.row R.row L.row M.Type.row M.Error.row M.Creating.row M.Recycling.row A.State.row
            C.Alarm.row M.Manager F.SyncHook A.AsyncHook L.Ledgers) M.Type.row self.entry result
            (λ w. record self.old { slot = with_value w self.old.slot })) }
        ensures shows { result.now ≡ self.old.slot.value.value }
    {
        let slot = &mut self.slot;
        let kept = &mut slot.value;
        &mut kept.value
    }
}
