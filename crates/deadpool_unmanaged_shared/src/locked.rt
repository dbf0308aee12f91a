//! What the lock of a pool keeps.
ghost use Rattle.std.specs.Prelude.{◌≡◌, ◌≢◌, ◌||◌, true, false, not, is_some, [], Some, None, IfSome, IsSome};
ghost use Rattle.std.specs.Prelude.{OnErr, OnOk};
ghost use Rattle.deadpool_lock.specs.Places.{Follows};
ghost use Rattle.deadpool_unmanaged.specs.Adds as adds;
ghost use Rattle.deadpool_unmanaged.specs.Closing.{is_drained};
ghost use Rattle.deadpool_unmanaged.specs.Gets as gets;
ghost use Rattle.deadpool_unmanaged.specs.Queueing.{add_joins, get_joins};
ghost use Rattle.deadpool_unmanaged.specs.Room.{most_next_add, most_next_get};
ghost use Rattle.deadpool_unmanaged.specs.State.{due_get, has_due};
ghost use Rattle.deadpool_unmanaged.specs.StateSteps.{Does};
ghost use Rattle.deadpool_unmanaged.specs.Replies.{Leaves};
ghost use Rattle.deadpool_unmanaged.specs.declared.step.Step.TheVariants.{Back, Take};
ghost use Rattle.deadpool_unmanaged_history.specs.Polls.{CancelsAdd, CancelsGet};
ghost use Rattle.deadpool_unmanaged_history.specs.declared.line.Wake.TheVariants as wake;
ghost use Rattle.futures.specs.Poll.{OnPending};
ghost use Rattle.deadpool_unmanaged_journal.specs.OwnerSteps.{DoesForOwner, IsOwnerReplyTo};
ghost use Rattle.deadpool_unmanaged_journal.specs.declared.entry.Entry.TheVariants as entry;
ghost use Rattle.deadpool_unmanaged_shared.specs.Calling.{CallsOrRefusesAdd, CallsOrRefusesGet, IsSupplied};
ghost use Rattle.deadpool_unmanaged_shared.specs.Calling.{CallsTryAdd, CallsTryGet};
ghost use Rattle.deadpool_unmanaged_shared.specs.Locked.{PollsGet, PollsAdd, TriesGet, TriesAdd};
ghost use Rattle.deadpool_lock.specs.Ends.{Departs, one_less};
ghost use Rattle.deadpool_unmanaged_shared.specs.Locked.{FollowsOrRefuses, TellsIfDue, awaited_by, is_end_due};
ghost use Rattle.deadpool_unmanaged_shared.specs.Locked.{due_add_alone, next_waker, told, without_waker};
ghost use Rattle.deadpool_unmanaged_shared.specs.Room.{IsRoomy, StaysRoomy};

mod draining;

use deadpool_lock::{Departed, Departure, Ends, Owed, Registered, Wakers, Wakes};
use deadpool_unmanaged::{AddState, GetState, Moment, PoolError, Reply, Runtime, Step};
use deadpool_unmanaged_history::KeepsState;
use deadpool_unmanaged_journal::{OwnerReply, OwnerStep};
use futures::task::{Poll, Waker};
use std::alloc::{AllocError, Global};
use std::marker::PhantomData;

/// A pool's state between two steps, the first caller, which lets the others in, and the wakers of those in its queues.
#[derive(Drop)]
pub struct Locked<T: Drop, S: KeepsState<T>> {
    pub(crate) state: S,
    first: S::Caller,
    gets: Wakers,
    adds: Wakers,
    // Those that wait for the end of the pool.
    ends: Ends,
    of: PhantomData<T>,
}

impl<T: Drop, S: KeepsState<T>> Locked<T, S> {
    /// With no waker.
    pub fn new(alloc: Global, state: S, first: S::Caller) -> Self
        ensures state { result.state ≡ state }
        ensures first { result.first ≡ first }
        ensures gets { result.gets ≡ [] }
        ensures adds { result.adds ≡ [] }
    {
        Locked {
            state,
            first,
            gets: Wakers::new(alloc),
            adds: Wakers::new(alloc),
            ends: Ends::new(alloc),
            of: PhantomData,
        }
    }

    /// A caller that has made no step yet. It is no step.
    pub fn admit(&mut self) -> S::Caller
        ensures caller { S.is_new result }
        ensures same { S.state_of self.new.state ≡ S.state_of self.old.state }
        ensures gets { self.new.gets ≡ self.old.gets }
        ensures adds { self.new.adds ≡ self.old.adds }
        ensures ends { self.new.ends ≡ self.old.ends }
    {
        let Locked { state, first, .. } = self;
        state.admit(first)
    }

    /// The caller that there is, or a new one. It is no step.
    #[inline(always)]
    pub fn supply(&mut self, caller: Option<S::Caller>) -> S::Caller
        ensures caller { IsSupplied S.is_new caller result }
        ensures same { S.state_of self.new.state ≡ S.state_of self.old.state }
        ensures gets { self.new.gets ≡ self.old.gets }
        ensures adds { self.new.adds ≡ self.old.adds }
        ensures ends { self.new.ends ≡ self.old.ends }
    {
        match caller {
            Some(caller) => caller,
            None => self.admit(),
        }
    }

    /// Sees that there is room for all that may ever stand in a queue, and a place for the waker of each. From then on
    /// no poll that lends a waker is refused for want of memory. Without memory for that only the room may have
    /// changed. It is no step.
    pub fn make_room_for_waiting(&mut self) -> Result<(), AllocError>
        ensures room { OnOk result
            (IsRoomy (S.state_of self.new.state) self.new.gets self.new.adds) }
        ensures wanting { OnErr result
            (IsRoomy (S.state_of self.old.state) self.old.gets self.old.adds → ⊥) }
        ensures pool { (S.state_of self.new.state).pool ≡ (S.state_of self.old.state).pool }
        ensures first { self.new.first ≡ self.old.first }
        ensures ends { self.new.ends ≡ self.old.ends }
    {
        let Locked {
            state,
            gets,
            adds,
            ..
        } = self;
        state.make_room_for_waiting()?;
        gets.make_places(state.gets_room())?;
        adds.make_places(state.adds_room())
    }

    /// One poll of a get, and the waker that is to be let go with the lock given back. While it waits its waker is
    /// kept, and its ticket is the caller's own. If it would join the queue and there is no waker, or no memory for it,
    /// no step is made and it has ended.
    pub fn poll_get(
        &mut self,
        caller: &mut S::Caller,
        get: &mut GetState,
        runtime: Option<Runtime>,
        now: Moment,
        registered: &mut Registered,
    ) -> (Poll<Result<T, PoolError>>, Option<Waker>)
        requires own { IfSome (gets.ticket_of get.old) (λ t. S.waits caller.old (wake.Get t)) }
        ensures own { IfSome (gets.ticket_of get.new) (λ t. S.waits caller.new (wake.Get t)) }
        ensures polls { PollsGet runtime now get.old (S.state_of self.old.state).pool result.0
            get.new (S.state_of self.new.state).pool }
        ensures waits { FollowsOrRefuses (get_joins runtime now get.old (S.state_of self.old.state).pool)
            (most_next_get (S.state_of self.old.state)) (gets.ticket_of get.old) (gets.ticket_of get.new)
            self.old.gets registered.old result.1 self.new.gets registered.new }
        ensures heard { get_joins runtime now get.old (S.state_of self.old.state).pool ≡ true
            → OnPending result.0 (is_some registered.old ≡ true) }
        ensures memory { IsRoomy (S.state_of self.old.state) self.old.gets self.old.adds
            → is_some registered.old ≡ true → result.0 ≢ Poll.Ready (Err PoolError.OutOfMemory) }
        ensures room { StaysRoomy (S.state_of self.old.state) self.old.gets self.old.adds
            (S.state_of self.new.state) self.new.gets self.new.adds }
        ensures others { self.new.adds ≡ self.old.adds }
        ensures ends { self.new.ends ≡ self.old.ends }
        ensures call { CallsOrRefusesGet S.calls runtime now get.old result.0 get.new
            caller.old caller.new }
    {
        let Locked { state, gets, .. } = self;
        let would_queue = state.get_joins(get, runtime, now);
        if would_queue && gets.make_room(state.most_next_get(), registered).is_err() {
            drop(get.take());
            return (Poll::Ready(Err(PoolError::OutOfMemory)), None);
        }
        let before = get.ticket();
        let polled = state.poll_get(caller, get, runtime, now);
        (polled, gets.follow(before, get.ticket(), registered))
    }

    /// A get is given up. The answer is the waker that was kept for it.
    pub fn cancel_get(&mut self, caller: &mut S::Caller, get: GetState) -> Option<Waker>
        requires own { IfSome (gets.ticket_of get) (λ t. S.waits caller.old (wake.Get t)) }
        ensures cancels { gets.CancelsGet get (S.state_of self.old.state).pool
            (S.state_of self.new.state).pool }
        ensures waker { Follows (gets.ticket_of get)
            None self.old.gets None result self.new.gets None }
        ensures others { self.new.adds ≡ self.old.adds }
        ensures ends { self.new.ends ≡ self.old.ends }
        ensures room { StaysRoomy (S.state_of self.old.state) self.old.gets self.old.adds
            (S.state_of self.new.state) self.new.gets self.new.adds }
        ensures call { CancelsGet S.calls get caller.old caller.new }
    {
        let Locked { state, gets, .. } = self;
        let spare = gets.follow(get.ticket(), None, &mut Registered::nobody());
        state.cancel_get(caller, get);
        spare
    }

    /// One poll of an add, and the waker that is to be let go with the lock given back. While it waits its waker is
    /// kept, and its ticket is the caller's own. If it would join the queue and there is no waker, or no memory for it,
    /// no step is made, and its object comes back.
    pub fn poll_add(
        &mut self,
        caller: &mut S::Caller,
        add: &mut AddState<T>,
        registered: &mut Registered,
    ) -> (Poll<Result<(), (T, PoolError)>>, Option<Waker>)
        requires own { IfSome (adds.ticket_of add.old) (λ t. S.waits caller.old (wake.Add t)) }
        ensures own { IfSome (adds.ticket_of add.new) (λ t. S.waits caller.new (wake.Add t)) }
        ensures polls { PollsAdd add.old (S.state_of self.old.state).pool result.0
            add.new (S.state_of self.new.state).pool }
        ensures waits { FollowsOrRefuses (add_joins add.old (S.state_of self.old.state).pool)
            (most_next_add (S.state_of self.old.state)) (adds.ticket_of add.old) (adds.ticket_of add.new)
            self.old.adds registered.old result.1 self.new.adds registered.new }
        ensures heard { add_joins add.old (S.state_of self.old.state).pool ≡ true
            → OnPending result.0 (is_some registered.old ≡ true) }
        ensures memory { IsRoomy (S.state_of self.old.state) self.old.gets self.old.adds
            → is_some registered.old ≡ true → adds.IsWithoutMemory result.0 → ⊥ }
        ensures room { StaysRoomy (S.state_of self.old.state) self.old.gets self.old.adds
            (S.state_of self.new.state) self.new.gets self.new.adds }
        ensures others { self.new.gets ≡ self.old.gets }
        ensures ends { self.new.ends ≡ self.old.ends }
        ensures call { CallsOrRefusesAdd S.calls add.old result.0 add.new caller.old caller.new }
    {
        let Locked { state, adds, .. } = self;
        let would_queue = state.add_joins(add);
        if would_queue && adds.make_room(state.most_next_add(), registered).is_err() {
            return match add.take().begin() {
                Some((_, value)) => (Poll::Ready(Err((value, PoolError::OutOfMemory))), None),
                None => unreachable!(),
            };
        }
        let before = add.ticket();
        let polled = state.poll_add(caller, add);
        (polled, adds.follow(before, add.ticket(), registered))
    }

    /// An add is given up. The answer is its object, and the waker that was kept for it.
    pub fn cancel_add(
        &mut self,
        caller: &mut S::Caller,
        add: AddState<T>,
    ) -> (Option<T>, Option<Waker>)
        requires own { IfSome (adds.ticket_of add) (λ t. S.waits caller.old (wake.Add t)) }
        ensures cancels { adds.CancelsAdd add (S.state_of self.old.state).pool
            (S.state_of self.new.state).pool }
        ensures value { result.0 ≡ adds.held_by add }
        ensures waker { Follows (adds.ticket_of add)
            None self.old.adds None result.1 self.new.adds None }
        ensures others { self.new.gets ≡ self.old.gets }
        ensures ends { self.new.ends ≡ self.old.ends }
        ensures room { StaysRoomy (S.state_of self.old.state) self.old.gets self.old.adds
            (S.state_of self.new.state) self.new.gets self.new.adds }
        ensures call { CancelsAdd S.calls add caller.old caller.new }
    {
        let Locked { state, adds, .. } = self;
        let spare = adds.follow(add.ticket(), None, &mut Registered::nobody());
        (state.cancel_add(caller, add), spare)
    }

    /// An object at once, if one is free. No waker comes or goes with it.
    pub fn try_get(&mut self, caller: &mut S::Caller) -> Result<T, PoolError>
        ensures tries { TriesGet (S.state_of self.old.state).pool result
            (S.state_of self.new.state).pool }
        ensures gets { self.new.gets ≡ self.old.gets }
        ensures adds { self.new.adds ≡ self.old.adds }
        ensures ends { self.new.ends ≡ self.old.ends }
        ensures room { StaysRoomy (S.state_of self.old.state) self.old.gets self.old.adds
            (S.state_of self.new.state) self.new.gets self.new.adds }
        ensures call { CallsTryGet S.calls result caller.old caller.new }
    {
        let mut hand = None;
        match self
            .state
            .make(caller, &Step::GetEnter { wait: false }, &mut hand)
        {
            Reply::Object | Reply::Closed => hand.ok_or(PoolError::Closed),
            Reply::Full => Err(PoolError::Timeout),
            _ => unreachable!(),
        }
    }

    /// An object joins at once, if there is room. Otherwise it comes back. No waker comes or goes with it.
    pub fn try_add(&mut self, caller: &mut S::Caller, value: T) -> Result<(), (T, PoolError)>
        ensures tries { TriesAdd (S.state_of self.old.state).pool value result
            (S.state_of self.new.state).pool }
        ensures gets { self.new.gets ≡ self.old.gets }
        ensures adds { self.new.adds ≡ self.old.adds }
        ensures ends { self.new.ends ≡ self.old.ends }
        ensures room { StaysRoomy (S.state_of self.old.state) self.old.gets self.old.adds
            (S.state_of self.new.state) self.new.gets self.new.adds }
        ensures call { CallsTryAdd S.calls value result caller.old caller.new }
    {
        let mut hand = Some(value);
        let reply = self
            .state
            .make(caller, &Step::AddEnter { wait: false }, &mut hand);
        let Some(value) = hand else {
            return Ok(());
        };
        match reply {
            Reply::Closed => Err((value, PoolError::Closed)),
            Reply::Full => Err((value, PoolError::Timeout)),
            _ => unreachable!(),
        }
    }

    /// The object in the hand comes back. It stays there if the pool has no use for it, and counts as departing from
    /// then on. No waker comes or goes with it.
    pub fn back(
        &mut self,
        caller: &mut S::Caller,
        hand: &mut Option<T>,
        departure: &mut Option<Departure>,
    ) -> Reply
        requires { IsSome hand.old }
        ensures back { Does (S.state_of self.old.state).pool Back hand.old result
            (S.state_of self.new.state).pool }
        ensures hand { Leaves result hand.old hand.new }
        ensures gets { self.new.gets ≡ self.old.gets }
        ensures adds { self.new.adds ≡ self.old.adds }
        ensures room { StaysRoomy (S.state_of self.old.state) self.old.gets self.old.adds
            (S.state_of self.new.state) self.new.gets self.new.adds }
        ensures call { S.calls (entry.Made Back hand.old result) caller.old caller.new }
        ensures departs { Departs (is_some hand.new) self.old.ends departure.old self.new.ends departure.new }
    {
        let Locked { state, ends, .. } = self;
        let reply = state.make(caller, &Step::Back, hand);
        depart(ends, departure, hand.is_some());
        reply
    }

    /// An object that is out leaves for good. No waker comes or goes with it.
    pub fn take(&mut self, caller: &mut S::Caller) -> Reply
        ensures take { Does (S.state_of self.old.state).pool Take None result
            (S.state_of self.new.state).pool }
        ensures gets { self.new.gets ≡ self.old.gets }
        ensures adds { self.new.adds ≡ self.old.adds }
        ensures ends { self.new.ends ≡ self.old.ends }
        ensures room { StaysRoomy (S.state_of self.old.state) self.old.gets self.old.adds
            (S.state_of self.new.state) self.new.gets self.new.adds }
        ensures call { S.calls (entry.Made Take None result) caller.old caller.new }
    {
        self.state.make(caller, &Step::Take, &mut None)
    }

    /// Makes a step of the pool's owner, and gives the reply.
    #[inline(always)]
    pub fn make_for_owner(&mut self, caller: &mut S::Caller, step: &OwnerStep) -> OwnerReply
        ensures made { DoesForOwner (S.state_of self.old.state).pool step.now result
            (S.state_of self.new.state).pool }
        ensures fits { IsOwnerReplyTo step.now result }
        ensures gets { self.new.gets ≡ self.old.gets }
        ensures adds { self.new.adds ≡ self.old.adds }
        ensures room { StaysRoomy (S.state_of self.old.state) self.old.gets self.old.adds
            (S.state_of self.new.state) self.new.gets self.new.adds }
        ensures call { S.calls (entry.Owner step.now result) caller.old caller.new }
        ensures ends { self.new.ends ≡ self.old.ends }
    {
        self.state.make_for_owner(caller, step)
    }

    /// Whether the pool was closed. It is no step.
    pub fn is_closed(&self) -> bool
        ensures { result ≡ not (S.state_of self.now.state).pool.is_open }
    {
        self.state.is_closed()
    }

    // Whether somebody waits for the end, which has come.
    #[inline(always)]
    fn is_end_due(&self) -> bool
        ensures { result ≡ is_end_due self.now.ends (S.state_of self.now.state).pool }
    {
        !self.ends.is_empty() && self.ends.has_come(self.state.is_drained())
    }
}

// An object is let go of, or none is.
#[inline(always)]
fn depart(ends: &mut Ends, departure: &mut Option<Departure>, lets_go: bool)
    ensures { Departs lets_go ends.old departure.old ends.new departure.new }
{
    if lets_go {
        ends.depart(departure);
    }
}

impl<T: Drop, S: KeepsState<T>> Wakes for Locked<T, S> {
    type Seer = S::Caller;

    ghost keeps = { S.keeps };

    ghost is_quiet = { S.is_quiet };

    fn keeps_all() {
        S::keeps_all();
    }

    fn is_wake_due(&mut self, seer: &mut S::Caller) -> bool
        ensures due { result ≡ (has_due (S.state_of self.old.state).pool
            || is_end_due self.old.ends (S.state_of self.old.state).pool) }
        ensures same { S.state_of self.new.state ≡ S.state_of self.old.state }
        ensures gets { self.new.gets ≡ self.old.gets }
        ensures adds { self.new.adds ≡ self.old.adds }
        ensures ends { self.new.ends ≡ self.old.ends }
        ensures noted { IfSome (S.awaited_of self.new.state) (λ a. a ≡ awaited_by self.old.ends) }
        ensures keeps { S.keeps seer.old seer.new }
        ensures quiet { result ≡ false → S.is_quiet seer.new }
    {
        let Locked {
            state,
            first,
            ends,
            ..
        } = self;
        state.note_ending(first, ends.waiting(), ends.departing());
        self.state.is_wake_due(seer) || self.is_end_due()
    }

    fn take_wake(&mut self) -> Option<Owed>
        ensures waker { result ≡ next_waker (S.state_of self.old.state).pool
            self.old.gets self.old.adds self.old.ends }
        ensures told { (S.state_of self.new.state).pool ≡ told (S.state_of self.old.state).pool }
        ensures gets { self.new.gets ≡ without_waker (due_get (S.state_of self.old.state).pool) self.old.gets }
        ensures adds { self.new.adds ≡ without_waker (due_add_alone (S.state_of self.old.state).pool)
            self.old.adds }
        ensures ends { TellsIfDue (has_due (S.state_of self.old.state).pool)
            (is_end_due self.old.ends (S.state_of self.old.state).pool)
            self.old.ends result self.new.ends }
        ensures room { StaysRoomy (S.state_of self.old.state) self.old.gets self.old.adds
            (S.state_of self.new.state) self.new.gets self.new.adds }
    {
        let Locked { state, first, .. } = self;
        if let Some(ticket) = state.take_get_wake(first) {
            return self.gets.tell(ticket);
        }
        if let Some(ticket) = state.take_add_wake(first) {
            return self.adds.tell(ticket);
        }
        if self.is_end_due() {
            return self.ends.take_wake();
        }
        None
    }

    // (it is no step)
    fn has_departed(&mut self, departed: Departed)
        ensures same { S.state_of self.new.state ≡ S.state_of self.old.state }
        ensures gets { self.new.gets ≡ self.old.gets }
        ensures adds { self.new.adds ≡ self.old.adds }
        ensures ends { self.new.ends
            ≡ record self.old.ends { departing = one_less self.old.ends.departing } }
    {
        self.ends.has_departed(departed);
    }
}
