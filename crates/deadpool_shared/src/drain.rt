//! A closing that waits until nothing is left, as a future.
ghost use Rattle.std.specs.Prelude.{◌≡◌, ⊤, true, false, None, is_some};
ghost use Rattle.std.specs.Option.{option_map};
ghost use Rattle.futures.specs.Poll.{IfReady, OnPending};
ghost use Rattle.futures.specs.declared.task.Poll.TheVariants.{Ready};
ghost use Rattle.futures.specs.Task.{Covers, Keeps};
ghost use Rattle.deadpool_shared.specs.Calling.{ByNewCaller};
ghost use Rattle.deadpool_shared.specs.Drains.{DrainsAndTells, EndsEmpty, IsCloser, PollsDrain};

use crate::ledgers::{History, Ledgers};
use crate::pool::Pool;
use crate::shared::Shared;
use deadpool_chronicle::Caller;
use deadpool_history::Line;
use deadpool_lock::{DrainError, Handle, Registered, Registration, wake_at};
use deadpool_managed::gate::Ticket;
use deadpool_managed::{AsyncHook, Clock, Manager, Moment, Status, SyncHook};
use deadpool_parts::deadline::{deadline_after, is_reached};
use futures::Future;
use futures::task::{Context, Poll};
use std::marker::Model;
use std::sync::Wait;
use std::time::Duration;

/// A drain, as a future: its first poll closes the pool, and it ends with the pool's status once nothing is left in it,
/// no object and no get that holds a place or has a creation under way, and what has left is detached and dropped. Then
/// the pool stays empty.
///
/// It borrows a handle and is none itself. Dropping it waits no longer; the pool stays closed. After its end it stays
/// pending.
pub struct Drain<
    'a,
    M: Manager,
    F: SyncHook<M>,
    A: AsyncHook<M>,
    C: Clock,
    R: Wait + Drop,
    L: Ledgers,
> {
    handle: &'a Handle<Shared<M, F, A, C, R, L>>,
    // How long it waits from its first poll on, if not for ever.
    limit: Option<Duration>,
    begun: Option<Begun<L>>,
    // While it waits.
    ticket: Option<Ticket>,
    alarm: Option<C::Alarm>,
    registration: Registration,
    is_over: bool,
}

// What a drain has from its first poll on, by which its caller has closed the pool.
#[derive(Drop)]
struct Begun<L: Ledgers> {
    at: Moment,
    caller: Caller<Line, History<L>>,
    ghost has_closed: { IsCloser caller },
}

impl<'a, M: Manager, F: SyncHook<M>, A: AsyncHook<M>, C: Clock, R: Wait + Drop, L: Ledgers> Model
    for Drain<'a, M, F, A, C, R, L> {
    ghost use Rattle.std.specs.Prelude.{is_some};
    ghost use Rattle.std.specs.Option.{option_map};
    ghost use Rattle.deadpool_shared.specs.Draining.{DrainState};
    ghost use Rattle.deadpool_shared.specs.declared.shared.Shared.{Shared as AllShare};

    ghost Value = { DrainState (AllShare M F A C R L M.Type M.Error M.Creating M.Recycling A.State C.Alarm) };

    ghost view = { λ d. record {
      pool = d.handle.now;
      is_limited = is_some d.limit;
      caller = option_map (λ b. b.caller) d.begun;
      is_over = d.is_over;
    } };
}

impl<'a, M: Manager, F: SyncHook<M>, A: AsyncHook<M>, C: Clock, R: Wait + Drop, L: Ledgers> Drain<
    'a,
    M,
    F,
    A,
    C,
    R,
    L,
> {
    // A drain that was not polled yet.
    fn new(handle: &'a Handle<Shared<M, F, A, C, R, L>>, limit: Option<Duration>) -> Self
        ensures { result ≡ record {
          pool = handle.now;
          is_limited = is_some limit;
          caller = None;
          is_over = false;
        } }
    {
        Drain {
            handle,
            limit,
            begun: None,
            ticket: None,
            alarm: None,
            registration: Registration::new(),
            is_over: false,
        }
    }

    /// Waits no longer, as its drop does, and gives the caller of a drain that was polled, which the history has its
    /// calls of.
    pub fn give_up(self) -> Option<Caller<Line, History<L>>>
        ensures { result ≡ self.entry.caller }
    {
        let Self {
            handle,
            limit: _,
            begun,
            mut ticket,
            alarm: _,
            registration: _,
            is_over: _,
        } = self;
        if ticket.is_some() {
            let spare = handle.shared().leave_drain(&mut ticket);
            drop(spare);
        }
        begun.map(|begun| begun.caller)
    }
}

impl<'a, M: Manager, F: SyncHook<M>, A: AsyncHook<M>, C: Clock, R: Wait + Drop, L: Ledgers> Future
    for Drain<'a, M, F, A, C, R, L> {
    type Output = Result<Status, DrainError>;

    ghost needs = { λ drain s. s ≡ drain.pool.lock.source.id };

    // One that is over gives nothing more.
    ghost gives = { λ drain ended. (drain.is_over ≡ false) × EndsEmpty drain.is_limited ended };

    fn poll(&mut self, cx: &mut Context<'_>) -> Poll<Result<Status, DrainError>>
        ensures value { IfReady result (λ ended.
            (self.old.is_over ≡ false) × EndsEmpty self.old.is_limited ended) }
        ensures again { OnPending result ⊤ }
        ensures same { OnPending result ((x : _)
            → ((self.new.is_over ≡ false) × EndsEmpty self.new.is_limited x)
            → (self.old.is_over ≡ false) × EndsEmpty self.old.is_limited x) }
        ensures registered { OnPending result
            (Covers cx.new (λ s. s ≡ self.new.pool.lock.source.id)) }
        ensures kept { Keeps cx.old cx.new }
        ensures pool { self.new.pool ≡ self.old.pool }
        ensures limited { self.new.is_limited ≡ self.old.is_limited }
        ensures over { IfReady result (λ _. self.new.is_over ≡ true) }
        ensures goes_on { OnPending result (self.new.is_over ≡ self.old.is_over) }
        ensures polled { self.old.is_over ≡ false → PollsDrain self.old.caller result self.new.caller }
        ensures silent { self.old.is_over ≡ true → self.new.caller ≡ self.old.caller }
    {
        let shared = self.handle.shared();
        let registered = self.registration.register(Some(shared.lock.source()), cx);
        if self.is_over {
            return Poll::Pending;
        }
        let now = shared.clock.now();
        let deadline = match &self.begun {
            Some(begun) => deadline_after(begun.at, self.limit),
            None => deadline_after(now, self.limit),
        };
        let polled = poll_begun(
            shared,
            &mut self.begun,
            now,
            is_reached(deadline, now),
            &mut self.ticket,
            registered,
        );
        if polled.is_ready() {
            self.is_over = true;
            self.alarm = None;
        } else {
            wake_at(&shared.clock, deadline, &mut self.alarm, cx);
        }
        polled
    }
}

// A poll by the caller of a drain, which a new one gets at the first.
fn poll_begun<M: Manager, F: SyncHook<M>, A: AsyncHook<M>, C: Clock, R: Wait + Drop, L: Ledgers>(
    shared: &Shared<M, F, A, C, R, L>,
    begun: &mut Option<Begun<L>>,
    now: Moment,
    is_late: bool,
    ticket: &mut Option<Ticket>,
    registered: &mut Registered,
) -> Poll<Result<Status, DrainError>>
    ensures ends { IfReady result (λ ended. EndsEmpty is_late ended) }
    ensures polled { PollsDrain (option_map (λ b. b.caller) begun.old) result
        (option_map (λ b. b.caller) begun.new) }
{
    if let Some(begun) = begun {
        return poll_by(
            shared,
            &mut begun.caller,
            false,
            is_late,
            ticket,
            registered,
        );
    }
    let mut caller = shared.caller();
    let polled = poll_by(shared, &mut caller, true, is_late, ticket, registered);
    *begun = Some(Begun { at: now, caller });
    polled
}

// One section of the lock.
fn poll_by<M: Manager, F: SyncHook<M>, A: AsyncHook<M>, C: Clock, R: Wait + Drop, L: Ledgers>(
    shared: &Shared<M, F, A, C, R, L>,
    caller: &mut Caller<Line, History<L>>,
    is_first: bool,
    is_late: bool,
    ticket: &mut Option<Ticket>,
    registered: &mut Registered,
) -> Poll<Result<Status, DrainError>>
    requires begun { is_first ≡ false → IsCloser caller.old }
    ensures begun { IsCloser caller.new }
    ensures ends { IfReady result (λ ended. EndsEmpty is_late ended) }
    ensures waits { OnPending result (is_late ≡ false) }
    ensures calls { DrainsAndTells is_first result caller.old caller.new }
{
    let mut section = shared.lock.begin();
    let (polled, spare) = section
        .kept()
        .drain(caller, is_first, is_late, ticket, registered);
    shared.lock.end(section, caller);
    drop(spare);
    polled
}

impl<'a, M: Manager, F: SyncHook<M>, A: AsyncHook<M>, C: Clock, R: Wait + Drop, L: Ledgers> Drop
    for Drain<'a, M, F, A, C, R, L> {
    fn drop(self) {
        drop(self.give_up());
    }
}

impl<M: Manager, F: SyncHook<M>, A: AsyncHook<M>, C: Clock, R: Wait + Drop, L: Ledgers, W> Pool<
    M,
    F,
    A,
    C,
    R,
    L,
    W,
> {
    /// Closes the pool, at the first poll, and waits until nothing is left in it: all objects are back and were given
    /// up, each detached and dropped, and no get prepares one or has one created. It ends with the status of that
    /// moment, or with `OutOfMemory` or `Departing` if there was no memory to wait by, and never with `Timeout`.
    ///
    /// An object that its own task keeps never comes back, nor does a get that nobody polls. A `detach` or a drop of an
    /// object that waits for a drain waits for itself.
    pub fn drain(&self) -> Drain<'_, M, F, A, C, R, L>
        ensures { result ≡ record {
          pool = self.now;
          is_limited = false;
          caller = None;
          is_over = false;
        } }
    {
        Drain::new(self.handle(), None)
    }

    /// `drain`, which waits no longer than this from its first poll on, by the pool's clock. Then it ends with
    /// `Timeout`, or with `Departing` if only what has left is still to be dropped, and the status of that moment. The
    /// pool stays closed.
    pub fn drain_for(&self, limit: Duration) -> Drain<'_, M, F, A, C, R, L>
        ensures { result ≡ record {
          pool = self.now;
          is_limited = true;
          caller = None;
          is_over = false;
        } }
    {
        Drain::new(self.handle(), Some(limit))
    }

    /// Closes the pool, and does not wait: `Timeout` says that something is left in it, with the status, and
    /// `Departing` that what has left is still to be dropped.
    pub fn try_drain(&self) -> Result<Status, DrainError>
        ensures ends { EndsEmpty true result }
        ensures calls { ByNewCaller self.now.opening.log (DrainsAndTells true (Ready result)) }
    {
        let mut caller = self.handle().shared().caller();
        self.try_drain_by(&mut caller)
    }

    /// `try_drain` by a caller that the history has its calls of: the close, and the status that it gives.
    pub fn try_drain_by(&self, caller: &mut Caller<Line, History<L>>) -> Result<Status, DrainError>
        ensures ends { EndsEmpty true result }
        ensures calls { DrainsAndTells true (Ready result) caller.old caller.new }
    {
        let shared = self.handle().shared();
        let (mut ticket, mut nobody) = (None, Registered::nobody());
        let is_late = true;
        match poll_by(shared, caller, true, is_late, &mut ticket, &mut nobody) {
            Poll::Ready(ended) => ended,
            Poll::Pending => unreachable!(),
        }
    }
}
