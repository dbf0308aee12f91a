//! Those that wait until nothing is left in a pool that has closed, and what has left it and is still to be dropped.
ghost use Rattle.std.specs.Prelude.{◌≡◌, ◌==◌, ◌<◌, ◌⊎◌, true, false, is_some, length, if◌then◌else◌};
ghost use Rattle.std.specs.Prelude.{[], None, IfOk, IfSome, IsSomeAnd, OnErr, OnOk};
ghost use Rattle.deadpool_gate.specs.Gate.{Joins, due_ticket, find_waiter, tell_next, waiting_count, without_waiter};
ghost use Rattle.deadpool_lock.specs.Ends.{Departs, Stands, WaitsOn};
ghost use Rattle.deadpool_lock.specs.Ends.{after_asking, end_waker, has_come, listed, one_less, waits_under, without};
ghost use Rattle.std.specs.Option.{option_or};
ghost use Rattle.deadpool_lock.specs.Places.{Follows, taken_out, waker_at, with_room};

use crate::{Owed, Registered, Wakers};
use deadpool_gate::gate::{Ask, Entry, Gate, Ticket, Withdrawn};
use futures::task::Waker;
use std::alloc::{AllocError, Global};
use std::marker::Model;
use std::mem;

/// Stands for what one holder has let go of, and has not detached and dropped yet. It takes no bytes. It cannot be
/// dropped: `Step::has_departed` alone takes it, so that no holder leaves out to say that it is done, and the step that
/// says so tells those that wait for the end.
pub struct Departure(());

/// That what a holder has let go of is dropped, as a step says it. It cannot be dropped: `Ends::has_departed` alone
/// takes it.
pub struct Departed(());

impl Departed {
    // Said by a step.
    pub(crate) fn new(departure: Departure) -> Self {
        let Departure(()) = departure;
        Departed(())
    }
}

/// The tasks that wait for the end of a pool, in order of arrival, each with its waker, and how many holders have let
/// go of something that they still have to drop. One that is told leaves. A ticket under which nobody is listed is
/// nobody's.
#[derive(Drop)]
pub struct Ends {
    gate: Gate,
    wakers: Wakers,
    departing: u64,
}

impl Model for Ends {
    ghost use Rattle.std.specs.Prelude.{length};
    ghost use Rattle.deadpool_lock.specs.Ends.{EndsState, HavePlaces};

    ghost Value = { EndsState };

    ghost view = { λ e. record { line = e.gate; wakers = e.wakers; departing = e.departing } };

    ghost invariant = { λ e. HavePlaces e.gate.waiters (length e.wakers) };
}

impl Ends {
    /// Nobody waits. It takes no memory until somebody does.
    pub fn new(alloc: Global) -> Self
        ensures waiters { result.line.waiters ≡ [] }
        ensures wakers { result.wakers ≡ [] }
        ensures departing { result.departing ≡ 0 }
    {
        Ends {
            gate: Gate::new(alloc),
            wakers: Wakers::new(alloc),
            departing: 0,
        }
    }

    /// How many tasks wait.
    pub fn waiting(&self) -> usize
        ensures { result ≡ waiting_count self.now.line.waiters }
    {
        self.gate.waiting()
    }

    /// How many holders have let go of something that they have not dropped yet.
    pub fn departing(&self) -> u64
        ensures { result ≡ self.now.departing }
    {
        self.departing
    }

    /// Whether nobody waits.
    pub fn is_empty(&self) -> bool
        ensures { result ≡ (waiting_count self.now.line.waiters == 0) }
    {
        self.waiting() == 0
    }

    /// Whether the end has come of a pool that is drained, or is not: nobody has anything of it to drop either.
    pub fn has_come(&self, is_drained: bool) -> bool
        ensures { result ≡ has_come is_drained self.now }
    {
        is_drained && self.departing == 0
    }

    /// A holder lets go of something. It counts until it says that it has dropped that, and once, whatever it lets go
    /// of.
    pub fn depart(&mut self, departure: &mut Option<Departure>)
        ensures { Departs true self.old departure.old self.new departure.new }
    {
        match mem::replace(departure, Some(Departure(()))) {
            Some(Departure(())) => {}
            None => self.departing = self.departing.saturating_add(1),
        }
    }

    /// What a holder has let go of is detached and dropped.
    pub fn has_departed(&mut self, departed: Departed)
        ensures { self.new ≡ record self.old { departing = one_less self.old.departing } }
    {
        let Departed(()) = departed;
        if self.departing != u64::MAX {
            self.departing = self.departing.saturating_sub(1);
        }
    }

    /// A task waits on, or from now on if it does not wait under its ticket, and its waker is kept in exchange for the
    /// one that was, which stays if it has none. `AllocError` says that there was no memory for one task more, or none
    /// for its waker: it does not wait.
    pub fn wait(
        &mut self,
        ticket: &mut Option<Ticket>,
        registered: &mut Registered,
    ) -> Result<(), AllocError>
        ensures stands { OnOk result (IsSomeAnd ticket.new (λ at.
            Stands at (option_or registered.old (waker_at at self.old.wakers)) self.new)) }
        ensures waits { OnOk result (IsSomeAnd ticket.new (λ at. WaitsOn
            (waits_under ticket.old self.old.line) ticket.old self.old registered.old at self.new)) }
        ensures heard { waits_under ticket.old self.old.line ≡ false
            → OnOk result (is_some registered.old ≡ true) }
        ensures exchanged { OnOk result (IsSomeAnd ticket.new (λ at.
            registered.new ≡ taken_out at registered.old self.old.wakers)) }
        ensures refused { OnErr result ((waits_under ticket.old self.old.line ≡ false)
            × (ticket.new ≡ None) × (registered.new ≡ registered.old)
            × (self.new.line.waiters ≡ after_asking ticket.old self.old.line)) }
        ensures departing { self.new.departing ≡ self.old.departing }
    {
        let at = match self.still_waits(ticket.take()) {
            Some(at) => at,
            None => self.join(registered)?,
        };
        *ticket = Some(at);
        self.wakers.exchange(at, registered);
        Ok(())
    }

    // The ticket under which a task waits, if it does. Otherwise it is in the line no longer.
    fn still_waits(&mut self, ticket: Option<Ticket>) -> Option<Ticket>
        ensures ticket { result ≡ (if waits_under ticket self.old.line then ticket else None) }
        ensures line { self.new.line.waiters ≡ after_asking ticket self.old.line }
        ensures waits { waits_under ticket self.old.line ≡ true
            → self.new.line.waiters ≡ self.old.line.waiters }
        ensures listed { IfSome result (λ at. is_some (find_waiter at self.new.line.waiters) ≡ true) }
        ensures place { IfSome result (λ at. at < length self.new.wakers) }
        ensures wakers { self.new.wakers ≡ self.old.wakers }
        ensures departing { self.new.departing ≡ self.old.departing }
    {
        let at = ticket?;
        match self.gate.ask(at) {
            Ask::Waiting => Some(at),
            _ => None,
        }
    }

    // One task more waits, with a place for its waker, which it has.
    fn join(&mut self, registered: &Registered) -> Result<Ticket, AllocError>
        ensures joins { IfOk result (λ at.
            Joins self.old.line.waiters (Entry.Waiting at) self.new.line.waiters) }
        ensures places { IfOk result (λ at. self.new.wakers ≡ with_room at self.old.wakers) }
        ensures place { IfOk result (λ at. at < length self.new.wakers) }
        ensures heard { OnOk result (is_some registered.now ≡ true) }
        ensures refused { OnErr result (self.new.line.waiters ≡ self.old.line.waiters) }
        ensures departing { self.new.departing ≡ self.old.departing }
    {
        self.wakers.make_room(self.gate.next_number(), registered)?;
        match self.gate.enter(0, true) {
            Entry::Waiting(ticket) => Ok(ticket),
            _ => Err(AllocError),
        }
    }

    /// A task waits no longer, if it did. Its waker is given out.
    pub fn leave(&mut self, ticket: &mut Option<Ticket>) -> Option<Waker>
        ensures ticket { ticket.new ≡ None }
        ensures line { self.new.line.waiters ≡ without ticket.old self.old.line.waiters }
        ensures wakers { Follows (listed ticket.old self.old.line) None
            self.old.wakers None result self.new.wakers None }
        ensures departing { self.new.departing ≡ self.old.departing }
    {
        let at = ticket.take()?;
        match self.gate.withdraw(at) {
            Withdrawn::Unknown => None,
            _ => self.wakers.take(at),
        }
    }

    /// The end has come: the first that waits is told, by the waker that is given out, and waits no longer.
    pub fn take_wake(&mut self) -> Option<Owed>
        ensures waker { result ≡ end_waker self.old }
        ensures left { IfSome (due_ticket true self.old.line.waiters) (λ t. self.new.line.waiters
            ≡ without_waiter t (tell_next true self.old.line.waiters)) }
        ensures line { self.new.line.waiters ≡ without (due_ticket true self.old.line.waiters)
            (tell_next true self.old.line.waiters) }
        ensures wakers { Follows (due_ticket true self.old.line.waiters) None
            self.old.wakers None result self.new.wakers None }
        ensures departing { self.new.departing ≡ self.old.departing }
    {
        self.gate.close();
        let at = self.gate.take_wake()?;
        self.gate.withdraw(at);
        self.wakers.tell(at)
    }
}
