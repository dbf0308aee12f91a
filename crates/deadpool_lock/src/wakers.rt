//! The wakers of those that wait in a gate. A ticket's number says where its waker is, so none is searched for.
ghost use Rattle.std.specs.Prelude.{◌≡◌, ◌⊎◌, ◌<◌, ◌≤◌, true, false, is_some, nat_lt, slice_set, length, [], None};
ghost use Rattle.std.specs.Prelude.{IsTrue, IsFalse, OnOk, OnErr};
ghost use Rattle.deadpool_lock.specs.Places.{Follows, left_in, taken_out, waker_at};
ghost use Rattle.deadpool_lock.specs.Places.{with_places, with_room};

use crate::{Owed, Registered};
use deadpool_gate::gate::Ticket;
use futures::task::Waker;
use std::alloc::{AllocError, Global};
use std::marker::Model;
use std::mem;

/// The wakers of those that wait in a gate, each in the place of its ticket's number. A waker that is dropped wakes its
/// task: what leaves here is the caller's, who lets go of it with the lock given back.
#[derive(Drop)]
pub struct Wakers {
    places: Vec<Option<Waker>>,
}

impl Model for Wakers {
    ghost use Rattle.std.specs.Prelude.{List, Option};
    ghost use Rattle.futures.specs.declared.task.waker.Waker.{Waker};

    ghost Value = { List (Option Waker) };

    ghost view = { λ w. w.places.items };
}

impl Wakers {
    /// No place, and no memory for one.
    pub fn new(alloc: Global) -> Self
        ensures { result ≡ [] }
    {
        Wakers {
            places: Vec::new(alloc),
        }
    }

    /// Sees that there are so many places. There never are fewer again. If there is no memory for them, the places are
    /// as they were.
    pub fn make_places(&mut self, count: usize) -> Result<(), AllocError>
        ensures places { OnOk result (self.new ≡ with_places count self.old) }
        ensures enough { OnOk result (count ≤ length self.new) }
        ensures kept { length self.old ≤ length self.new }
        ensures refused { OnErr result (self.new ≡ self.old) }
        ensures wanting { OnErr result (length self.old < count) }
    {
        if count <= self.places.len() {
            return Ok(());
        }
        self.places.reserve(count - self.places.len())?;
        while self.places.len() < count {
            self.places.push_reserved(None);
        }
        Ok(())
    }

    /// Sees that there is a place for a ticket of this number, as the gate names it to whom it lists next, and a waker
    /// for that place. If there is no waker, or no memory for the place, the places are as they were.
    pub fn make_room(&mut self, number: usize, registered: &Registered) -> Result<(), AllocError>
        ensures room { OnOk result (self.new ≡ with_room number self.old) }
        ensures place { OnOk result (number < length self.new) }
        ensures kept { length self.old ≤ length self.new }
        ensures heard { OnOk result (is_some registered.now ≡ true) }
        ensures refused { OnErr result (self.new ≡ self.old) }
        ensures wanting { OnErr result
            ((is_some registered.now ≡ false) ⊎ (length self.old ≤ number)) }
    {
        if !registered.has_waker() {
            return Err(AllocError);
        }
        if number < self.places.len() {
            return Ok(());
        }
        match number.checked_add(1) {
            Some(count) => self.make_places(count),
            None => Err(AllocError),
        }
    }

    /// Exchanges the waker of a ticket. Where no other is lent, the one that is kept stays. False if the ticket has no
    /// place, and nothing has changed.
    pub fn exchange(&mut self, ticket: Ticket, registered: &mut Registered) -> bool
        ensures has { result ≡ nat_lt ticket (length self.old) }
        ensures kept { length self.new ≡ length self.old }
        ensures exchanged { IsTrue result → (self.new ≡ left_in ticket registered.old self.old)
            × (registered.new ≡ taken_out ticket registered.old self.old) }
        ensures unchanged { IsFalse result → (self.new ≡ self.old)
            × (registered.new ≡ registered.old) }
    {
        let number = ticket.number();
        let has_place = number < self.places.len();
        if has_place && registered.has_waker() {
            mem::swap(&mut self.places[number], &mut registered.waker);
        }
        has_place
    }

    /// Takes out the waker of a ticket whose holder is told. It is to be called.
    pub fn tell(&mut self, ticket: Ticket) -> Option<Owed>
        ensures waker { result ≡ waker_at ticket self.old }
        ensures places { self.new ≡ slice_set self.old ticket None }
        ensures kept { length self.new ≡ length self.old }
    {
        let waker = self.take(ticket)?;
        Some(Owed::new(waker))
    }

    /// Takes out the waker of a ticket.
    pub fn take(&mut self, ticket: Ticket) -> Option<Waker>
        ensures waker { result ≡ waker_at ticket self.old }
        ensures places { self.new ≡ slice_set self.old ticket None }
        ensures kept { length self.new ≡ length self.old }
    {
        let place = self.places.get_mut(ticket.number())?;
        place.take()
    }

    /// Goes with one poll of a party, which had the ticket `before` and has the ticket `after`. If it waits, its waker
    /// is kept, in exchange for the one that was, which stays if it has none; if it waits no longer, the answer is the
    /// waker that was kept for it. A waker that finds no place is the answer too.
    pub fn follow(
        &mut self,
        before: Option<Ticket>,
        after: Option<Ticket>,
        registered: &mut Registered,
    ) -> Option<Waker>
        ensures follows { Follows before after self.old registered.old result
            self.new registered.new }
        ensures kept { length self.new ≡ length self.old }
    {
        match (before, after) {
            (_, Some(ticket)) => {
                if self.exchange(ticket, registered) {
                    None
                } else {
                    registered.waker.take()
                }
            }
            (Some(ticket), None) => self.take(ticket),
            (None, None) => None,
        }
    }
}
