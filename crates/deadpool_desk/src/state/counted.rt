//! What a core says of itself between two steps: its handles, its counts, its idle objects, and who in the queue has a
//! place.
ghost use Rattle.std.specs.Prelude.{◌≡◌, ◌<◌, ◌-◌, ◌^◌, ◌&&◌, ◌==◌, ◌↔◌, not, min, length, nat_lt};
ghost use Rattle.std.specs.Prelude.{IsTrue, option_copied, slice_get};
ghost use Rattle.deadpool_gate.specs.Numbers.{has_number};
ghost use Rattle.deadpool_desk.specs.Closing.{is_drained};
ghost use Rattle.deadpool_desk.specs.CoreState.{HasRoom, listed, most_next_ticket};
ghost use Rattle.deadpool_desk.specs.Counts.{counts_of};
ghost use Rattle.deadpool_desk.specs.DeskState.{least_idle, would_queue};
ghost use Rattle.deadpool_desk.specs.DeskSteps.{surplus};

use super::Core;
use crate::gate::Ticket;
use crate::{Counts, Slot};

impl<T: Drop> Core<T> {
    /// Whether a pool handle is left.
    pub fn has_handle(&self) -> bool
        ensures { result ≡ nat_lt 0 self.now.desk.handles }
    {
        self.handles > 0
    }

    /// Whether just one pool handle is left, which takes the idle objects with it.
    pub fn is_last_handle(&self) -> bool
        ensures { result ≡ (self.now.desk.handles == 1) }
    {
        self.handles == 1
    }

    /// The idle object at this position, front to back.
    pub fn idle_at(&self, at: usize) -> Option<&Slot<T>>
        ensures { option_copied result ≡ slice_get self.now.desk.idle at }
    {
        self.ring.get(at)
    }

    /// How many idle objects a resize to this limit gives up: those at the front. It is 0 once the pool has closed.
    pub fn surplus(&self, limit: usize) -> usize
        ensures { result ≡ surplus limit self.now.desk }
    {
        if self.gate.is_closed() {
            return 0;
        }
        let idle = self.ring.len();
        let excess = (idle + self.places.outside).saturating_sub(limit);
        excess.min(idle.saturating_sub(self.min_idle.min(limit)))
    }

    /// Whether the pool has closed.
    pub fn is_closed(&self) -> bool
        ensures { result ≡ not self.now.desk.is_open }
    {
        self.gate.is_closed()
    }

    /// Whether the pool has closed and nothing is left in it: no object, and no get that holds a place or has a
    /// creation under way. It stays so.
    pub fn is_drained(&self) -> bool
        ensures { result ≡ is_drained self.now.desk }
    {
        let left = self.ring.len()
            + self.places.outside
            + self.places.going
            + self.places.creations;
        left == 0 && self.gate.is_closed()
    }

    /// Whether a get that enters now, and is willing to wait, has to join the queue: the pool is open, no place is
    /// free, and fewer wait than may.
    pub fn would_queue(&self) -> bool
        ensures would { result ≡ would_queue self.now.desk }
        ensures room { IsTrue result → HasRoom self.now
            → listed self.now < min self.now.queue_room (2 ^ 63 - 1) }
    {
        !self.gate.is_closed() && self.places.room(&self.gate) == 0 && self.may_join(true)
    }

    // Whether a get that finds no place may join the queue: it is willing to wait, and fewer wait than may.
    pub(super) fn may_join(&self, wait: bool) -> bool
        ensures { result
            ≡ (wait && nat_lt (length self.now.desk.waiting) self.now.desk.max_waiting) }
    {
        wait && self.gate.waiting() < self.max_waiting
    }

    /// What the pool counts.
    pub fn counts(&self) -> Counts
        ensures { result ≡ counts_of self.now.desk }
    {
        let idle = self.ring.len();
        let granted = self.gate.granted();
        let size = idle + self.places.outside;
        let served = granted + self.places.going;
        Counts {
            limit: self.places.limit,
            size,
            places: served + self.places.creations + self.places.outside,
            reach: size + self.places.creations + served.saturating_sub(idle),
            granted,
            waiting: self.gate.waiting(),
        }
    }

    /// Whether the get in the queue with this ticket was granted a place, which it has not taken yet. Nothing changes.
    pub fn is_granted(&mut self, ticket: Ticket) -> bool
        ensures granted { result ≡ has_number ticket self.old.desk.granted }
        ensures same { self.new ≡ self.old }
    {
        self.gate.has_place(ticket)
    }

    /// The greatest number that the ticket of the next get in the queue may have.
    pub fn most_next_ticket(&self) -> usize
        ensures { result ≡ most_next_ticket self.now }
    {
        self.gate.most_next_number()
    }

    /// How many gets the queue can list before it has to find memory. It never falls.
    pub fn queue_room(&self) -> usize
        ensures { result ≡ self.now.queue_room }
    {
        self.gate.room()
    }

    /// Whether the queue has room for all gets that may wait in it and all that may be granted a place. As long as it
    /// has, none is refused for want of memory.
    pub fn has_room_for_waiting(&self) -> bool
        ensures { IsTrue result ↔ HasRoom self.now }
    {
        let most = self.max_waiting.saturating_add(self.ring.capacity());
        most <= self.gate.room().min(usize::MAX / 2)
    }

    // How many objects stay idle, if as many are.
    pub(super) fn least_idle(&self) -> usize
        ensures { result ≡ least_idle self.now.desk.limit self.now.desk }
    {
        self.min_idle.min(self.places.limit)
    }
}
