//! What a core says of itself between two steps: its handles, its counts, its idle objects, and who in a queue was
//! granted what it asks for.
ghost use Rattle.std.specs.Prelude.{◌≡◌, ◌↔◌, ◌+◌, ◌<◌, IsTrue, min, ◌&&◌, ◌==◌, length, nat_lt, not, option_copied};
ghost use Rattle.std.specs.Prelude.{slice_get};
ghost use Rattle.deadpool_gate.specs.Numbers.{has_number, largest_usize};
ghost use Rattle.deadpool_unmanaged.specs.Closing.{is_drained};
ghost use Rattle.deadpool_unmanaged.specs.Counts.{counts_of};
ghost use Rattle.deadpool_unmanaged.specs.Room.{HasRoom, most_listed, most_next_add, most_next_get};
ghost use Rattle.deadpool_unmanaged.specs.State.{free_objects, free_room, get_would_queue, add_would_queue};
ghost use Rattle.deadpool_unmanaged.specs.State.{listed};

use super::Core;
use crate::Counts;
use deadpool_gate::gate::Ticket;

impl<T: Drop> Core<T> {
    /// Whether the pool was closed.
    pub fn is_closed(&self) -> bool
        ensures { result ≡ not self.now.pool.is_open }
    {
        self.gets.is_closed()
    }

    /// Whether the pool was closed and no object is left, idle or out. It stays so.
    pub fn is_drained(&self) -> bool
        ensures { result ≡ is_drained self.now.pool }
    {
        self.is_closed() && self.idle.is_empty() && self.outside == 0
    }

    /// Whether a pool handle is left.
    pub fn has_handle(&self) -> bool
        ensures { result ≡ nat_lt 0 self.now.pool.handles }
    {
        self.handles > 0
    }

    /// Whether just one pool handle is left, which takes the idle objects with it.
    pub fn is_last_handle(&self) -> bool
        ensures { result ≡ (self.now.pool.handles == 1) }
    {
        self.handles == 1
    }

    /// The idle object at this position. The last is the next to go out.
    pub fn idle_at(&self, at: usize) -> Option<&T>
        ensures { option_copied result ≡ slice_get self.now.pool.idle at }
    {
        self.idle.get(at)
    }

    /// What the pool counts.
    pub fn counts(&self) -> Counts
        ensures { result ≡ counts_of self.now.pool }
    {
        Counts {
            limit: self.limit,
            size: self.idle.len() + self.outside,
            gets_granted: self.gets.granted(),
            gets_waiting: self.gets.waiting(),
            adds_granted: self.adds.granted(),
            adds_waiting: self.adds.waiting(),
        }
    }

    /// The greatest number that the ticket of the next get in the queue may have. If there is room for that get it is
    /// below the room.
    pub fn most_next_get(&self) -> usize
        ensures { result ≡ most_next_get self.now }
    {
        self.gets.most_next_number()
    }

    /// The greatest number that the ticket of the next add in the queue may have. If there is room for that add it is
    /// below the room.
    pub fn most_next_add(&self) -> usize
        ensures { result ≡ most_next_add self.now }
    {
        self.adds.most_next_number()
    }

    /// How many gets the queue has room for.
    pub fn gets_room(&self) -> usize
        ensures { result ≡ self.now.gets_room }
    {
        self.gets.room()
    }

    /// How many adds the queue has room for.
    pub fn adds_room(&self) -> usize
        ensures { result ≡ self.now.adds_room }
    {
        self.adds.room()
    }

    /// Whether each queue has room for all that may wait in it and all that may be granted what they ask for. As long
    /// as it has, none is refused for want of memory.
    pub fn has_room_for_waiting(&self) -> bool
        ensures { IsTrue result ↔ HasRoom self.now }
    {
        let most = self.most_listed();
        let room = self.gets_room().min(self.adds_room());
        most <= room.min(usize::MAX / 2)
    }

    // How many a queue lists at most, or the greatest number.
    pub(super) fn most_listed(&self) -> usize
        ensures { result ≡ min (most_listed self.now) largest_usize }
    {
        self.max_waiting.saturating_add(self.limit)
    }

    // How many idle objects no get was granted.
    pub(super) fn free_objects(&self) -> usize
        ensures { result ≡ free_objects self.now.pool }
    {
        self.gets.room_within(self.idle.len(), 0)
    }

    // How much room no add was granted.
    pub(super) fn free_room(&self) -> usize
        ensures { result ≡ free_room self.now.pool }
    {
        self.adds
            .room_within(self.limit - self.idle.len() - self.outside, 0)
    }

    // Whether a get that finds no object may join the queue: it is willing to wait, and fewer wait than may.
    #[inline(always)]
    pub(super) fn get_may_join(&self, wait: bool) -> bool
        ensures { result
            ≡ (wait && nat_lt (length self.now.pool.gets.waiting) self.now.pool.max_waiting) }
    {
        wait && self.gets.waiting() < self.max_waiting
    }

    // The same of an add that finds no room.
    #[inline(always)]
    pub(super) fn add_may_join(&self, wait: bool) -> bool
        ensures { result
            ≡ (wait && nat_lt (length self.now.pool.adds.waiting) self.now.pool.max_waiting) }
    {
        wait && self.adds.waiting() < self.max_waiting
    }

    /// Whether a get that enters now and wants to wait joins the queue: the pool is open, has no free object, and fewer
    /// gets wait than may.
    pub fn get_would_queue(&self) -> bool
        ensures would { result ≡ get_would_queue self.now.pool }
        ensures room { IsTrue result → HasRoom self.now
            → listed self.now.pool.gets < self.now.gets_room }
    {
        !self.gets.is_closed() && self.free_objects() == 0 && self.get_may_join(true)
    }

    /// Whether an add that enters now and wants to wait joins the queue: the pool is open, has no free room, and fewer
    /// adds wait than may.
    pub fn add_would_queue(&self) -> bool
        ensures would { result ≡ add_would_queue self.now.pool }
        ensures room { IsTrue result → HasRoom self.now
            → listed self.now.pool.adds < self.now.adds_room }
    {
        !self.gets.is_closed() && self.free_room() == 0 && self.add_may_join(true)
    }

    /// Whether the get in the queue with this ticket was granted an object, which it has not taken yet. Nothing
    /// changes.
    pub fn get_is_granted(&mut self, ticket: Ticket) -> bool
        ensures granted { result ≡ has_number ticket self.old.pool.gets.granted }
        ensures same { self.new ≡ self.old }
    {
        self.gets.has_place(ticket)
    }

    /// Whether the add in the queue with this ticket was granted room, which it has not taken yet. Nothing changes.
    pub fn add_is_granted(&mut self, ticket: Ticket) -> bool
        ensures granted { result ≡ has_number ticket self.old.pool.adds.granted }
        ensures same { self.new ≡ self.old }
    {
        self.adds.has_place(ticket)
    }
}
