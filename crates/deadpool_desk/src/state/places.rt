//! The places of a pool: how many there are, and what holds those that no get in the queue has.
//!
//! A step may leave places free while gets wait, and settles them before it ends. So these are functions over the
//! counts and the queue alone, and not over a core, which is settled.
ghost use Rattle.std.specs.Prelude.{◌≡◌, ◌+◌, ◌-◌, ◌<◌, ◌≤◌, ◌^◌, ◌++◌, not, length, take, drop, max};
ghost use Rattle.deadpool_gate.specs.Gate.{granted_tickets, waiting_tickets, unnotified_tickets};
ghost use Rattle.deadpool_gate.specs.Served.{NobodyWaits, queue_of};
ghost use Rattle.deadpool_desk.specs.Places.{grants_at, held_at};

use crate::gate::Gate;

// How many places there are, and how many of them are held, by what holds them.
#[derive(Drop)]
pub(super) struct Places {
    pub limit: usize,
    // Of gets that hold nothing else.
    pub going: usize,
    // Of gets with a creation under way.
    pub creations: usize,
    // Of objects: those under preparation and those out.
    pub outside: usize,
}

impl Places {
    // None is held.
    pub fn new(limit: usize) -> Places
        ensures { result ≡ record { limit = limit; going = 0; creations = 0; outside = 0 } }
    {
        Places {
            limit,
            going: 0,
            creations: 0,
            outside: 0,
        }
    }

    // How many are held by what is no get in the queue. (In this order rustc makes a get one instruction shorter.)
    #[inline(always)]
    fn held(&self) -> usize
        requires { self.now.going + self.now.creations + self.now.outside < 2 ^ 63 }
        ensures { result ≡ self.now.going + self.now.creations + self.now.outside }
    {
        self.outside + self.creations + self.going
    }

    // How many more there are than are held, those included that the gate has granted.
    #[inline(always)]
    pub fn room(&self, gate: &Gate) -> usize
        requires { held_at gate.now self.now < 2 ^ 63 }
        ensures { result ≡ self.now.limit - held_at gate.now self.now }
    {
        gate.room_within(self.limit, self.held())
    }

    // Grants the free places to the earliest that wait.
    #[inline(always)]
    pub fn settle(&self, gate: &mut Gate)
        requires { held_at gate.old self.now < 2 ^ 63 }
        ensures granted { granted_tickets gate.new.waiters ≡ granted_tickets gate.old.waiters
            ++ take (grants_at gate.old self.now) (waiting_tickets gate.old.waiters) }
        ensures waiting { waiting_tickets gate.new.waiters
            ≡ drop (grants_at gate.old self.now) (waiting_tickets gate.old.waiters) }
        ensures fewer { length (waiting_tickets gate.new.waiters)
            ≤ length (waiting_tickets gate.old.waiters) }
        ensures queue { granted_tickets gate.new.waiters ++ waiting_tickets gate.new.waiters
            ≡ granted_tickets gate.old.waiters ++ waiting_tickets gate.old.waiters }
        ensures unnotified { unnotified_tickets gate.new.waiters ≡ unnotified_tickets gate.old.waiters }
        ensures closed { gate.new.is_closed ≡ gate.old.is_closed }
        ensures room { gate.new.capacity ≡ gate.old.capacity }
        ensures held { held_at gate.new self.now
            ≤ max (held_at gate.old self.now) self.now.limit }
        ensures nobody_waits { NobodyWaits (not gate.new.is_closed)
            (self.now.limit - held_at gate.new self.now) (queue_of gate.new.waiters) }
    {
        gate.settle_within(self.limit, self.held());
    }
}
