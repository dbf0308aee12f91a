//! A gate at what there is so much of in all, objects or room: how much of it is free, and the granting of that.

ghost use Rattle.std.specs.Prelude.{◌≡◌, ◌+◌, ◌-◌, ◌*◌, ◌<◌, ◌≤◌, ◌^◌, not, [], length};
ghost use Rattle.deadpool_gate.specs.Gate.{granted_tickets, waiting_tickets, unnotified_tickets, RisesAtMost};
ghost use Rattle.deadpool_gate.specs.Queue.{members, served};
ghost use Rattle.deadpool_gate.specs.Served.{NobodyWaits, free_of, queue_of};

use super::Gate;

impl Gate {
    /// How many of `total` places are free: those that others do not hold, `held` of them, and no listed waiter has.
    #[inline(always)]
    pub fn room_within(&self, total: usize, held: usize) -> usize
        requires { held < 2 ^ 63 }
        ensures { result ≡ free_of total held (queue_of self.now.waiters) }
    {
        total.saturating_sub(self.granted() + held)
    }

    /// Gives those of `total` places that are free to waiters, the earliest first; others hold `held`. In an open gate
    /// nobody waits then while a place is free. Nobody is told of it here. While nobody waits it changes nothing.
    #[inline(always)]
    pub fn settle_within(&mut self, total: usize, held: usize)
        requires { held < 2 ^ 63 }
        ensures queue { queue_of self.new.waiters ≡ served (not self.old.is_closed)
            (free_of total held (queue_of self.old.waiters)) (queue_of self.old.waiters) }
        ensures nobody_waits { NobodyWaits (not self.new.is_closed)
            (free_of total held (queue_of self.new.waiters)) (queue_of self.new.waiters) }
        ensures within { length (granted_tickets self.new.waiters)
            ≤ length (granted_tickets self.old.waiters)
            + free_of total held (queue_of self.old.waiters) }
        ensures members { members (queue_of self.new.waiters)
            ≡ members (queue_of self.old.waiters) }
        ensures unnotified { unnotified_tickets self.new.waiters ≡ unnotified_tickets self.old.waiters }
        ensures closed { self.new.is_closed ≡ self.old.is_closed }
        ensures capacity { self.new.capacity ≡ self.old.capacity }
        ensures quiet { waiting_tickets self.old.waiters ≡ [] → self.new ≡ self.old }
        ensures accesses { RisesAtMost (2 * free_of total held (queue_of self.old.waiters))
            self.old.accesses self.new.accesses }
    {
        if self.waiting() > 0 {
            let room = self.room_within(total, held);
            self.settle(room);
        }
    }
}
