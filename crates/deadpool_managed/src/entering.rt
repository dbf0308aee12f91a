//! What a get comes to by a reply of its desk that serves it, or that tells it to wait.
ghost use Rattle.std.specs.Prelude.{◌≡◌, ◌≢◌, Option};
ghost use Rattle.deadpool_managed.specs.Get.{AfterServed, IsServing};
ghost use Rattle.deadpool_desk.specs.Replies.{Leaves as LeavesInHand, held_if_served};
ghost use Rattle.deadpool_managed.specs.Phases.{IsPlaced};
ghost use Rattle.deadpool_managed.specs.Steps.{AdvancesAt, held_now, lent, stage_at, turn_at};
ghost use Rattle.deadpool_managed.specs.Stages.{Unpolled};

use crate::work::{Came, Phase, Work};
use crate::{
    AsyncHook, Environment, Kept, Manager, Moment, PoolError, SyncHook, TimeoutType, Timeouts,
};
use deadpool_desk::{Desk, Reply, Step};
use deadpool_parts::deadline::{cannot_wait, deadline_after, is_reached};

impl<M: Manager, A: AsyncHook<M>> Work<M, A> {
    // The first step of a get.
    pub(crate) fn enter<F: SyncHook<M>, D: Desk<Kept<M::Type>>>(
        &mut self,
        timeouts: &Timeouts,
        desk: &mut D,
        environment: &Environment<M, F, A>,
        now: Moment,
    ) -> Came<M::Error>
        requires unpolled { self.old.phase ≡ Phase.Unpolled }
        requires empty { self.old.slot ≡ Option.None }
        requires holds { D.holds desk.old Option.None }
        ensures advanced { AdvancesAt D.Desk
            (lent M.Manager F.SyncHook A.AsyncHook environment.now now timeouts.now)
            desk.old Unpolled desk.new (stage_at self.new) (turn_at result self.new) }
        ensures placed { IsPlaced M.is_ready self.new.phase self.new.slot }
        ensures not_given { result ≢ Came.Given }
        ensures holds { D.holds desk.new (held_now result self.new) }
    {
        let wait = timeouts.wait;
        if cannot_wait(environment.runtime, wait) {
            return self.end(PoolError::NoRuntimeSpecified);
        }
        let deadline = deadline_after(now, wait);
        let wait = !is_reached(deadline, now);
        let reply = desk.make(&Step::Enter { wait }, &mut self.slot);
        self.served(deadline, reply)
    }

    // What a get that asked for a place comes to by the reply, whose object is in its place. It waits until the
    // deadline.
    pub(crate) fn served(&mut self, deadline: Option<Moment>, reply: Reply) -> Came<M::Error>
        requires serving { IsServing reply }
        requires hand { LeavesInHand reply Option.None self.old.slot }
        ensures after { AfterServed deadline reply self.old.slot
            (stage_at self.new) (turn_at result self.new) }
        ensures placed { IsPlaced M.is_ready self.new.phase self.new.slot }
        ensures not_given { result ≢ Came.Given }
        ensures holds { held_now result self.new ≡ held_if_served reply }
    {
        match reply {
            Reply::Object { left } => {
                self.phase = Phase::Served(left);
                Came::More
            }
            Reply::Create => {
                self.phase = Phase::Creating(None, None);
                Came::More
            }
            Reply::Going => {
                self.phase = Phase::Going(None);
                Came::Pending
            }
            Reply::Waiting(ticket) => {
                self.phase = Phase::Queued(ticket, deadline);
                Came::Pending
            }
            Reply::Exhausted => self.end(PoolError::NumbersExhausted),
            Reply::Closed | Reply::Unknown => self.end(PoolError::Closed),
            Reply::Full | Reply::Expired => self.end(PoolError::Timeout(TimeoutType::Wait)),
            Reply::Crowded => self.end(PoolError::Crowded),
            Reply::OutOfMemory => self.end(PoolError::OutOfMemory),
            _ => unreachable!(),
        }
    }
}
