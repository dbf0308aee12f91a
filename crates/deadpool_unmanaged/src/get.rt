//! A get, as a state that its owner polls.
ghost use Rattle.std.specs.Prelude.{◌≡◌, ◌≢◌, ◌<◌, IfSome};
ghost use Rattle.deadpool_gate.specs.Room.{IsFull};
ghost use Rattle.deadpool_unmanaged.specs.Gets.{PollsGet, CancelsGet, begun, ticket_of, deadline_of, stage_after};
ghost use Rattle.deadpool_unmanaged.specs.Gets.{turn_after};
ghost use Rattle.deadpool_unmanaged.specs.Queueing.{get_joins};
ghost use Rattle.deadpool_unmanaged.specs.Room.{HasRoom, SameRoom};
ghost use Rattle.deadpool_unmanaged.specs.State.{listed};

use crate::state::Core;
use crate::{Moment, PoolError, Reply, Runtime, Step};
use deadpool_gate::gate::Ticket;
use deadpool_parts::deadline::{cannot_wait, deadline_after, is_reached};
use futures::task::Poll;
use std::marker::Model;
use std::mem;
use std::time::Duration;

/// How far a get is.
#[derive(Drop)]
pub enum GetStage {
    /// It may wait so long; none set is without an end.
    Unpolled(Option<Duration>),
    /// In the queue, until a deadline if there is one.
    Queued(Ticket, Option<Moment>),
    Finished,
}

/// A get, as a state that its owner polls. Dropping it gives nothing back: `cancel` does. It is to be polled and
/// cancelled with the same core: with another it still has its entry in the first one's queue, and may be taken for a
/// get in the other's.
#[derive(Drop)]
pub struct GetState {
    stage: GetStage,
}

impl Model for GetState {
    ghost use Rattle.deadpool_unmanaged.specs.declared.get.GetStage.{GetStage};

    ghost Value = { GetStage };

    ghost view = { λ s. s.stage };

    ghost inverse = { λ stage. record { stage = stage } };
}

impl GetState {
    /// A get that was not polled yet, which may wait so long; none set is without an end. Nothing happens before its
    /// first poll.
    pub fn new(wait: Option<Duration>) -> Self
        ensures { result ≡ GetStage.Unpolled wait }
    {
        GetState {
            stage: GetStage::Unpolled(wait),
        }
    }

    /// The get as it stands, in whose place is one that has ended.
    pub fn take(&mut self) -> GetState
        ensures get { result ≡ self.old }
        ensures ended { self.new ≡ GetStage.Finished }
    {
        GetState {
            stage: mem::replace(&mut self.stage, GetStage::Finished),
        }
    }

    /// How far the get is.
    pub fn stage(&self) -> &GetStage
        ensures { result.now ≡ self.now }
    {
        &self.stage
    }

    /// The ticket, while the get is in the queue.
    pub fn ticket(&self) -> Option<Ticket>
        ensures { result ≡ ticket_of self.now }
    {
        match &self.stage {
            GetStage::Queued(ticket, _) => Some(*ticket),
            _ => None,
        }
    }

    /// The deadline, while the get is in the queue.
    pub fn deadline(&self) -> Option<Moment>
        ensures { result ≡ deadline_of self.now }
    {
        match &self.stage {
            GetStage::Queued(_, deadline) => *deadline,
            _ => None,
        }
    }

    /// Whether a poll would join the queue now, if there is memory for its entry: it was not polled yet, may wait, and
    /// nothing is free for it.
    pub fn would_queue<T: Drop>(
        &self,
        core: &Core<T>,
        runtime: Option<Runtime>,
        now: Moment,
    ) -> bool
        ensures { result ≡ get_joins runtime now self.now core.now.pool }
    {
        match &self.stage {
            GetStage::Unpolled(wait) => {
                core.get_would_queue()
                    && !cannot_wait(runtime, *wait)
                    && !is_reached(deadline_after(now, *wait), now)
            }
            _ => false,
        }
    }

    /// Asks the pool for an object, with at most one step. A wait above zero needs a runtime, which is looked for
    /// before the pool is asked. The ticket of a get that joins the queue has no greater number than `most_next_get`
    /// told, and with room for all that may wait none is refused for want of memory. A get that has ended stays
    /// pending.
    pub fn poll<T: Drop>(
        &mut self,
        core: &mut Core<T>,
        runtime: Option<Runtime>,
        now: Moment,
    ) -> Poll<Result<T, PoolError>>
        ensures polls { PollsGet runtime now self.old core.old.pool result self.new core.new.pool }
        ensures memory { result ≡ Poll.Ready (Err PoolError.OutOfMemory)
            → IsFull core.old.gets_room (listed core.old.pool.gets) }
        ensures number { ticket_of self.old ≡ None
            → IfSome (ticket_of self.new) (λ ticket. ticket ≡ core.old.next_get) }
        ensures below { ticket_of self.old ≡ None → listed core.old.pool.gets < core.old.gets_room
            → IfSome (ticket_of self.new) (λ ticket. ticket < core.old.gets_room) }
        ensures enough { HasRoom core.old → result ≢ Poll.Ready (Err PoolError.OutOfMemory) }
        ensures room { HasRoom core.old → SameRoom core.old core.new × HasRoom core.new }
    {
        match self.begin(runtime, now) {
            Ok((step, deadline)) => {
                let mut hand = None;
                let reply = core.make(&step, &mut hand);
                self.end(deadline, reply, hand)
            }
            Err(Some(cause)) => Poll::Ready(Err(cause)),
            Err(None) => Poll::Pending,
        }
    }

    /// Begins a poll: the step that it is to make, with the deadline of its wait. Or it makes none: it is refused, or
    /// has ended. `end` is to follow on the step; the get counts as ended until then.
    #[inline(always)]
    pub fn begin(
        &mut self,
        runtime: Option<Runtime>,
        now: Moment,
    ) -> Result<(Step, Option<Moment>), Option<PoolError>>
        ensures step { result ≡ begun runtime now self.old }
        ensures ended { self.new ≡ GetStage.Finished }
    {
        match mem::replace(&mut self.stage, GetStage::Finished) {
            GetStage::Unpolled(wait) => {
                if cannot_wait(runtime, wait) {
                    return Err(Some(PoolError::NoRuntimeSpecified));
                }
                let deadline = deadline_after(now, wait);
                let wait = !is_reached(deadline, now);
                Ok((Step::GetEnter { wait }, deadline))
            }
            GetStage::Queued(ticket, deadline) => {
                let expired = is_reached(deadline, now);
                Ok((Step::GetAsk { ticket, expired }, deadline))
            }
            GetStage::Finished => Err(None),
        }
    }

    /// Ends a poll whose step was made: what the reply says, with what is in the hand then.
    pub fn end<T: Drop>(
        &mut self,
        deadline: Option<Moment>,
        reply: Reply,
        hand: Option<T>,
    ) -> Poll<Result<T, PoolError>>
        requires { self.old ≡ GetStage.Finished }
        ensures stage { self.new ≡ stage_after deadline reply }
        ensures turn { result ≡ turn_after reply hand }
    {
        match reply {
            Reply::Waiting(ticket) => {
                self.stage = GetStage::Queued(ticket, deadline);
                Poll::Pending
            }
            Reply::Full | Reply::Expired => Poll::Ready(Err(PoolError::Timeout)),
            Reply::Crowded => Poll::Ready(Err(PoolError::Crowded)),
            Reply::OutOfMemory => Poll::Ready(Err(PoolError::OutOfMemory)),
            _ => Poll::Ready(hand.ok_or(PoolError::Closed)),
        }
    }

    /// Gives the get up. What it was granted is free again.
    pub fn cancel<T: Drop>(self, core: &mut Core<T>)
        ensures { CancelsGet self core.old.pool core.new.pool }
    {
        let GetState { stage } = self;
        match stage {
            GetStage::Queued(ticket, _) => {
                core.make(&Step::GetCancel { ticket }, &mut None);
            }
            GetStage::Unpolled(_) | GetStage::Finished => {}
        }
    }
}
