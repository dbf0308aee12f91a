//! An add, as a state that its owner polls.
ghost use Rattle.std.specs.Prelude.{◌≡◌, ◌<◌, IfSome, option_map};
ghost use Rattle.deadpool_gate.specs.Room.{IsFull};
ghost use Rattle.deadpool_unmanaged.specs.Adds.{PollsAdd, CancelsAdd, begun, held_by, ticket_of, stage_after};
ghost use Rattle.deadpool_unmanaged.specs.Adds.{turn_after};
ghost use Rattle.deadpool_unmanaged.specs.Adds.{IsUnpolled, IsWithoutMemory};
ghost use Rattle.deadpool_unmanaged.specs.Queueing.{add_joins};
ghost use Rattle.deadpool_unmanaged.specs.Room.{HasRoom, SameRoom};
ghost use Rattle.deadpool_unmanaged.specs.State.{listed};

use crate::state::Core;
use crate::{PoolError, Reply, Step};
use deadpool_gate::gate::Ticket;
use futures::task::Poll;
use std::marker::Model;
use std::mem;

/// How far an add is. It has its object until it ends.
#[derive(Drop)]
pub enum AddStage<T> {
    Unpolled(T),
    /// In the queue.
    Queued(Ticket, T),
    Finished,
}

/// An add, as a state that its owner polls. Dropping it drops its object and gives nothing back: `cancel` does that. It
/// is to be polled and cancelled with the same core: with another it still has its entry in the first one's queue, and
/// may be taken for an add in the other's.
#[derive(Drop)]
pub struct AddState<T> {
    stage: AddStage<T>,
}

impl<T> Model for AddState<T> {
    ghost use Rattle.deadpool_unmanaged.specs.declared.add.AddStage.{AddStage};

    ghost Value = { AddStage T };

    ghost view = { λ s. s.stage };

    ghost inverse = { λ stage. record { stage = stage } };
}

impl<T: Drop> AddState<T> {
    /// An add that was not polled yet, with its object. Nothing happens before its first poll.
    pub fn new(value: T) -> Self
        ensures { result ≡ AddStage.Unpolled value }
    {
        AddState {
            stage: AddStage::Unpolled(value),
        }
    }

    /// How far the add is.
    pub fn stage(&self) -> &AddStage<T>
        ensures { result.now ≡ self.now }
    {
        &self.stage
    }

    /// The object, until the add ends.
    pub fn value(&self) -> Option<&T>
        ensures { option_map (λ v. v.now) result ≡ held_by self.now }
    {
        match &self.stage {
            AddStage::Unpolled(value) | AddStage::Queued(_, value) => Some(value),
            AddStage::Finished => None,
        }
    }

    /// The add as it stands, in whose place is one that has ended.
    pub fn take(&mut self) -> AddState<T>
        ensures add { result ≡ self.old }
        ensures ended { self.new ≡ AddStage.Finished }
    {
        AddState {
            stage: mem::replace(&mut self.stage, AddStage::Finished),
        }
    }

    /// Takes the object of an add that was not polled yet, and ends it.
    pub fn withdraw(&mut self) -> T
        requires { IsUnpolled self.old }
        ensures value { self.old ≡ AddStage.Unpolled result }
        ensures ended { self.new ≡ AddStage.Finished }
    {
        let AddStage::Unpolled(value) = mem::replace(&mut self.stage, AddStage::Finished) else {
            unreachable!();
        };
        value
    }

    /// The ticket, while the add is in the queue.
    pub fn ticket(&self) -> Option<Ticket>
        ensures { result ≡ ticket_of self.now }
    {
        match &self.stage {
            AddStage::Queued(ticket, _) => Some(*ticket),
            _ => None,
        }
    }

    /// Whether a poll would join the queue now, if there is memory for its entry: it was not polled yet, and there is
    /// no room for it.
    pub fn would_queue(&self, core: &Core<T>) -> bool
        ensures { result ≡ add_joins self.now core.now.pool }
    {
        match &self.stage {
            AddStage::Unpolled(_) => core.add_would_queue(),
            _ => false,
        }
    }

    /// Brings the object to the pool, with at most one step. If the add is refused, the object comes back with the
    /// cause. The ticket of an add that joins the queue has no greater number than `most_next_add` told, and with room
    /// for all that may wait none is refused for want of memory. An add that has ended stays pending.
    pub fn poll(&mut self, core: &mut Core<T>) -> Poll<Result<(), (T, PoolError)>>
        ensures polls { PollsAdd self.old core.old.pool result self.new core.new.pool }
        ensures memory { IsWithoutMemory result → IsFull core.old.adds_room (listed core.old.pool.adds) }
        ensures number { ticket_of self.old ≡ None
            → IfSome (ticket_of self.new) (λ ticket. ticket ≡ core.old.next_add) }
        ensures below { ticket_of self.old ≡ None → listed core.old.pool.adds < core.old.adds_room
            → IfSome (ticket_of self.new) (λ ticket. ticket < core.old.adds_room) }
        ensures enough { HasRoom core.old → IsWithoutMemory result → ⊥ }
        ensures room { HasRoom core.old → SameRoom core.old core.new × HasRoom core.new }
    {
        match self.begin() {
            Some((step, value)) => {
                let mut hand = Some(value);
                let reply = core.make(&step, &mut hand);
                self.end(reply, hand)
            }
            None => Poll::Pending,
        }
    }

    /// Begins a poll: the step that it is to make, and the object for it, unless it has ended. `end` is to follow; the
    /// add counts as ended until then.
    #[inline(always)]
    pub fn begin(&mut self) -> Option<(Step, T)>
        ensures step { result ≡ begun self.old }
        ensures ended { self.new ≡ AddStage.Finished }
    {
        match mem::replace(&mut self.stage, AddStage::Finished) {
            AddStage::Unpolled(value) => Some((Step::AddEnter { wait: true }, value)),
            AddStage::Queued(ticket, value) => Some((Step::AddAsk { ticket }, value)),
            AddStage::Finished => None,
        }
    }

    /// Ends a poll whose step was made: what the reply says, with what is left in the hand then. The object that is
    /// stored is not.
    pub fn end(&mut self, reply: Reply, hand: Option<T>) -> Poll<Result<(), (T, PoolError)>>
        requires { self.old ≡ AddStage.Finished }
        ensures stage { self.new ≡ stage_after reply hand }
        ensures turn { result ≡ turn_after reply hand }
    {
        let Some(value) = hand else {
            return Poll::Ready(Ok(()));
        };
        match reply {
            Reply::Waiting(ticket) => {
                self.stage = AddStage::Queued(ticket, value);
                Poll::Pending
            }
            Reply::Full => Poll::Ready(Err((value, PoolError::Timeout))),
            Reply::Crowded => Poll::Ready(Err((value, PoolError::Crowded))),
            Reply::OutOfMemory => Poll::Ready(Err((value, PoolError::OutOfMemory))),
            _ => Poll::Ready(Err((value, PoolError::Closed))),
        }
    }

    /// Gives the add up, and its object back. The room that it was granted is free again.
    pub fn cancel(self, core: &mut Core<T>) -> Option<T>
        ensures cancels { CancelsAdd self core.old.pool core.new.pool }
        ensures value { result ≡ held_by self }
    {
        let AddState { stage } = self;
        match stage {
            AddStage::Queued(ticket, value) => {
                core.make(&Step::AddCancel { ticket }, &mut None);
                Some(value)
            }
            AddStage::Unpolled(value) => Some(value),
            AddStage::Finished => None,
        }
    }
}
