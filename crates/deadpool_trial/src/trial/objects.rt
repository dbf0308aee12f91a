//! The moves of the objects that are out: another value, a return, a take.
ghost use Rattle.std.specs.Prelude.{◌≡◌, ◌≢◌, None};
ghost use Rattle.deadpool_parts.specs.Program.{Gives};
ghost use Rattle.deadpool_desk.specs.CoreSteps.{Steps};
ghost use Rattle.deadpool_desk.specs.Replies.{IsReplyTo};
ghost use Rattle.deadpool_managed.specs.Outside.{may};
ghost use Rattle.deadpool_trial.specs.Moves.{one_step};
ghost use Rattle.deadpool_trial.specs.TrialFields.{IsTaken, reply_to_back, reply_to_take};
ghost use Rattle.deadpool_trial.specs.declared.moves.Move.TheVariants as move;

use super::Trial;
use crate::Reply;
use crate::tallied_core::TalliedCore;
use deadpool_desk::Reply as DeskReply;
use deadpool_managed::{AsyncHook, Desk, Environment, Kept, Manager, Slot, Step, SyncHook};
use deadpool_parts::tables::{index_of, take_out};

impl<M: Manager, F: SyncHook<M>, A: AsyncHook<M>, C: Drop> Trial<M, F, A, C> {
    // Gives an object that is out another value.
    pub(super) fn put(&mut self, number: usize, value: M::Type) -> Reply<M::Type, M::Error>
        ensures made { Gives (may M.Manager F.SyncHook A.AsyncHook self.old.manager)
            (one_step (move.Put number value) self.old.pool) (result, self.new.pool) }
        ensures manager { self.new.manager ≡ self.old.manager }
    {
        match index_of(&self.out, number) {
            None => Reply::NoSuch,
            Some(at) => {
                self.out[at].value.value = value;
                Reply::Done
            }
        }
    }

    // An object that is out comes back.
    pub(super) fn back(&mut self, number: usize) -> Reply<M::Type, M::Error>
        ensures made { Gives (may M.Manager F.SyncHook A.AsyncHook self.old.manager)
            (one_step (move.Back number) self.old.pool) (result, self.new.pool) }
        ensures manager { self.new.manager ≡ self.old.manager }
    {
        match take_out(&mut self.out, number) {
            None => Reply::NoSuch,
            Some(slot) => {
                let mut hand = Some(slot);
                let reply = self.core.make(&Step::Back, &mut hand);
                after_back(&self.setup.environment, reply, hand)
            }
        }
    }

    // An object that is out leaves the pool for good.
    pub(super) fn take(&mut self, number: usize) -> Reply<M::Type, M::Error>
        ensures made { Gives (may M.Manager F.SyncHook A.AsyncHook self.old.manager)
            (one_step (move.Take number) self.old.pool) (result, self.new.pool) }
        ensures manager { self.new.manager ≡ self.old.manager }
    {
        match take_out(&mut self.out, number) {
            None => Reply::NoSuch,
            Some(slot) => {
                let reply = leave(&mut self.core);
                after_take(&self.setup.environment, slot, reply)
            }
        }
    }
}

// Says what became of an object that came back. One that is given up is detached.
fn after_back<M: Manager, F: SyncHook<M>, A: AsyncHook<M>>(
    environment: &Environment<M, F, A>,
    reply: DeskReply,
    hand: Option<Slot<Kept<M::Type>>>,
) -> Reply<M::Type, M::Error>
    requires { IsTaken reply hand }
    ensures { Gives (may M.Manager F.SyncHook A.AsyncHook environment.now.manager)
        (reply_to_back reply hand) result }
{
    match reply {
        DeskReply::Kept => Reply::Kept,
        DeskReply::Dropped => Reply::Dropped,
        DeskReply::Detach => {
            let Some(mut slot) = hand else {
                unreachable!();
            };
            environment.manager.detach(&mut slot.value.value);
            Reply::Detached
        }
        _ => unreachable!(),
    }
}

// The step of an object that leaves the pool for good.
fn leave<T: Drop>(core: &mut TalliedCore<T>) -> DeskReply
    ensures made { Steps core.old Step.Take None result core.new }
    ensures fits { IsReplyTo Step.Take result }
{
    let mut hand = None;
    core.make(&Step::Take, &mut hand)
}

// Gives the value of an object that has left the pool, detached if that is due.
fn after_take<M: Manager, F: SyncHook<M>, A: AsyncHook<M>>(
    environment: &Environment<M, F, A>,
    slot: Slot<Kept<M::Type>>,
    reply: DeskReply,
) -> Reply<M::Type, M::Error>
    requires fits { IsReplyTo Step.Take reply }
    requires known { reply ≢ DeskReply.Unknown }
    ensures { Gives (may M.Manager F.SyncHook A.AsyncHook environment.now.manager)
        (reply_to_take slot.value.value reply) result }
{
    let mut value = slot.value.value;
    match reply {
        DeskReply::Taken { detach: true } => {
            environment.manager.detach(&mut value);
            Reply::Taken(value)
        }
        DeskReply::Taken { detach: false } => Reply::Taken(value),
        _ => unreachable!(),
    }
}
