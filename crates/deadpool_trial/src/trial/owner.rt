//! The moves of a trial's owner, who has handles to its pool.
ghost use Rattle.std.specs.Prelude.{◌≡◌};
ghost use Rattle.deadpool_gate.specs.Numbers.{has_number};
ghost use Rattle.deadpool_parts.specs.Program.{Gives};
ghost use Rattle.deadpool_managed.specs.Answers.{LeavesOrKeeps};
ghost use Rattle.deadpool_managed.specs.Outside.{may};
ghost use Rattle.deadpool_trial.specs.Moves.{one_step};
ghost use Rattle.deadpool_trial.specs.TrialFields.{move_of, reply_to_owner};
ghost use Rattle.deadpool_trial.specs.declared.moves.Move.TheVariants as move;

use super::Trial;
use crate::Reply;
use deadpool_managed::{
    AsyncHook, Kept, Manager, OwnerDesk, OwnerReply, OwnerStep, Retainer, SyncHook,
};

impl<M: Manager, F: SyncHook<M>, A: AsyncHook<M>, C: Drop> Trial<M, F, A, C> {
    // Makes a step of the pool's owner, if the pool has a handle.
    pub(super) fn make_for_owner(&mut self, step: &OwnerStep) -> Reply<M::Type, M::Error>
        ensures made { Gives (may M.Manager F.SyncHook A.AsyncHook self.old.manager)
            (one_step (move_of step.now) self.old.pool) (result, self.new.pool) }
        ensures manager { self.new.manager ≡ self.old.manager }
    {
        if !self.core.has_handle() {
            return reply_to_owner(step, &OwnerReply::NoHandle);
        }
        let reply = self.core.make_for_owner(step);
        reply_to_owner(step, &reply)
    }

    // Keeps the idle objects with these numbers, and as many as are to stay.
    pub(super) fn retain(&mut self, kept: &Vec<usize>) -> Reply<M::Type, M::Error>
        ensures made { Gives (may M.Manager F.SyncHook A.AsyncHook self.old.manager)
            (one_step (move.Retain kept.now) self.old.pool) (result, self.new.pool) }
        ensures manager { self.new.manager ≡ self.old.manager }
    {
        if !self.core.has_handle() {
            return Reply::NoHandle;
        }
        let mut keeping = Keeping {
            kept: kept.as_slice(),
            manager: &self.setup.environment.manager,
        };
        match self.core.retain(&mut keeping) {
            Ok(retained) => Reply::Retained(retained),
            Err(_) => Reply::OutOfMemory,
        }
    }
}

// Keeps the objects with some numbers, and has the manager told of the others.
#[derive(Drop)]
struct Keeping<'a, M> {
    kept: &'a [usize],
    manager: &'a M,
}

impl<M: Manager> Retainer<Kept<M::Type>> for Keeping<'_, M> {
    type Left = M::Type;

    ghost may_keep = { λ r number object answer left. (answer ≡ has_number number r.kept.now) × (left ≡ r) };

    ghost may_detach = { λ r object given left. LeavesOrKeeps (M.may_detach r.manager.now) object.value given
        × (left ≡ r) };

    fn keeps(&mut self, number: usize, _object: &Kept<M::Type>) -> bool {
        self.kept.contains(&number)
    }

    fn detach(&mut self, object: Kept<M::Type>) -> M::Type {
        let mut value = object.value;
        self.manager.detach(&mut value);
        value
    }
}

// What a trial's owner is told. An upgrade says whether a handle was left.
fn reply_to_owner<T, E>(step: &OwnerStep, reply: &OwnerReply) -> Reply<T, E>
    ensures { result ≡ reply_to_owner step.now reply.now }
{
    match (step, reply) {
        (OwnerStep::Upgrade, OwnerReply::Done) => Reply::Upgraded(true),
        (OwnerStep::Upgrade, OwnerReply::NoHandle) => Reply::Upgraded(false),
        (_, OwnerReply::Stands(status)) => Reply::Stands(*status),
        (_, OwnerReply::Done) => Reply::Done,
        (_, OwnerReply::OutOfMemory) => Reply::OutOfMemory,
        (_, OwnerReply::NoHandle) => Reply::NoHandle,
    }
}
