//! What a pool's owner asks of it: one step at a time, each with its reply.
//!
//! A get makes none of these: it knows its pool as a `Desk`. A retain asks about each object, so it is a call of its
//! own.
ghost use Rattle.std.specs.Prelude.{Result};
ghost use Rattle.std.specs.declared.alloc.AllocError.{AllocError};
ghost use Rattle.deadpool_desk.specs.Replies.{IsOwnerReplyTo};
ghost use Rattle.deadpool_desk.specs.Retained.{Retained};
ghost use Rattle.deadpool_desk.specs.declared.owner_step.OwnerReply.{OwnerReply};
ghost use Rattle.deadpool_desk.specs.declared.owner_step.OwnerStep.{OwnerStep};
ghost use Rattle.deadpool_desk.specs.declared.retain.Retainer.{Ghosts as RetainerOf};

use crate::{OwnerReply, OwnerStep, RetainResult, Retainer};
use std::alloc::AllocError;

/// The steps of a pool's owner. An implementation states by its relations when each reply comes, and what it leaves.
pub trait OwnerDesk<T> {
    // It holds of a step with its reply, and the desks before and after.
    ghost makes: { Self → OwnerStep → OwnerReply → Self → Type 0 };

    // This holds of the retainers before and after the step too.
    ghost retains: { (R L : Type 0) → RetainerOf R T L → Self → R → Result (Retained L) AllocError → Self → R
        → Type 0 };

    /// Makes one step.
    fn make_for_owner(&mut self, step: &OwnerStep) -> OwnerReply
        ensures made { makes self.old step.now result self.new }
        ensures fits { IsOwnerReplyTo step.now result };

    /// Asks about each idle object once, front to back. One that is not kept is given up and detached there and then,
    /// before the next question. Where no more are idle than the pool's least number, as far as the limit allows, an
    /// object stays though it is not kept: it is not detached, and counts as retained. The list of the values takes
    /// memory first, for as many as are idle: where none is found,
    /// nothing is asked and nothing has changed. With nothing idle it takes none.
    fn retain<R: Retainer<T>>(
        &mut self,
        retainer: &mut R,
    ) -> Result<RetainResult<R::Left>, AllocError>
        requires { R.can_call retainer.old }
        ensures retained { retains R R.Left R.Retainer
            self.old retainer.old result self.new retainer.new }
        ensures can_call { R.can_call retainer.new };
}
