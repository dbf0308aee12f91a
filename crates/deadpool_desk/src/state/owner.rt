//! The steps of a core that the pool's owner makes.
ghost use Rattle.deadpool_desk.specs.CoreSteps.{MakesForOwner, Retains, RetainsNoting};

use super::Core;
use crate::review::review;
use crate::{OwnerDesk, OwnerReply, OwnerStep, Removals, RetainResult, Retainer, Status};
use std::alloc::AllocError;

impl<T: Drop> Core<T> {
    /// A retain that notes the objects that it gives up. The list of notes takes memory as that of the values does.
    pub fn retain_noting<R: Retainer<T>>(
        &mut self,
        retainer: &mut R,
    ) -> Result<(RetainResult<R::Left>, Removals), AllocError>
        requires { R.can_call retainer.old }
        ensures retained { RetainsNoting R.Retainer
            self.old retainer.old result self.new retainer.new }
        ensures can_call { R.can_call retainer.new }
    {
        let least = self.least_idle();
        let (removed, noted) = review(&mut self.ring, least, retainer)?;
        let result = RetainResult {
            retained: self.ring.len(),
            removed,
        };
        Ok((result, Removals::new(noted)))
    }

    // A get without an object counts against the idle ones, and waits if none is left for it.
    fn status(&self) -> OwnerReply
        ensures { MakesForOwner self.now OwnerStep.Status result self.now }
    {
        let idle = self.ring.len();
        let pending = self.gate.waiting()
            + self.gate.granted()
            + self.places.going
            + self.places.creations;
        OwnerReply::Stands(Status {
            max_size: self.places.limit,
            size: idle + self.places.outside,
            available: idle.saturating_sub(pending),
            waiting: pending.saturating_sub(idle),
        })
    }

    // What is beyond the limit goes from the front.
    fn resize(&mut self, limit: usize) -> OwnerReply
        ensures { MakesForOwner self.old (OwnerStep.Resize limit) result self.new }
    {
        if self.gate.is_closed() {
            return OwnerReply::Done;
        }
        if limit > self.ring.capacity() && self.ring.resize(limit).is_err() {
            return OwnerReply::OutOfMemory;
        }
        let idle = self.ring.len();
        let excess = (idle + self.places.outside).saturating_sub(limit);
        let spare = idle.saturating_sub(self.min_idle.min(limit));
        self.places.limit = limit;
        self.ring.truncate_front(idle - excess.min(spare));
        self.places.settle(&mut self.gate);
        OwnerReply::Done
    }

    // Those that wait are refused when they ask.
    fn close(&mut self) -> OwnerReply
        ensures { MakesForOwner self.old OwnerStep.Close result self.new }
    {
        self.places.limit = 0;
        self.ring.clear();
        self.gate.close();
        OwnerReply::Done
    }

    // There is one more only if one is left.
    fn clone_handle(&mut self) -> OwnerReply
        ensures cloned { MakesForOwner self.old OwnerStep.CloneHandle result self.new }
        ensures upgraded { MakesForOwner self.old OwnerStep.Upgrade result self.new }
    {
        if self.handles == 0 {
            return OwnerReply::NoHandle;
        }
        self.handles = self.handles.saturating_add(1);
        OwnerReply::Done
    }

    // The last takes what is idle with it.
    fn drop_handle(&mut self) -> OwnerReply
        ensures { MakesForOwner self.old OwnerStep.DropHandle result self.new }
    {
        if self.handles == 0 {
            return OwnerReply::NoHandle;
        }
        if self.handles < u64::MAX {
            self.handles -= 1;
        }
        if self.handles == 0 {
            self.ring.clear();
        }
        OwnerReply::Done
    }
}

impl<T: Drop> OwnerDesk<T> for Core<T> {
    ghost makes = { MakesForOwner };

    ghost retains = { λ R L asks. Retains asks };

    // An upgrade counts as a clone does: who makes it has no handle, which the count does not know.
    #[inline(always)]
    fn make_for_owner(&mut self, step: &OwnerStep) -> OwnerReply {
        match step {
            OwnerStep::Status => self.status(),
            OwnerStep::Resize { limit } => self.resize(*limit),
            OwnerStep::Close => self.close(),
            OwnerStep::CloneHandle | OwnerStep::Upgrade => self.clone_handle(),
            OwnerStep::DropHandle => self.drop_handle(),
        }
    }

    // The notes of a retain that notes are dropped.
    fn retain<R: Retainer<T>>(
        &mut self,
        retainer: &mut R,
    ) -> Result<RetainResult<R::Left>, AllocError> {
        match self.retain_noting(retainer) {
            Ok((result, _)) => Ok(result),
            Err(e) => Err(e),
        }
    }
}
