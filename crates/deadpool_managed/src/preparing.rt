//! The preparation of a get's object, in its place.
ghost use Rattle.std.specs.Prelude.{◌≡◌, ◌≢◌, Option};
ghost use Rattle.futures.specs.Task.{Keeps};
ghost use Rattle.deadpool_managed.specs.Outside.{may};
ghost use Rattle.deadpool_managed.specs.Phases.{IsPlaced, DiscardsIn, RefusesIn, stage_of};
ghost use Rattle.deadpool_managed.specs.Steps.{AdvancesAt, Leaves, held_now, lent, stage_at, turn_at};
ghost use Rattle.deadpool_managed.specs.Get.{Makes, making};
ghost use Rattle.deadpool_desk.specs.declared.step.Held.{Held};
ghost use Rattle.deadpool_desk.specs.declared.step.Reply.{Reply};
ghost use Rattle.deadpool_desk.specs.declared.step.Step.{Step};

use crate::calls::{Position, Verdict};
use crate::prepare::{Outcome, Preparing, post_create_in, pre_recycle_in, prepare_in};
use crate::reporting::report;
use crate::work::{Came, Phase, Work};
use crate::{
    AsyncHook, Environment, HookError, Kept, Manager, Moment, PoolError, SyncHook, Timeouts,
};
use deadpool_desk::{Desk, Reply, Step};
use futures::task::Context;

impl<M: Manager, A: AsyncHook<M>> Work<M, A> {
    // An object that was served now is prepared, in its place.
    pub(crate) fn recycle<F: SyncHook<M>, D: Desk<Kept<M::Type>>>(
        &mut self,
        left: usize,
        timeouts: &Timeouts,
        desk: &mut D,
        environment: &Environment<M, F, A>,
        now: Moment,
        cx: &mut Context<'_>,
    ) -> Came<M::Error>
        requires placed { IsPlaced {C = M.Creating} {R = M.Recycling} {S = A.State} M.is_ready
            (Phase.Served left) self.old.slot }
        requires holds { D.holds desk.old (Option.Some Held.Object) }
        ensures advanced { AdvancesAt D.Desk
            (lent M.Manager F.SyncHook A.AsyncHook environment.now now timeouts.now)
            desk.old (stage_of (Phase.Served left) self.old.slot)
            desk.new (stage_at self.new) (turn_at result self.new) }
        ensures leaves { Leaves D.Desk M.is_ready desk.new result self.new }
        ensures falls { result ≡ Came.More → self.new.phase ≡ Phase.Going (Option.Some left) }
        ensures kept { Keeps cx.old cx.new }
    {
        self.phase = Phase::Finished;
        match pre_recycle_in(&mut self.slot, timeouts.recycle, environment, now, cx) {
            Outcome::Accepted => Came::Given,
            Outcome::Pending(preparing) => {
                self.phase = Phase::Recycling(preparing);
                Came::Pending
            }
            Outcome::GivenUp => self.discard(Some(left), desk, environment),
        }
    }

    // The idle object is prepared further, in its place.
    pub(crate) fn advance_recycling<F: SyncHook<M>, D: Desk<Kept<M::Type>>>(
        &mut self,
        preparing: Preparing<M::Recycling, A::State>,
        timeouts: &Timeouts,
        desk: &mut D,
        environment: &Environment<M, F, A>,
        now: Moment,
        cx: &mut Context<'_>,
    ) -> Came<M::Error>
        requires finished { self.old.phase ≡ Phase.Finished }
        requires placed { IsPlaced {C = M.Creating} M.is_ready
            (Phase.Recycling preparing) self.old.slot }
        requires holds { D.holds desk.old (Option.Some Held.Object) }
        ensures advanced { AdvancesAt D.Desk
            (lent M.Manager F.SyncHook A.AsyncHook environment.now now timeouts.now)
            desk.old (stage_of (Phase.Recycling preparing) self.old.slot)
            desk.new (stage_at self.new) (turn_at result self.new) }
        ensures leaves { Leaves D.Desk M.is_ready desk.new result self.new }
        ensures falls { result ≡ Came.More → self.new.phase ≡ Phase.Going Option.None }
        ensures kept { Keeps cx.old cx.new }
    {
        match prepare_in(
            &mut self.slot,
            preparing,
            timeouts.recycle,
            environment,
            now,
            cx,
        ) {
            Outcome::Accepted => Came::Given,
            Outcome::Pending(preparing) => {
                self.phase = Phase::Recycling(preparing);
                Came::Pending
            }
            Outcome::GivenUp => self.discard(None, desk, environment),
        }
    }

    // The object is given up, and the get keeps its place.
    fn discard<F: SyncHook<M>, D: Desk<Kept<M::Type>>>(
        &mut self,
        allowance: Option<usize>,
        desk: &mut D,
        environment: &Environment<M, F, A>,
    ) -> Came<M::Error>
        requires finished { self.old.phase ≡ Phase.Finished }
        requires holds { D.holds desk.old (Option.Some Held.Object) }
        ensures advanced { (reply : Reply)
            × (Makes D.Desk desk.old (making Step.Discard reply Option.None) desk.new
            × DiscardsIn (may M.Manager F.SyncHook A.AsyncHook environment.now.manager)
            self.old.slot allowance reply (stage_at self.new) (turn_at result self.new)) }
        ensures placed { IsPlaced M.is_ready self.new.phase self.new.slot }
        ensures not_given { result ≢ Came.Given }
        ensures falls { result ≡ Came.More → self.new.phase ≡ Phase.Going allowance }
        ensures holds { D.holds desk.new (held_now result self.new) }
    {
        let held = self.slot.take();
        match report(desk, &Step::Discard) {
            Reply::Done => {
                if let Some(mut slot) = held {
                    environment.manager.detach(&mut slot.value.value);
                }
                self.phase = Phase::Going(allowance);
                Came::More
            }
            _ => Came::Failed(PoolError::Closed),
        }
    }

    // The hooks see the new object further.
    pub(crate) fn advance_checking<F: SyncHook<M>, D: Desk<Kept<M::Type>>>(
        &mut self,
        position: Position<A::State>,
        timeouts: &Timeouts,
        desk: &mut D,
        environment: &Environment<M, F, A>,
        now: Moment,
        cx: &mut Context<'_>,
    ) -> Came<M::Error>
        requires finished { self.old.phase ≡ Phase.Finished }
        requires placed { IsPlaced {C = M.Creating} {R = M.Recycling} M.is_ready
            (Phase.Checking position) self.old.slot }
        requires holds { D.holds desk.old (Option.Some Held.Object) }
        ensures advanced { AdvancesAt D.Desk
            (lent M.Manager F.SyncHook A.AsyncHook environment.now now timeouts.now)
            desk.old (stage_of (Phase.Checking position) self.old.slot)
            desk.new (stage_at self.new) (turn_at result self.new) }
        ensures leaves { Leaves D.Desk M.is_ready desk.new result self.new }
        ensures falls { result ≢ Came.More }
        ensures kept { Keeps cx.old cx.new }
    {
        match post_create_in(&mut self.slot, position, environment, cx) {
            Verdict::Accepted => Came::Given,
            Verdict::Pending(position) => {
                self.phase = Phase::Checking(position);
                Came::Pending
            }
            Verdict::Refused(cause) => self.refuse(cause, desk, environment),
        }
    }

    // The new object is given up with its place.
    fn refuse<F: SyncHook<M>, D: Desk<Kept<M::Type>>>(
        &mut self,
        cause: HookError<M::Error>,
        desk: &mut D,
        environment: &Environment<M, F, A>,
    ) -> Came<M::Error>
        requires finished { self.old.phase ≡ Phase.Finished }
        requires holds { D.holds desk.old (Option.Some Held.Object) }
        ensures advanced { (reply : Reply)
            × (Makes D.Desk desk.old (making Step.Refused reply Option.None) desk.new
            × RefusesIn (may M.Manager F.SyncHook A.AsyncHook environment.now.manager)
            self.old.slot cause reply (stage_at self.new) (turn_at result self.new)) }
        ensures placed { IsPlaced M.is_ready self.new.phase self.new.slot }
        ensures failed { (result ≢ Came.Given) × (result ≢ Came.More) }
        ensures holds { D.holds desk.new (held_now result self.new) }
    {
        let held = self.slot.take();
        match report(desk, &Step::Refused) {
            Reply::Done => {
                if let Some(mut slot) = held {
                    environment.manager.detach(&mut slot.value.value);
                }
                Came::Failed(PoolError::PostCreateHook(cause))
            }
            _ => Came::Failed(PoolError::Closed),
        }
    }
}
