//! A get that is told its timeouts at each poll.
ghost use Rattle.std.specs.Prelude.{◌≡◌, None};
ghost use Rattle.futures.specs.Task.{Keeps};
ghost use Rattle.deadpool_managed.specs.Bounds.{Decreases};
ghost use Rattle.deadpool_managed.specs.Outside.{may};
ghost use Rattle.deadpool_managed.specs.Get.{IfReadyObject, deadline_of};
ghost use Rattle.deadpool_managed.specs.Holds.{WaitsUnder, is_going, held_at, held_after};
ghost use Rattle.deadpool_managed.specs.Kinds.{kind_of};
ghost use Rattle.deadpool_managed.specs.Phases.{stage_of, turn_of};
ghost use Rattle.deadpool_managed.specs.Steps.{AdvancesAt, PollsAt, CancelsAt, lent};

use crate::work::{Came, Phase, Work};
use crate::{
    AsyncHook, Environment, Kept, Manager, Moment, Slot, StageKind, SyncHook, Timeouts, Turn,
};
use deadpool_desk::Desk;
use futures::task::Context;
use std::marker::Model;

/// A get that keeps no timeouts of its own, and is told them at each poll. Contracts see its phase, and the object
/// beside it. Dropping it gives nothing back: `cancel` does.
#[derive(Drop)]
pub struct Progress<M: Manager, A: AsyncHook<M>> {
    work: Work<M, A>,
}

impl<M: Manager, A: AsyncHook<M>> Model for Progress<M, A> {
    ghost use Rattle.deadpool_managed.specs.Phases.{IsPlaced, Working};

    ghost Value = { Working M.Type M.Creating M.Recycling A.State };

    ghost view = { λ s. record { phase = s.work.phase; slot = s.work.slot } };

    ghost invariant = { λ s. IsPlaced M.is_ready s.work.phase s.work.slot };
}

impl<M: Manager, A: AsyncHook<M>> Progress<M, A> {
    /// A get that was not polled yet. Nothing happens before its first poll.
    pub fn new() -> Self
        ensures { result ≡ record { phase = Phase.Unpolled; slot = None } }
    {
        Progress { work: Work::new() }
    }

    /// The deadline of the phase that the get is in.
    pub fn deadline(&self) -> Option<Moment>
        ensures { result ≡ deadline_of (stage_of self.now.phase self.now.slot) }
    {
        self.work.deadline()
    }

    /// Whether the get has a place and goes on at its next poll, with nothing to wait for.
    pub fn is_going(&self) -> bool
        ensures { result ≡ is_going (stage_of self.now.phase self.now.slot) }
    {
        self.work.is_going()
    }

    /// How far the get is, by name.
    pub fn kind(&self) -> StageKind
        ensures { result ≡ kind_of (stage_of self.now.phase self.now.slot) }
    {
        self.work.kind()
    }

    /// One step of the get, with at most one step at the desk. A get that has ended stays pending.
    pub fn advance<F: SyncHook<M>, D: Desk<Kept<M::Type>>>(
        &mut self,
        timeouts: &Timeouts,
        desk: &mut D,
        environment: &Environment<M, F, A>,
        now: Moment,
        cx: &mut Context<'_>,
    ) -> Turn<M::Type, M::Error>
        requires holds { D.holds desk.old (held_at (stage_of self.old.phase self.old.slot)) }
        requires waits { WaitsUnder (D.waits desk.old)
            (stage_of self.old.phase self.old.slot) }
        ensures advanced { AdvancesAt D.Desk
            (lent M.Manager F.SyncHook A.AsyncHook environment.now now timeouts.now)
            desk.old (stage_of self.old.phase self.old.slot)
            desk.new (stage_of self.new.phase self.new.slot) result }
        ensures falls { result ≡ Turn.More
            → Decreases (stage_of self.old.phase self.old.slot)
            (stage_of self.new.phase self.new.slot) }
        ensures ready { IfReadyObject M.is_ready result }
        ensures kept { Keeps cx.old cx.new }
        ensures holds { D.holds desk.new
            (held_after (stage_of self.new.phase self.new.slot) result) }
    {
        let came = self.work.step(timeouts, desk, environment, now, cx);
        self.work.turn(came)
    }

    /// Advances up to the first that has nothing more to do at once. A poll of a get that has ended stays pending.
    pub fn poll_over<F: SyncHook<M>, D: Desk<Kept<M::Type>>>(
        &mut self,
        timeouts: &Timeouts,
        desk: &mut D,
        environment: &Environment<M, F, A>,
        now: Moment,
        cx: &mut Context<'_>,
    ) -> Turn<M::Type, M::Error>
        requires holds { D.holds desk.old (held_at (stage_of self.old.phase self.old.slot)) }
        requires waits { WaitsUnder (D.waits desk.old)
            (stage_of self.old.phase self.old.slot) }
        ensures polled { PollsAt D.Desk
            (lent M.Manager F.SyncHook A.AsyncHook environment.now now timeouts.now)
            desk.old (stage_of self.old.phase self.old.slot)
            desk.new (stage_of self.new.phase self.new.slot) result }
        ensures ready { IfReadyObject M.is_ready result }
        ensures kept { Keeps cx.old cx.new }
        ensures holds { D.holds desk.new
            (held_after (stage_of self.new.phase self.new.slot) result) }
    {
        let came = self.work.run(timeouts, desk, environment, now, cx);
        self.work.turn(came)
    }

    /// As `poll_over`, but an object that is given stays in its place until `give`.
    pub fn run<F: SyncHook<M>, D: Desk<Kept<M::Type>>>(
        &mut self,
        timeouts: &Timeouts,
        desk: &mut D,
        environment: &Environment<M, F, A>,
        now: Moment,
        cx: &mut Context<'_>,
    ) -> Came<M::Error>
        requires holds { D.holds desk.old (held_at (stage_of self.old.phase self.old.slot)) }
        requires waits { WaitsUnder (D.waits desk.old)
            (stage_of self.old.phase self.old.slot) }
        ensures polled { PollsAt D.Desk
            (lent M.Manager F.SyncHook A.AsyncHook environment.now now timeouts.now)
            desk.old (stage_of self.old.phase self.old.slot)
            desk.new (stage_of self.new.phase self.new.slot) (turn_of result self.new.slot) }
        ensures given { result ≡ Came.Given → self.new.phase ≡ Phase.Finished }
        ensures ready { IfReadyObject M.is_ready (turn_of result self.new.slot) }
        ensures kept { Keeps cx.old cx.new }
        ensures holds { D.holds desk.new
            (held_after (stage_of self.new.phase self.new.slot) (turn_of result self.new.slot)) }
    {
        self.work.run(timeouts, desk, environment, now, cx)
    }

    /// The object of a get that has ended with one. There is none at a second call.
    pub fn give(&mut self) -> Option<Slot<Kept<M::Type>>>
        requires { self.old.phase ≡ Phase.Finished }
        ensures slot { result ≡ self.old.slot }
        ensures phase { self.new.phase ≡ Phase.Finished }
    {
        self.work.slot.take()
    }

    /// Gives back what the get holds, in one step at the desk, and ends it. An object that it prepares is given up and
    /// detached.
    pub fn cancel<F: SyncHook<M>, D: Desk<Kept<M::Type>>>(
        &mut self,
        desk: &mut D,
        environment: &Environment<M, F, A>,
    )
        requires holds { D.holds desk.old (held_at (stage_of self.old.phase self.old.slot)) }
        requires waits { WaitsUnder (D.waits desk.old)
            (stage_of self.old.phase self.old.slot) }
        ensures cancelled { CancelsAt D.Desk
            (may M.Manager F.SyncHook A.AsyncHook environment.now.manager)
            desk.old (stage_of self.old.phase self.old.slot) desk.new }
        ensures holds { D.holds desk.new None }
        ensures finished { self.new.phase ≡ Phase.Finished }
    {
        self.work.cancel(desk, environment);
    }
}
