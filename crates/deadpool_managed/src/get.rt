//! A get, as a state that its owner polls.
//!
//! Each advance makes at most one step at the desk. The get asks the manager and the hooks itself, between the steps.
ghost use Rattle.std.specs.Prelude.{◌≡◌, None};
ghost use Rattle.futures.specs.Task.{Keeps};
ghost use Rattle.deadpool_managed.specs.Bounds.{Decreases};
ghost use Rattle.deadpool_managed.specs.Outside.{may};
ghost use Rattle.deadpool_managed.specs.Get.{IfReadyObject, deadline_of};
ghost use Rattle.deadpool_managed.specs.Holds.{WaitsUnder, is_going, held_at, held_after};
ghost use Rattle.deadpool_managed.specs.Kinds.{kind_of};
ghost use Rattle.deadpool_managed.specs.Steps.{AdvancesAt, PollsAt, CancelsAt, lent};
ghost use Rattle.deadpool_managed.specs.Stages.{Unpolled};

use crate::progress::Progress;
use crate::{
    AsyncHook, Environment, Kept, Manager, Moment, PoolError, Slot, StageKind, SyncHook, Timeouts,
};
use deadpool_desk::Desk;
use futures::task::Context;
use std::marker::Model;

/// What one advance of a get came to.
#[derive(Drop)]
pub enum Turn<T, E> {
    /// There is more to do, at once.
    More,
    /// Something is awaited.
    Pending,
    /// The get has ended.
    Done(Result<Slot<Kept<T>>, PoolError<E>>),
}

// It is moved at each poll.
const _: () = prove!(size_of::<Turn<u64, u64>>() <= 128);

/// A get, as a state that its owner polls. Dropping it gives nothing back: `cancel` does.
#[derive(Drop)]
pub struct GetState<M: Manager, A: AsyncHook<M>> {
    timeouts: Timeouts,
    progress: Progress<M, A>,
}

impl<M: Manager, A: AsyncHook<M>> Model for GetState<M, A> {
    ghost use Rattle.deadpool_managed.specs.Stages.{Getting};

    ghost Value = { Getting M.Type M.Creating M.Recycling A.State };

    ghost use Rattle.deadpool_managed.specs.Phases.{stage_of};

    ghost view = { λ s. record { timeouts = s.timeouts; stage = stage_of s.progress.phase s.progress.slot } };
}

impl<M: Manager, A: AsyncHook<M>> GetState<M, A> {
    /// A get that was not polled yet. Nothing happens before its first poll.
    pub fn new(timeouts: Timeouts) -> Self
        ensures { result ≡ record { timeouts = timeouts; stage = Unpolled } }
    {
        GetState {
            timeouts,
            progress: Progress::new(),
        }
    }

    /// The deadline of the phase that the get is in.
    pub fn deadline(&self) -> Option<Moment>
        ensures { result ≡ deadline_of self.now.stage }
    {
        self.progress.deadline()
    }

    /// Whether the get has a place and goes on at its next poll, with nothing to wait for.
    pub fn is_going(&self) -> bool
        ensures { result ≡ is_going self.now.stage }
    {
        self.progress.is_going()
    }

    /// How far the get is, by name.
    pub fn kind(&self) -> StageKind
        ensures { result ≡ kind_of self.now.stage }
    {
        self.progress.kind()
    }

    /// One step of the get, with at most one step at the desk. A get that has ended stays pending.
    pub fn advance<F: SyncHook<M>, D: Desk<Kept<M::Type>>>(
        &mut self,
        desk: &mut D,
        environment: &Environment<M, F, A>,
        now: Moment,
        cx: &mut Context<'_>,
    ) -> Turn<M::Type, M::Error>
        requires holds { D.holds desk.old (held_at self.old.stage) }
        requires waits { WaitsUnder (D.waits desk.old) self.old.stage }
        ensures advanced { AdvancesAt D.Desk
            (lent M.Manager F.SyncHook A.AsyncHook environment.now now self.old.timeouts)
            desk.old self.old.stage desk.new self.new.stage result }
        ensures timeouts { self.new.timeouts ≡ self.old.timeouts }
        ensures falls { result ≡ Turn.More → Decreases self.old.stage self.new.stage }
        ensures ready { IfReadyObject M.is_ready result }
        ensures kept { Keeps cx.old cx.new }
        ensures holds { D.holds desk.new (held_after self.new.stage result) }
    {
        self.progress
            .advance(&self.timeouts, desk, environment, now, cx)
    }

    /// Advances up to the first that has nothing more to do at once. A poll of a get that has ended stays pending.
    pub fn poll_over<F: SyncHook<M>, D: Desk<Kept<M::Type>>>(
        &mut self,
        desk: &mut D,
        environment: &Environment<M, F, A>,
        now: Moment,
        cx: &mut Context<'_>,
    ) -> Turn<M::Type, M::Error>
        requires holds { D.holds desk.old (held_at self.old.stage) }
        requires waits { WaitsUnder (D.waits desk.old) self.old.stage }
        ensures polled { PollsAt D.Desk
            (lent M.Manager F.SyncHook A.AsyncHook environment.now now self.old.timeouts)
            desk.old self.old.stage desk.new self.new.stage result }
        ensures timeouts { self.new.timeouts ≡ self.old.timeouts }
        ensures ready { IfReadyObject M.is_ready result }
        ensures kept { Keeps cx.old cx.new }
        ensures holds { D.holds desk.new (held_after self.new.stage result) }
    {
        self.progress
            .poll_over(&self.timeouts, desk, environment, now, cx)
    }

    /// Gives back what the get holds, in one step at the desk. An object that it prepares is given up and detached.
    pub fn cancel<F: SyncHook<M>, D: Desk<Kept<M::Type>>>(
        self,
        desk: &mut D,
        environment: &Environment<M, F, A>,
    )
        requires holds { D.holds desk.old (held_at self.stage) }
        requires waits { WaitsUnder (D.waits desk.old) self.stage }
        ensures cancelled { CancelsAt D.Desk
            (may M.Manager F.SyncHook A.AsyncHook environment.now.manager)
            desk.old self.stage desk.new }
        ensures holds { D.holds desk.new None }
    {
        let GetState {
            timeouts: _,
            mut progress,
        } = self;
        progress.cancel(desk, environment);
    }
}
