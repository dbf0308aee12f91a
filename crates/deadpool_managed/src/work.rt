//! A get at work: its phase, and the object that it prepares.
//!
//! The object stays in one place until it is given out. What is rare stands in functions of its own.
ghost use Rattle.std.specs.Prelude.{◌≡◌, true, false, Some, None};
ghost use Rattle.futures.specs.Task.{Keeps};
ghost use Rattle.deadpool_managed.specs.Bounds.{lacks_allowance, Decreases};
ghost use Rattle.deadpool_managed.specs.Outside.{may};
ghost use Rattle.deadpool_managed.specs.Holds.{WaitsUnder, is_going, held_at};
ghost use Rattle.deadpool_managed.specs.Kinds.{kind_of};
ghost use Rattle.deadpool_managed.specs.Get.{Makes, deadline_of, making};
ghost use Rattle.deadpool_desk.specs.declared.step.Held.{Held};
ghost use Rattle.deadpool_desk.specs.declared.step.Reply.{Reply};
ghost use Rattle.deadpool_desk.specs.declared.step.Step.{Step};
ghost use Rattle.deadpool_managed.specs.Phases.{IsPlaced, IsPending, GivesUpIn, turn_of};
ghost use Rattle.deadpool_managed.specs.Steps.{AdvancesAt, PollsAt, CancelsAt, Leaves, lent, stage_at, turn_at};

use crate::calls::Position;
use crate::gate::Ticket;
use crate::prepare::Preparing;
use crate::reporting::report;
use crate::{
    AsyncHook, Environment, Kept, Manager, Moment, PoolError, Slot, StageKind, SyncHook, Timeouts,
    Turn,
};
use deadpool_desk::{Desk, Held, Reply, Step};
use deadpool_parts::deadline::is_reached;
use futures::task::Context;
use std::mem;

/// How far a get is, with its object beside it. Contracts see both as one stage.
#[derive(Drop)]
pub enum Phase<C, R, S> {
    Unpolled,
    /// With an idle object that was served now, and as many more as it may take.
    Served(usize),
    /// In the queue, until a deadline if there is one.
    Queued(Ticket, Option<Moment>),
    /// With a place and nothing else. It may take so many idle objects; none set is as many as are idle.
    Going(Option<usize>),
    /// With a creation under way: its state, once begun, and its deadline.
    Creating(Option<C>, Option<Moment>),
    /// With an idle object whose preparation was pending.
    Recycling(Preparing<R, S>),
    /// With a new object, which the hooks see.
    Checking(Position<S>),
    Finished,
}

/// What one step of a get came to. An object that it gives stays in its place.
#[derive(Drop)]
pub enum Came<E> {
    More,
    Pending,
    Given,
    Failed(PoolError<E>),
}

/// How far a get is, and the object that it prepares, in one place until it is given out.
#[derive(Drop)]
pub(crate) struct Work<M: Manager, A: AsyncHook<M>> {
    pub(crate) phase: Phase<M::Creating, M::Recycling, A::State>,
    pub(crate) slot: Option<Slot<Kept<M::Type>>>,
}

impl<M: Manager, A: AsyncHook<M>> Work<M, A> {
    // One step.
    pub(crate) fn step<F: SyncHook<M>, D: Desk<Kept<M::Type>>>(
        &mut self,
        timeouts: &Timeouts,
        desk: &mut D,
        environment: &Environment<M, F, A>,
        now: Moment,
        cx: &mut Context<'_>,
    ) -> Came<M::Error>
        requires placed { IsPlaced M.is_ready self.old.phase self.old.slot }
        requires waits { WaitsUnder (D.waits desk.old) (stage_at self.old) }
        requires holds { D.holds desk.old (held_at (stage_at self.old)) }
        ensures advanced { AdvancesAt D.Desk
            (lent M.Manager F.SyncHook A.AsyncHook environment.now now timeouts.now)
            desk.old (stage_at self.old) desk.new (stage_at self.new) (turn_at result self.new) }
        ensures falls { result ≡ Came.More → Decreases (stage_at self.old) (stage_at self.new) }
        ensures leaves { Leaves D.Desk M.is_ready desk.new result self.new }
        ensures kept { Keeps cx.old cx.new }
    {
        if self.lacks_allowance() {
            self.begin(timeouts, desk, environment, now, cx)
        } else {
            self.go_on(timeouts, desk, environment, now, cx)
        }
    }

    // Steps up to the first that has nothing more to do at once.
    pub(crate) fn run<F: SyncHook<M>, D: Desk<Kept<M::Type>>>(
        &mut self,
        timeouts: &Timeouts,
        desk: &mut D,
        environment: &Environment<M, F, A>,
        now: Moment,
        cx: &mut Context<'_>,
    ) -> Came<M::Error>
        requires placed { IsPlaced M.is_ready self.old.phase self.old.slot }
        requires waits { WaitsUnder (D.waits desk.old) (stage_at self.old) }
        requires holds { D.holds desk.old (held_at (stage_at self.old)) }
        ensures polled { PollsAt D.Desk
            (lent M.Manager F.SyncHook A.AsyncHook environment.now now timeouts.now)
            desk.old (stage_at self.old) desk.new (stage_at self.new) (turn_at result self.new) }
        ensures leaves { Leaves D.Desk M.is_ready desk.new result self.new }
        ensures kept { Keeps cx.old cx.new }
    {
        'until_allowed: while self.lacks_allowance() {
            match self.begin(timeouts, desk, environment, now, cx) {
                Came::More => {}
                came => return came,
            }
        }
        'allowed: loop {
            match self.go_on(timeouts, desk, environment, now, cx) {
                Came::More => {}
                came => return came,
            }
        }
    }

    // Whether the get is in a poll and has taken nothing in it yet.
    fn lacks_allowance(&self) -> bool
        requires { IsPlaced M.is_ready self.now.phase self.now.slot }
        ensures { result ≡ lacks_allowance (stage_at self.now) }
    {
        match &self.phase {
            Phase::Unpolled | Phase::Queued(_, _) | Phase::Recycling(_) => true,
            Phase::Going(allowance) => allowance.is_none(),
            _ => false,
        }
    }

    // A step of a get that has taken nothing in this poll.
    fn begin<F: SyncHook<M>, D: Desk<Kept<M::Type>>>(
        &mut self,
        timeouts: &Timeouts,
        desk: &mut D,
        environment: &Environment<M, F, A>,
        now: Moment,
        cx: &mut Context<'_>,
    ) -> Came<M::Error>
        requires placed { IsPlaced M.is_ready self.old.phase self.old.slot }
        requires lacks { lacks_allowance (stage_at self.old) ≡ true }
        requires waits { WaitsUnder (D.waits desk.old) (stage_at self.old) }
        requires holds { D.holds desk.old (held_at (stage_at self.old)) }
        ensures advanced { AdvancesAt D.Desk
            (lent M.Manager F.SyncHook A.AsyncHook environment.now now timeouts.now)
            desk.old (stage_at self.old) desk.new (stage_at self.new) (turn_at result self.new) }
        ensures falls { result ≡ Came.More → Decreases (stage_at self.old) (stage_at self.new) }
        ensures leaves { Leaves D.Desk M.is_ready desk.new result self.new }
        ensures kept { Keeps cx.old cx.new }
    {
        match &self.phase {
            Phase::Unpolled => self.enter(timeouts, desk, environment, now),
            _ => self.step_rarely(timeouts, desk, environment, now, cx),
        }
    }

    // A step of a get that has taken an object in this poll, or that creates or checks.
    fn go_on<F: SyncHook<M>, D: Desk<Kept<M::Type>>>(
        &mut self,
        timeouts: &Timeouts,
        desk: &mut D,
        environment: &Environment<M, F, A>,
        now: Moment,
        cx: &mut Context<'_>,
    ) -> Came<M::Error>
        requires placed { IsPlaced M.is_ready self.old.phase self.old.slot }
        requires has { lacks_allowance (stage_at self.old) ≡ false }
        requires waits { WaitsUnder (D.waits desk.old) (stage_at self.old) }
        requires holds { D.holds desk.old (held_at (stage_at self.old)) }
        ensures advanced { AdvancesAt D.Desk
            (lent M.Manager F.SyncHook A.AsyncHook environment.now now timeouts.now)
            desk.old (stage_at self.old) desk.new (stage_at self.new) (turn_at result self.new) }
        ensures falls { result ≡ Came.More → Decreases (stage_at self.old) (stage_at self.new) }
        ensures leaves { Leaves D.Desk M.is_ready desk.new result self.new }
        ensures kept { Keeps cx.old cx.new }
    {
        match &self.phase {
            Phase::Served(left) => {
                let left = *left;
                self.recycle(left, timeouts, desk, environment, now, cx)
            }
            _ => self.step_rarely(timeouts, desk, environment, now, cx),
        }
    }

    // Any step but the first, and that of an object which was served in this poll.
    fn step_rarely<F: SyncHook<M>, D: Desk<Kept<M::Type>>>(
        &mut self,
        timeouts: &Timeouts,
        desk: &mut D,
        environment: &Environment<M, F, A>,
        now: Moment,
        cx: &mut Context<'_>,
    ) -> Came<M::Error>
        requires placed { IsPlaced M.is_ready self.old.phase self.old.slot }
        requires pending { IsPending self.old.phase }
        requires waits { WaitsUnder (D.waits desk.old) (stage_at self.old) }
        requires holds { D.holds desk.old (held_at (stage_at self.old)) }
        ensures advanced { AdvancesAt D.Desk
            (lent M.Manager F.SyncHook A.AsyncHook environment.now now timeouts.now)
            desk.old (stage_at self.old) desk.new (stage_at self.new) (turn_at result self.new) }
        ensures falls { result ≡ Came.More → Decreases (stage_at self.old) (stage_at self.new) }
        ensures leaves { Leaves D.Desk M.is_ready desk.new result self.new }
        ensures kept { Keeps cx.old cx.new }
    {
        match mem::replace(&mut self.phase, Phase::Finished) {
            Phase::Unpolled => Came::Pending,
            Phase::Served(_) => Came::Pending,
            Phase::Queued(ticket, deadline) => {
                let expired = is_reached(deadline, now);
                let reply = desk.make(&Step::Ask { ticket, expired }, &mut self.slot);
                self.served(deadline, reply)
            }
            Phase::Going(allowance) => {
                let reply = desk.make(&Step::Again { allowance }, &mut self.slot);
                self.served(None, reply)
            }
            Phase::Creating(begun, deadline) => match begun {
                None => self.begin_creation(timeouts, desk, environment, now, cx),
                Some(state) => self.advance_creation(
                    state,
                    deadline,
                    timeouts,
                    desk,
                    environment,
                    now,
                    cx,
                ),
            },
            Phase::Recycling(preparing) => {
                self.advance_recycling(preparing, timeouts, desk, environment, now, cx)
            }
            Phase::Checking(position) => self.advance_checking(
                position,
                timeouts,
                desk,
                environment,
                now,
                cx,
            ),
            Phase::Finished => Came::Pending,
        }
    }

    // A get that was not polled yet.
    pub(crate) fn new() -> Self
        ensures phase { result.phase ≡ Phase.Unpolled }
        ensures slot { result.slot ≡ None }
    {
        Work {
            phase: Phase::Unpolled,
            slot: None,
        }
    }

    // The deadline of the phase that the get is in.
    pub(crate) fn deadline(&self) -> Option<Moment>
        requires { IsPlaced M.is_ready self.now.phase self.now.slot }
        ensures { result ≡ deadline_of (stage_at self.now) }
    {
        match &self.phase {
            Phase::Queued(_, deadline) => *deadline,
            Phase::Creating(_, deadline) => *deadline,
            Phase::Recycling(Preparing::Recycle(_, deadline)) => *deadline,
            _ => None,
        }
    }

    // Whether the get has a place and goes on at its next poll, with nothing to wait for.
    pub(crate) fn is_going(&self) -> bool
        requires { IsPlaced M.is_ready self.now.phase self.now.slot }
        ensures { result ≡ is_going (stage_at self.now) }
    {
        matches!(&self.phase, Phase::Going(_))
    }

    // How far the get is, by name.
    pub(crate) fn kind(&self) -> StageKind
        requires { IsPlaced M.is_ready self.now.phase self.now.slot }
        ensures { result ≡ kind_of (stage_at self.now) }
    {
        let number = self.slot.as_ref().map(|slot| slot.number);
        match (&self.phase, number) {
            (Phase::Unpolled, _) => StageKind::Unpolled,
            (Phase::Queued(ticket, _), _) => StageKind::Queued(*ticket),
            (Phase::Going(_), _) => StageKind::Going,
            (Phase::Creating(_, _), _) => StageKind::Creating,
            (Phase::Served(_) | Phase::Recycling(_), Some(number)) => StageKind::Recycling(number),
            (Phase::Checking(_), Some(number)) => StageKind::Checking(number),
            (_, _) => StageKind::Finished,
        }
    }

    // Gives back what the get holds, in one step at the desk, and ends it. An object that it prepares is given up and
    // detached.
    pub(crate) fn cancel<F: SyncHook<M>, D: Desk<Kept<M::Type>>>(
        &mut self,
        desk: &mut D,
        environment: &Environment<M, F, A>,
    )
        requires placed { IsPlaced M.is_ready self.old.phase self.old.slot }
        requires waits { WaitsUnder (D.waits desk.old) (stage_at self.old) }
        requires holds { D.holds desk.old (held_at (stage_at self.old)) }
        ensures cancelled { CancelsAt D.Desk
            (may M.Manager F.SyncHook A.AsyncHook environment.now.manager)
            desk.old (stage_at self.old) desk.new }
        ensures holds { D.holds desk.new None }
        ensures finished { self.new.phase ≡ Phase.Finished }
    {
        match mem::replace(&mut self.phase, Phase::Finished) {
            Phase::Unpolled => {}
            Phase::Finished => {}
            Phase::Queued(ticket, _) => {
                report(desk, &Step::Withdraw { ticket });
            }
            Phase::Going(_) => {
                report(desk, &Step::Cancel(Held::Place));
            }
            Phase::Creating(_, _) => {
                report(desk, &Step::Cancel(Held::Creation));
            }
            Phase::Served(_) => give_up(self.slot.take(), desk, environment),
            Phase::Recycling(_) => give_up(self.slot.take(), desk, environment),
            Phase::Checking(_) => give_up(self.slot.take(), desk, environment),
        }
    }

    // What a step came to, with the object that it gives.
    pub(crate) fn turn(&mut self, came: Came<M::Error>) -> Turn<M::Type, M::Error>
        requires placed { IsPlaced M.is_ready self.old.phase self.old.slot }
        requires given { came ≡ Came.Given → self.old.phase ≡ Phase.Finished }
        ensures turn { result ≡ turn_of came self.old.slot }
        ensures same { stage_at self.new ≡ stage_at self.old }
        ensures placed { IsPlaced M.is_ready self.new.phase self.new.slot }
    {
        match came {
            Came::More => Turn::More,
            Came::Pending => Turn::Pending,
            Came::Given => match self.slot.take() {
                Some(slot) => Turn::Done(Ok(slot)),
                None => Turn::Pending,
            },
            Came::Failed(cause) => Turn::Done(Err(cause)),
        }
    }

    // The get ends with an error.
    pub(crate) fn end(&mut self, cause: PoolError<M::Error>) -> Came<M::Error>
        ensures phase { self.new.phase ≡ Phase.Finished }
        ensures slot { self.new.slot ≡ self.old.slot }
        ensures failed { result ≡ Came.Failed cause }
    {
        self.phase = Phase::Finished;
        Came::Failed(cause)
    }
}

// Gives back the place of an object under preparation, and the object up.
fn give_up<M: Manager, F: SyncHook<M>, A: AsyncHook<M>, D: Desk<Kept<M::Type>>>(
    held: Option<Slot<Kept<M::Type>>>,
    desk: &mut D,
    environment: &Environment<M, F, A>,
)
    requires { D.holds desk.old (Some Held.Object) }
    ensures given_up { (reply : Reply)
        × (Makes D.Desk desk.old (making (Step.Cancel Held.Object) reply None) desk.new
        × GivesUpIn (may M.Manager F.SyncHook A.AsyncHook environment.now.manager) held reply) }
    ensures holds { D.holds desk.new None }
{
    if report(desk, &Step::Cancel(Held::Object)) == Reply::Done {
        if let Some(mut slot) = held {
            environment.manager.detach(&mut slot.value.value);
        }
    }
}
