//! The creation of an object, as its get polls it.
ghost use Rattle.std.specs.Prelude.{◌≡◌, ◌≢◌, Option};
ghost use Rattle.futures.specs.Task.{Keeps};
ghost use Rattle.deadpool_managed.specs.Answers.{IfReadyOk};
ghost use Rattle.deadpool_managed.specs.Bounds.{IsNewObject};
ghost use Rattle.deadpool_managed.specs.Get.{Made, Makes, AfterCreation, AfterCreated};
ghost use Rattle.deadpool_desk.specs.Replies.{left_by};
ghost use Rattle.deadpool_managed.specs.Phases.{IsPlaced, came_by};
ghost use Rattle.deadpool_managed.specs.Steps.{AdvancesAt, held_now, lent, stage_at, turn_at};
ghost use Rattle.deadpool_managed.specs.Stages.{Creating};
ghost use Rattle.deadpool_desk.specs.declared.step.Held.{Held};
ghost use Rattle.deadpool_desk.specs.declared.step.Step.{Step};

use crate::calls::Position;
use crate::reporting::report;
use crate::work::{Came, Phase, Work};
use crate::{
    AsyncHook, Environment, Kept, Manager, Metrics, Moment, PoolError, Slot, SyncHook, TimeoutType,
    Timeouts,
};
use deadpool_desk::{Desk, Reply, Step};
use deadpool_parts::deadline::{deadline_after, is_reached, lacks_runtime};
use futures::task::{Context, Poll};

impl<M: Manager, A: AsyncHook<M>> Work<M, A> {
    // A creation begins. A timeout without a runtime ends the get, and nothing is called.
    pub(crate) fn begin_creation<F: SyncHook<M>, D: Desk<Kept<M::Type>>>(
        &mut self,
        timeouts: &Timeouts,
        desk: &mut D,
        environment: &Environment<M, F, A>,
        now: Moment,
        cx: &mut Context<'_>,
    ) -> Came<M::Error>
        requires finished { self.old.phase ≡ Phase.Finished }
        requires empty { self.old.slot ≡ Option.None }
        requires holds { D.holds desk.old (Option.Some Held.Creation) }
        ensures advanced { AdvancesAt D.Desk
            (lent M.Manager F.SyncHook A.AsyncHook environment.now now timeouts.now)
            desk.old (Creating Option.None Option.None)
            desk.new (stage_at self.new) (turn_at result self.new) }
        ensures falls { result ≡ Came.More → IsNewObject (stage_at self.new) }
        ensures placed { IsPlaced M.is_ready self.new.phase self.new.slot }
        ensures not_given { result ≢ Came.Given }
        ensures kept { Keeps cx.old cx.new }
        ensures holds { D.holds desk.new (held_now result self.new) }
    {
        let timeout = timeouts.create;
        if lacks_runtime(environment.runtime, timeout) {
            let reply = report(desk, &Step::Failed);
            return ended(PoolError::NoRuntimeSpecified, reply);
        }
        let deadline = deadline_after(now, timeout);
        let mut state = environment.manager.create();
        let answer = environment.manager.poll_create(&mut state, cx);
        self.after_creation(answer, state, deadline, desk, now)
    }

    // A creation that was begun goes on.
    pub(crate) fn advance_creation<F: SyncHook<M>, D: Desk<Kept<M::Type>>>(
        &mut self,
        mut state: M::Creating,
        deadline: Option<Moment>,
        timeouts: &Timeouts,
        desk: &mut D,
        environment: &Environment<M, F, A>,
        now: Moment,
        cx: &mut Context<'_>,
    ) -> Came<M::Error>
        requires finished { self.old.phase ≡ Phase.Finished }
        requires empty { self.old.slot ≡ Option.None }
        requires holds { D.holds desk.old (Option.Some Held.Creation) }
        ensures advanced { AdvancesAt D.Desk
            (lent M.Manager F.SyncHook A.AsyncHook environment.now now timeouts.now)
            desk.old (Creating (Option.Some state) deadline)
            desk.new (stage_at self.new) (turn_at result self.new) }
        ensures falls { result ≡ Came.More → IsNewObject (stage_at self.new) }
        ensures placed { IsPlaced M.is_ready self.new.phase self.new.slot }
        ensures not_given { result ≢ Came.Given }
        ensures kept { Keeps cx.old cx.new }
        ensures holds { D.holds desk.new (held_now result self.new) }
    {
        let answer = environment.manager.poll_create(&mut state, cx);
        self.after_creation(answer, state, deadline, desk, now)
    }

    // What a creation's answer leads to. One that is pending at its deadline ends the get.
    fn after_creation<D: Desk<Kept<M::Type>>>(
        &mut self,
        answer: Poll<Result<M::Type, M::Error>>,
        state: M::Creating,
        deadline: Option<Moment>,
        desk: &mut D,
        now: Moment,
    ) -> Came<M::Error>
        requires finished { self.old.phase ≡ Phase.Finished }
        requires empty { self.old.slot ≡ Option.None }
        requires ready { IfReadyOk answer M.is_ready }
        requires holds { D.holds desk.old (Option.Some Held.Creation) }
        ensures advanced { (made : Made M.Type) × (Makes D.Desk desk.old made desk.new
            × AfterCreation now deadline (answer, state) made
            (stage_at self.new) (turn_at result self.new)) }
        ensures falls { result ≡ Came.More → IsNewObject (stage_at self.new) }
        ensures placed { IsPlaced M.is_ready self.new.phase self.new.slot }
        ensures not_given { result ≢ Came.Given }
        ensures holds { D.holds desk.new (held_now result self.new) }
    {
        match answer {
            Poll::Ready(created) => match created {
                Ok(value) => {
                    let reply = report(desk, &Step::Created);
                    self.after_created(value, now, reply)
                }
                Err(cause) => {
                    let reply = report(desk, &Step::Failed);
                    ended(PoolError::Backend(cause), reply)
                }
            },
            Poll::Pending => {
                if is_reached(deadline, now) {
                    let reply = report(desk, &Step::Failed);
                    return ended(PoolError::Timeout(TimeoutType::Create), reply);
                }
                self.phase = Phase::Creating(Some(state), deadline);
                Came::Pending
            }
        }
    }

    fn after_created(&mut self, value: M::Type, now: Moment, reply: Reply) -> Came<M::Error>
        requires finished { self.old.phase ≡ Phase.Finished }
        requires empty { self.old.slot ≡ Option.None }
        requires ready { M.is_ready value }
        ensures after { AfterCreated value now reply (stage_at self.new) (turn_at result self.new) }
        ensures falls { result ≡ Came.More → IsNewObject (stage_at self.new) }
        ensures placed { IsPlaced M.is_ready self.new.phase self.new.slot }
        ensures not_given { result ≢ Came.Given }
        ensures holds { held_now result self.new ≡ left_by Step.Created reply }
    {
        match reply {
            Reply::Number(number) => {
                self.slot = Some(Slot {
                    number,
                    value: Kept {
                        value,
                        metrics: Metrics::new(now),
                    },
                });
                self.phase = Phase::Checking(Position::start());
                Came::More
            }
            _ => Came::Failed(PoolError::Closed),
        }
    }
}

// What a get comes to whose creation has ended without an object.
fn ended<E: Drop>(cause: PoolError<E>, reply: Reply) -> Came<E>
    ensures { result ≡ came_by cause reply }
{
    match reply {
        Reply::Done => Came::Failed(cause),
        _ => Came::Failed(PoolError::Closed),
    }
}
