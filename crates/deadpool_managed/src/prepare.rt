//! What an object passes before it is handed out: an idle one its preparation, a new one its hooks.
//!
//! A call that is pending keeps its state until the next poll; the calls before it are not made again.
ghost use Rattle.std.specs.Prelude.{◌≡◌};
ghost use Rattle.futures.specs.Task.{Keeps};
ghost use Rattle.deadpool_parts.specs.Program.{Gives};
ghost use Rattle.deadpool_managed.specs.Outside.{may};
ghost use Rattle.deadpool_managed.specs.Calls.{start};
ghost use Rattle.deadpool_managed.specs.Prepare.{prepare, pre_recycle, begin_recycling, poll_recycling, post_recycle};
ghost use Rattle.deadpool_managed.specs.Prepare.{post_create, with_value, IsReadyPreparation, IsReadyPrepared};
ghost use Rattle.deadpool_managed.specs.Phases.{preparation_of, prepared_of, IsPlaced, PreparesIn, IsReadyIn, ChecksIn};
ghost use Rattle.deadpool_managed.specs.Phases.{IsReadyHeld};
ghost use Rattle.deadpool_managed.specs.declared.work.Phase.{Phase};
ghost use Rattle.deadpool_managed.specs.declared.prepare.Preparing.{Preparing};

use crate::calls::{Position, Verdict, ask_hooks};
use crate::{AsyncHook, Environment, Kept, Manager, Moment, Slot, SyncHook};
use deadpool_parts::deadline::{deadline_after, is_reached, lacks_runtime};
use futures::task::{Context, Poll};
use std::time::Duration;

/// How far the preparation of an idle object is, which stands beside it.
#[derive(Drop)]
pub enum Preparing<R, S> {
    /// The hooks before the recycling see the object.
    PreRecycle(Position<S>),
    /// It is being recycled, until a deadline if there is one.
    Recycle(R, Option<Moment>),
    /// It was recycled, and the hooks after that see it.
    PostRecycle(Position<S>),
}

/// What came of a preparation that went on.
#[derive(Drop)]
pub enum Outcome<R, S> {
    Accepted,
    /// The object was refused, or its recycling ran out of time or had no runtime to tell it.
    GivenUp,
    Pending(Preparing<R, S>),
}

// An object that was served now is prepared, in its place.
pub(crate) fn pre_recycle_in<M: Manager, F: SyncHook<M>, A: AsyncHook<M>>(
    place: &mut Option<Slot<Kept<M::Type>>>,
    timeout: Option<Duration>,
    environment: &Environment<M, F, A>,
    now: Moment,
    cx: &mut Context<'_>,
) -> Outcome<M::Recycling, A::State>
    requires { IsPlaced {C = M.Creating} {R = M.Recycling} {S = A.State} M.is_ready
        (Phase.Served 0) place.old }
    ensures gives { PreparesIn (may M.Manager F.SyncHook A.AsyncHook environment.now.manager)
        now environment.now.runtime timeout environment.now.hooks (Preparing.PreRecycle start)
        place.old result place.new }
    ensures ready { IsReadyIn M.is_ready result place.new }
    ensures kept { Keeps cx.old cx.new }
{
    match place {
        Some(slot) => pre_recycle(slot, Position::start(), timeout, environment, now, cx),
        None => Outcome::GivenUp,
    }
}

// An object whose preparation was pending is prepared further, in its place.
pub(crate) fn prepare_in<M: Manager, F: SyncHook<M>, A: AsyncHook<M>>(
    place: &mut Option<Slot<Kept<M::Type>>>,
    preparing: Preparing<M::Recycling, A::State>,
    timeout: Option<Duration>,
    environment: &Environment<M, F, A>,
    now: Moment,
    cx: &mut Context<'_>,
) -> Outcome<M::Recycling, A::State>
    requires { IsPlaced {C = M.Creating} M.is_ready (Phase.Recycling preparing) place.old }
    ensures gives { PreparesIn (may M.Manager F.SyncHook A.AsyncHook environment.now.manager)
        now environment.now.runtime timeout environment.now.hooks preparing
        place.old result place.new }
    ensures ready { IsReadyIn M.is_ready result place.new }
    ensures kept { Keeps cx.old cx.new }
{
    match place {
        Some(slot) => prepare(slot, preparing, timeout, environment, now, cx),
        None => Outcome::GivenUp,
    }
}

// Prepares an object that was idle, from where it had come.
fn prepare<M: Manager, F: SyncHook<M>, A: AsyncHook<M>>(
    slot: &mut Slot<Kept<M::Type>>,
    preparing: Preparing<M::Recycling, A::State>,
    timeout: Option<Duration>,
    environment: &Environment<M, F, A>,
    now: Moment,
    cx: &mut Context<'_>,
) -> Outcome<M::Recycling, A::State>
    requires { IsReadyPreparation M.is_ready (preparation_of slot.old preparing) }
    ensures gives { Gives (may M.Manager F.SyncHook A.AsyncHook environment.now.manager)
        (prepare now environment.now.runtime timeout environment.now.hooks
        (preparation_of slot.old preparing)) (prepared_of slot.new result) }
    ensures ready { IsReadyPrepared M.is_ready (prepared_of slot.new result) }
    ensures kept { Keeps cx.old cx.new }
{
    match preparing {
        Preparing::PreRecycle(position) => pre_recycle(
            slot,
            position,
            timeout,
            environment,
            now,
            cx,
        ),
        Preparing::Recycle(recycling, deadline) => {
            poll_recycling(slot, recycling, deadline, environment, now, cx)
        }
        Preparing::PostRecycle(position) => post_recycle(slot, position, environment, now, cx),
    }
}

// The hooks that see an object before its recycling are asked, from the position on.
fn pre_recycle<M: Manager, F: SyncHook<M>, A: AsyncHook<M>>(
    slot: &mut Slot<Kept<M::Type>>,
    position: Position<A::State>,
    timeout: Option<Duration>,
    environment: &Environment<M, F, A>,
    now: Moment,
    cx: &mut Context<'_>,
) -> Outcome<M::Recycling, A::State>
    ensures gives { Gives (may M.Manager F.SyncHook A.AsyncHook environment.now.manager)
        (pre_recycle now environment.now.runtime timeout environment.now.hooks
        slot.old position) (prepared_of slot.new result) }
    ensures ready { IsReadyPrepared M.is_ready (prepared_of slot.new result) }
    ensures kept { Keeps cx.old cx.new }
{
    let hooks = environment.hooks.pre_recycle();
    let kept = &mut slot.value;
    match ask_hooks(hooks, position, &mut kept.value, &kept.metrics, cx) {
        Verdict::Accepted => begin_recycling(slot, timeout, environment, now, cx),
        Verdict::Refused(_) => Outcome::GivenUp,
        Verdict::Pending(position) => Outcome::Pending(Preparing::PreRecycle(position)),
    }
}

// Begins a recycling. A timeout without a runtime gives the object up, and nothing is called.
fn begin_recycling<M: Manager, F: SyncHook<M>, A: AsyncHook<M>>(
    slot: &mut Slot<Kept<M::Type>>,
    timeout: Option<Duration>,
    environment: &Environment<M, F, A>,
    now: Moment,
    cx: &mut Context<'_>,
) -> Outcome<M::Recycling, A::State>
    ensures gives { Gives (may M.Manager F.SyncHook A.AsyncHook environment.now.manager)
        (begin_recycling now environment.now.runtime timeout environment.now.hooks slot.old)
        (prepared_of slot.new result) }
    ensures ready { IsReadyPrepared M.is_ready (prepared_of slot.new result) }
    ensures kept { Keeps cx.old cx.new }
{
    if lacks_runtime(environment.runtime, timeout) {
        return Outcome::GivenUp;
    }
    let kept = &mut slot.value;
    let recycling = environment.manager.recycle(&mut kept.value, &kept.metrics);
    let deadline = deadline_after(now, timeout);
    poll_recycling(slot, recycling, deadline, environment, now, cx)
}

// Goes on with a recycling. One that is pending at its deadline has expired.
fn poll_recycling<M: Manager, F: SyncHook<M>, A: AsyncHook<M>>(
    slot: &mut Slot<Kept<M::Type>>,
    mut recycling: M::Recycling,
    deadline: Option<Moment>,
    environment: &Environment<M, F, A>,
    now: Moment,
    cx: &mut Context<'_>,
) -> Outcome<M::Recycling, A::State>
    ensures gives { Gives (may M.Manager F.SyncHook A.AsyncHook environment.now.manager)
        (poll_recycling now environment.now.hooks deadline recycling slot.old)
        (prepared_of slot.new result) }
    ensures ready { IsReadyPrepared M.is_ready (prepared_of slot.new result) }
    ensures kept { Keeps cx.old cx.new }
{
    let manager = &environment.manager;
    let kept = &mut slot.value;
    match manager.poll_recycle(&mut recycling, &mut kept.value, &kept.metrics, cx) {
        Poll::Ready(Ok(())) => post_recycle(slot, Position::start(), environment, now, cx),
        Poll::Ready(Err(_)) => Outcome::GivenUp,
        Poll::Pending => {
            if is_reached(deadline, now) {
                Outcome::GivenUp
            } else {
                Outcome::Pending(Preparing::Recycle(recycling, deadline))
            }
        }
    }
}

// The hooks that see an object after its recycling are asked, from the position on.
fn post_recycle<M: Manager, F: SyncHook<M>, A: AsyncHook<M>>(
    slot: &mut Slot<Kept<M::Type>>,
    position: Position<A::State>,
    environment: &Environment<M, F, A>,
    now: Moment,
    cx: &mut Context<'_>,
) -> Outcome<M::Recycling, A::State>
    requires { M.is_ready slot.old.value.value }
    ensures gives { Gives (may M.Manager F.SyncHook A.AsyncHook environment.now.manager)
        (post_recycle now environment.now.hooks slot.old position) (prepared_of slot.new result) }
    ensures ready { IsReadyPrepared M.is_ready (prepared_of slot.new result) }
    ensures kept { Keeps cx.old cx.new }
{
    let hooks = environment.hooks.post_recycle();
    let kept = &mut slot.value;
    match ask_hooks(hooks, position, &mut kept.value, &kept.metrics, cx) {
        Verdict::Accepted => {
            kept.metrics = kept.metrics.recycled(now);
            Outcome::Accepted
        }
        Verdict::Refused(_) => Outcome::GivenUp,
        Verdict::Pending(position) => Outcome::Pending(Preparing::PostRecycle(position)),
    }
}

// The hooks that see the new object in its place are asked, from the position on.
pub(crate) fn post_create_in<M: Manager, F: SyncHook<M>, A: AsyncHook<M>>(
    place: &mut Option<Slot<Kept<M::Type>>>,
    position: Position<A::State>,
    environment: &Environment<M, F, A>,
    cx: &mut Context<'_>,
) -> Verdict<A::State, M::Error>
    requires { IsPlaced {C = M.Creating} {R = M.Recycling} M.is_ready
        (Phase.Checking position) place.old }
    ensures gives { ChecksIn (may M.Manager F.SyncHook A.AsyncHook environment.now.manager)
        environment.now.hooks position place.old result place.new }
    ensures ready { IsReadyHeld M.is_ready place.new }
    ensures kept { Keeps cx.old cx.new }
{
    match place {
        Some(slot) => post_create(slot, position, environment, cx),
        None => Verdict::Accepted,
    }
}

// The hooks that see a new object are asked, from the position on.
fn post_create<M: Manager, F: SyncHook<M>, A: AsyncHook<M>>(
    slot: &mut Slot<Kept<M::Type>>,
    position: Position<A::State>,
    environment: &Environment<M, F, A>,
    cx: &mut Context<'_>,
) -> Verdict<A::State, M::Error>
    ensures gives { Gives (may M.Manager F.SyncHook A.AsyncHook environment.now.manager)
        (post_create environment.now.hooks slot.old position) (result, slot.new.value.value) }
    ensures same { slot.new ≡ with_value slot.new.value.value slot.old }
    ensures ready { M.is_ready slot.old.value.value → M.is_ready slot.new.value.value }
    ensures kept { Keeps cx.old cx.new }
{
    let hooks = environment.hooks.post_create();
    let kept = &mut slot.value;
    ask_hooks(hooks, position, &mut kept.value, &kept.metrics, cx)
}
