//! The order of what a get does, and a return and a take of an object. An order says what is next, in `command`. The
//! caller does that, and tells what has come of it by the call that the command names. A call that does not fit where
//! the order is says `false`, and changes nothing. An order is one get's, or one object's, and is told by one thread
//! at a time. It has no memory of its own, and needs no lock.
ghost use Rattle.std.specs.Prelude.{◌≡◌, ℕ, Option, None};
ghost use Rattle.deadpool_order.specs.Follows.{FollowsBegun, FollowsFailed, FollowsPaused};
ghost use Rattle.deadpool_order.specs.Follows.{FollowsReady, FollowsUnheard, after_drop};
ghost use Rattle.deadpool_order.specs.States.{IsCalling, IsGiving, IsLeaving, IsPaused, IsQueued, IsWithin};
ghost use Rattle.deadpool_order.specs.declared.command.Cause.TheVariants as why;
ghost use Rattle.deadpool_c.specs.Orders.{IsAt, Told, cause_of, hooks_in, state_in};

use crate::cause::cause_of;
use crate::order::{Hooks, Order};
use crate::order_kinds::{is_calling, is_giving, is_leaving, is_paused, is_queued, is_within};
use deadpool_order::{Order as Machine, State};

/// That of a new get, which may wait for its place or not.
#[unsafe(no_mangle)]
pub extern "C" fn deadpool_order_get(may_wait: bool) -> Order
    ensures { IsAt (State.Entering may_wait) None result }
{
    Order::of(&Machine::resumed(State::Entering { wait: may_wait }, None))
}

/// That of an object which comes back.
#[unsafe(no_mangle)]
pub extern "C" fn deadpool_order_return() -> Order
    ensures { IsAt State.Returning None result }
{
    Order::of(&Machine::returning())
}

/// That of an object which is taken out of the pool, for good.
#[unsafe(no_mangle)]
pub extern "C" fn deadpool_order_take() -> Order
    ensures { IsAt State.Taking None result }
{
    Order::of(&Machine::taking())
}

/// Behind `WAIT` or `PAUSE`: its turn has come, or it has waited for too long.
#[unsafe(no_mangle)]
pub extern "C" fn deadpool_order_polled(order: &mut Order, has_waited_long_enough: bool) -> bool
    ensures { Told IsPaused (λ s left s' left'. FollowsPaused has_waited_long_enough s s' × (left' ≡ left))
        order.old result order.new }
{
    let mut whole = order.whole();
    if !is_paused(whole.state()) {
        return false;
    }
    whole.polled(has_waited_long_enough);
    *order = Order::of(&whole);
    true
}

/// Behind `WAIT`: there is no memory for what would wake it. It leaves the queue.
#[unsafe(no_mangle)]
pub extern "C" fn deadpool_order_unheard(order: &mut Order) -> bool
    ensures { Told IsQueued (λ s _ s' _. FollowsUnheard s s') order.old result order.new }
{
    let mut whole = order.whole();
    if !is_queued(whole.state()) {
        return false;
    }
    whole.unheard();
    *order = Order::of(&whole);
    true
}

/// The task ends its poll within a call, and begins another one later: that one has an allowance of its own. Whoever
/// has no polls, but a thread that waits, needs none of it.
#[unsafe(no_mangle)]
pub extern "C" fn deadpool_order_pauses(order: &mut Order)
    ensures { IsAt (state_in order.old) None order.new }
{
    let mut whole = order.whole();
    whole.pauses();
    *order = Order::of(&whole);
}

/// Behind `command::CREATE`, `RECYCLE` or a hook: it has ended well.
#[unsafe(no_mangle)]
pub extern "C" fn deadpool_order_ready(order: &mut Order, hooks: Hooks) -> bool
    ensures { Told (λ s. IsCalling s × IsWithin (hooks_in hooks) s)
        (λ s left s' left'. FollowsReady (hooks_in hooks) s s' × (left' ≡ left))
        order.old result order.new }
{
    let counts = hooks.counts();
    let mut whole = order.whole();
    if !is_calling(whole.state()) || !is_within(&counts, whole.state()) {
        return false;
    }
    whole.ready(&counts);
    *order = Order::of(&whole);
    true
}

/// Behind `command::CREATE`, `RECYCLE` or a hook: it has not, or took too long. Of a creation `cause` is why its get
/// ends: `cause::OUT_OF_MEMORY`, `NO_RUNTIME`, `LATE` or `cause::FAILED`.
#[unsafe(no_mangle)]
pub extern "C" fn deadpool_order_failed(order: &mut Order, cause: u64) -> bool
    ensures { Told IsCalling
        (λ s left s' left'. FollowsFailed (cause_of cause) s s' × (left' ≡ left))
        order.old result order.new }
{
    let mut whole = order.whole();
    if !is_calling(whole.state()) {
        return false;
    }
    whole.failed(cause_of(cause));
    *order = Order::of(&whole);
    true
}

/// Before what `command::DETACH`, `RELEASE` or `TELL` asks for is done.
#[unsafe(no_mangle)]
pub extern "C" fn deadpool_order_begins(order: &mut Order) -> bool
    ensures { Told IsLeaving (λ s left s' left'. FollowsBegun s s' × (left' ≡ left))
        order.old result order.new }
{
    let mut whole = order.whole();
    if !is_leaving(whole.state()) {
        return false;
    }
    whole.begins();
    *order = Order::of(&whole);
    true
}

/// At `GIVE`: the object is out, or its taker's.
#[unsafe(no_mangle)]
pub extern "C" fn deadpool_order_gives(order: &mut Order) -> bool
    ensures { Told IsGiving (λ _ _ s' _. s' ≡ State.Over why.Done) order.old result order.new }
{
    let mut whole = order.whole();
    if !is_giving(whole.state()) {
        return false;
    }
    whole.gives();
    *order = Order::of(&whole);
    true
}

/// It is given up, wherever it is. Until its end at most four commands are left, which give back what it holds.
#[unsafe(no_mangle)]
pub extern "C" fn deadpool_order_dropped(order: &mut Order)
    ensures { (left : Option ℕ) × IsAt (after_drop (state_in order.old)) left order.new }
{
    let mut whole = order.whole();
    whole.dropped();
    *order = Order::of(&whole);
}
