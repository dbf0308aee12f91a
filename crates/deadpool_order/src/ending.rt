//! What executes an order that needs no wait, over any desk.
ghost use Rattle.std.specs.Prelude.{◌≡◌, ◌≤◌, Option};
ghost use Rattle.deadpool_order.specs.Commands.{Fits};
ghost use Rattle.deadpool_order.specs.Ends.{Ends, IsOver, Nears, rank};
ghost use Rattle.deadpool_order.specs.Has.{IsInHand, IsOwnInHand, WaitsUnder, held_in, waits_in};
ghost use Rattle.deadpool_order.specs.declared.state.State.{State};

use crate::{Cause, Command, HookCounts, Order};
use deadpool_desk::{Desk, Slot, Step};

/// What an executor calls between the steps. Each call says whether it has come back: one that panics does not.
pub trait Calls<T> {
    /// Whoever is due by a step is woken.
    fn wake(&mut self) -> bool;
    /// The manager is told that the object is given up.
    fn detach(&mut self, value: &mut T) -> bool;
    /// The value is dropped.
    fn release(&mut self, value: T) -> bool;
    /// Those that wait for the pool's end are told, if it has come.
    fn tell(&mut self) -> bool;
}

/// Executes an order from a command on, if only an end can follow, and gives how many commands that took.
///
/// Whichever calls come back, all that is held is given back then, by no more commands than `rank` says.
pub fn finish<T: Drop, D: Desk<T>, C: Calls<T>>(
    order: &mut Order,
    first: Command,
    hand: &mut Option<Slot<T>>,
    desk: &mut D,
    calls: &mut C,
) -> usize
    requires ends { Ends order.old.state }
    requires fits { Fits order.old.state first }
    requires hand { IsInHand order.old.state hand.old }
    requires own { IsOwnInHand (D.takes_back desk.old) order.old.state hand.old }
    requires waits { WaitsUnder (D.waits desk.old) order.old.state }
    requires holds { D.holds desk.old (held_in order.old.state) }
    ensures over { IsOver order.new.state }
    ensures holds { D.holds desk.new Option.None }
    ensures few { result ≤ rank order.old.state }
{
    let mut command = first;
    let mut count = 0;
    'commands: loop {
        if order.is_over() {
            return count;
        }
        command = execute(order, command, hand, desk, calls);
        count += 1;
    }
}

// Executes one command of an order that ends.
fn execute<T: Drop, D: Desk<T>, C: Calls<T>>(
    order: &mut Order,
    command: Command,
    hand: &mut Option<Slot<T>>,
    desk: &mut D,
    calls: &mut C,
) -> Command
    requires ends { Ends order.old.state }
    requires goes_on { IsOver order.old.state → ⊥ }
    requires fits { Fits order.old.state command }
    requires hand { IsInHand order.old.state hand.old }
    requires own { IsOwnInHand (D.takes_back desk.old) order.old.state hand.old }
    requires waits { WaitsUnder (D.waits desk.old) order.old.state }
    requires holds { D.holds desk.old (held_in order.old.state) }
    ensures fits { Fits order.new.state result }
    ensures hand { IsInHand order.new.state hand.new }
    ensures own { IsOwnInHand (D.takes_back desk.new) order.new.state hand.new }
    ensures waits { waits_in order.new.state ≡ Option.None }
    ensures holds { D.holds desk.new (held_in order.new.state) }
    ensures nears { Nears order.old.state order.new.state }
{
    match command {
        Command::Make => {
            let step = order.step();
            let reply = desk.make(&step, &mut None);
            let next = order.replied(&NO_HOOKS, &step, reply);
            next_after(order, next, calls.wake())
        }
        Command::Back => {
            let mut brought = hand.take();
            let reply = desk.make(&Step::Back, &mut brought);
            let next = order.replied(&NO_HOOKS, &Step::Back, reply);
            *hand = brought;
            next_after(order, next, calls.wake())
        }
        Command::Detach | Command::Part => {
            let next = order.begins();
            match hand {
                Some(slot) => next_after(order, next, calls.detach(&mut slot.value)),
                None => next,
            }
        }
        Command::Release => {
            let next = order.begins();
            match hand.take() {
                Some(slot) => next_after(order, next, calls.release(slot.value)),
                None => next,
            }
        }
        Command::Tell => {
            let next = order.begins();
            next_after(order, next, calls.tell())
        }
        Command::Yield => {
            order.gives();
            Command::End(Cause::Done)
        }
        _ => unreachable!(),
    }
}

// The next command, if the call before it has come back, and else what there is to do in place of it.
fn next_after(order: &mut Order, next: Command, has_come_back: bool) -> Command
    requires ends { Ends order.old.state }
    requires fits { Fits order.old.state next }
    requires passed { order.old.state ≡ State.Returning → ⊥ }
    ensures ends { Ends order.new.state }
    ensures fits { Fits order.new.state result }
    ensures held { held_in order.new.state ≡ held_in order.old.state }
    ensures waits { waits_in order.new.state ≡ waits_in order.old.state }
    ensures rank { rank order.new.state ≤ rank order.old.state }
    ensures passed { order.new.state ≡ State.Returning → ⊥ }
{
    if has_come_back { next } else { order.dropped() }
}

// An order that ends asks no hook.
const NO_HOOKS: HookCounts = HookCounts {
    pre_recycle: 0,
    post_recycle: 0,
    post_create: 0,
};
