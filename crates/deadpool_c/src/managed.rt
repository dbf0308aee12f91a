//! A managed pool: how it is made and ended, the steps that gets and objects make, and who is to be woken.
ghost use Rattle.std.specs.Prelude.{◌≡◌, true, [], Some};
ghost use denote.RawPtr.{InBlock};
ghost use Rattle.deadpool_desk.specs.DeskState.{bounded, new_core};
ghost use Rattle.deadpool_journal.specs.LogState.{no_entries};
ghost use Rattle.deadpool_c.specs.ManagedReplies.{MakesRaw, StandsRaw, TellsRaw, mode_of};
ghost use Rattle.deadpool_c.specs.ManagedSteps.{step_of};
ghost use Rattle.deadpool_c.specs.Orders.{AdvancesRaw};

use crate::managed_block::ManagedPool;
use crate::managed_steps::{self, Advancing, Asked, Opening};
use crate::order::{Hooks, Order};
use crate::reply::{Reply, Standing};
use core::mem::replace_with;
use std::alloc::Global;

/// Makes a pool of so many objects at most, with one handle and room for so many entries of its journal: `false` if
/// memory is wanting. `min_idle` is how many objects a resize and a retain leave idle, and `max_waiting` how many gets
/// may wait, by the greatest number any. The block has to be empty, with a null pointer: what it led to before is
/// forgotten.
#[unsafe(no_mangle)]
pub extern "C" fn deadpool_managed_new(
    pool: &mut ManagedPool,
    alloc: Global,
    limit: usize,
    is_lifo: bool,
    most_entries: usize,
    min_idle: usize,
    max_waiting: usize,
) -> bool
    ensures made { result ≡ true → InBlock pool.new.at }
    ensures desk { result ≡ true → pool.new.state.pool.core.desk
        ≡ bounded (Some max_waiting) (new_core limit (mode_of is_lifo) 0 min_idle) }
    ensures unnotified { result ≡ true → pool.new.state.pool.core.unnotified ≡ [] }
    ensures log { result ≡ true → pool.new.state.pool.log ≡ no_entries most_entries }
{
    let opening = Opening {
        limit,
        is_lifo,
        most_entries,
        min_idle,
        max_waiting,
    };
    match managed_steps::open(alloc, opening) {
        Ok(made) => {
            *pool = made;
            true
        }
        Err(_) => false,
    }
}

/// Ends a pool. The keys of what is idle are forgotten.
#[unsafe(no_mangle)]
pub extern "C" fn deadpool_managed_free(pool: ManagedPool)
    requires { InBlock pool.at }
{
    drop(pool.into_state());
}

/// Makes a step of a get or an object: `step` is one of the constants from `ENTER` to `step::TAKE`. Each of them says
/// what `is_set`, `number` and `key` are to it, and which replies it has; what it does not name is not looked at.
/// Another `step` is none: the reply is `UNKNOWN`, and nothing has changed.
#[unsafe(no_mangle)]
pub extern "C" fn deadpool_managed_make(
    pool: &mut ManagedPool,
    step: u64,
    is_set: bool,
    number: usize,
    key: u64,
) -> Reply
    requires { InBlock pool.old.at }
    ensures step { MakesRaw pool.old.state.pool
        (step_of step is_set number) number key result pool.new.state.pool }
    ensures made { InBlock pool.new.at }
{
    let asked = Asked {
        step,
        is_set,
        number,
        key,
    };
    replace_with(pool, asked, managed_steps::make)
}

/// Makes the step of an order whose command is `ADVANCE` or `command::BACK`, and tells the order its reply, so that no
/// step is made that its order does not know. `number` and `key` are those of an object that comes back. With the
/// reply comes the object that the get is given, or that is given back. At another command nothing changes: `UNKNOWN`.
#[unsafe(no_mangle)]
pub extern "C" fn deadpool_managed_advance(
    pool: &mut ManagedPool,
    order: &mut Order,
    hooks: Hooks,
    number: usize,
    key: u64,
) -> Reply
    requires { InBlock pool.old.at }
    ensures step { AdvancesRaw pool.old.state.pool order.old hooks number key
        result pool.new.state.pool order.new }
    ensures made { InBlock pool.new.at }
{
    let asked = Advancing {
        order: *order,
        hooks,
        number,
        key,
    };
    let (reply, next) = replace_with(pool, asked, managed_steps::advance);
    *order = next;
    reply
}

/// How the pool stands.
#[unsafe(no_mangle)]
pub extern "C" fn deadpool_managed_status(pool: &mut ManagedPool) -> Standing
    requires { InBlock pool.old.at }
    ensures step { StandsRaw pool.old.state.pool result pool.new.state.pool }
    ensures made { InBlock pool.new.at }
{
    replace_with(pool, (), managed_steps::status)
}

/// The next get in the queue that is due to be woken, and counts as told from then on: `DONE` with its ticket,
/// `UNKNOWN`. It is no step.
#[unsafe(no_mangle)]
pub extern "C" fn deadpool_managed_take_wake(pool: &mut ManagedPool) -> Reply
    requires { InBlock pool.old.at }
    ensures step { TellsRaw pool.old.state.pool result pool.new.state.pool }
    ensures made { InBlock pool.new.at }
{
    replace_with(pool, (), managed_steps::take_wake)
}
