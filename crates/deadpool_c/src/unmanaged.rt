//! The steps of an unmanaged pool. A step that gives idle objects up writes their keys, in the order in which they
//! stood, to the front of `keys`, as far as it reaches, and tells how many these are. Room for as many keys as are idle
//! is enough; of those that find none nothing more is told.
ghost use Rattle.std.specs.Prelude.{◌≡◌, ◌≤◌, true, [], length, not, Some};
ghost use denote.RawPtr.{InBlock};
ghost use Rattle.deadpool_unmanaged.specs.State.{bounded, opened, status_of};
ghost use Rattle.deadpool_unmanaged.specs.StateSteps.{Upgrades, closed_pool};
ghost use Rattle.deadpool_c.specs.Keys.{Writes, written_count, told_count, last_unmanaged_keys};
ghost use Rattle.deadpool_c.specs.Replies.{raw_standing};
ghost use Rattle.deadpool_c.specs.UnmanagedReplies.{MakesRaw, ClonesRaw, DropsHandleRaw, TakesGetWakeRaw};
ghost use Rattle.deadpool_c.specs.UnmanagedReplies.{TakesAddWakeRaw};
ghost use Rattle.deadpool_c.specs.UnmanagedSteps.{step_of};

use crate::managed_steps::Asked;
use crate::reply::{Reply, Standing};
use crate::unmanaged_block::UnmanagedPool;
use crate::unmanaged_steps::{self, key_at};
use core::mem::replace_with;
use std::alloc::Global;

/// Makes an open pool of so many objects at most, with one handle: `false` if memory is wanting. `max_waiting` is how
/// many gets may wait, and how many adds, by the greatest number any. The block has to be empty, with a null pointer:
/// what it led to before is forgotten.
#[unsafe(no_mangle)]
pub extern "C" fn deadpool_unmanaged_new(
    pool: &mut UnmanagedPool,
    alloc: Global,
    limit: usize,
    max_waiting: usize,
) -> bool
    ensures made { result ≡ true → InBlock pool.new.at }
    ensures pool { result ≡ true
        → pool.new.state.pool.pool ≡ bounded (Some max_waiting) (opened limit []) }
{
    match unmanaged_steps::open(alloc, limit, max_waiting) {
        Ok(made) => {
            *pool = made;
            true
        }
        Err(_) => false,
    }
}

/// Ends a pool. The keys of what is idle are forgotten.
#[unsafe(no_mangle)]
pub extern "C" fn deadpool_unmanaged_free(pool: UnmanagedPool)
    requires { InBlock pool.at }
{
    drop(pool.into_state());
}

// Writes the keys of the idle objects, from the first on, and says how many it has written.
fn write_keys(pool: &mut UnmanagedPool, keys: &mut [u64]) -> usize
    requires { InBlock pool.old.at }
    ensures written { Writes pool.old.state.pool.pool.idle keys.old keys.new }
    ensures count { result ≡ written_count pool.old.state.pool.pool.idle keys.old }
    ensures same { pool.new.state ≡ pool.old.state }
    ensures made { InBlock pool.new.at }
{
    let room = keys.len();
    for at in 0..room {
        let Some(key) = replace_with(pool, at, key_at) else {
            return at;
        };
        keys[at] = key;
    }
    room
}

// How many objects are idle, as far as a number can tell, if so many are known to be.
fn count_idle(pool: &mut UnmanagedPool, known: usize) -> usize
    requires made { InBlock pool.old.at }
    requires known { known ≤ length pool.old.state.pool.pool.idle }
    ensures count { result ≡ told_count pool.old.state.pool.pool.idle }
    ensures same { pool.new.state ≡ pool.old.state }
    ensures made { InBlock pool.new.at }
{
    for at in known..usize::MAX {
        let Some(_key) = replace_with(pool, at, key_at) else {
            return at;
        };
    }
    usize::MAX
}

/// Makes a step of a get, an add or an object: `step` is one of the eight constants from `GET_ENTER` on. Each of them
/// says what `is_set`, `number` and `key` are to it, and which replies it has; what it does not name is not looked at.
/// Another `step` is none: the reply is `UNKNOWN`, and nothing has changed.
#[unsafe(no_mangle)]
pub extern "C" fn deadpool_unmanaged_make(
    pool: &mut UnmanagedPool,
    step: u64,
    is_set: bool,
    number: usize,
    key: u64,
) -> Reply
    requires { InBlock pool.old.at }
    ensures step { MakesRaw pool.old.state.pool.pool
        (step_of step is_set number) key result pool.new.state.pool.pool }
    ensures made { InBlock pool.new.at }
{
    let asked = Asked {
        step,
        is_set,
        number,
        key,
    };
    replace_with(pool, asked, unmanaged_steps::make)
}

/// The pool closes for good, and all that is idle goes. Gives how many went, more than `keys` has room for if some of
/// their keys were not written.
#[unsafe(no_mangle)]
pub extern "C" fn deadpool_unmanaged_close(pool: &mut UnmanagedPool, keys: &mut [u64]) -> usize
    requires { InBlock pool.old.at }
    ensures step { pool.new.state.pool.pool ≡ closed_pool pool.old.state.pool.pool }
    ensures keys { Writes pool.old.state.pool.pool.idle keys.old keys.new }
    ensures count { result ≡ told_count pool.old.state.pool.pool.idle }
    ensures made { InBlock pool.new.at }
{
    let written = write_keys(pool, keys);
    let count = count_idle(pool, written);
    replace_with(pool, (), unmanaged_steps::close);
    count
}

/// There is one handle more: `DONE`, `NO_HANDLE`.
#[unsafe(no_mangle)]
pub extern "C" fn deadpool_unmanaged_clone_handle(pool: &mut UnmanagedPool) -> Reply
    requires { InBlock pool.old.at }
    ensures step { ClonesRaw pool.old.state.pool.pool result pool.new.state.pool.pool }
    ensures made { InBlock pool.new.at }
{
    replace_with(pool, (), unmanaged_steps::clone_handle)
}

/// There is one handle less: `DONE`, `NO_HANDLE`. The last one takes all that is idle with it, and `gone` is how many
/// went, more than `keys` has room for if some of their keys were not written.
#[unsafe(no_mangle)]
pub extern "C" fn deadpool_unmanaged_drop_handle(
    pool: &mut UnmanagedPool,
    keys: &mut [u64],
    gone: &mut usize,
) -> Reply
    requires { InBlock pool.old.at }
    ensures step { DropsHandleRaw pool.old.state.pool.pool result pool.new.state.pool.pool }
    ensures keys { Writes (last_unmanaged_keys pool.old.state.pool.pool) keys.old keys.new }
    ensures count { gone.new ≡ told_count (last_unmanaged_keys pool.old.state.pool.pool) }
    ensures made { InBlock pool.new.at }
{
    *gone = if replace_with(pool, (), unmanaged_steps::is_last_handle) {
        let written = write_keys(pool, keys);
        count_idle(pool, written)
    } else {
        0
    };
    replace_with(pool, (), unmanaged_steps::drop_handle)
}

/// There is one handle more, for an owner that has none, if one is left.
#[unsafe(no_mangle)]
pub extern "C" fn deadpool_unmanaged_upgrade(pool: &mut UnmanagedPool) -> bool
    requires { InBlock pool.old.at }
    ensures step { Upgrades pool.old.state.pool.pool result pool.new.state.pool.pool }
    ensures made { InBlock pool.new.at }
{
    replace_with(pool, (), unmanaged_steps::upgrade)
}

/// The next get in the queue that is due to be woken, and counts as told from then on: `DONE` with its ticket,
/// `UNKNOWN`. Nothing else changes.
#[unsafe(no_mangle)]
pub extern "C" fn deadpool_unmanaged_take_get_wake(pool: &mut UnmanagedPool) -> Reply
    requires { InBlock pool.old.at }
    ensures step { TakesGetWakeRaw pool.old.state.pool.pool result pool.new.state.pool.pool }
    ensures made { InBlock pool.new.at }
{
    replace_with(pool, (), unmanaged_steps::take_get_wake)
}

/// The next add in the queue that is due to be woken, and counts as told from then on: `DONE` with its ticket,
/// `UNKNOWN`. Nothing else changes.
#[unsafe(no_mangle)]
pub extern "C" fn deadpool_unmanaged_take_add_wake(pool: &mut UnmanagedPool) -> Reply
    requires { InBlock pool.old.at }
    ensures step { TakesAddWakeRaw pool.old.state.pool.pool result pool.new.state.pool.pool }
    ensures made { InBlock pool.new.at }
{
    replace_with(pool, (), unmanaged_steps::take_add_wake)
}

/// How the pool stands.
#[unsafe(no_mangle)]
pub extern "C" fn deadpool_unmanaged_status(pool: &mut UnmanagedPool) -> Standing
    requires { InBlock pool.old.at }
    ensures reply { result ≡ raw_standing (status_of pool.old.state.pool.pool) }
    ensures same { pool.new.state ≡ pool.old.state }
    ensures made { InBlock pool.new.at }
{
    replace_with(pool, (), unmanaged_steps::status)
}

/// Whether the pool has closed.
#[unsafe(no_mangle)]
pub extern "C" fn deadpool_unmanaged_is_closed(pool: &mut UnmanagedPool) -> bool
    requires { InBlock pool.old.at }
    ensures reply { result ≡ not pool.old.state.pool.pool.is_open }
    ensures same { pool.new.state ≡ pool.old.state }
    ensures made { InBlock pool.new.at }
{
    replace_with(pool, (), unmanaged_steps::is_closed)
}
