//! The steps of a managed pool's owner, and what is read without a step. A step that gives idle objects up writes
//! their keys, in the order in which they stood, to the front of `keys`, as far as it reaches, and tells how many
//! these are. Room for as many keys as are idle is enough; of those that find none nothing more is told.
ghost use Rattle.std.specs.Prelude.{◌≡◌, ◌≤◌, length, not, slice_get, take, Some};
ghost use denote.RawPtr.{InBlock};
ghost use Rattle.deadpool_c.specs.Choices.{RetainsRaw};
ghost use Rattle.deadpool_c.specs.Entries.{noted_at, removed_at};
ghost use Rattle.deadpool_c.specs.Keys.{Writes, written_count, told_count, idle_keys, given_up_keys};
ghost use Rattle.deadpool_c.specs.Keys.{key_reply};
ghost use Rattle.deadpool_c.specs.ManagedReplies.{MakesForOwnerRaw};
ghost use Rattle.deadpool_c.specs.ManagedSteps.{owner_step_of};

use crate::choice::Choice;
use crate::entry::NotedStep;
use crate::keys::copy_keys;
use crate::managed_block::ManagedPool;
use crate::managed_owner_steps::{self, key_at};
use crate::reply::{DONE, OUT_OF_MEMORY, Reply, UNKNOWN, keyed, plain};
use crate::step;
use core::mem::replace_with;
use deadpool_desk::OwnerStep;

// Writes the keys of the idle objects, at most so many, from the front on, and says how many it has written.
fn write_keys(pool: &mut ManagedPool, most: usize, keys: &mut [u64]) -> usize
    requires { InBlock pool.old.at }
    ensures written { Writes
        (take most (idle_keys pool.old.state.pool.core.desk)) keys.old keys.new }
    ensures count { result
        ≡ written_count (take most (idle_keys pool.old.state.pool.core.desk)) keys.old }
    ensures same { pool.new.state ≡ pool.old.state }
    ensures made { InBlock pool.new.at }
{
    let room = most.min(keys.len());
    for at in 0..room {
        let Some(key) = replace_with(pool, at, key_at) else {
            return at;
        };
        keys[at] = key;
    }
    room
}

// Writes the keys of the idle objects, from the front on, and says how many it has written.
fn write_all_keys(pool: &mut ManagedPool, keys: &mut [u64]) -> usize
    requires { InBlock pool.old.at }
    ensures written { Writes (idle_keys pool.old.state.pool.core.desk) keys.old keys.new }
    ensures count { result ≡ written_count (idle_keys pool.old.state.pool.core.desk) keys.old }
    ensures same { pool.new.state ≡ pool.old.state }
    ensures made { InBlock pool.new.at }
{
    let room = keys.len();
    write_keys(pool, room, keys)
}

// How many objects are idle, as far as a number can tell, if so many are known to be.
fn count_idle(pool: &mut ManagedPool, known: usize) -> usize
    requires made { InBlock pool.old.at }
    requires known { known ≤ length (idle_keys pool.old.state.pool.core.desk) }
    ensures count { result ≡ told_count (idle_keys pool.old.state.pool.core.desk) }
    ensures same { pool.new.state ≡ pool.old.state }
    ensures made { InBlock pool.new.at }
{
    for at in known..usize::MAX {
        let Some(_key) = replace_with(pool, at, key_at) else {
            return at;
        };
    }
    usize::MAX
}

// Writes the keys of the idle objects that go with a step, and says how many go.
fn write_given_up(pool: &mut ManagedPool, step: &OwnerStep, keys: &mut [u64]) -> usize
    requires { InBlock pool.old.at }
    ensures written { Writes
        (given_up_keys (Some step.now) pool.old.state.pool.core.desk) keys.old keys.new }
    ensures count { result
        ≡ told_count (given_up_keys (Some step.now) pool.old.state.pool.core.desk) }
    ensures same { pool.new.state ≡ pool.old.state }
    ensures made { InBlock pool.new.at }
{
    match step {
        OwnerStep::Resize { limit } => {
            let surplus = replace_with(pool, *limit, managed_owner_steps::surplus);
            write_keys(pool, surplus, keys);
            surplus
        }
        OwnerStep::Close => {
            let written = write_all_keys(pool, keys);
            count_idle(pool, written)
        }
        OwnerStep::DropHandle => {
            if !replace_with(pool, (), managed_owner_steps::is_last_handle) {
                return 0;
            }
            let written = write_all_keys(pool, keys);
            count_idle(pool, written)
        }
        OwnerStep::Status | OwnerStep::CloneHandle | OwnerStep::Upgrade => 0,
    }
}

/// Makes a step of the pool's owner: `step` is `RESIZE`, `CLOSE`, `CLONE_HANDLE`, `DROP_HANDLE` or `UPGRADE`. Each of
/// them says what `number` is to it, which replies it has, and which idle objects go: with `DONE` comes how many went,
/// more than `keys` has room for if some of their keys were not written. Another `step` is none: the reply is
/// `UNKNOWN`, and nothing has changed.
#[unsafe(no_mangle)]
pub extern "C" fn deadpool_managed_make_for_owner(
    pool: &mut ManagedPool,
    step: u64,
    number: usize,
    keys: &mut [u64],
) -> Reply
    requires { InBlock pool.old.at }
    ensures step { let asked = owner_step_of step number
        in MakesForOwnerRaw pool.old.state.pool asked
        (told_count (given_up_keys asked pool.old.state.pool.core.desk))
        result pool.new.state.pool }
    ensures keys { Writes (given_up_keys (owner_step_of step number) pool.old.state.pool.core.desk)
        keys.old keys.new }
    ensures made { InBlock pool.new.at }
{
    let Some(step) = step::asked_by_owner(step, number) else {
        return plain(UNKNOWN);
    };
    let count = write_given_up(pool, &step, keys);
    replace_with(pool, (step, count), managed_owner_steps::make)
}

/// Asks about each idle object once, front to back: those go whose byte of `keep` is 0, if more are idle than are to
/// stay, and the others stay, also those beyond it. `DONE` with how many went and in `left` how many stay, or
/// `OUT_OF_MEMORY`, and nothing has changed.
#[unsafe(no_mangle)]
pub extern "C" fn deadpool_managed_retain(
    pool: &mut ManagedPool,
    keep: &[u8],
    keys: &mut [u64],
) -> Reply
    requires { InBlock pool.old.at }
    ensures step { RetainsRaw pool.old.state.pool
        keep.now keys.old result pool.new.state.pool keys.new }
    ensures made { InBlock pool.new.at }
{
    match replace_with(pool, Choice { keep }, managed_owner_steps::retain) {
        Ok(given) => {
            copy_keys(given.removed.as_slice(), keys);
            Reply {
                kind: DONE,
                number: given.removed.len(),
                key: 0,
                left: given.retained,
            }
        }
        Err(_) => plain(OUT_OF_MEMORY),
    }
}

/// Whether the pool has closed. It is no step.
#[unsafe(no_mangle)]
pub extern "C" fn deadpool_managed_is_closed(pool: &mut ManagedPool) -> bool
    requires { InBlock pool.old.at }
    ensures reply { result ≡ not pool.old.state.pool.core.desk.is_open }
    ensures same { pool.new.state ≡ pool.old.state }
    ensures made { InBlock pool.new.at }
{
    replace_with(pool, (), managed_owner_steps::is_closed)
}

/// The key of the idle object at this position, front to back: `DONE` with it, `UNKNOWN`. It is no step.
#[unsafe(no_mangle)]
pub extern "C" fn deadpool_managed_key(pool: &mut ManagedPool, at: usize) -> Reply
    requires { InBlock pool.old.at }
    ensures reply { result ≡ key_reply (slice_get (idle_keys pool.old.state.pool.core.desk) at) }
    ensures same { pool.new.state ≡ pool.old.state }
    ensures made { InBlock pool.new.at }
{
    match replace_with(pool, at, key_at) {
        Some(key) => keyed(DONE, 0, key),
        None => plain(UNKNOWN),
    }
}

/// Whether the journal has found no room for a step. It is no step.
#[unsafe(no_mangle)]
pub extern "C" fn deadpool_managed_is_full(pool: &mut ManagedPool) -> bool
    requires { InBlock pool.old.at }
    ensures reply { result ≡ pool.old.state.pool.log.is_full }
    ensures same { pool.new.state ≡ pool.old.state }
    ensures made { InBlock pool.new.at }
{
    replace_with(pool, (), managed_owner_steps::is_full)
}

/// The entry of the journal at this position, or the step `NO_ENTRY`. It is no step of the pool.
#[unsafe(no_mangle)]
pub extern "C" fn deadpool_managed_entry(pool: &mut ManagedPool, at: usize) -> NotedStep
    requires { InBlock pool.old.at }
    ensures reply { result ≡ noted_at (slice_get pool.old.state.pool.log.entries at) }
    ensures same { pool.new.state ≡ pool.old.state }
    ensures made { InBlock pool.new.at }
{
    replace_with(pool, at, managed_owner_steps::entry)
}

/// Of the entry at a position, that of a retain, the object that was removed at an index: `DONE`, its number and in
/// `left` where it stood. `UNKNOWN` if there is none. It is no step.
#[unsafe(no_mangle)]
pub extern "C" fn deadpool_managed_removal(pool: &mut ManagedPool, at: usize, index: usize) -> Reply
    requires { InBlock pool.old.at }
    ensures reply { result ≡ removed_at (slice_get pool.old.state.pool.log.entries at) index }
    ensures same { pool.new.state ≡ pool.old.state }
    ensures made { InBlock pool.new.at }
{
    replace_with(pool, (at, index), managed_owner_steps::removal)
}
