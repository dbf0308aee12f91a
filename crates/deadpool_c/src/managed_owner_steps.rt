//! The steps of a managed pool's owner, each on a pool that is taken and given back, and what is read without a step.
//! What each does is said at its export in `managed_owner.rt`.
ghost use Rattle.std.specs.Prelude.{◌≡◌, ◌==◌, not, slice_get, Some};
ghost use denote.RawPtr.{InBlock};
ghost use Rattle.deadpool_desk.specs.DeskSteps.{surplus};
ghost use Rattle.deadpool_journal.specs.Steps.{RetainsNoted};
ghost use Rattle.deadpool_c.specs.Choices.{choice_asks};
ghost use Rattle.deadpool_c.specs.declared.choice.Choice.{Choice};
ghost use Rattle.deadpool_c.specs.Entries.{noted_at, removed_at};
ghost use Rattle.deadpool_c.specs.Keys.{idle_keys};
ghost use Rattle.deadpool_c.specs.ManagedReplies.{MakesForOwnerRaw};

use crate::choice::Choice;
use crate::entry::{self, NotedStep};
use crate::managed_block::ManagedPool;
use crate::managed_reply;
use crate::reply::{self, Reply};
use deadpool_desk::{OwnerDesk, OwnerStep, RetainResult};
use std::alloc::AllocError;

/// A step with which so many idle objects go.
pub fn make(pool: ManagedPool, asked: (OwnerStep, usize)) -> (ManagedPool, Reply)
    requires { InBlock pool.at }
    ensures step { MakesForOwnerRaw
        pool.state.pool (Some asked.0) asked.1 result.1 result.0.state.pool }
    ensures made { InBlock result.0.at }
{
    let (step, count) = asked;
    let mut state = pool.into_state();
    let reply = state.pool.make_for_owner(&step);
    (
        ManagedPool::of(state),
        managed_reply::for_owner(&reply, count),
    )
}

pub fn retain(
    pool: ManagedPool,
    choice: Choice<'_>,
) -> (ManagedPool, Result<RetainResult<u64>, AllocError>)
    requires { InBlock pool.at }
    ensures step { (last : Choice)
        × RetainsNoted choice_asks pool.state.pool choice.entry result.1 result.0.state.pool last }
    ensures made { InBlock result.0.at }
{
    let mut choice = choice;
    let mut state = pool.into_state();
    let reply = state.pool.retain(&mut choice);
    (ManagedPool::of(state), reply)
}

pub fn is_closed(pool: ManagedPool, _unit: ()) -> (ManagedPool, bool)
    requires { InBlock pool.at }
    ensures reply { result.1 ≡ not pool.state.pool.core.desk.is_open }
    ensures same { result.0.state ≡ pool.state }
    ensures made { InBlock result.0.at }
{
    let state = pool.into_state();
    let reply = state.pool.is_closed();
    (ManagedPool::of(state), reply)
}

pub fn is_last_handle(pool: ManagedPool, _unit: ()) -> (ManagedPool, bool)
    requires { InBlock pool.at }
    ensures reply { result.1 ≡ (pool.state.pool.core.desk.handles == 1) }
    ensures same { result.0.state ≡ pool.state }
    ensures made { InBlock result.0.at }
{
    let state = pool.into_state();
    let reply = state.pool.is_last_handle();
    (ManagedPool::of(state), reply)
}

pub fn surplus(pool: ManagedPool, limit: usize) -> (ManagedPool, usize)
    requires { InBlock pool.at }
    ensures reply { result.1 ≡ surplus limit pool.state.pool.core.desk }
    ensures same { result.0.state ≡ pool.state }
    ensures made { InBlock result.0.at }
{
    let state = pool.into_state();
    let reply = state.pool.surplus(limit);
    (ManagedPool::of(state), reply)
}

pub fn is_full(pool: ManagedPool, _unit: ()) -> (ManagedPool, bool)
    requires { InBlock pool.at }
    ensures reply { result.1 ≡ pool.state.pool.log.is_full }
    ensures same { result.0.state ≡ pool.state }
    ensures made { InBlock result.0.at }
{
    let state = pool.into_state();
    let reply = state.pool.is_full();
    (ManagedPool::of(state), reply)
}

pub fn key_at(pool: ManagedPool, at: usize) -> (ManagedPool, Option<u64>)
    requires { InBlock pool.at }
    ensures reply { result.1 ≡ slice_get (idle_keys pool.state.pool.core.desk) at }
    ensures same { result.0.state ≡ pool.state }
    ensures made { InBlock result.0.at }
{
    let state = pool.into_state();
    let reply = match state.pool.idle_at(at) {
        Some(slot) => Some(slot.value),
        None => None,
    };
    (ManagedPool::of(state), reply)
}

pub fn entry(pool: ManagedPool, at: usize) -> (ManagedPool, NotedStep)
    requires { InBlock pool.at }
    ensures reply { result.1 ≡ noted_at (slice_get pool.state.pool.log.entries at) }
    ensures same { result.0.state ≡ pool.state }
    ensures made { InBlock result.0.at }
{
    let state = pool.into_state();
    let reply = match state.pool.entry(at) {
        Some(entry) => entry::noted(entry),
        None => entry::no_entry(),
    };
    (ManagedPool::of(state), reply)
}

pub fn removal(pool: ManagedPool, place: (usize, usize)) -> (ManagedPool, Reply)
    requires { InBlock pool.at }
    ensures reply { result.1 ≡ removed_at (slice_get pool.state.pool.log.entries place.0) place.1 }
    ensures same { result.0.state ≡ pool.state }
    ensures made { InBlock result.0.at }
{
    let (at, index) = place;
    let state = pool.into_state();
    let reply = match state.pool.entry(at) {
        Some(entry) => entry::removal(entry, index),
        None => reply::plain(reply::UNKNOWN),
    };
    (ManagedPool::of(state), reply)
}
