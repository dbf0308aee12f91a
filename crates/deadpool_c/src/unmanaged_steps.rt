//! The steps of an unmanaged pool, each on a pool that is taken and given back, and what is read without a step. What
//! each does is said at its export in `unmanaged.rt`.
ghost use Rattle.std.specs.Prelude.{◌≡◌, ◌==◌, [], not, slice_get, IfOk, Some};
ghost use denote.RawPtr.{InBlock};
ghost use Rattle.deadpool_unmanaged.specs.Replies.{Brings};
ghost use Rattle.deadpool_unmanaged.specs.State.{bounded, opened, status_of};
ghost use Rattle.deadpool_unmanaged.specs.StateSteps.{Upgrades, closed_pool};
ghost use Rattle.deadpool_c.specs.Replies.{raw_standing};
ghost use Rattle.deadpool_c.specs.UnmanagedReplies.{MakesRaw, ClonesRaw, DropsHandleRaw, TakesGetWakeRaw};
ghost use Rattle.deadpool_c.specs.UnmanagedReplies.{TakesAddWakeRaw};
ghost use Rattle.deadpool_c.specs.UnmanagedSteps.{brought, step_of};

use crate::managed_steps::Asked;
use crate::reply::{self, Reply, Standing, UNKNOWN, plain};
use crate::unmanaged_block::UnmanagedPool;
use crate::unmanaged_state::UnmanagedState;
use crate::{unmanaged_reply, unmanaged_step};
use deadpool_unmanaged::{Core, Step};
use std::alloc::{AllocError, Global};

pub fn open(alloc: Global, limit: usize, max_waiting: usize) -> Result<UnmanagedPool, AllocError>
    ensures made { IfOk result (λ pool. InBlock pool.at) }
    ensures pool { IfOk result
        (λ pool. pool.state.pool.pool ≡ bounded (Some max_waiting) (opened limit [])) }
{
    let pool = Core::new(alloc, limit)?.bounded(Some(max_waiting));
    let state = Box::new(alloc, UnmanagedState { pool })?;
    Ok(UnmanagedPool::of(state))
}

// What is in the hand before a step: an object that is added or comes back, by this key.
fn brought(step: &Step, key: u64) -> Option<u64>
    ensures brings { Brings step.now result }
    ensures object { result ≡ brought step.now key }
{
    match step {
        Step::AddEnter { .. } | Step::AddAsk { .. } | Step::Back => Some(key),
        Step::GetEnter { .. } | Step::GetAsk { .. } | Step::GetCancel { .. } => None,
        Step::AddCancel { .. } | Step::Take => None,
    }
}

pub fn make(pool: UnmanagedPool, asked: Asked) -> (UnmanagedPool, Reply)
    requires { InBlock pool.at }
    ensures step { MakesRaw pool.state.pool.pool
        (step_of asked.step asked.is_set asked.number) asked.key
        result.1 result.0.state.pool.pool }
    ensures made { InBlock result.0.at }
{
    let Asked {
        step,
        is_set,
        number,
        key,
    } = asked;
    let Some(step) = unmanaged_step::asked(step, is_set, number) else {
        return (pool, plain(UNKNOWN));
    };
    let mut hand = brought(&step, key);
    let mut state = pool.into_state();
    let reply = state.pool.make(&step, &mut hand);
    (
        UnmanagedPool::of(state),
        unmanaged_reply::in_hand(&reply, hand),
    )
}

pub fn close(pool: UnmanagedPool, _unit: ()) -> (UnmanagedPool, ())
    requires { InBlock pool.at }
    ensures step { result.0.state.pool.pool ≡ closed_pool pool.state.pool.pool }
    ensures made { InBlock result.0.at }
{
    let mut state = pool.into_state();
    let reply = state.pool.close();
    (UnmanagedPool::of(state), reply)
}

pub fn clone_handle(pool: UnmanagedPool, _unit: ()) -> (UnmanagedPool, Reply)
    requires { InBlock pool.at }
    ensures step { ClonesRaw pool.state.pool.pool result.1 result.0.state.pool.pool }
    ensures made { InBlock result.0.at }
{
    let mut state = pool.into_state();
    let reply = state.pool.clone_handle();
    (UnmanagedPool::of(state), reply::handle(reply))
}

pub fn drop_handle(pool: UnmanagedPool, _unit: ()) -> (UnmanagedPool, Reply)
    requires { InBlock pool.at }
    ensures step { DropsHandleRaw pool.state.pool.pool result.1 result.0.state.pool.pool }
    ensures made { InBlock result.0.at }
{
    let mut state = pool.into_state();
    let reply = state.pool.drop_handle();
    (UnmanagedPool::of(state), reply::handle(reply))
}

pub fn upgrade(pool: UnmanagedPool, _unit: ()) -> (UnmanagedPool, bool)
    requires { InBlock pool.at }
    ensures step { Upgrades pool.state.pool.pool result.1 result.0.state.pool.pool }
    ensures made { InBlock result.0.at }
{
    let mut state = pool.into_state();
    let reply = state.pool.upgrade();
    (UnmanagedPool::of(state), reply)
}

pub fn take_get_wake(pool: UnmanagedPool, _unit: ()) -> (UnmanagedPool, Reply)
    requires { InBlock pool.at }
    ensures step { TakesGetWakeRaw pool.state.pool.pool result.1 result.0.state.pool.pool }
    ensures made { InBlock result.0.at }
{
    let mut state = pool.into_state();
    let reply = state.pool.take_get_wake();
    (UnmanagedPool::of(state), reply::wake(reply))
}

pub fn take_add_wake(pool: UnmanagedPool, _unit: ()) -> (UnmanagedPool, Reply)
    requires { InBlock pool.at }
    ensures step { TakesAddWakeRaw pool.state.pool.pool result.1 result.0.state.pool.pool }
    ensures made { InBlock result.0.at }
{
    let mut state = pool.into_state();
    let reply = state.pool.take_add_wake();
    (UnmanagedPool::of(state), reply::wake(reply))
}

pub fn status(pool: UnmanagedPool, _unit: ()) -> (UnmanagedPool, Standing)
    requires { InBlock pool.at }
    ensures reply { result.1 ≡ raw_standing (status_of pool.state.pool.pool) }
    ensures same { result.0.state ≡ pool.state }
    ensures made { InBlock result.0.at }
{
    let state = pool.into_state();
    let reply = reply::stood(state.pool.status());
    (UnmanagedPool::of(state), reply)
}

pub fn is_closed(pool: UnmanagedPool, _unit: ()) -> (UnmanagedPool, bool)
    requires { InBlock pool.at }
    ensures reply { result.1 ≡ not pool.state.pool.pool.is_open }
    ensures same { result.0.state ≡ pool.state }
    ensures made { InBlock result.0.at }
{
    let state = pool.into_state();
    let reply = state.pool.is_closed();
    (UnmanagedPool::of(state), reply)
}

pub fn is_last_handle(pool: UnmanagedPool, _unit: ()) -> (UnmanagedPool, bool)
    requires { InBlock pool.at }
    ensures reply { result.1 ≡ (pool.state.pool.pool.handles == 1) }
    ensures same { result.0.state ≡ pool.state }
    ensures made { InBlock result.0.at }
{
    let state = pool.into_state();
    let reply = state.pool.is_last_handle();
    (UnmanagedPool::of(state), reply)
}

pub fn key_at(pool: UnmanagedPool, at: usize) -> (UnmanagedPool, Option<u64>)
    requires { InBlock pool.at }
    ensures reply { result.1 ≡ slice_get pool.state.pool.pool.idle at }
    ensures same { result.0.state ≡ pool.state }
    ensures made { InBlock result.0.at }
{
    let state = pool.into_state();
    let reply = match state.pool.idle_at(at) {
        Some(key) => Some(*key),
        None => None,
    };
    (UnmanagedPool::of(state), reply)
}
