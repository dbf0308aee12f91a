//! The steps of a managed pool, each on a pool that is taken and given back. What a step does is said at its export in
//! `managed.rt`.
ghost use Rattle.std.specs.Prelude.{◌≡◌, [], IfOk, Some};
ghost use denote.RawPtr.{InBlock};
ghost use Rattle.deadpool_desk.specs.DeskState.{bounded, new_core};
ghost use Rattle.deadpool_desk.specs.Replies.{Brings};
ghost use Rattle.deadpool_journal.specs.LogState.{no_entries};
ghost use Rattle.deadpool_c.specs.ManagedReplies.{MakesRaw, StandsRaw, TellsRaw, mode_of};
ghost use Rattle.deadpool_c.specs.ManagedSteps.{brought, step_of};
ghost use Rattle.deadpool_c.specs.Orders.{AdvancesRaw};

use crate::managed_block::ManagedPool;
use crate::managed_state::ManagedState;
use crate::order::{Hooks, Order};
use crate::order_kinds::is_making;
use crate::reply::{self, Reply, Standing, UNKNOWN, plain};
use crate::{managed_reply, step};
use deadpool_desk::{Desk, OwnerDesk, OwnerReply, OwnerStep, QueueMode, Slot, Step};
use deadpool_journal::Journaled;
use std::alloc::{AllocError, Global};

/// What a pool is opened with.
pub struct Opening {
    /// How many objects there may be.
    pub limit: usize,
    /// Whether the newest idle object is given first, and not the oldest.
    pub is_lifo: bool,
    /// How many entries its journal has room for.
    pub most_entries: usize,
    /// How many objects a resize and a retain leave idle, if as many are.
    pub min_idle: usize,
    /// How many gets may wait.
    pub max_waiting: usize,
}

/// A step as the caller asks for it.
pub struct Asked {
    /// One of the constants of `step.rt`, which says there what the others are to it.
    pub step: u64,
    pub is_set: bool,
    pub number: usize,
    pub key: u64,
}

/// A step of an order as the caller asks for it.
pub struct Advancing {
    pub order: Order,
    pub hooks: Hooks,
    /// The object that comes back.
    pub number: usize,
    pub key: u64,
}

pub fn open(alloc: Global, opening: Opening) -> Result<ManagedPool, AllocError>
    ensures made { IfOk result (λ pool. InBlock pool.at) }
    ensures desk { IfOk result (λ pool. pool.state.pool.core.desk ≡ bounded
        (Some opening.max_waiting) (new_core opening.limit (mode_of opening.is_lifo) 0 opening.min_idle)) }
    ensures unnotified { IfOk result (λ pool. pool.state.pool.core.unnotified ≡ []) }
    ensures log { IfOk result (λ pool. pool.state.pool.log ≡ no_entries opening.most_entries) }
{
    let Opening {
        limit,
        is_lifo,
        most_entries,
        min_idle,
        max_waiting,
    } = opening;
    let mode = if is_lifo {
        QueueMode::Lifo
    } else {
        QueueMode::Fifo
    };
    let pool = Journaled::new(alloc, limit, mode, most_entries, min_idle)?;
    let pool = pool.bounded(Some(max_waiting));
    let state = Box::new(alloc, ManagedState { pool })?;
    Ok(ManagedPool::of(state))
}

// What is in the hand before a step: an object that comes back, under this number and key.
fn brought(step: &Step, number: usize, key: u64) -> Option<Slot<u64>>
    ensures brings { Brings step.now result }
    ensures object { result ≡ brought step.now number key }
{
    match step {
        Step::Back => Some(Slot { number, value: key }),
        _ => None,
    }
}

pub fn make(pool: ManagedPool, asked: Asked) -> (ManagedPool, Reply)
    requires { InBlock pool.at }
    ensures step { MakesRaw pool.state.pool
        (step_of asked.step asked.is_set asked.number) asked.number asked.key
        result.1 result.0.state.pool }
    ensures made { InBlock result.0.at }
{
    let Asked {
        step,
        is_set,
        number,
        key,
    } = asked;
    let Some(step) = step::asked(step, is_set, number) else {
        return (pool, plain(UNKNOWN));
    };
    let mut hand = brought(&step, number, key);
    let mut state = pool.into_state();
    let reply = state.pool.make(&step, &mut hand);
    (
        ManagedPool::of(state),
        managed_reply::in_hand(&reply, &hand),
    )
}

pub fn advance(pool: ManagedPool, asked: Advancing) -> (ManagedPool, (Reply, Order))
    requires { InBlock pool.at }
    ensures step { AdvancesRaw pool.state.pool asked.order asked.hooks asked.number asked.key
        result.1.0 result.0.state.pool result.1.1 }
    ensures made { InBlock result.0.at }
{
    let Advancing {
        order,
        hooks,
        number,
        key,
    } = asked;
    let mut whole = order.whole();
    if !is_making(whole.state()) {
        return (pool, (plain(UNKNOWN), order));
    }
    let step = whole.step();
    let mut hand = brought(&step, number, key);
    let mut state = pool.into_state();
    let reply = state.pool.make(&step, &mut hand);
    whole.replied(&hooks.counts(), &step, reply);
    (
        ManagedPool::of(state),
        (managed_reply::in_hand(&reply, &hand), Order::of(&whole)),
    )
}

pub fn status(pool: ManagedPool, _unit: ()) -> (ManagedPool, Standing)
    requires { InBlock pool.at }
    ensures step { StandsRaw pool.state.pool result.1 result.0.state.pool }
    ensures made { InBlock result.0.at }
{
    let mut state = pool.into_state();
    match state.pool.make_for_owner(&OwnerStep::Status) {
        OwnerReply::Stands(status) => (ManagedPool::of(state), reply::stood(status)),
        _ => unreachable!(),
    }
}

pub fn take_wake(pool: ManagedPool, _unit: ()) -> (ManagedPool, Reply)
    requires { InBlock pool.at }
    ensures step { TellsRaw pool.state.pool result.1 result.0.state.pool }
    ensures made { InBlock result.0.at }
{
    let mut state = pool.into_state();
    let reply = state.pool.take_wake();
    (ManagedPool::of(state), reply::wake(reply))
}
