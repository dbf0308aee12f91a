//! A get from a managed pool with a closure as a hook, and what a get says of itself.
ghost use Rattle.deadpool_managed.specs.HookLists.{CanCall};

use crate::zeros::Zeros;
use deadpool_builder::PoolBuilder;
use deadpool_managed::{
    FnHook, GetState, Hook, HookResult, Metrics, Moment, NoHook, SyncHook, Timeouts,
};
use deadpool_trial::{Move, Trial};
use futures::task::{Doorbell, Solo};
use std::io;
use std::io::Print;
use std::random::RandomSource;

fn add_one(value: &mut u64, _metrics: &Metrics) -> HookResult<u8> {
    *value = value.saturating_add(1);
    Ok(())
}

// The value of the first object of a pool with this hook for new ones.
fn first<F: SyncHook<Zeros>, R: RandomSource + AllocGlobal>(
    rt: &R,
    hook: Hook<F, NoHook>,
) -> io::Result<Option<u64>>
    requires { CanCall F.can_call hook }
{
    let builder = PoolBuilder::new(rt.alloc(), Zeros, ());
    let Ok(builder) = builder.post_create(hook) else {
        return Ok(None);
    };
    let mut trial = Trial::new(builder, 1, 0)?;
    let task = Solo::new(rt, Doorbell::spinning())?;
    let mut cx = task.begin();
    trial.make(Move::Start(None), &mut cx);
    trial.make(Move::Poll(0, Moment(0)), &mut cx);
    cx.cancel();
    Ok(trial.value(0).copied())
}

/// Prints what the calls gave.
pub fn calls<R: Print + RandomSource + AllocGlobal>(rt: &R) -> io::Result<()> {
    let hook = FnHook::<Zeros, _, _>::new(add_one);
    println!(rt; "hook: {:?}", first(rt, Hook::sync_fn(hook))?)?;
    let get: GetState<Zeros, NoHook> = GetState::new(Timeouts::new());
    println!(rt; "get: {:?} {}", get.deadline(), get.is_going())
}
