//! Lists of moves over pools on one thread.
use crate::zeros::Zeros;
use deadpool_builder::PoolBuilder;
use deadpool_managed::{Moment, NoHook};
use deadpool_trial::{Move, Trial, unmanaged};
use futures::task::{Doorbell, Solo};
use std::alloc::{AllocError, Global};
use std::io;
use std::io::Print;
use std::random::RandomSource;

type Managed = Trial<Zeros, NoHook, NoHook, ()>;

// A managed pool: a get starts and is polled. How many replies came.
fn managed<R: RandomSource + AllocGlobal>(rt: &R) -> io::Result<usize> {
    let mut trial: Managed = Trial::new(PoolBuilder::new(rt.alloc(), Zeros, ()), 1, 0)?;
    let moves = vec![in rt.alloc(); Move::Start(None), Move::Poll(0, Moment(0))]?;
    let task = Solo::new(rt, Doorbell::spinning())?;
    let mut cx = task.begin();
    let replies = trial.run(moves, &mut cx);
    cx.cancel();
    trial.laws();
    Ok(replies.map_or(0, |replies| replies.len()))
}

// An unmanaged pool: an object is added and given. How many replies came.
fn unmanaged(alloc: Global) -> Result<usize, AllocError> {
    let mut trial = unmanaged::Trial::new(alloc, 1, None, 1)?;
    let moves = vec![in alloc; unmanaged::Move::TryAdd(7u64), unmanaged::Move::TryGet]?;
    let replies = trial.run(moves);
    trial.laws();
    Ok(replies.map_or(0, |replies| replies.len()))
}

/// Prints what the calls gave.
pub fn calls<R: Print + RandomSource + AllocGlobal>(rt: &R) -> io::Result<()> {
    println!(rt; "trial: {} replies", managed(rt)?)?;
    println!(rt; "unmanaged trial: {} replies", unmanaged(rt.alloc())?)
}
