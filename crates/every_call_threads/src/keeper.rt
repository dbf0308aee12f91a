//! A keeper that asks whether its shift is over.
use crate::numbers::{Numbers, Zeros, builder};
use deadpool_managed::NoHook;
use deadpool_parts::NoTime;
use deadpool_shared::Ledgers;
use deadpool_threads::{Host, Keeper, Plain, PoolUser, Shift, with_keeper};
use std::io;
use std::io::Print;
use std::sync::Wait;
use std::time::{Clock, Duration};

/// Rests until all workers have returned.
#[derive(Drop)]
struct Rests;

impl<R: Host + Clock> Keeper<Plain<Zeros>, NoHook, NoHook, NoTime, R> for Rests {
    /// Whether its shift was over then.
    type Output = bool;

    fn keep<L: Ledgers>(self, rt: &R, _pool: &Numbers<R, L>, shift: &Shift) -> bool {
        shift.rest(rt, Duration::from_secs(60)) && shift.is_over(rt)
    }
}

/// Asks for the limit.
#[derive(Drop)]
struct Asks;

impl<R: Wait + Drop> PoolUser<Plain<Zeros>, NoHook, NoHook, NoTime, R> for Asks {
    type Output = usize;

    fn run<L: Ledgers>(self, _rt: &R, pool: &Numbers<R, L>) -> usize {
        pool.status().max_size
    }
}

/// Prints what the calls gave.
pub fn calls<R: Host + Clock + Print>(rt: R) -> io::Result<()> {
    let workers = vec![in rt.alloc(); Asks]?;
    let (_limits, over, limit) = with_keeper(builder(rt.alloc()), rt, workers, Rests, Asks)?;
    println!(rt; "keeper: {over} {limit}")
}
