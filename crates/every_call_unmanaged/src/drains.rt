//! Drains of a pool that is empty, and closes.
use crate::Numbers;
use crate::host::Host;
use deadpool_unmanaged_history::KeepsState;
use futures::executor::block_on;
use std::io;
use std::io::Print;
use std::time::Duration;

// How many objects are left by a drain that waits, by one that waits for a second, and by one that does not wait.
fn left<R: Host, S: KeepsState<u64>>(
    rt: &R,
    pool: &Numbers<R, S>,
) -> io::Result<[Option<usize>; 3]> {
    let waiting = block_on(rt, pool.drain())?;
    let limited = block_on(rt, pool.drain_for(Duration::from_secs(1)))?;
    let tried = pool.try_drain();
    Ok([waiting, limited, tried].map(|ended| ended.ok().map(|status| status.size)))
}

// Closes a pool, and drains it by a caller. Whether it is closed, and nothing is left.
fn closed<R: Host, S: KeepsState<u64>>(pool: &Numbers<R, S>) -> [bool; 2] {
    let mut me = pool.caller();
    pool.close();
    pool.close_by(&mut me);
    [pool.is_closed(), pool.try_drain_by(&mut me).is_ok()]
}

/// Prints what the calls gave.
pub fn calls<R: Host + Print, S: KeepsState<u64>>(rt: &R, pool: &Numbers<R, S>) -> io::Result<()> {
    println!(rt; "closed: {:?}", closed(pool))?;
    println!(rt; "drains: {:?}", left(rt, pool)?)
}
