//! Drains of a pool that is empty.
use crate::host::Host;
use crate::numbers::Numbers;
use deadpool_shared::{DrainError, Ledgers};
use futures::executor::block_on;
use std::io;
use std::io::Print;
use std::time::Duration;

// How many objects are left by a drain that waits, by one that waits for a second, and by one that does not wait.
fn left<R: Host, L: Ledgers>(rt: &R, pool: &Numbers<R, L>) -> io::Result<[Option<usize>; 3]> {
    let waiting = block_on(rt, pool.drain())?;
    let limited = block_on(rt, pool.drain_for(Duration::from_secs(1)))?;
    let tried = pool.try_drain();
    Ok([waiting, limited, tried].map(|ended| ended.ok().map(|status| status.size)))
}

/// Prints what the calls gave.
pub fn calls<R: Host + Print, L: Ledgers>(rt: &R, pool: &Numbers<R, L>) -> io::Result<()> {
    println!(rt; "drains: {:?}", left(rt, pool)?)?;
    println!(rt; "{}", DrainError::OutOfMemory(pool.status()))
}
