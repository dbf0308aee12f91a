//! Drains of an unmanaged pool by a thread.
use deadpool_parts::{NoTime, Status};
use deadpool_threads::{Blocking, Host};
use deadpool_unmanaged_shared::{DrainError, Pool};
use std::io;
use std::io::Print;
use std::time::Duration;

// How the pool stands after a drain that waits for a second, and after one that waits as long as it takes.
fn drained<R: Host>(
    rt: &R,
    pool: &Pool<u64, NoTime, R>,
) -> io::Result<[Result<Status, DrainError>; 2]> {
    let mut waiter = Blocking::new(rt)?;
    let limited = waiter.drain_unmanaged_for(rt, pool, Duration::from_secs(1));
    Ok([limited, waiter.drain_unmanaged(rt, pool)])
}

/// Prints what the calls gave.
pub fn calls<R: Host + Print>(rt: R) -> io::Result<()> {
    let pool = Pool::new(rt.alloc(), 1, NoTime, rt)?;
    let left = drained(&rt, &pool)?.map(|ended| ended.is_ok_and(|status| status.size == 0));
    println!(rt; "unmanaged: {left:?}")
}
