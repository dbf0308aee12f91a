//! An object's value, and removals.
use crate::Numbers;
use crate::host::Host;
use deadpool_unmanaged::PoolError;
use deadpool_unmanaged_history::KeepsState;
use futures::executor::block_on;
use std::io;
use std::io::Print;

// The value of an object, once it was raised by one.
fn raised<R: Host, S: KeepsState<u64>>(pool: &Numbers<R, S>) -> Result<u64, PoolError> {
    let mut object = pool.try_get()?;
    *object = object.saturating_add(1);
    Ok(*object)
}

// The values of two numbers that leave the pool.
fn removed<R: Host, S: KeepsState<u64>>(
    rt: &R,
    pool: &Numbers<R, S>,
) -> io::Result<[Result<u64, PoolError>; 2]> {
    let first = block_on(rt, pool.remove())?;
    let second = block_on(rt, pool.timeout_remove(None))?;
    Ok([first, second])
}

/// Prints what the calls gave.
pub fn calls<R: Host + Print, S: KeepsState<u64>>(rt: &R, pool: &Numbers<R, S>) -> io::Result<()> {
    println!(rt; "raised: {:?}", raised(pool))?;
    println!(rt; "removed: {:?}", removed(rt, pool)?)
}
