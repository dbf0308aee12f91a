//! Calls by a caller of the pool's history, or by none if it has none.
use crate::Numbers;
use crate::host::Host;
use deadpool_unmanaged::{PoolError, Status};
use deadpool_unmanaged_history::KeepsState;
use deadpool_unmanaged_shared::Object;
use std::io;
use std::io::Print;

// Adds a number, and gets it. Its value, and how the pool stands then.
fn asked<R: Host, S: KeepsState<u64>>(
    pool: &Numbers<R, S>,
) -> (bool, Result<u64, PoolError>, Status) {
    let mut me = pool.caller();
    let added = pool.try_add_by(&mut me, 7).is_ok();
    let got = pool.try_get_by(&mut me);
    let status = pool.status_by(&mut me);
    (added, got.map(Object::take), status)
}

/// Prints what the calls gave.
pub fn calls<R: Host + Print, S: KeepsState<u64>>(rt: &R, pool: &Numbers<R, S>) -> io::Result<()> {
    println!(rt; "by a caller: {:?}", asked(pool))
}
