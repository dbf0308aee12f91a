//! A get with timeouts of its own, and what its object says of itself.
use crate::host::Host;
use crate::numbers::Numbers;
use deadpool_managed::Timeouts;
use deadpool_shared::{Ledgers, Object};
use futures::executor::block_on;
use std::io;
use std::io::Print;

// How often the object that a get gives was recycled, and whether its pool has a handle.
fn told<R: Host, L: Ledgers>(rt: &R, pool: &Numbers<R, L>) -> Option<(usize, bool)> {
    let got = block_on(rt, pool.timeout_get(&Timeouts::new())).ok()?;
    let object = got.ok()?;
    let recycled = Object::metrics(&object).recycle_count;
    let home = Object::pool(&object).ok()?;
    Some((recycled, home.is_some()))
}

/// Prints what the calls gave.
pub fn calls<R: Host + Print, L: Ledgers>(rt: &R, pool: &Numbers<R, L>) -> io::Result<()> {
    println!(rt; "get: {:?}", told(rt, pool))
}
