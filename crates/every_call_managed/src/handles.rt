//! A handle that is not counted, and one that is made of it.
use crate::host::Host;
use crate::numbers::Numbers;
use deadpool_shared::Ledgers;
use std::alloc::AllocError;
use std::io;
use std::io::Print;

// Whether there is one more handle.
fn upgraded<R: Host, L: Ledgers>(pool: &Numbers<R, L>) -> Result<bool, AllocError> {
    let weak = pool.weak()?;
    Ok(weak.upgrade()?.is_some())
}

/// Prints what the calls gave.
pub fn calls<R: Host + Print, L: Ledgers>(rt: &R, pool: &Numbers<R, L>) -> io::Result<()> {
    println!(rt; "upgraded: {}", upgraded(pool)?)
}
