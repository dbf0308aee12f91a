//! The state of a managed pool, asked how it stands.
use deadpool_desk::{Core, QueueMode};
use std::alloc::{AllocError, Global};
use std::io;
use std::io::Print;

// Whether one handle is left, and how many idle objects are above a limit of 1.
fn asked(alloc: Global) -> Result<(bool, usize), AllocError> {
    let core = Core::<u64>::new(alloc, 2, QueueMode::Fifo, 0, 0)?;
    Ok((core.is_last_handle(), core.surplus(1)))
}

/// Prints what the calls gave.
pub fn calls<R: Print + AllocGlobal>(rt: &R) -> io::Result<()> {
    println!(rt; "core: {:?}", asked(rt.alloc())?)
}
