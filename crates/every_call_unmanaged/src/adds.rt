//! Adds that may wait.
use crate::Numbers;
use crate::host::Host;
use deadpool_unmanaged_history::KeepsState;
use futures::executor::block_on;
use std::io;
use std::io::Print;

// Whether a number is added by a handle of its own, and one by a get that borrows the pool.
fn added<R: Host, S: KeepsState<u64>>(rt: &R, pool: &Numbers<R, S>) -> io::Result<[bool; 2]> {
    let own = block_on(rt, pool.add(7))?;
    let borrowing = block_on(rt, pool.add_ref(8))?;
    Ok([own.is_ok(), borrowing.is_ok()])
}

// Whether there is room for all that may wait. There is none if nothing bounds them.
fn roomy<R: Host, S: KeepsState<u64>>(pool: &Numbers<R, S>) -> bool {
    pool.make_room_for_waiting().is_ok()
}

/// Prints what the calls gave.
pub fn calls<R: Host + Print, S: KeepsState<u64>>(rt: &R, pool: &Numbers<R, S>) -> io::Result<()> {
    println!(rt; "added: {:?}", added(rt, pool)?)?;
    println!(rt; "roomy: {}", roomy(pool))
}
