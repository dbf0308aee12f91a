//! Calls what poolrun, the examples and the bench leave uncalled of the unmanaged pool for threads and tasks.
//!
//! Its proof says of each that it can be called: a caller meets what it requires, at a type of its own.
#![tactic(auto)]

mod adds;
mod callers;
mod drains;
mod gets;
mod given_up;
mod histories;
mod host;
mod recorded;

use deadpool_parts::NoTime;
use deadpool_unmanaged_history::KeepsState;
use deadpool_unmanaged_shared::Pool;
use host::Host;
use std::io;
use std::io::Print;

/// A pool of numbers over any state.
pub type Numbers<R, S> = Pool<u64, NoTime, R, S>;

/// All calls on a pool with room for two numbers, whatever its state has; the last close it.
pub fn all<R: Host + Print, S: KeepsState<u64>>(rt: &R, pool: &Numbers<R, S>) -> io::Result<()> {
    adds::calls(rt, pool)?;
    gets::calls(rt, pool)?;
    callers::calls(rt, pool)?;
    given_up::calls(rt, pool)?;
    drains::calls(rt, pool)
}

fn main(rt: HostRuntime) -> io::Result<()> {
    all(&rt, &Pool::with_processors(rt.alloc(), 1, NoTime, rt)?)?;
    histories::calls(rt)?;
    recorded::calls(&rt)
}
