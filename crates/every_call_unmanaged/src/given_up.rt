//! Futures that are given up before their first poll.
ghost use Rattle.std.specs.Prelude.{◌≡◌, Some, None};

use crate::Numbers;
use crate::host::Host;
use deadpool_unmanaged_history::KeepsState;
use std::io;
use std::io::Print;

// An add leaves its number, whether it borrows its pool or not.
fn number<R: Host, S: KeepsState<u64>>(pool: &Numbers<R, S>) -> Option<u64>
    ensures { result ≡ Some 9 }
{
    let (number, _caller) = pool.add_ref(9).give_up()?;
    number
}

// The same of one that has a handle, if there was memory for that.
fn own_number<R: Host, S: KeepsState<u64>>(pool: &Numbers<R, S>) -> Option<u64> {
    let (number, _caller) = pool.add(9).give_up()?;
    number
}

// A new caller of each get and removal is left.
fn callers<R: Host, S: KeepsState<u64>>(pool: &Numbers<R, S>) -> [bool; 3] {
    let get = pool.get().give_up();
    let borrowing = pool.get_ref().give_up();
    let removal = pool.remove().give_up();
    [get.is_some(), borrowing.is_some(), removal.is_some()]
}

// A drain that was not polled has no caller.
fn caller_of_a_drain<R: Host, S: KeepsState<u64>>(pool: &Numbers<R, S>) -> Option<S::Caller>
    ensures { result ≡ None }
{
    pool.drain().give_up()?
}

/// Prints what is left of them.
pub fn calls<R: Host + Print, S: KeepsState<u64>>(rt: &R, pool: &Numbers<R, S>) -> io::Result<()> {
    println!(rt;
        "given up: {:?}",
        (number(pool), own_number(pool), callers(pool))
    )?;
    println!(rt;
        "a drain leaves its caller: {}",
        caller_of_a_drain(pool).is_some()
    )
}
