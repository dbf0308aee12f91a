//! A user that is handed what its thread waits by.
use crate::numbers::{Numbers, Zeros, builder};
use deadpool_limits::Limits;
use deadpool_managed::NoHook;
use deadpool_parts::{Moment, NoTime};
use deadpool_shared::Ledgers;
use deadpool_threads::{Blocking, BlockingUser, Handed, Host, Plain, with_pool};
use std::io;
use std::io::Print;
use std::sync::Wait;
use std::time::Duration;

/// Gets an object, has those given up that were handed out once, and drains the pool, twice.
#[derive(Drop)]
struct Drains;

impl<R: Wait + Drop> BlockingUser<Plain<Zeros>, NoHook, NoHook, NoTime, R> for Drains {
    /// Whether an object was free, whether it was given up, and whether each drain left nothing.
    type Output = [bool; 4];

    fn run<L: Ledgers>(self, rt: &R, blocking: &mut Blocking, pool: &Numbers<R, L>) -> [bool; 4] {
        let had = blocking.try_get(rt, pool).is_ok();
        let retained = Limits::none().uses(1).retain(pool, Moment(0));
        let given_up = retained.is_ok_and(|retained| retained.removed.len() == 1);
        let limited = blocking.drain_for(rt, pool, Duration::from_secs(1)).is_ok();
        [had, given_up, limited, blocking.drain(rt, pool).is_ok()]
    }
}

/// Prints what the calls gave.
pub fn calls<R: Host + Print>(rt: R) -> io::Result<()> {
    let told = with_pool(builder(rt.alloc()), rt, Handed(Drains))??;
    println!(rt; "user: {told:?}")
}
