//! A get over the state of an unmanaged pool.
use deadpool_unmanaged::{Core, GetState, Moment, PoolError};
use futures::task::Poll;
use std::alloc::{AllocError, Global};
use std::io;
use std::io::Print;

// A pool with one object.
fn pool(alloc: Global) -> Result<Core<u64>, AllocError> {
    Ok(Core::from_items(alloc, vec![in alloc; 7u64]?))
}

// A get of the one object.
fn served(core: &mut Core<u64>) -> Poll<Result<u64, PoolError>> {
    GetState::new(None).poll(core, None, Moment(0))
}

// A get that waits, and is given up: whether it would wait, and whether it did.
fn waits(core: &mut Core<u64>) -> (bool, bool) {
    let mut get = GetState::new(None);
    let would = get.would_queue(core, None, Moment(0));
    let does = get.poll(core, None, Moment(0)).is_pending();
    get.cancel(core);
    (would, does)
}

/// Prints what the calls gave.
pub fn calls<R: Print + AllocGlobal>(rt: &R) -> io::Result<()> {
    let mut core = pool(rt.alloc())?;
    println!(rt;
        "unmanaged get: {:?} {:?}",
        served(&mut core),
        waits(&mut core)
    )?;
    println!(rt; "last handle: {}", core.is_last_handle())?;
    core.laws();
    Ok(())
}
