//! The state of a managed pool with a journal, asked how it stands.
use deadpool_desk::{Desk, QueueMode, Step};
use deadpool_journal::Journaled;
use std::alloc::{AllocError, Global};
use std::io;
use std::io::Print;

// A pool for one object, whose creation has begun.
fn begun(alloc: Global) -> Result<Journaled<u64>, AllocError> {
    let mut pool = Journaled::new(alloc, 1, QueueMode::Fifo, 4, 0)?;
    pool.make(&Step::Enter { wait: true }, &mut None);
    Ok(pool)
}

// Whether the journal has the first entry, and is full.
fn noted(pool: &Journaled<u64>) -> (bool, bool) {
    (pool.entry(0).is_some(), pool.is_full())
}

// Whether one handle is left, whether an object is idle, and how many are above a limit of 0.
fn asked(pool: &Journaled<u64>) -> (bool, bool, usize) {
    (
        pool.is_last_handle(),
        pool.idle_at(0).is_some(),
        pool.surplus(0),
    )
}

/// Prints what the calls gave.
pub fn calls<R: Print + AllocGlobal>(rt: &R) -> io::Result<()> {
    let pool = begun(rt.alloc())?;
    println!(rt; "journaled: {:?} {:?}", noted(&pool), asked(&pool))
}
