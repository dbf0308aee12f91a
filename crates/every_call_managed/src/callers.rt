//! Calls by callers that the history has them of.
use crate::host::Host;
use crate::numbers::Numbers;
use deadpool_shared::{Caller, DrainError, History, Ledgers, Line};
use std::alloc::AllocError;
use std::io;
use std::io::Print;

/// A caller of the pool.
type Me<L> = Caller<Line, History<L>>;

// The limit is 3 from now on, and nothing idle stays. How many were given up.
fn limits<R: Host, L: Ledgers>(pool: &Numbers<R, L>, me: &mut Me<L>) -> Result<usize, AllocError> {
    pool.resize_by(me, 3)?;
    let retained = pool.retain_by(me, |_number, _metrics| false)?;
    Ok(retained.removed.len())
}

// How many gets asked so far, and how many entries the journal has.
fn counts<R: Host, L: Ledgers>(
    pool: &Numbers<R, L>,
    me: &mut Me<L>,
) -> Result<(u64, usize), AllocError> {
    let (tally, _status) = pool.tally_by(me);
    let journal = pool.journal_by(me)?;
    Ok((tally.gets, journal.entries.len()))
}

// Closes the pool after all that another caller has seen, and drains it. How many objects are left.
fn closes<R: Host, L: Ledgers>(
    pool: &Numbers<R, L>,
    me: &mut Me<L>,
    other: &Me<L>,
) -> Result<usize, DrainError> {
    let seen = other.seen();
    pool.after(me, &seen.again());
    pool.close_by(me);
    let status = pool.try_drain_by(me)?;
    Ok(status.size)
}

/// Prints what the calls gave.
pub fn calls<R: Host + Print, L: Ledgers>(rt: &R, pool: &Numbers<R, L>) -> io::Result<()> {
    let (mut one, mut two) = (pool.caller(), pool.caller());
    println!(rt; "given up: {}", limits(pool, &mut one)?)?;
    println!(rt; "gets and entries: {:?}", counts(pool, &mut one)?)?;
    println!(rt; "left: {:?}", closes(pool, &mut two, &one))
}
