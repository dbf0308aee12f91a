//! A pool's state beside its history, without a lock.
ghost use Rattle.std.specs.Prelude.{◌≡◌};

use crate::host::Host;
use deadpool_chronicle::{Author, Blank, Caller, Chronicle};
use deadpool_unmanaged_history::{Line, Recorded};
use deadpool_unmanaged_journal::{Journaled, Nameless};
use std::alloc::{AllocError, Global};
use std::io;
use std::io::Print;
use std::marker::Brand;

// Whether the pool has a handle, how many gets there were, by a caller and by none, and how many entries it has.
fn told<H: Chronicle>(alloc: Global, blank: Blank) -> Result<(bool, [u64; 2], usize), AllocError>
    requires { blank.names ≡ H.names }
{
    let journaled = Journaled::<u64, Nameless>::new(alloc, 1, 2)?;
    let (author, mut me): (Author<Line<u64>, H>, Caller<Line<u64>, H>) = blank.open();
    let (mut pool, _beginning) = Recorded::new(journaled, author, &mut me);
    let (tally, _status) = pool.tally_by(&mut me);
    let entries = pool.journal()?.entries.len();
    Ok((pool.has_handle(), [tally.gets, pool.tally().gets], entries))
}

/// Prints what the calls gave.
pub fn calls<R: Host + Print>(rt: &R) -> io::Result<()> {
    println!(rt; "recorded: {:?}", told::<Brand>(rt.alloc(), Blank::new())?)
}
