//! Calls what poolrun, the examples and the bench leave uncalled of the libraries below the locks.
//!
//! That this program is proved says of each of these functions that it can be called: a caller meets what it requires,
//! at a type of its own.
#![tactic(auto)]

mod adds;
mod builders;
mod configurations;
mod cores;
mod errors;
mod gets;
mod hooks;
mod journaled;
mod numbers;
mod trials;
mod unmanaged_journaled;
mod zeros;

use std::io;

fn main(rt: HostRuntime) -> io::Result<()> {
    numbers::calls(&rt)?;
    configurations::calls(&rt)?;
    errors::calls(&rt)?;
    cores::calls(&rt)?;
    journaled::calls(&rt)?;
    builders::calls(&rt)?;
    hooks::calls(&rt)?;
    trials::calls(&rt)?;
    gets::calls(&rt)?;
    adds::calls(&rt)?;
    unmanaged_journaled::calls(&rt)
}
