//! Calls what poolrun, the examples and the bench leave uncalled of the backends.
//!
//! Its proof says of each that it can be called: a caller meets what it requires, at a type of its own.
#![tactic(auto)]

mod buffers;
mod connections;
mod pings;

use std::io;

fn main(rt: HostRuntime) -> io::Result<()> {
    buffers::calls(rt)?;
    connections::calls(rt)?;
    pings::calls(&rt, &rt)
}
