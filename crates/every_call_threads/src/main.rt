//! Calls what poolrun, the examples and the bench leave uncalled of what threads share pools by.
//!
//! Its proof says of each that it can be called: a caller meets what it requires, at a type of its own.
#![tactic(auto)]

mod built;
mod keeper;
mod numbers;
mod sheets;
mod timer;
mod unmanaged;
mod user;

use std::io;

fn main(rt: HostRuntime) -> io::Result<()> {
    user::calls(rt)?;
    keeper::calls(rt)?;
    unmanaged::calls(rt)?;
    timer::calls(rt)?;
    sheets::calls(rt)?;
    built::calls(rt)
}
