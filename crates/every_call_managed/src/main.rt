//! Calls what poolrun, the examples and the bench leave uncalled of the managed pool for threads and tasks.
//!
//! Its proof says of each that it can be called: a caller meets what it requires, at a type of its own.
#![tactic(auto)]

ghost use Rattle.std.specs.Prelude.{◌≡◌};

mod callers;
mod drains;
mod gets;
mod handles;
mod host;
mod numbers;

use deadpool_builder::PoolBuilder;
use deadpool_managed::NoHook;
use deadpool_parts::NoTime;
use deadpool_shared::{Blanks, Build, Ledgers};
use host::Host;
use numbers::{Numbers, Zeros};
use std::io;
use std::io::Print;
use std::marker::Brand;

type Builder = PoolBuilder<Zeros, NoHook, NoHook, NoTime>;

// Builds the pool, for two numbers, and makes the calls on it, of which the last close it.
fn calls<R: Host + Print, L: Ledgers>(rt: R, builder: Builder, blanks: Blanks) -> io::Result<()>
    requires opens { blanks ≡ L.names }
{
    let pool: Numbers<R, L> = builder.build(blanks, rt)?;
    gets::calls(&rt, &pool)?;
    handles::calls(&rt, &pool)?;
    callers::calls(&rt, &pool)?;
    drains::calls(&rt, &pool)
}

fn main(rt: HostRuntime) -> io::Result<()> {
    let builder = Numbers::<HostRuntime, Brand>::builder(rt.alloc(), Zeros, NoTime);
    calls::<HostRuntime, Brand>(rt, builder, Blanks::new())
}
