//! Errors and reports, as text.
use deadpool_parts::Status;
use deadpool_parts::errors::{BuildError, ConfigError, CreatePoolError, PoolError, RecycleError};
use deadpool_unmanaged_journal::{Report, Tally};
use std::alloc::AllocError;
use std::io;
use std::io::Print;

fn status() -> Status {
    Status {
        max_size: 2,
        size: 1,
        available: 1,
        waiting: 0,
    }
}

/// Prints what the calls gave.
pub fn calls<R: Print + AllocGlobal>(rt: &R) -> io::Result<()> {
    println!(rt; "{}", RecycleError::from(7u8))?;
    println!(rt; "{}", PoolError::from(7u8))?;
    println!(rt; "{}", ConfigError::from(AllocError))?;
    println!(rt;
        "{}",
        CreatePoolError::<u8>::Build(BuildError::NoRuntimeSpecified)
    )?;
    println!(rt; "{}", status())?;
    let report = Report {
        name: "numbers",
        tally: Tally::new(),
        status: status(),
    };
    print!(rt; "{report}")
}
