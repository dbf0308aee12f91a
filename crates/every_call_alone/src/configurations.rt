//! Configurations, written as JSON and read again.
use deadpool_parts::config::{PoolConfig, Timeouts};
use deadpool_parts::errors::ConfigError;
use deadpool_settings::StrictError;
use std::alloc::Global;
use std::io;
use std::io::Print;

// A managed pool's.
fn managed(alloc: Global) -> Result<bool, ConfigError> {
    let config = PoolConfig {
        timeouts: Timeouts::wait_millis(50),
        ..PoolConfig::with_processors(2)
    };
    let written = config.to_json(alloc)?;
    Ok(PoolConfig::from_json(&written)? == config)
}

// An unmanaged pool's.
fn unmanaged(alloc: Global) -> Result<bool, ConfigError> {
    let config = deadpool_unmanaged::PoolConfig::with_processors(2);
    let written = config.to_json(alloc)?;
    Ok(deadpool_unmanaged::PoolConfig::from_json(&written)? == config)
}

// The limit that a text of an unmanaged pool has, read strictly.
fn strict(alloc: Global, text: &str) -> Result<usize, StrictError> {
    Ok(deadpool_settings::unmanaged::strict_from_text(alloc, text)?.max_size)
}

/// Prints what the calls gave.
pub fn calls<R: Print + AllocGlobal>(rt: &R) -> io::Result<()> {
    let alloc = rt.alloc();
    println!(rt; "managed: {:?}", managed(alloc))?;
    println!(rt; "unmanaged: {:?}", unmanaged(alloc))?;
    let limit = strict(alloc, r#"{"max_size":2}"#).unwrap_or(0);
    println!(rt; "strict: {limit}")
}
