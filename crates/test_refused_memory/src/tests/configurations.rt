//! Configurations that are written, and hooks that are added, while too little memory is left.
use super::calls::TRIES;
use super::told::{Told, ToldHook, hook_of, manager_of, no_answers};
use deadpool_builder::PoolBuilder;
use deadpool_managed::{ConfigError, Hook, NoHook, PoolConfig, QueueMode, Timeouts};
use deadpool_unmanaged as unmanaged;
use pool_scripts::Kind;
use serde_json::Value;
use std::alloc::Global;
use std::test::Fail;
use std::time::Duration;
use test_support::expected::expect;
use test_support::hoard::{Hoard, more};

fn config() -> PoolConfig {
    PoolConfig {
        max_size: 42,
        timeouts: Timeouts {
            wait: Some(Duration::from_secs(1)),
            create: None,
            recycle: Some(Duration::from_nanos(5)),
        },
        queue_mode: QueueMode::Lifo,
        min_idle: 1,
        max_waiting: Some(3),
    }
}

const TEXT: &str =
    r#"{"max_size":42,"max_waiting":3,"min_idle":1,"queue_mode":"Lifo","timeouts":{"create":null,"recycle":{"nanos":5,"secs":0},"wait":{"nanos":0,"secs":1}}}"#;

// Whether a configuration was written, as this text. If it was not, it was refused for want of memory.
fn is_written(
    alloc: Global,
    written: Result<Value, ConfigError>,
    wanted: &str,
) -> Result<bool, Fail> {
    match written {
        Ok(value) => {
            expect(
                "the configuration",
                value.to_string(alloc)?.as_str(),
                wanted,
            )?;
            Ok(true)
        }
        Err(cause) => {
            expect("the cause", cause, ConfigError::OutOfMemory)?;
            Ok(false)
        }
    }
}

// There was a refusal. Prints how often.
fn tell<R: Print>(rt: &R, refusals: usize) -> Result<(), Fail> {
    expect("there was a refusal", refusals > 0, true)?;
    println!(rt; "{refusals} refusals")?;
    Ok(())
}

#[test]
fn configurations_that_find_no_memory(rt: HostRuntime) -> Result<(), Fail> {
    let mut hoard = Hoard::new(rt.alloc())?;
    let mut left = 0;
    for refusals in 0..TRIES {
        hoard.take(left)?;
        let written = config().to_json(rt.alloc());
        hoard.let_go();
        if is_written(rt.alloc(), written, TEXT)? {
            return tell(&rt, refusals);
        }
        left = more(left);
    }
    Err(Fail::new("memory is always refused"))
}

#[test]
fn unmanaged_configurations_that_find_no_memory(rt: HostRuntime) -> Result<(), Fail> {
    let mut hoard = Hoard::new(rt.alloc())?;
    let mut left = 0;
    for refusals in 0..TRIES {
        hoard.take(left)?;
        let written = unmanaged::PoolConfig::new(2).to_json(rt.alloc());
        hoard.let_go();
        if is_written(rt.alloc(), written, r#"{"max_size":2,"timeout":null}"#)? {
            return tell(&rt, refusals);
        }
        left = more(left);
    }
    Err(Fail::new("memory is always refused"))
}

type Builder = PoolBuilder<Told, NoHook, ToldHook, ()>;

// A builder, and a hook that is not added to it.
type Apart = (Builder, Hook<NoHook, ToldHook>);

// Adds the hook while so much memory is left. If none is found, both come back.
fn add_short(hoard: &mut Hoard, apart: Apart, left: usize) -> Result<Result<Builder, Apart>, Fail> {
    hoard.take(left)?;
    let (builder, hook) = apart;
    let added = builder.post_create(hook);
    hoard.let_go();
    Ok(added)
}

// Adds the hook with more and more memory, until it finds enough. Gives how often it was refused.
fn add(hoard: &mut Hoard, apart: Apart) -> Result<usize, Fail> {
    let mut apart = apart;
    let mut left = 0;
    for refusals in 0..TRIES {
        match add_short(hoard, apart, left)? {
            Ok(_builder) => return Ok(refusals),
            Err(same) => apart = same,
        }
        left = more(left);
    }
    Err(Fail::new("memory is always refused"))
}

// A hook that finds no memory comes back with the builder, and both are as before: it is added once there is some.
#[test]
fn hooks_that_find_no_memory(rt: HostRuntime) -> Result<(), Fail> {
    let answers = no_answers(rt.alloc())?;
    let mut hoard = Hoard::new(rt.alloc())?;
    let builder = PoolBuilder::new(rt.alloc(), manager_of(&answers)?, ());
    let hook = hook_of(&answers, Kind::PostCreate)?;
    let refusals = add(&mut hoard, (builder, hook))?;
    tell(&rt, refusals)
}
