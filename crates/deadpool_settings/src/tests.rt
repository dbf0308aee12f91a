//! What texts are read as, and what is printed of their faults.
use crate::{Named, managed, unmanaged};
use deadpool_parts::config::PoolConfig;
use deadpool_parts::errors::PoolError;
use std::alloc::Global;
use std::fmt;
use std::test::Fail;

// Fails unless these are the same.
fn expect(line: &str, found: &str, expected: &str) -> Result<(), Fail> {
    if found == expected {
        return Ok(());
    }
    Err(Fail::new(format_args!("{line}: found {found}")))
}

const MANAGED: &str = r#"[] => no object
{"max_size": => EOF while parsing at line 1 column 12
{} => max_size: missing
{"max_siz":1} => max_siz: no key of a pool
{"max_size":null} => max_size: no number
{"max_size":-1} => max_size: no whole number from 0 to 18446744073709551615
{"max_size":1.5,"queue_mode":5} => max_size: no whole number from 0 to 18446744073709551615
{"max_size":18446744073709551616} => max_size: no whole number from 0 to 18446744073709551615
{"max_size":1,"min_idel":2} => min_idel: no key of a pool
{"max_size":null,"min_idel":2} => min_idel: no key of a pool
{"max_size":1,"timeouts":null} => timeouts: no object
{"max_size":1,"timeouts":{"wiat":null}} => timeouts.wiat: no key of a pool
{"max_size":-1,"timeouts":{"wiat":null}} => timeouts.wiat: no key of a pool
{"x":1,"max_size":1,"timeouts":{"wiat":null}} => x: no key of a pool
{"max_size":1,"timeout":null} => timeout: no key of a pool
{"max_size":1,"timeouts":{"wait":5}} => timeouts.wait: no duration
{"max_size":1,"timeouts":{"wait":null,"create":{"secs":5}}} => timeouts.create: no duration
{"max_size":1,"timeouts":{"recycle":{"secs":1,"nanos":0,"x":1}}} => timeouts.recycle: no duration
{"max_size":1,"timeouts":{"recycle":5,"create":5}} => timeouts.create: no duration
{"max_size":1,"queue_mode":"fifo"} => queue_mode: neither Fifo nor Lifo
{"max_size":1,"min_idle":"2"} => min_idle: no number
{"max_size":1,"min_idle":-2} => min_idle: no whole number from 0 to 18446744073709551615
{"max_size":1,"max_waiting":true} => max_waiting: no number
{"max_size":1,"max_size":2,"max_waiting":null} => PoolConfig { max_size: 2, timeouts: Timeouts { wait: None, create: None, recycle: None }, queue_mode: Fifo, min_idle: 0, max_waiting: None }
{"max_size":3,"timeouts":{"wait":{"secs":1,"nanos":0},"create":null,"recycle":null},"queue_mode":"Lifo","min_idle":1,"max_waiting":9} => PoolConfig { max_size: 3, timeouts: Timeouts { wait: Some(1s), create: None, recycle: None }, queue_mode: Lifo, min_idle: 1, max_waiting: Some(9) }"#;

// What stands before the arrow is read as what stands behind it.
fn managed_reads(alloc: Global, line: &str) -> Result<(), Fail> {
    let (text, expected) = line.split_once(" => ").unwrap_or((line, ""));
    let found = match managed::strict_from_text(alloc, text) {
        Ok(config) => format!(in alloc; "{config:?}")?,
        Err(error) => format!(in alloc; "{error}")?,
    };
    expect(line, found.as_str(), expected)
}

#[test]
fn reads_managed_pools(rt: HostRuntime) -> Result<(), Fail> {
    for line in MANAGED.lines() {
        managed_reads(rt.alloc(), line)?;
    }
    Ok(())
}

const UNMANAGED: &str = r#"5 => no object
max_size => invalid JSON at line 1 column 1
{"timeout":null} => max_size: missing
{"max_size":"1"} => max_size: no number
{"max_size":1,"timeouts":{}} => timeouts: no key of a pool
{"max_size":1,"queue_mode":"Fifo"} => queue_mode: no key of a pool
{"max_size":-1,"runtime":null} => runtime: no key of a pool
{"max_size":1,"timeout":5,"max_waiting":-1} => timeout: no duration
{"max_size":1,"max_waiting":-1} => max_waiting: no whole number from 0 to 18446744073709551615
{"max_size":1,"max_waiting":{}} => max_waiting: no number
{"max_size":1,"timeout":{"secs":2,"nanos":0},"max_waiting":3} => PoolConfig { max_size: 1, timeout: Some(2s), max_waiting: Some(3), runtime: None }"#;

// What stands before the arrow is read as what stands behind it.
fn unmanaged_reads(alloc: Global, line: &str) -> Result<(), Fail> {
    let (text, expected) = line.split_once(" => ").unwrap_or((line, ""));
    let found = match unmanaged::strict_from_text(alloc, text) {
        Ok(config) => format!(in alloc; "{config:?}")?,
        Err(error) => format!(in alloc; "{error}")?,
    };
    expect(line, found.as_str(), expected)
}

#[test]
fn reads_unmanaged_pools(rt: HostRuntime) -> Result<(), Fail> {
    for line in UNMANAGED.lines() {
        unmanaged_reads(rt.alloc(), line)?;
    }
    Ok(())
}

// What is written of a configuration is read strictly as the same.
#[test]
fn reads_what_is_written(rt: HostRuntime) -> Result<(), Fail> {
    let mut config = PoolConfig::new(4);
    config.max_waiting = Some(2);
    let written = config
        .to_json(rt.alloc())
        .map_err(|_| Fail::new("no memory"))?;
    let read = managed::strict_from_json(rt.alloc(), &written);
    let found = format!(in rt.alloc(); "{read:?}")?;
    let expected = format!(in rt.alloc(); "Ok({config:?})")?;
    expect("what was written", found.as_str(), expected.as_str())
}

#[test]
fn names_the_pool(rt: HostRuntime) -> Result<(), Fail> {
    let closed: PoolError<fmt::Error> = PoolError::Closed;
    let error = Named {
        name: "orders",
        error: closed,
    };
    let found = format!(in rt.alloc(); "{error}")?;
    expect(
        "an error",
        found.as_str(),
        "pool orders: Pool has been closed",
    )?;
    let Err(error) = unmanaged::strict_from_text(rt.alloc(), r#"{"max":1}"#) else {
        return Err(Fail::new("max was let through"));
    };
    let error = Named { name: "", error };
    let found = format!(in rt.alloc(); "{error}")?;
    expect("a fault", found.as_str(), "pool : max: no key of a pool")
}
