//! The strict reading of a managed pool's configuration.
//!
//! It reads what `PoolConfig::from_json` reads, and refuses a key that no pool has. The first fault is told: an unknown
//! key of the configuration, then one of its `timeouts`, then what `from_json` finds, in its order.
ghost use Rattle.std.specs.Prelude.{◌≡◌, ◌++◌, codes, Some, Ok, IfOk, IfErr, option_map};
ghost use Rattle.std.specs.Prelude.{option_and_then};
ghost use Rattle.serde_json.specs.Find.{get};
ghost use Rattle.serde_json.specs.Read.{read as read_text};
ghost use Rattle.serde_json.specs.View.{view};
ghost use Rattle.deadpool_parts.specs.PoolConfig.{settings_of};
ghost use Rattle.deadpool_settings.specs.Faults.{Shows, Tells, TellsOfText};
ghost use Rattle.deadpool_settings.specs.Keys.{has_key, unknown_key};
ghost use Rattle.deadpool_settings.specs.Managed.{ReadsExactly, TellsFaults, first_bad_timeout, located};
ghost use Rattle.deadpool_settings.specs.Managed.{read_strict};

use crate::fault::{Fault, StrictError, Why, number_why, parsed, unknown};
use crate::keys::Section;
use deadpool_parts::config::PoolConfig;
use deadpool_parts::config_json::timeout_at;
use deadpool_parts::errors::ConfigError;
use serde_json::Value;
use std::alloc::Global;
use std::borrow::CowStr;

/// The configuration that a value is, if a pool has each of its keys; or its first fault.
pub fn strict_from_json(alloc: Global, value: &Value) -> Result<PoolConfig, StrictError>
    ensures read { IfOk result (λ config. read_strict (view value.now) ≡ Ok (settings_of config)) }
    ensures fault { IfErr result (λ error. Tells error (read_strict (view value.now))) }
{
    if let Some(key) = Section::Managed.unknown_key(value) {
        return Err(unknown(alloc, "", key));
    }
    if let Some(key) = unknown_timeout(value) {
        return Err(unknown(alloc, "timeouts.", key));
    }
    match PoolConfig::from_json(value) {
        Ok(config) => Ok(config),
        Err(error) => Err(StrictError::Fault(located(value, error))),
    }
}

/// The configuration that a text is in JSON, if a pool has each of its keys; or its first fault. Of a key that stands
/// twice the last place counts.
pub fn strict_from_text(alloc: Global, text: &str) -> Result<PoolConfig, StrictError>
    ensures read { IfOk result (λ config. option_map read_strict (read_text text.now)
        ≡ Some (Ok (settings_of config))) }
    ensures fault { IfErr result (λ error.
        TellsOfText error (option_map read_strict (read_text text.now))) }
{
    let value = parsed(alloc, text)?;
    strict_from_json(alloc, &value)
}

/// What a strict reading is: a lenient one of a value without unknown keys, and each fault that is told is there.
/// The call does nothing.
pub fn laws()
    ensures exact { ReadsExactly }
    ensures honest { TellsFaults }
{}

// The first key of the timeouts that is none.
fn unknown_timeout(value: &Value) -> Option<&str>
    ensures { option_map (λ key. key.now) result
        ≡ option_and_then (unknown_key (has_key Section.Timeouts))
        (get (codes "timeouts") (view value.now)) }
{
    Section::Timeouts.unknown_key(value.get("timeouts")?)
}

// Where the fault lies that a lenient reading tells, and why.
fn located(value: &Value, error: ConfigError) -> Fault
    ensures { Shows result (located (view value.now) error) }
{
    let (path, why) = match error {
        ConfigError::NotAnObject if value.is_object() => ("timeouts", Why::NoObject),
        // (a reading takes no memory)
        ConfigError::NotAnObject | ConfigError::OutOfMemory => ("", Why::NoObject),
        ConfigError::MissingMaxSize => ("max_size", Why::Missing),
        ConfigError::BadNumber => ("max_size", number_why(value, "max_size")),
        ConfigError::BadDuration => (first_bad_timeout(value), Why::NoDuration),
        ConfigError::BadQueueMode => ("queue_mode", Why::NoQueueMode),
        ConfigError::BadMinIdle => ("min_idle", number_why(value, "min_idle")),
        ConfigError::BadMaxWaiting => ("max_waiting", number_why(value, "max_waiting")),
    };
    let path = CowStr::Borrowed(path);
    Fault { path, why }
}

// The path of the first timeout that is at fault.
fn first_bad_timeout(value: &Value) -> &'static str
    ensures { result.now
        ≡ codes "timeouts." ++ first_bad_timeout (get (codes "timeouts") (view value.now)) }
{
    let Some(timeouts) = value.get("timeouts") else {
        return "timeouts.wait";
    };
    if timeout_at(timeouts, "wait").is_err() {
        return "timeouts.wait";
    }
    if timeout_at(timeouts, "create").is_err() {
        return "timeouts.create";
    }
    "timeouts.recycle"
}
