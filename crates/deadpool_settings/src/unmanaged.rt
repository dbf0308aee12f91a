//! The strict reading of an unmanaged pool's configuration.
//!
//! It reads what `PoolConfig::from_json` reads, and refuses a key that no pool has. The first fault is told: an unknown
//! key, then what `from_json` finds, in its order. There is no runtime in it.
ghost use Rattle.std.specs.Prelude.{◌≡◌, None, Some, Ok, IfOk, IfErr, option_map};
ghost use Rattle.serde_json.specs.Read.{read as read_text};
ghost use Rattle.serde_json.specs.View.{view};
ghost use Rattle.deadpool_settings.specs.Faults.{Shows, Tells, TellsOfText};
ghost use Rattle.deadpool_settings.specs.Unmanaged.{ReadsExactly, TellsFaults, located, read_strict};
ghost use Rattle.deadpool_unmanaged.specs.Config.{settings_of};

use crate::fault::{Fault, StrictError, Why, number_why, parsed, unknown};
use crate::keys::Section;
use deadpool_parts::errors::ConfigError;
use deadpool_unmanaged::PoolConfig;
use serde_json::Value;
use std::alloc::Global;
use std::borrow::CowStr;

/// The configuration that a value is, if a pool has each of its keys; or its first fault.
pub fn strict_from_json(alloc: Global, value: &Value) -> Result<PoolConfig, StrictError>
    ensures read { IfOk result (λ config. read_strict (view value.now) ≡ Ok (settings_of config)) }
    ensures runtime { IfOk result (λ config. config.runtime ≡ None) }
    ensures fault { IfErr result (λ error. Tells error (read_strict (view value.now))) }
{
    if let Some(key) = Section::Unmanaged.unknown_key(value) {
        return Err(unknown(alloc, "", key));
    }
    match PoolConfig::from_json(value) {
        Ok(config) => Ok(config),
        Err(error) => Err(StrictError::Fault(located(value, error))),
    }
}

/// The configuration that a text is in JSON, if a pool has each of its keys; or its first fault. Of a key that stands
/// twice the last place counts.
pub fn strict_from_text(alloc: Global, text: &str) -> Result<PoolConfig, StrictError>
    ensures read { IfOk result (λ config. option_map read_strict (read_text text.now)
        ≡ Some (Ok (settings_of config))) }
    ensures runtime { IfOk result (λ config. config.runtime ≡ None) }
    ensures fault { IfErr result (λ error.
        TellsOfText error (option_map read_strict (read_text text.now))) }
{
    let value = parsed(alloc, text)?;
    strict_from_json(alloc, &value)
}

/// What a strict reading is: a lenient one of a value without unknown keys, and each fault that is told is there.
/// The call does nothing.
pub fn laws()
    ensures exact { ReadsExactly }
    ensures honest { TellsFaults }
{}

// Where the fault lies that a lenient reading tells, and why.
fn located(value: &Value, error: ConfigError) -> Fault
    ensures { Shows result (located (view value.now) error) }
{
    let (path, why) = match error {
        ConfigError::MissingMaxSize => ("max_size", Why::Missing),
        ConfigError::BadNumber => ("max_size", number_why(value, "max_size")),
        ConfigError::BadDuration => ("timeout", Why::NoDuration),
        ConfigError::BadMaxWaiting => ("max_waiting", number_why(value, "max_waiting")),
        // (of the others only the first is told)
        ConfigError::NotAnObject
        | ConfigError::BadQueueMode
        | ConfigError::BadMinIdle
        | ConfigError::OutOfMemory => ("", Why::NoObject),
    };
    let path = CowStr::Borrowed(path);
    Fault { path, why }
}
