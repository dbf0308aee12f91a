//! Configurations in JSON.
//!
//! A configuration is an object with `max_size` and, if wanted, `timeouts`, `queue_mode`,
//! `min_idle` and `max_waiting`, which may be null. In `timeouts`, an object too, `wait`, `create`
//! and `recycle` are each missing, null or a duration: an object with `secs` and `nanos` and nothing
//! else. Elsewhere keys of other names are ignored.
ghost use Rattle.std.specs.Prelude.{◌≡◌, codes, Some, None, option_map, IfOk, IsOkUnless};
ghost use Rattle.std.specs.Duration.{as_nanos};
ghost use Rattle.serde_json.specs.Find.{get};
ghost use Rattle.serde_json.specs.View.{view};
ghost use Rattle.deadpool_parts.specs.PoolConfig.{ReadsWritten, mode_name, read_config, read_max_size, read_min_idle};
ghost use Rattle.deadpool_parts.specs.PoolConfig.{read_max_waiting, read_queue_mode, settings_of};
ghost use Rattle.deadpool_parts.specs.PoolConfig.{written_around, written_config};
ghost use Rattle.deadpool_parts.specs.Result.{result_map};
ghost use Rattle.deadpool_parts.specs.Timeouts.{durations_of, number_at, read_duration, read_timeouts, read_timeout};
ghost use Rattle.deadpool_parts.specs.Timeouts.{written_timeouts, written_timeout};

use crate::config::{PoolConfig, QueueMode, Timeouts};
use crate::errors::ConfigError;
use serde_json::{Value, json};
use std::alloc::{AllocError, Global};
use std::time::Duration;

const NANOS_PER_SEC: u32 = 1_000_000_000;

impl PoolConfig {
    /// The configuration that a value is, or the first fault in it: in `max_size`, in `timeouts`
    /// with its wait, its creation and its recycling, in `queue_mode`, in `min_idle`, and last in
    /// `max_waiting`.
    pub fn from_json(value: &Value) -> Result<Self, ConfigError>
        ensures { result_map settings_of result ≡ read_config (view value.now) }
    {
        let max_size = max_size_of(value)?;
        let timeouts = timeouts_of(value)?;
        let queue_mode = queue_mode_of(value)?;
        let min_idle = min_idle_of(value)?;
        let max_waiting = max_waiting_of(value)?;
        Ok(PoolConfig {
            max_size,
            timeouts,
            queue_mode,
            min_idle,
            max_waiting,
        })
    }

    /// The configuration with every key, null for a timeout that is not set, and `max_waiting` only
    /// if it is set.
    #[tactic(auto, using(crate::proofs::ReadsBack::reads_written))]
    pub fn to_json(&self, alloc: Global) -> Result<Value, ConfigError>
        ensures written { IfOk result (λ v. view v ≡ written_config (settings_of self.now)) }
        ensures reads_back { IfOk result (λ v. read_config (view v) ≡ Ok (settings_of self.now)) }
        ensures memory { IsOkUnless result ConfigError.OutOfMemory }

        // Reading undoes writing, whatever was written.
        ensures law { ReadsWritten }
    {
        Ok(written_config(alloc, *self)?)
    }
}

impl QueueMode {
    /// The mode's name in JSON.
    fn name(self) -> &'static str
        ensures { result.now ≡ mode_name self }
    {
        match self {
            QueueMode::Fifo => "Fifo",
            QueueMode::Lifo => "Lifo",
        }
    }
}

/// The `max_size` of the object that a configuration is.
pub fn max_size_of(value: &Value) -> Result<usize, ConfigError>
    ensures { result ≡ read_max_size (view value.now) }
{
    if !value.is_object() {
        return Err(ConfigError::NotAnObject);
    }
    let max_size = value.get("max_size").ok_or(ConfigError::MissingMaxSize)?;
    let max_size = max_size.as_u64().ok_or(ConfigError::BadNumber)?;
    usize::try_from(max_size).map_err(|_| ConfigError::BadNumber)
}

fn timeouts_of(value: &Value) -> Result<Timeouts, ConfigError>
    ensures { result_map durations_of result
        ≡ read_timeouts (get (codes "timeouts") (view value.now)) }
{
    let Some(timeouts) = value.get("timeouts") else {
        return Ok(Timeouts::new());
    };
    if !timeouts.is_object() {
        return Err(ConfigError::NotAnObject);
    }
    let wait = timeout_at(timeouts, "wait")?;
    let create = timeout_at(timeouts, "create")?;
    let recycle = timeout_at(timeouts, "recycle")?;
    Ok(Timeouts {
        wait,
        create,
        recycle,
    })
}

fn queue_mode_of(value: &Value) -> Result<QueueMode, ConfigError>
    ensures { result ≡ read_queue_mode (get (codes "queue_mode") (view value.now)) }
{
    let Some(mode) = value.get("queue_mode") else {
        return Ok(QueueMode::Fifo);
    };
    match mode.as_str() {
        Some("Fifo") => Ok(QueueMode::Fifo),
        Some("Lifo") => Ok(QueueMode::Lifo),
        _ => Err(ConfigError::BadQueueMode),
    }
}

fn min_idle_of(value: &Value) -> Result<usize, ConfigError>
    ensures { result ≡ read_min_idle (get (codes "min_idle") (view value.now)) }
{
    let Some(min_idle) = value.get("min_idle") else {
        return Ok(0);
    };
    let min_idle = min_idle.as_u64().ok_or(ConfigError::BadMinIdle)?;
    usize::try_from(min_idle).map_err(|_| ConfigError::BadMinIdle)
}

/// How many may wait, by the object that a configuration is: no bound if the key is missing or null.
pub fn max_waiting_of(value: &Value) -> Result<Option<usize>, ConfigError>
    ensures { result ≡ read_max_waiting (get (codes "max_waiting") (view value.now)) }
{
    let Some(max_waiting) = value.get("max_waiting") else {
        return Ok(None);
    };
    if max_waiting.is_null() {
        return Ok(None);
    }
    let max_waiting = max_waiting.as_u64().ok_or(ConfigError::BadMaxWaiting)?;
    let max_waiting = usize::try_from(max_waiting).map_err(|_| ConfigError::BadMaxWaiting)?;
    Ok(Some(max_waiting))
}

/// The timeout at a key of an object: not set if the key is missing or null.
pub fn timeout_at(value: &Value, key: &str) -> Result<Option<Duration>, ConfigError>
    ensures { result_map (option_map as_nanos) result
        ≡ read_timeout (get key.now (view value.now)) }
{
    let Some(timeout) = value.get(key) else {
        return Ok(None);
    };
    if timeout.is_null() {
        return Ok(None);
    }
    let duration = duration_of(timeout).ok_or(ConfigError::BadDuration)?;
    Ok(Some(duration))
}

/// The duration that a value is. Nanoseconds past a second carry into the seconds, and seconds
/// past a `u64` are no duration.
pub fn duration_of(value: &Value) -> Option<Duration>
    ensures { option_map as_nanos result ≡ read_duration (view value.now) }
{
    if value.as_object()?.len() != 2 {
        return None;
    }
    let secs = number_at(value, "secs")?;
    let nanos = u32::try_from(number_at(value, "nanos")?).ok()?;
    let carry = u64::from(nanos / NANOS_PER_SEC);
    if carry > u64::MAX - secs {
        return None;
    }
    Some(Duration::new(secs, nanos))
}

fn number_at(value: &Value, key: &str) -> Option<u64>
    ensures { result ≡ number_at key.now (view value.now) }
{
    value.get(key)?.as_u64()
}

fn written_config(alloc: Global, config: PoolConfig) -> Result<Value, AllocError>
    ensures written { IfOk result (λ v. view v ≡ written_config (settings_of config)) }
    ensures reads_back { IfOk result (λ v. read_config (view v) ≡ Ok (settings_of config)) }
{
    let timeouts = written_timeouts(alloc, config.timeouts)?;
    let written = written_around(alloc, config, timeouts)?;
    Ok(written)
}

// The members of a configuration, with its timeouts as they are written.
fn written_around(alloc: Global, config: PoolConfig, timeouts: Value) -> Result<Value, AllocError>
    ensures { IfOk result
        (λ v. view v ≡ written_around (settings_of config) (view timeouts)) }
{
    let queue_mode = config.queue_mode.name();
    let max_size = config.max_size;
    let min_idle = config.min_idle;
    match config.max_waiting {
        None => json!(in alloc; {
            "max_size": max_size,
            "min_idle": min_idle,
            "queue_mode": queue_mode,
            "timeouts": timeouts
        }),
        Some(max_waiting) => json!(in alloc; {
            "max_size": max_size,
            "max_waiting": max_waiting,
            "min_idle": min_idle,
            "queue_mode": queue_mode,
            "timeouts": timeouts
        }),
    }
}

fn written_timeouts(alloc: Global, timeouts: Timeouts) -> Result<Value, AllocError>
    ensures written { IfOk result (λ v. view v ≡ written_timeouts (durations_of timeouts)) }
    ensures reads_back { IfOk result
        (λ v. read_timeouts (Some (view v)) ≡ Ok (durations_of timeouts)) }
{
    let wait = written_timeout(alloc, timeouts.wait)?;
    let create = written_timeout(alloc, timeouts.create)?;
    let recycle = written_timeout(alloc, timeouts.recycle)?;
    json!(in alloc; {"wait": wait, "create": create, "recycle": recycle})
}

/// A timeout in JSON: null if it is not set. Its nanoseconds stay below a second.
pub fn written_timeout(alloc: Global, timeout: Option<Duration>) -> Result<Value, AllocError>
    ensures written { IfOk result (λ v. view v ≡ written_timeout (option_map as_nanos timeout)) }
    ensures reads_back { IfOk result
        (λ v. read_timeout (Some (view v)) ≡ Ok (option_map as_nanos timeout)) }
{
    match timeout {
        None => Ok(Value::Null),
        Some(limit) => {
            let secs = limit.as_secs();
            let nanos = limit.subsec_nanos();
            json!(in alloc; {"secs": secs, "nanos": nanos})
        }
    }
}
