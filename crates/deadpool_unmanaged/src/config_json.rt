//! Configurations in JSON.
//!
//! A configuration is an object with `max_size` and, if wanted, `timeout`: null, or a duration as the managed pool's
//! timeouts are; and `max_waiting`, null or a whole number. Keys of other names are ignored.
ghost use Rattle.std.specs.Prelude.{◌≡◌, None, IfOk, IsOkUnless};
ghost use Rattle.serde_json.specs.View.{view};
ghost use Rattle.deadpool_parts.specs.Result.{result_map};
ghost use Rattle.deadpool_unmanaged.specs.Config.{ReadsWritten, settings_of, read_config, written_config};

use crate::config::PoolConfig;
use deadpool_parts::config_json::{max_size_of, max_waiting_of, timeout_at, written_timeout};
use deadpool_parts::errors::ConfigError;
use serde_json::{Value, json};
use std::alloc::{AllocError, Global};

impl PoolConfig {
    /// The configuration that a value is, or the first fault in it: in `max_size`, then in `timeout`, and last in
    /// `max_waiting`. There is no runtime in it.
    pub fn from_json(value: &Value) -> Result<Self, ConfigError>
        ensures read { result_map settings_of result ≡ read_config (view value.now) }
        ensures runtime { IfOk result (λ config. config.runtime ≡ None) }
    {
        let max_size = max_size_of(value)?;
        let timeout = timeout_at(value, "timeout")?;
        let max_waiting = max_waiting_of(value)?;
        Ok(PoolConfig {
            max_size,
            timeout,
            max_waiting,
            runtime: None,
        })
    }

    /// The size and the timeout, null for one that is not set, and the bound on those that wait, if there is one.
    #[tactic(auto, using(crate::proofs::ConfigReadsBack::reads_written))]
    pub fn to_json(&self, alloc: Global) -> Result<Value, ConfigError>
        ensures written { IfOk result (λ v. view v ≡ written_config (settings_of self.now)) }
        ensures reads_back { IfOk result (λ v. read_config (view v) ≡ Ok (settings_of self.now)) }
        ensures memory { IsOkUnless result ConfigError.OutOfMemory }

        // Reading undoes writing, whatever was written.
        ensures law { ReadsWritten }
    {
        Ok(written_config(alloc, *self)?)
    }
}

fn written_config(alloc: Global, config: PoolConfig) -> Result<Value, AllocError>
    ensures written { IfOk result (λ v. view v ≡ written_config (settings_of config)) }
    ensures reads_back { IfOk result (λ v. read_config (view v) ≡ Ok (settings_of config)) }
{
    let timeout = written_timeout(alloc, config.timeout)?;
    let max_size = config.max_size;
    match config.max_waiting {
        None => json!(in alloc; {"max_size": max_size, "timeout": timeout}),
        Some(max_waiting) => json!(in alloc; {
            "max_size": max_size,
            "max_waiting": max_waiting,
            "timeout": timeout
        }),
    }
}
