//! Makes a script's pool.
use crate::manager::{Answers, Kind, ScriptHook, ScriptManager};
use crate::script::{ManagedPool, PoolLine, Settings, UnmanagedPool};
use deadpool_builder::PoolBuilder;
use deadpool_managed::{BuildError, ConfigError, Hook, NoHook, PoolConfig};
use deadpool_trial::{Trial, unmanaged};
use std::alloc::{AllocError, Global};
use std::fmt;

/// A script's managed pool.
pub type ManagedTrial<'a> = Trial<ScriptManager<&'a Answers>, NoHook, ScriptHook<&'a Answers>, ()>;

/// A script's unmanaged pool.
pub type UnmanagedTrial = unmanaged::Trial<u64>;

/// A script's pool.
#[derive(Drop)]
pub enum ScriptPool<'a> {
    Managed(ManagedTrial<'a>),
    Unmanaged(UnmanagedTrial),
}

/// How many gets and adds a script of the program may start.
pub const PARTIES: usize = 1024;

/// Why a script has no pool.
#[derive(Clone, Copy, Debug, PartialEq, Eq)]
pub enum Refusal {
    /// The text of its configuration is not JSON.
    NotJson,
    /// There was no memory to read that text.
    Unread,
    /// Its configuration has a fault.
    Config(ConfigError),
    /// The builder gave none.
    Build(BuildError),
    /// There was no memory for an unmanaged pool.
    OutOfMemory,
}

impl From<ConfigError> for Refusal {
    fn from(cause: ConfigError) -> Refusal {
        Refusal::Config(cause)
    }
}

impl From<BuildError> for Refusal {
    fn from(cause: BuildError) -> Refusal {
        Refusal::Build(cause)
    }
}

impl From<AllocError> for Refusal {
    fn from(_refused: AllocError) -> Refusal {
        Refusal::OutOfMemory
    }
}

impl fmt::Display for Refusal {
    fn fmt<W: fmt::Write>(&self, f: &mut fmt::Formatter<W>) -> fmt::Result {
        match self {
            Refusal::NotJson => f.write_str("Configuration is not JSON"),
            Refusal::Unread | Refusal::OutOfMemory => f.write_str("Out of memory"),
            Refusal::Config(cause) => write!(f, "{cause}"),
            Refusal::Build(cause) => write!(f, "{cause}"),
        }
    }
}

/// The pool that a line asks for, with room for so many gets and adds.
pub fn open_pool(
    alloc: Global,
    answers: &Answers,
    parties: usize,
    line: PoolLine,
) -> Result<ScriptPool<'_>, Refusal> {
    Ok(match line {
        PoolLine::Managed(pool) => {
            ScriptPool::Managed(open_managed(alloc, answers, parties, pool)?)
        }
        PoolLine::Unmanaged(pool) => ScriptPool::Unmanaged(open_unmanaged(alloc, parties, pool)?),
    })
}

fn open_unmanaged(
    alloc: Global,
    parties: usize,
    pool: UnmanagedPool,
) -> Result<UnmanagedTrial, AllocError> {
    let UnmanagedPool {
        max_size,
        runtime,
        max_waiting,
    } = pool;
    Ok(UnmanagedTrial::new(alloc, max_size, runtime, parties)?.bounded(max_waiting))
}

// A pool with one hook in each of its lists.
fn open_managed(
    alloc: Global,
    answers: &Answers,
    parties: usize,
    pool: ManagedPool,
) -> Result<ManagedTrial<'_>, Refusal> {
    let ManagedPool {
        settings,
        runtime,
        first_number,
    } = pool;
    let config = config_of(alloc, settings)?;
    let mut builder = PoolBuilder::new(alloc, ScriptManager::new(answers), ()).config(config);
    if let Some(runtime) = runtime {
        builder = builder.runtime(runtime);
    }
    let builder = builder
        .pre_recycle(hook(answers, Kind::PreRecycle))
        .map_err(|_| BuildError::OutOfMemory)?
        .post_recycle(hook(answers, Kind::PostRecycle))
        .map_err(|_| BuildError::OutOfMemory)?
        .post_create(hook(answers, Kind::PostCreate))
        .map_err(|_| BuildError::OutOfMemory)?;
    Ok(Trial::new(builder, parties, first_number)?)
}

fn config_of(alloc: Global, settings: Settings) -> Result<PoolConfig, Refusal> {
    match settings {
        Settings::Known(config) => Ok(config),
        Settings::Written(json) => read_config(alloc, &json),
    }
}

fn read_config(alloc: Global, json: &[u8]) -> Result<PoolConfig, Refusal> {
    match serde_json::from_slice(alloc, json) {
        Ok(value) => Ok(PoolConfig::from_json(&value)?),
        Err(cause) if cause.is_memory() => Err(Refusal::Unread),
        Err(_) => Err(Refusal::NotJson),
    }
}

fn hook(answers: &Answers, kind: Kind) -> Hook<NoHook, ScriptHook<&Answers>> {
    Hook::async_fn(ScriptHook::new(answers, kind))
}
