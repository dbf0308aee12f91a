//! The managed pool: a manager creates its objects and recycles those that came back.
//!
//! A `PoolBuilder` builds it for threads and tasks, or opens it on one thread. It stands in crates of its own, which
//! know no trial. `desk` has what a pool is made of.

pub mod desk;

pub use deadpool_builder::{OpenPool, PoolBuilder, PoolParts};
pub use deadpool_managed::{
    AsyncHook, BuildError, ConfigError, CreatePoolError, FnHook, Hook, HookAnswer, HookError,
    HookResult, Manager, Metrics, NoHook, ObjectId, PoolConfig, PoolError, QueueMode, RecycleError,
    RecycleResult, RetainResult, Status, SyncHook, TimeoutType, Timeouts,
};
pub use deadpool_settings::managed::{strict_from_json, strict_from_text};
pub use deadpool_settings::{Fault, Named, StrictError, Why};
pub use deadpool_shared::{
    Blanks, Build, Caller, Drain, DrainError, Entry, Get, GetRef, Getting, HasTimeouts, History,
    Journal, Ledgers, LentTimeouts, Line, Object, OwnTimeouts, Pool, Report, Tally, WeakPool,
};

/// What a user of a pool names beside it, for a crate that gives a pool of its own out.
pub mod reexports {
    pub use deadpool_managed::{
        Metrics, ObjectId, PoolConfig, Runtime, Status, TimeoutType, Timeouts,
    };
}
