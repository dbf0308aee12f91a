//! The unmanaged pool: its objects are those that its user adds.
//!
//! `Pool` is the pool for threads and tasks; its gets, adds and removals are futures. `Core` is its state on one
//! thread, where a get and an add are states that their owner polls (`GetState`, `AddState`), each poll with at most
//! one of its steps. Both stand in crates of their own, which know no manager.

pub use deadpool_settings::unmanaged::{strict_from_json, strict_from_text};
pub use deadpool_settings::{Fault, Named, StrictError, Why};
pub use deadpool_unmanaged::{
    AddStage, AddState, ConfigError, Core, Counts, GetStage, GetState, HandleReply, PoolConfig,
    PoolError, Reply, Status, Step,
};
pub use deadpool_unmanaged_journal::{Report, Tally};
pub use deadpool_unmanaged_shared::{
    Add, AddRef, Adding, Drain, DrainError, Draining, Get, GetRef, Getting, Object, Pool, Remove,
    Removing,
};
