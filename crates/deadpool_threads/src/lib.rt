//! A managed pool as a program with threads writes it: its ledgers are opened here, its threads are started here, and a
//! thread waits for an object by what it keeps.
#![tactic(auto)]

mod blocking;
mod blocking_loop;
mod draining;
mod handed;
mod host;
mod keeper;
mod keeping;
mod lending;
mod plain;
mod promised;
mod sweeper;
mod threads;
mod trying;
mod unmanaged_draining;
mod user;

pub use blocking::Blocking;
pub use blocking_loop::BlockingLoop;
pub use handed::{BlockingUser, Handed};
pub use host::Host;
pub use keeper::{Keeper, Shift};
pub use keeping::with_keeper;
pub use lending::with_pool;
pub use plain::{Plain, PlainManager, PlainPool};
pub use sweeper::Sweeper;
pub use threads::with_threads;
pub use user::PoolUser;
