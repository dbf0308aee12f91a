//! A managed pool as a program with threads writes it: what threads share and wait by, and managers that never wait.

pub use deadpool_threads::{
    Blocking, BlockingLoop, BlockingUser, Handed, Host, Keeper, Plain, PlainManager, PlainPool,
    PoolUser, Shift, Sweeper, with_keeper, with_pool, with_threads,
};
