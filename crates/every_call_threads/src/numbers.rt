//! Numbers that begin at 0, and a pool of them.
use deadpool_builder::PoolBuilder;
use deadpool_managed::{Metrics, NoHook, RecycleResult};
use deadpool_parts::NoTime;
use deadpool_threads::{Plain, PlainManager, PlainPool};
use std::alloc::Global;

/// Makes numbers that begin at 0, and hands out each again as it came back.
#[derive(Drop)]
pub struct Zeros;

impl PlainManager for Zeros {
    type Type = u64;

    type Error = ();

    fn create(&self) -> Result<u64, ()> {
        Ok(0)
    }

    fn recycle(&self, _number: &mut u64, _metrics: &Metrics) -> RecycleResult<()> {
        Ok(())
    }
}

/// A pool of such numbers.
pub type Numbers<R, L> = PlainPool<Plain<Zeros>, R, L>;

/// What makes such a pool.
pub fn builder(alloc: Global) -> PoolBuilder<Plain<Zeros>, NoHook, NoHook, NoTime> {
    PoolBuilder::new(alloc, Plain(Zeros), NoTime)
}
