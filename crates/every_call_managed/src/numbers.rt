//! Numbers that begin at 0, and a pool of them.
use deadpool_managed::{Manager, Metrics, NoHook, RecycleResult};
use deadpool_parts::NoTime;
use deadpool_shared::Pool;
use futures::task::{Context, Poll};

/// Makes numbers that begin at 0, and hands out each again as it came back. Nothing is awaited.
#[derive(Drop)]
pub struct Zeros;

impl Manager for Zeros {
    type Type = u64;

    type Error = ();

    type Creating = ();

    type Recycling = ();

    fn create(&self) -> () {}

    fn poll_create(&self, _creating: &mut (), _cx: &mut Context<'_>) -> Poll<Result<u64, ()>> {
        Poll::Ready(Ok(0))
    }

    fn recycle(&self, _value: &mut u64, _metrics: &Metrics) -> () {}

    fn poll_recycle(
        &self,
        _recycling: &mut (),
        _value: &mut u64,
        _metrics: &Metrics,
        _cx: &mut Context<'_>,
    ) -> Poll<RecycleResult<()>> {
        Poll::Ready(Ok(()))
    }
}

/// A pool of such numbers.
pub type Numbers<R, L> = Pool<Zeros, NoHook, NoHook, NoTime, R, L>;
