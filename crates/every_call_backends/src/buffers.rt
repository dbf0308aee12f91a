//! A get of a buffer.
use deadpool::NoTime;
use deadpool::managed::{Ledgers, NoHook, PoolBuilder};
use deadpool::threads::{Host, Plain, PoolUser, with_pool};
use deadpool_buffers::{BufferError, BufferPool, Buffers, poll_buffer};
use futures::task::{Doorbell, Poll, Solo};
use std::io;
use std::io::Print;

/// Polls a get once.
#[derive(Drop)]
struct Polls;

impl<R: Host> PoolUser<Plain<Buffers>, NoHook, NoHook, NoTime, R> for Polls {
    /// Whether it has a buffer.
    type Output = io::Result<bool>;

    fn run<L: Ledgers>(self, rt: &R, pool: &BufferPool<NoTime, R, L>) -> io::Result<bool> {
        let task = Solo::new(rt, Doorbell::spinning())?;
        let mut get = pool.get();
        let mut cx = task.begin();
        let polled = poll_buffer(&mut get, &mut cx);
        cx.cancel();
        Ok(matches!(polled, Poll::Ready(Ok(_))))
    }
}

/// Prints what the calls gave.
pub fn calls<R: Host + Print>(rt: R) -> io::Result<()> {
    let buffers = Buffers {
        alloc: rt.alloc(),
        reserve: 16,
        most: 16,
    };
    let builder = PoolBuilder::new(rt.alloc(), Plain(buffers), NoTime);
    println!(rt; "buffer: {}", with_pool(builder, rt, Polls)??)?;
    println!(rt; "{}", BufferError::OutOfMemory)
}
