//! What is known of a buffer that its pool hands out.
ghost use Rattle.std.specs.Prelude.{◌≡◌, [], length, IfOk, OnOk};
ghost use Rattle.futures.specs.Poll.{OnPending};
ghost use Rattle.futures.specs.Task.{IsArmed, Keeps};
ghost use Rattle.deadpool.specs.Answers.{IfReadyOk};

use crate::manager::{BufferError, Buffers};
use deadpool::Clock;
use deadpool::managed::{Get, Ledgers, NoHook, Object, Pool, PoolError};
use deadpool_threads::Plain;
use futures::Future;
use futures::task::{Context, Poll};
use std::alloc::AllocError;
use std::sync::Wait;

/// A pool of buffers that has no hooks.
pub type BufferPool<C, R, L> = Pool<Plain<Buffers>, NoHook, NoHook, C, R, L>;

/// A buffer out of such a pool. It goes back when it is dropped.
pub type Buffer<C, R, L> = Object<Plain<Buffers>, NoHook, NoHook, C, R, L>;

/// A get for such a buffer.
pub type GetBuffer<C, R, L> = Get<Plain<Buffers>, NoHook, NoHook, C, R, L, Buffer<C, R, L>>;

/// Polls a get. The buffer that it hands out is empty, whatever was in it when it came back.
pub fn poll_buffer<C: Clock, R: Wait + Drop, L: Ledgers>(
    get: &mut GetBuffer<C, R, L>,
    cx: &mut Context<'_>,
) -> Poll<Result<Buffer<C, R, L>, PoolError<BufferError>>>
    ensures empty { IfReadyOk result (λ buffer. buffer.slot.value.value.items ≡ []) }
    ensures armed { OnPending result (IsArmed cx.new) }
    ensures kept { Keeps cx.old cx.new }
{
    get.poll(cx)
}

/// Puts a line into a buffer that was handed out, and says how many bytes are in it then.
pub fn fill<C: Clock, R: Wait + Drop, L: Ledgers>(
    buffer: &mut Buffer<C, R, L>,
    line: &[u8],
) -> Result<usize, AllocError>
    requires empty { buffer.old.slot.value.value.items ≡ [] }
    ensures length { IfOk result (λ count. count ≡ length line.now) }
    ensures filled { OnOk result (buffer.new.slot.value.value.items ≡ line.now) }
{
    buffer.extend_from_slice(line)?;
    Ok(buffer.len())
}
