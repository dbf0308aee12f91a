//! What is known of a connection that its pool hands out.
ghost use Rattle.futures.specs.Poll.{OnPending};
ghost use Rattle.futures.specs.Task.{IsArmed, Keeps};
ghost use Rattle.deadpool.specs.Answers.{IfReadyOk};
ghost use Rattle.sqlite.specs.Held.{state};
ghost use Rattle.deadpool_sqlite.specs.Settled.{IsSettled};

use crate::manager::SqliteManager;
use crate::source::Source;
use deadpool::Clock;
use deadpool::managed::{Get, Ledgers, NoHook, Object, Pool, PoolError};
use futures::Future;
use futures::task::{Context, Poll};
use sqlite::Error;
use std::sync::Wait;

/// A pool of connections that has no hooks.
pub type SqlitePool<B, C, R, L> = Pool<SqliteManager<B>, NoHook, NoHook, C, R, L>;

/// A connection out of such a pool. It goes back when it is dropped, with whatever is open on it.
pub type PooledConnection<B, C, R, L> = Object<SqliteManager<B>, NoHook, NoHook, C, R, L>;

/// A get for such a connection.
pub type GetConnection<B, C, R, L> = Get<
    SqliteManager<B>,
    NoHook,
    NoHook,
    C,
    R,
    L,
    PooledConnection<B, C, R, L>,
>;

/// Polls a get. The connection that it hands out has no transaction open, and so, while its store is open, it shows
/// what was committed.
pub fn poll_connection<B: Source, C: Clock, R: Wait + Drop, L: Ledgers>(
    get: &mut GetConnection<B, C, R, L>,
    cx: &mut Context<'_>,
) -> Poll<Result<PooledConnection<B, C, R, L>, PoolError<Error>>>
    ensures settled { IfReadyOk result
        (λ object. IsSettled (state B.Storage.Store object.slot.value.value)) }
    ensures armed { OnPending result (IsArmed cx.new) }
    ensures kept { Keeps cx.old cx.new }
{
    get.poll(cx)
}
