//! The connections, who opens them, and the pool that they are in.
use crate::board::SharedBoard;
use deadpool::limits::Retire;
use deadpool::managed::{Metrics, NoHook, Pool, RecycleResult};
use deadpool::threads::{Plain, PlainManager};
use deadpool::timer::TimerClock;
use std::alloc::AllocError;
use std::sync::Arc;

/// How many requests a connection may serve.
pub const USES: usize = 40;

/// A connection, in place of one to a server elsewhere.
pub struct Connection {
    board: SharedBoard,
    /// How many requests it has served.
    pub requests: usize,
}

impl Drop for Connection {
    fn drop(self) {
        let Connection { board, requests } = self;
        board.closed.add();
        if requests > USES {
            board.failed.add();
        }
    }
}

/// Opens connections.
#[derive(Drop)]
pub struct Connector(pub SharedBoard);

impl PlainManager for Connector {
    type Type = Connection;

    type Error = AllocError;

    fn create(&self) -> Result<Connection, AllocError> {
        let board = Arc::try_clone(&self.0)?;
        board.opened.add();
        Ok(Connection { board, requests: 0 })
    }

    fn recycle(
        &self,
        _connection: &mut Connection,
        _metrics: &Metrics,
    ) -> RecycleResult<AllocError> {
        Ok(())
    }
}

/// The hook that gives up connections which are past their limits.
pub type Limited<R> = Retire<TimerClock<R>>;

/// The pool.
pub type ConnectionPool<R, L> = Pool<Plain<Connector>, Limited<R>, NoHook, TimerClock<R>, R, L>;
