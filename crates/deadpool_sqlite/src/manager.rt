//! What makes the connections, and rolls back what those that come back have open.
ghost use Rattle.std.specs.Prelude.{◌≡◌, Ok, IfOk, IfErr, string_bytes};
ghost use Rattle.sqlite.specs.Held.{state};
ghost use Rattle.deadpool_sqlite.specs.Settled.{IsSettled};
ghost use Rattle.deadpool_sqlite.specs.Creating.{Creates, FailsToPrepare, HasRun};
ghost use Rattle.deadpool_sqlite.specs.Answers.{Recycles};

use crate::recycling::{RecyclingMethod, Refusal, reuse};
use crate::source::Source;
use deadpool::managed::{Manager, Metrics, RecycleError, RecycleResult};
use futures::task::{Context, Poll};
use sqlite::{Alter, Connection, Error, ErrorCode};

/// The manager of a pool whose objects are connections to SQLite databases. It hands out those alone that have no
/// transaction open.
///
/// A creation answers the error of the source's open, or the error of the batch, or `TransactionState` if the batch
/// leaves a transaction open. A recycling never answers an error of the database: it refuses with a message.
#[derive(Drop)]
pub struct SqliteManager<B: Source> {
    pub source: B,
    /// Statements that show no rows, which run once on each new connection.
    pub batch: String,
    pub method: RecyclingMethod,
}

// Runs the batch on a new connection.
fn prepare<S: Alter + Drop>(mut conn: Connection<S>, batch: &str) -> Result<Connection<S>, Error>
    ensures ran { IfOk result (λ left. HasRun S.Store batch.now conn left (Ok tt)) }
    ensures settled { IfOk result (λ left. IsSettled (state S.Store left)) }
    ensures failed { IfErr result (FailsToPrepare S.Store batch.now conn) }
{
    conn.execute_batch(batch)?;
    if conn.is_autocommit() {
        Ok(conn)
    } else {
        Err(Error::SqliteFailure(ErrorCode::TransactionState))
    }
}

impl<B: Source> Manager for SqliteManager<B> {
    type Type = Connection<B::Storage>;

    type Error = Error;

    type Creating = ();

    type Recycling = ();

    ghost is_ready = { λ conn. IsSettled (state B.Storage.Store conn) };

    ghost may_poll_create = { λ manager _ answer _.
        Creates B.Storage.Store (B.may_open manager.source) (string_bytes manager.batch) answer };

    ghost may_recycle = { λ _ conn _ _ left. left ≡ conn };

    ghost may_poll_recycle = { λ manager _ conn _ answer _ left.
        Recycles B.Storage.Store manager.method conn answer left };

    ghost may_detach = { λ _ conn left. left ≡ conn };

    fn create(&self) -> () {}

    fn poll_create(
        &self,
        _creating: &mut (),
        _cx: &mut Context<'_>,
    ) -> Poll<Result<Connection<B::Storage>, Error>> {
        match self.source.open() {
            Ok(conn) => Poll::Ready(prepare(conn, &self.batch)),
            Err(cause) => Poll::Ready(Err(cause)),
        }
    }

    fn recycle(&self, _conn: &mut Connection<B::Storage>, _metrics: &Metrics) -> () {}

    fn poll_recycle(
        &self,
        _recycling: &mut (),
        conn: &mut Connection<B::Storage>,
        _metrics: &Metrics,
        _cx: &mut Context<'_>,
    ) -> Poll<RecycleResult<Error>> {
        Poll::Ready(match reuse(conn, self.method) {
            Ok(()) => Ok(()),
            Err(Refusal::NotRolledBack) => {
                Err(RecycleError::message("the transaction was not rolled back"))
            }
            Err(Refusal::QueryFailed) => Err(RecycleError::message("the query failed")),
            Err(Refusal::StaysOpen) => Err(RecycleError::message("a transaction stays open")),
        })
    }
}
