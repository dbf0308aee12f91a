//! A query that a hook may ask of a connection.
ghost use Rattle.std.specs.Prelude.{[], codes, IfErr, OnOk, IsTrue};
ghost use Rattle.sqlite.specs.Held.{state};
ghost use Rattle.sqlite.specs.State.{HasCleanDisk, KeepsCommit, QueriesRow};
ghost use Rattle.deadpool_sqlite.specs.Settled.{IsSettled};

use crate::recycling::{RecyclingMethod, verify};
use sqlite::{Alter, Connection, Error};

/// Asks the database a query that reads no table, which has to succeed, as `RecyclingMethod::Verified` does. A hook may
/// call it at any connection: one that is settled stays settled, whatever the answer, and what is open stays open. The
/// error is the database's.
pub fn ping<S: Alter>(conn: &mut Connection<S>) -> Result<(), Error>
    ensures settled { IsSettled (state S.Store conn.old) → IsSettled (state S.Store conn.new) }
    ensures kept { HasCleanDisk (state S.Store conn.new)
        → KeepsCommit (state S.Store conn.old) (state S.Store conn.new) }
    ensures open { HasCleanDisk (state S.Store conn.new)
        → OnOk result (IsTrue (state S.Store conn.new).is_open) }
    ensures failed { IfErr result
        (λ cause. HasCleanDisk (state S.Store conn.new) → QueriesRow (codes "SELECT 1") []
        (state S.Store conn.old) (state S.Store conn.new) (Err cause)) }
{
    let asked = verify(conn, RecyclingMethod::Verified);
    // The look shows that with no transaction open it shows what was committed.
    let _is_settled = conn.is_autocommit();
    asked
}
