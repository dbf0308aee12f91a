//! What is done to a connection before it is handed out again.
ghost use Rattle.std.specs.Prelude.{◌≡◌, ◌≤◌, false, [], codes, Ok, IfErr, OnOk, IsTrue};
ghost use Rattle.sqlite.specs.View.{doubt};
ghost use Rattle.sqlite.specs.Held.{state};
ghost use Rattle.sqlite.specs.State.{HasCleanDisk, KeepsCommit, Executes, QueriesRow};
ghost use Rattle.deadpool_sqlite.specs.Settled.{IsSettled};
ghost use Rattle.deadpool_sqlite.specs.Recycling.{Accepts, Refuses};

use sqlite::{Alter, Connection, Error};

/// What is asked of a connection that came back, once nothing is open on it.
#[derive(Clone, Copy, Debug, PartialEq, Eq)]
pub enum RecyclingMethod {
    /// Nothing of the database.
    Fast,
    /// A query that reads no table, and has to succeed.
    Verified,
}

// Why a connection is not handed out again.
#[derive(Clone, Copy, Debug, PartialEq, Eq)]
pub(crate) enum Refusal {
    NotRolledBack,
    QueryFailed,
    StaysOpen,
}

// Rolls back what is open.
pub(crate) fn roll_back<S: Alter>(conn: &mut Connection<S>) -> Result<(), Error>
    ensures same { (state S.Store conn.old).in_transaction ≡ false
        → (result ≡ Ok tt) × (conn.new ≡ conn.old) }
    ensures clean { doubt (state S.Store conn.old).is_clean
        ≤ doubt (state S.Store conn.new).is_clean }
    ensures kept { HasCleanDisk (state S.Store conn.new)
        → KeepsCommit (state S.Store conn.old) (state S.Store conn.new) }
    ensures ended { HasCleanDisk (state S.Store conn.new)
        → OnOk result ((state S.Store conn.new).in_transaction ≡ false) }
    ensures failed { IfErr result
        (λ cause. HasCleanDisk (state S.Store conn.new) → Executes (codes "ROLLBACK") []
        (state S.Store conn.old) (state S.Store conn.new) (Err cause)) }
{
    if conn.is_autocommit() {
        return Ok(());
    }
    conn.execute("ROLLBACK", &[])?;
    Ok(())
}

// Asks the database what the method asks.
pub(crate) fn verify<S: Alter>(
    conn: &mut Connection<S>,
    method: RecyclingMethod,
) -> Result<(), Error>
    ensures fast { method ≡ RecyclingMethod.Fast → (result ≡ Ok tt) × (conn.new ≡ conn.old) }
    ensures clean { doubt (state S.Store conn.old).is_clean
        ≤ doubt (state S.Store conn.new).is_clean }
    ensures mode { (state S.Store conn.old).in_transaction ≡ false
        → (state S.Store conn.new).in_transaction ≡ false }
    ensures kept { HasCleanDisk (state S.Store conn.new)
        → KeepsCommit (state S.Store conn.old) (state S.Store conn.new) }
    ensures open { method ≡ RecyclingMethod.Verified → HasCleanDisk (state S.Store conn.new)
        → OnOk result (IsTrue (state S.Store conn.new).is_open) }
    ensures failed { IfErr result
        (λ cause. HasCleanDisk (state S.Store conn.new) → QueriesRow (codes "SELECT 1") []
        (state S.Store conn.old) (state S.Store conn.new) (Err cause)) }
{
    if method == RecyclingMethod::Verified {
        conn.query_row("SELECT 1", &[])?;
    }
    Ok(())
}

// Rolls back what is open, asks what the method asks, and looks whether nothing is open after that.
pub(crate) fn reuse<S: Alter>(
    conn: &mut Connection<S>,
    method: RecyclingMethod,
) -> Result<(), Refusal>
    ensures settled { OnOk result (IsSettled (state S.Store conn.new)) }
    ensures kept { HasCleanDisk (state S.Store conn.new)
        → KeepsCommit (state S.Store conn.old) (state S.Store conn.new) }
    ensures accepted { OnOk result (Accepts S.Store method conn.old conn.new) }
    ensures refused { IfErr result (λ refusal. Refuses S.Store method refusal conn.old conn.new) }
{
    if roll_back(conn).is_err() {
        return Err(Refusal::NotRolledBack);
    }
    if verify(conn, method).is_err() {
        return Err(Refusal::QueryFailed);
    }
    if conn.is_autocommit() {
        Ok(())
    } else {
        Err(Refusal::StaysOpen)
    }
}
