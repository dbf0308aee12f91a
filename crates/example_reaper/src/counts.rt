//! What the pool has counted, how it stands, and how it answers, once all threads have ended.
use crate::board::Board;
use crate::connections::{ConnectionPool, Connector, Limited};
use deadpool::managed::{Ledgers, Named, NoHook, PoolError, Report, Status, Tally};
use deadpool::threads::{Blocking, BlockingUser, Host, Plain};
use deadpool::timer::TimerClock;
use std::alloc::AllocError;
use std::io;
use std::time::Clock;

/// The name of the pool in what it reports.
const NAME: &str = "connections";

/// What the pool tells once all threads have ended.
#[derive(Drop)]
pub struct Told {
    tally: Tally,
    status: Status,
    /// Why it refuses a request that comes now, if it does.
    refusal: Option<PoolError<AllocError>>,
}

/// Asks the pool for that.
#[derive(Drop)]
pub struct Counts;

impl<R: Host + Clock> BlockingUser<Plain<Connector>, Limited<R>, NoHook, TimerClock<R>, R>
    for Counts {
    type Output = Told;

    fn run<L: Ledgers>(self, rt: &R, blocking: &mut Blocking, pool: &ConnectionPool<R, L>) -> Told {
        let (tally, status) = pool.tally();
        let refusal = blocking.try_get(rt, pool).err();
        Told {
            tally,
            status,
            refusal,
        }
    }
}

impl Told {
    /// Prints the counts that are the same on every schedule, and as an error output the whole report, for a monitor.
    pub fn print<R: Print + Eprint>(self, rt: &R, board: &Board) -> io::Result<()> {
        let Told {
            tally,
            status,
            refusal,
        } = self;
        println!(rt;
            "{} requests: {} served, {} turned away",
            tally.gets, tally.served, tally.crowded
        )?;
        println!(rt;
            "{} were late, and {} sent away at the closing",
            tally.late, tally.closed
        )?;
        let open = board.opened.get().saturating_sub(board.closed.get());
        println!(rt;
            "after it: {} connections in the pool, {open} open",
            status.size
        )?;
        if let Some(error) = refusal {
            println!(rt; "{}", Named { name: NAME, error })?;
        }
        let report = Report {
            name: NAME,
            tally,
            status,
        };
        eprint!(rt; "{report}")
    }
}
