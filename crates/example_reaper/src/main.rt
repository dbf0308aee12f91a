//! Threads share the connections of a pool as a service does, which limits how long each serves and how many requests
//! wait. A keeper gives up those past their limits, and the last thread closes the pool and waits until all are back.
#![tactic(auto)]

mod board;
mod connections;
mod counts;
mod server;

use board::{Board, SharedBoard};
use connections::{Connector, USES};
use counts::Counts;
use deadpool::Runtime;
use deadpool::limits::{Limits, Retire};
use deadpool::managed::{Hook, PoolBuilder, PoolConfig, strict_from_text};
use deadpool::threads::{Handed, Plain, Sweeper, with_keeper};
use deadpool::timer::Timer;
use server::Server;
use std::alloc::{AllocError, Global};
use std::io;
use std::sync::Arc;
use std::time::Duration;

/// The settings of the pool, as a service has them in a file of its own.
const SETTINGS: &str = r#"{"max_size":4,"min_idle":1,"max_waiting":4}"#;

/// How many threads ask for a connection.
pub const ASKING: usize = 10;

/// How many of them are served.
pub const SERVED: usize = 8;

/// How many connections there are at most, by the settings.
pub const MOST: usize = 4;

/// How many stay idle, however long nobody used them, by the settings.
pub const LEAST_IDLE: usize = 1;

// The settings. If something is wrong with them, its place and why are told.
fn settings<R: Eprint + AllocGlobal>(rt: &R) -> io::Result<PoolConfig> {
    match strict_from_text(rt.alloc(), SETTINGS) {
        Ok(settings) => Ok(settings),
        Err(fault) => {
            eprintln!(rt; "settings: {fault}")?;
            Err(io::Error::other("these settings make no pool"))
        }
    }
}

// The threads that ask.
fn servers(alloc: Global, board: &SharedBoard) -> Result<Vec<Handed<Server>>, AllocError> {
    let mut servers = Vec::new(alloc);
    for _server in 0..ASKING {
        servers.push(Handed(Server(Arc::try_clone(board)?)))?;
    }
    Ok(servers)
}

fn main(rt: HostRuntime) -> io::Result<()> {
    let board = Board::new(rt.alloc())?;
    let connector = Connector(Arc::try_clone(&board)?);
    let timer = Timer::start(rt.alloc(), rt)?;
    let builder = PoolBuilder::new(rt.alloc(), Plain(connector), timer.clock()?)
        .config(settings(&rt)?)
        .runtime(Runtime::Clock)
        .wait_timeout(Some(Duration::from_secs(30)));
    let limits = Limits::none()
        .lifetime(Duration::from_secs(3600))
        .idle(Duration::from_millis(50))
        .uses(USES);
    let Ok(builder) = builder.pre_recycle(Hook::sync_fn(Retire::new(timer.clock()?, limits))) else {
        return Err(io::Error::other("no memory for a hook"));
    };
    let sweeper = Sweeper::new(timer.clock()?, limits, Duration::from_millis(10));
    let servers = servers(rt.alloc(), &board)?;
    let (ended, _given_up, told) = with_keeper(builder, rt, servers, sweeper, Handed(Counts))?;
    for end in ended {
        end??;
    }
    if board.failed.get() > 0 {
        return Err(io::Error::other("a connection served too often"));
    }
    told?.print(&rt, &board)
}
