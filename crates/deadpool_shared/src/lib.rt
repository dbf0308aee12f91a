//! The managed pool for threads and tasks: one lock, gets as futures, and objects that go back when they are dropped.
//!
//! A `Seat` is the lock with what one get or object holds of the pool's counts, in shares of three ledgers that take no
//! bytes. So no step of a get or an object that lowers a count meets a pool that does not know of it.
#![tactic(auto)]

mod asking;
mod build;
mod drain;
mod ledgers;
mod locked;
mod object;
mod pool;
mod seat;
mod shared;
mod shares;
mod steps;
mod timeouts;
mod waiting;

pub use asking::Getting;
pub use build::Build;
pub use deadpool_chronicle::Caller;
pub use deadpool_history::Line;
pub use deadpool_journal::{Entry, Journal, Report, Tally};
pub use deadpool_lock::DrainError;
pub use drain::Drain;
pub use ledgers::{Blanks, History, Ledgers};
pub use object::Object;
pub use pool::{Get, GetRef, Pool, WeakPool};
pub use seat::Seat;
pub use timeouts::{HasTimeouts, LentTimeouts, OwnTimeouts};
