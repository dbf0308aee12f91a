//! Threads that count by the objects of one managed pool.

use deadpool::NoTime;
use deadpool::managed::{Journal, Ledgers, Metrics, NoHook, PoolBuilder, RecycleResult};
use deadpool_threads::{Blocking, Host, Plain, PlainManager, PlainPool, PoolUser, with_threads};
use pool_scripts::{Fault, parse_number, write_out, write_status};
use std::alloc::AllocError;
use std::env::Args;
use std::io::Write;
use std::sync::Wait;

const MOST_OBJECTS: usize = 3;

const MOST_THREADS: u64 = 64;

const MOST_TIMES: u64 = 100_000;

/// How many threads there are, and how often each gets an object, adds one to it, and gives it back.
#[derive(Clone, Copy, Debug, PartialEq, Eq)]
pub struct Crowd {
    threads: u64,
    times: u64,
}

impl Crowd {
    /// What the next two words say. None if one is missing or out of range.
    pub fn parse(arguments: &mut Args) -> Option<Self> {
        let (threads, times) = (arguments.next()?, arguments.next()?);
        let crowd = Crowd {
            threads: parse_number(threads.as_str()).ok()?,
            times: parse_number(times.as_str()).ok()?,
        };
        if crowd.is_in_range() {
            Some(crowd)
        } else {
            None
        }
    }

    fn is_in_range(self) -> bool {
        self.threads >= 1 && self.threads <= MOST_THREADS && self.times <= MOST_TIMES
    }
}

/// Creates zeros, and recycles every number as it is.
#[derive(Drop)]
struct Zeros;

impl PlainManager for Zeros {
    type Type = u64;

    type Error = ();

    fn create(&self) -> Result<u64, ()> {
        Ok(0)
    }

    fn recycle(&self, _number: &mut u64, _metrics: &Metrics) -> RecycleResult<()> {
        Ok(())
    }
}

type CounterPool<R, L> = PlainPool<Plain<Zeros>, R, L>;

/// Has the threads count, and writes how the pool stands at the end, and what its objects have come to.
pub fn count<R: Host, W: Write>(rt: &R, crowd: Crowd, writer: &mut W) -> Result<(), Fault> {
    let builder = PoolBuilder::new(rt.alloc(), Plain(Zeros), NoTime).max_size(MOST_OBJECTS);
    let workers = workers_of(rt, crowd)?;
    let Ok((endings, text)) = with_threads(builder, *rt, workers, Telling) else {
        return Err(Fault::OutOfMemory);
    };
    for ending in endings {
        ending?;
    }
    write_out(writer, text?.as_str())
}

/// Has the threads count, and writes the journal of the pool, of at most so many entries.
pub fn count_with_journal<R: Host, W: Write>(
    rt: &R,
    crowd: Crowd,
    entries: usize,
    writer: &mut W,
) -> Result<(), Fault> {
    let builder = PoolBuilder::new(rt.alloc(), Plain(Zeros), NoTime)
        .max_size(MOST_OBJECTS)
        .journal(entries);
    let workers = workers_of(rt, crowd)?;
    let Ok((endings, journal)) = with_threads(builder, *rt, workers, Copying) else {
        return Err(Fault::OutOfMemory);
    };
    for ending in endings {
        ending?;
    }
    let text = format!(in rt.alloc(); "{}\n", journal?)?;
    write_out(writer, text.as_str())
}

// One for each thread.
fn workers_of<R: AllocGlobal>(rt: &R, crowd: Crowd) -> Result<Vec<AddingOnes>, AllocError> {
    let mut workers = Vec::new(rt.alloc());
    for _thread in 0..crowd.threads {
        workers.push(AddingOnes { times: crowd.times })?;
    }
    Ok(workers)
}

// Gets an object so often, and adds one to it each time. A get is refused only if there is no memory for it.
#[derive(Drop)]
struct AddingOnes {
    times: u64,
}

impl<R: Host> PoolUser<Plain<Zeros>, NoHook, NoHook, NoTime, R> for AddingOnes {
    type Output = Result<(), Fault>;

    fn run<L: Ledgers>(self, rt: &R, pool: &CounterPool<R, L>) -> Result<(), Fault> {
        let Ok(mut waiter) = Blocking::new(rt) else {
            return Err(Fault::OutOfMemory);
        };
        for _time in 0..self.times {
            let Ok(mut number) = waiter.get(rt, pool) else {
                return Err(Fault::OutOfMemory);
            };
            *number = number.saturating_add(1);
        }
        Ok(())
    }
}

// Gives the lines that are written at the end.
#[derive(Drop)]
struct Telling;

impl<R: Host> PoolUser<Plain<Zeros>, NoHook, NoHook, NoTime, R> for Telling {
    type Output = Result<String, AllocError>;

    fn run<L: Ledgers>(self, rt: &R, pool: &CounterPool<R, L>) -> Result<String, AllocError> {
        let mut text = String::new(rt.alloc());
        write_status(&mut text, pool.status())?;
        let total = total_of(pool)?;
        write!(&mut text, "\ntotal {total}\n")?;
        Ok(text)
    }
}

// Gives a copy of the journal.
#[derive(Drop)]
struct Copying;

impl<R: Host> PoolUser<Plain<Zeros>, NoHook, NoHook, NoTime, R> for Copying {
    type Output = Result<Journal, AllocError>;

    fn run<L: Ledgers>(self, rt: &R, pool: &CounterPool<R, L>) -> Result<Journal, AllocError> {
        pool.journal()
    }
}

// The sum of the idle numbers, which leave the pool.
fn total_of<R: Wait + Drop, L: Ledgers>(pool: &CounterPool<R, L>) -> Result<u64, AllocError> {
    let mut total = 0u64;
    for number in pool.retain(|_number, _metrics| false)?.removed {
        total = total.saturating_add(number);
    }
    Ok(total)
}
