//! Four threads share two numbers.
#![tactic(auto)]

ghost use Rattle.std.specs.Prelude.{◌≡◌, IfOk};

use deadpool::NoTime;
use deadpool::managed::{Ledgers, Metrics, NoHook, PoolBuilder, PoolError, RecycleResult};
use deadpool::threads::{Blocking, Host, Plain, PlainManager, PlainPool, PoolUser, with_threads};
use std::alloc::AllocError;
use std::io;

/// Makes numbers that begin at 0, and hands out each again as it came back.
#[derive(Drop)]
struct Zeros;

impl PlainManager for Zeros {
    type Type = u64;

    type Error = ();

    fn create(&self) -> Result<u64, ()> {
        Ok(0)
    }

    fn recycle(&self, _number: &mut u64, _metrics: &Metrics) -> RecycleResult<()> {
        Ok(())
    }
}

type Numbers<R, L> = PlainPool<Plain<Zeros>, R, L>;

/// Gets a number a hundred times and adds one to it, and says how many ones it added.
#[derive(Drop)]
struct AddOnes;

impl<R: Host> PoolUser<Plain<Zeros>, NoHook, NoHook, NoTime, R> for AddOnes {
    type Output = Result<u64, PoolError<()>>;

    // Proved of each that ends well.
    ghost returns = { λ _ ended. IfOk ended (λ ones. ones ≡ 100) };

    fn run<L: Ledgers>(self, rt: &R, pool: &Numbers<R, L>) -> Result<u64, PoolError<()>> {
        let Ok(mut waiter) = Blocking::new(rt) else {
            return Err(PoolError::OutOfMemory);
        };
        let mut ones = 0;
        for one in 0..100 {
            // It waits while both numbers are out, and gives its own back at the end of the turn.
            let mut number = waiter.get(rt, pool)?;
            *number = number.saturating_add(1);
            ones = one + 1;
        }
        Ok(ones)
    }
}

/// Takes the numbers out of the pool, and adds them up.
#[derive(Drop)]
struct Total;

impl<R: Host> PoolUser<Plain<Zeros>, NoHook, NoHook, NoTime, R> for Total {
    type Output = Result<u64, AllocError>;

    fn run<L: Ledgers>(self, _rt: &R, pool: &Numbers<R, L>) -> Result<u64, AllocError> {
        let mut total = 0u64;
        for number in pool.retain(|_number, _metrics| false)?.removed {
            total = total.saturating_add(number);
        }
        Ok(total)
    }
}

fn main(rt: HostRuntime) -> io::Result<()> {
    let builder = PoolBuilder::new(rt.alloc(), Plain(Zeros), NoTime).max_size(2);
    let workers = vec![in rt.alloc(); AddOnes, AddOnes, AddOnes, AddOnes]?;
    let (ended, total) = with_threads(builder, rt, workers, Total)?;
    let well = ended.iter().filter(|end| end.is_ok()).count();
    println!(rt; "{well} threads, total {}", total?)
}
