//! Users that say what the pool was built of that they are lent.
ghost use Rattle.std.specs.Prelude.{◌≡◌, ◌*◌, IfOk, IfSome};
ghost use Rattle.std.specs.List.{AllZip};

use deadpool_builder::PoolBuilder;
use deadpool_managed::{BuildError, Metrics, NoHook, RecycleResult};
use deadpool_parts::NoTime;
use deadpool_shared::Ledgers;
use deadpool_threads::{Host, Plain, PlainManager, PlainPool, PoolUser, with_threads};
use std::io;
use std::io::Print;

/// Makes tickets, which all cost the same.
#[derive(Drop)]
struct Tickets {
    price: u64,
}

impl PlainManager for Tickets {
    type Type = ();

    type Error = ();

    fn create(&self) -> Result<(), ()> {
        Ok(())
    }

    fn recycle(&self, _ticket: &mut (), _metrics: &Metrics) -> RecycleResult<()> {
        Ok(())
    }
}

type Booth<R, L> = PlainPool<Plain<Tickets>, R, L>;

/// Says what so many tickets cost.
#[derive(Drop)]
struct Buyer {
    tickets: u64,
}

impl<R: Host> PoolUser<Plain<Tickets>, NoHook, NoHook, NoTime, R> for Buyer {
    type Output = Option<u64>;

    ghost returns_from = { λ buyer builder told. IfSome told (λ cost.
        cost ≡ buyer.tickets * builder.manager.0.price) };

    fn run<L: Ledgers>(self, _rt: &R, pool: &Booth<R, L>) -> Option<u64> {
        self.tickets.checked_mul(pool.manager().0.price)
    }
}

/// Says how many tickets there may be.
#[derive(Drop)]
struct Guard;

impl<R: Host> PoolUser<Plain<Tickets>, NoHook, NoHook, NoTime, R> for Guard {
    type Output = Option<usize>;

    ghost returns_from = { λ _ builder told. IfSome told (λ limit. limit ≡ builder.max_size) };

    fn run<L: Ledgers>(self, _rt: &R, pool: &Booth<R, L>) -> Option<usize> {
        let mut caller = pool.caller();
        let journal = pool.journal_by(&mut caller).ok()?;
        Some(journal.limit)
    }
}

// What the tickets of each buyer cost at this price, and how many there may be.
fn told<R: Host>(
    rt: R,
    price: u64,
    limit: usize,
    buyers: Vec<Buyer>,
) -> Result<(Vec<Option<u64>>, Option<usize>), BuildError>
    ensures buyers { IfOk result (λ told. AllZip (λ buyer known. IfSome known (λ cost.
        cost ≡ buyer.tickets * price)) buyers.items told.0.items) }
    ensures guard { IfOk result (λ told. IfSome told.1 (λ known. known ≡ limit)) }
{
    let builder = PoolBuilder::new(rt.alloc(), Plain(Tickets { price }), NoTime).max_size(limit);
    with_threads(builder, rt, buyers, Guard)
}

/// Prints what they say.
pub fn calls<R: Host + Print>(rt: R) -> io::Result<()> {
    let buyers = vec![in rt.alloc(); Buyer { tickets: 3 }, Buyer { tickets: 4 }]?;
    let (costs, limit) = told(rt, 5, 6, buyers)?;
    println!(rt; "built: {costs:?} {limit:?}")
}
