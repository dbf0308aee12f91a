//! Two threads that share a pool, and the one history that has what each of them did.
#![tactic(auto)]

ghost use Rattle.std.specs.Prelude.{◌≡◌, [], ◌∷◌, IfSome};
ghost use mathlib.Core.List.{IsPrefix};
ghost use Rattle.deadpool_chronicle.specs.History.{calls_by};
ghost use Rattle.deadpool_desk.specs.declared.owner_step.OwnerReply.TheVariants as reply;
ghost use Rattle.deadpool_desk.specs.declared.owner_step.OwnerStep.TheVariants as step;
ghost use Rattle.deadpool_history.specs.History.{IsLegal};
ghost use Rattle.deadpool_history.specs.declared.line.Line.TheVariants as line;
ghost use Rattle.deadpool_journal.specs.declared.entry.Entry.TheVariants as entry;
ghost use Rattle.example_history.specs.Visits.{HasReturned};

use deadpool_builder::PoolBuilder;
use deadpool_managed::{Metrics, NoHook, ObjectId, RecycleResult, Status};
use deadpool_parts::NoTime;
use deadpool_shared::{Blanks, Build, Caller, History, Ledgers, Line, Object, Pool};
use deadpool_threads::{Host, Plain, PlainManager, PlainPool};
use futures::executor::block_on;
use std::io;
use std::marker::Brand;
use std::thread::join;

/// Makes numbers that begin at 0, and hands out each again as it came back.
#[derive(Drop)]
pub struct Zeros;

impl PlainManager for Zeros {
    type Type = u64;

    type Error = ();

    fn create(&self) -> Result<u64, ()> {
        Ok(0)
    }

    fn recycle(&self, _number: &mut u64, _metrics: &Metrics) -> RecycleResult<()> {
        Ok(())
    }
}

/// A pool of such numbers.
pub type Numbers<R, L> = PlainPool<Plain<Zeros>, R, L>;

/// What a visit leaves: the caller that asked how the pool stands, the answer, and, if there was an object, its number
/// and the caller of the get and of the return.
pub type Visit<L> = (
    Caller<Line, History<L>>,
    Status,
    Option<(ObjectId, Caller<Line, History<L>>)>,
);

/// A thread gets an object, asks how the pool stands, and gives the object back.
#[tactic(auto, using(crate::proofs::Returns::has_returned, crate::proofs::Returns::has_asked))]
pub fn visit<R: Host, L: Ledgers>(
    rt: &R,
    pool: &Numbers<R, L>,
    mut me: Caller<Line, History<L>>,
) -> Visit<L>
    requires { me.mine ≡ [] }
    ensures asked { result.0.mine
        ≡ line.Next (entry.Owner step.Status (reply.Stands result.1)) ∷ [] }
    ensures returned { IfSome result.2 (λ kept. HasReturned kept.0 kept.1) }
{
    let got = block_on(rt, pool.get());
    let status = pool.status_by(&mut me);
    let Ok(Ok(object)) = got else {
        return (me, status, None);
    };
    let number = Object::id(&object);
    (me, status, Some((number, Object::give_back(object))))
}

/// Two threads do so at once. There is one history: it is legal, begins with how the pool opened, and has of each
/// thread that it asked once, with the answer that it got.
pub fn both<R: Host, L: Ledgers + Send + Sync>(rt: &R, pool: &Numbers<R, L>) -> (Visit<L>, Visit<L>)
    ensures legal { IsLegal result.0.0.seen }
    ensures opened { IsPrefix pool.now.opening.log result.0.0.seen }
    ensures one { calls_by result.0.0.number result.0.0.seen
        ≡ line.Next (entry.Owner step.Status (reply.Stands result.0.1)) ∷ [] }
    ensures two { calls_by result.1.0.number result.0.0.seen
        ≡ line.Next (entry.Owner step.Status (reply.Stands result.1.1)) ∷ [] }
    ensures first_returned { IfSome result.0.2 (λ kept. HasReturned kept.0 kept.1) }
    ensures second_returned { IfSome result.1.2 (λ kept. HasReturned kept.0 kept.1) }
{
    let (first, second) = (pool.caller(), pool.caller());
    let (mut one, mut two) = join(
        rt,
        || -> Visit<L>
            requires { first.mine ≡ [] }
            ensures asked { result.0.mine
                ≡ line.Next (entry.Owner step.Status (reply.Stands result.1)) ∷ [] }
            ensures returned { IfSome result.2 (λ kept. HasReturned kept.0 kept.1) }
        { visit(rt, pool, first) },
        || -> Visit<L>
            requires { second.mine ≡ [] }
            ensures asked { result.0.mine
                ≡ line.Next (entry.Owner step.Status (reply.Stands result.1)) ∷ [] }
            ensures returned { IfSome result.2 (λ kept. HasReturned kept.0 kept.1) }
        { visit(rt, pool, second) },
    );
    pool.audit(&mut one.0, &mut two.0);
    (one, two)
}

// What the two were told of the limit, and whether each had an object.
fn limits<R: Host, L: Ledgers + Send + Sync>(
    rt: R,
    builder: PoolBuilder<Plain<Zeros>, NoHook, NoHook, NoTime>,
    blanks: Blanks,
) -> io::Result<(usize, usize, bool)>
    requires opens { blanks ≡ L.names }
{
    let built: Result<Numbers<R, L>, _> = builder.build(blanks, rt);
    let Ok(pool) = built else {
        return Err(io::Error::other("no pool"));
    };
    let (one, two) = both(&rt, &pool);
    Ok((
        one.1.max_size,
        two.1.max_size,
        one.2.is_some() && two.2.is_some(),
    ))
}

fn main(rt: HostRuntime) -> io::Result<()> {
    let builder = PoolBuilder::new(rt.alloc(), Plain(Zeros), NoTime).max_size(2);
    let (one, two, served) = limits::<HostRuntime, Brand>(rt, builder, Blanks::new())?;
    println!(rt; "limits {one} and {two}, both served: {served}")
}
