//! A pool with the one history of its callers. What each has there is what it asked, with the answers that it got.
ghost use Rattle.std.specs.Prelude.{◌≡◌, ℕ, [], ◌∷◌, Some, false};
ghost use Rattle.deadpool_chronicle.specs.History.{Knowing};
ghost use Rattle.deadpool_unmanaged.specs.declared.step.Reply.{Reply};
ghost use Rattle.deadpool_unmanaged.specs.declared.step.Step.TheVariants.{AddEnter};
ghost use Rattle.deadpool_unmanaged_history.specs.History.{CallsAndTells};
ghost use Rattle.deadpool_unmanaged_history.specs.declared.line.Line.{Line};
ghost use Rattle.deadpool_unmanaged_history.specs.declared.line.Line.TheVariants.{Next};
ghost use Rattle.deadpool_unmanaged_journal.specs.declared.entry.Entry.TheVariants.{Made, Owner};
ghost use Rattle.deadpool_unmanaged_journal.specs.declared.owner_step.OwnerReply.TheVariants as reply;
ghost use Rattle.deadpool_unmanaged_journal.specs.declared.owner_step.OwnerStep.TheVariants as step;
ghost use Rattle.deadpool_unmanaged_shared.specs.Calling.{ByNewCaller};

use crate::host::Host;
use crate::{Numbers, all};
use deadpool_chronicle::{Beginning, Blank, Caller, Chronicle};
use deadpool_parts::NoTime;
use deadpool_unmanaged::{PoolConfig, Status};
use deadpool_unmanaged_history::{Line, Recorded};
use deadpool_unmanaged_journal::Nameless;
use deadpool_unmanaged_shared::Pool;
use std::alloc::AllocError;
use std::io;
use std::io::Print;
use std::marker::Brand;

type Recording<R, H> = Numbers<R, Recorded<u64, Nameless, H>>;

type Opening<H> = Beginning<Line<u64>, H>;

// Adds a number, or is refused at once. This caller has then seen a moment at which all were told.
fn adds<R: Host, H: Chronicle>(pool: &Recording<R, H>, me: &mut Caller<Line<u64>, H>)
    ensures { (added : Reply) × CallsAndTells (λ e. e ≡ Made (AddEnter false) (Some 7) added)
        me.old me.new }
{
    drop(pool.try_add_by(me, 7));
}

// Adds a number and asks how the pool stands, which are two entries of this caller's.
fn asks<R: Host, H: Chronicle>(pool: &Recording<R, H>, me: &mut Caller<Line<u64>, H>) -> Status
    requires { me.old.mine ≡ [] }
    ensures { (added : Reply) × (me.new.mine ≡ Next (Made (AddEnter false) (Some 7) added)
        ∷ Next (Owner step.Status (reply.Stands result)) ∷ []) }
{
    adds(pool, me);
    pool.status_by(me)
}

// How many objects there are by a caller that has added one, and how many adds there were, by a caller and by none.
fn counts<R: Host, H: Chronicle>(
    pool: &Recording<R, H>,
    opening: &Opening<H>,
) -> (usize, [u64; 2]) {
    let (mut one, mut two) = (pool.caller(), pool.caller());
    let size = asks(pool, &mut one).size;
    pool.after(&mut two, &opening.again());
    pool.audit(&mut one, &mut two);
    let (by_two, by_none) = (pool.tally_by(&mut two), pool.tally());
    (size, [by_two.0.adds, by_none.0.adds])
}

// Asks how the pool stands, in the name of a new caller, whose only entry this is.
fn stands<R: Host, H: Chronicle>(pool: &Recording<R, H>) -> Status
    ensures { ByNewCaller (λ c. c.mine ≡ []) (λ (c c' : Knowing (Line ℕ)).
        c'.mine ≡ Next (Owner step.Status (reply.Stands result)) ∷ []) }
{
    pool.status()
}

// How many entries the journal has, by a caller and by none.
fn entries<R: Host, H: Chronicle>(pool: &Recording<R, H>) -> Result<[usize; 2], AllocError> {
    let mut me = pool.caller();
    let (mine, all) = (pool.journal_by(&mut me)?, pool.journal()?);
    Ok([mine.entries.len(), all.entries.len()])
}

// Opens the pool, whose ledger has the names of this blank.
fn over<R: Host + Print, H: Chronicle>(rt: R, history: Blank) -> io::Result<()>
    requires { history.names ≡ H.names }
{
    let config = PoolConfig::new(3);
    let (pool, opening): (Recording<R, H>, Opening<H>) = Pool::with_history(
        rt.alloc(),
        &config,
        4,
        history,
        NoTime,
        rt,
    )?;
    println!(rt; "size and adds: {:?}", counts(&pool, &opening))?;
    println!(rt; "entries: {:?}", entries(&pool)?)?;
    println!(rt; "size: {}", stands(&pool).size)?;
    all(&rt, &pool)
}

/// Prints what the calls gave.
pub fn calls<R: Host + Print>(rt: R) -> io::Result<()> {
    over::<R, Brand>(rt, Blank::new())
}
