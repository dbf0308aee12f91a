//! The state of an unmanaged pool with a journal, by each of the ways to name its objects.
use deadpool_parts::tables::Numbered;
use deadpool_unmanaged::{Reply, Step};
use deadpool_unmanaged_journal::{
    ByNumber, Journaled, Nameless, Naming, OwnerReply, OwnerStep, Tally,
};
use std::io;
use std::io::Print;

/// An object with a number of its own.
#[derive(Drop)]
pub struct Tool {
    number: usize,
}

impl Numbered for Tool {
    ghost number_of = { λ tool. tool.number };

    fn number(&self) -> usize {
        self.number
    }
}

// An object is added.
fn add<T: Drop, K: Naming<T>>(pool: &mut Journaled<T, K>, value: T) -> Reply {
    pool.make(&Step::AddEnter { wait: true }, &mut Some(value))
}

// The owner asks how the pool stands.
fn stands<T: Drop, K: Naming<T>>(pool: &mut Journaled<T, K>) -> OwnerReply {
    pool.laws();
    pool.make_for_owner(&OwnerStep::Status)
}

// Whether a get and an add would wait, and the greatest numbers that their tickets may have.
fn next<T: Drop, K: Naming<T>>(pool: &Journaled<T, K>) -> (bool, bool, usize, usize) {
    (
        pool.get_would_queue(),
        pool.add_would_queue(),
        pool.most_next_get(),
        pool.most_next_add(),
    )
}

// Whether there is room for all that may wait, whether it was made, and how many are that.
fn room<T: Drop, K: Naming<T>>(pool: &mut Journaled<T, K>) -> (bool, bool, usize, usize) {
    (
        pool.has_room_for_waiting(),
        pool.make_room_for_waiting().is_ok(),
        pool.gets_room(),
        pool.adds_room(),
    )
}

// Whether somebody is to be woken.
fn wakes<T: Drop, K: Naming<T>>(pool: &mut Journaled<T, K>) -> (bool, bool, bool) {
    (
        pool.is_wake_due(),
        pool.take_get_wake().is_some(),
        pool.take_add_wake().is_some(),
    )
}

// Whether the pool is closed, is drained and has a handle, and whether the journal has an entry and is full.
fn asked<T: Drop, K: Naming<T>>(pool: &Journaled<T, K>) -> [bool; 5] {
    [
        pool.is_closed(),
        pool.is_drained(),
        pool.has_handle(),
        pool.entry(0).is_some(),
        pool.is_full(),
    ]
}

// All that is asked of a pool with one object.
fn all<T: Drop, K: Naming<T>, R: Print>(
    rt: &R,
    pool: &mut Journaled<T, K>,
    value: T,
) -> io::Result<Tally> {
    println!(rt; "{:?} {:?}", add(pool, value), stands(pool))?;
    println!(rt; "{:?} {:?} {:?}", next(pool), wakes(pool), asked(pool))?;
    println!(rt; "{:?}", room(pool))?;
    Ok(pool.tally())
}

fn by_number<R: Print + AllocGlobal>(rt: &R) -> io::Result<()> {
    let mut pool = Journaled::<Tool, ByNumber>::new(rt.alloc(), 1, 4)?.bounded(Some(1));
    let stored = all(rt, &mut pool, Tool { number: 7 })?.stored;
    println!(rt; "stored {stored}\n{}", pool.journal()?)
}

fn nameless<R: Print + AllocGlobal>(rt: &R) -> io::Result<()> {
    let mut pool = Journaled::<u64, Nameless>::new(rt.alloc(), 1, 4)?;
    let stored = all(rt, &mut pool, 7)?.stored;
    println!(rt; "stored {stored}\n{}", pool.journal()?)
}

/// Prints what the calls gave.
pub fn calls<R: Print + AllocGlobal>(rt: &R) -> io::Result<()> {
    by_number(rt)?;
    nameless(rt)
}
