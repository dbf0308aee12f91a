//! An add over the state of an unmanaged pool.
use deadpool_unmanaged::{AddState, Core, PoolError};
use futures::task::Poll;
use std::io;
use std::io::Print;

// An add that is stored at once.
fn stored(core: &mut Core<u64>) -> Poll<Result<(), (u64, PoolError)>> {
    AddState::new(7).poll(core)
}

// An add that waits, and is given up: the greatest number that its ticket may have, the one that it has, and its
// object.
fn waits(core: &mut Core<u64>) -> (usize, Option<usize>, Option<u64>) {
    let mut add = AddState::new(8);
    let most = core.most_next_add();
    let would = add.would_queue(core);
    let does = add.poll(core).is_pending();
    let ticket = add.ticket().filter(|_ticket| would && does);
    let number = ticket.map(|ticket| ticket.number());
    (most, number, add.take().cancel(core))
}

// An add that is not polled, and whose object is taken from it.
fn withdrawn() -> u64 {
    AddState::new(9).withdraw()
}

// Whether there is room for all that may wait, before and after it is made, and how many are that.
fn roomy(core: &mut Core<u64>) -> io::Result<(bool, bool, usize, usize)> {
    let before = core.has_room_for_waiting();
    core.make_room_for_waiting()?;
    let after = core.has_room_for_waiting();
    Ok((before, after, core.gets_room(), core.adds_room()))
}

/// Prints what the calls gave.
pub fn calls<R: Print + AllocGlobal>(rt: &R) -> io::Result<()> {
    let mut core = Core::new(rt.alloc(), 1)?;
    println!(rt; "add: {:?}", stored(&mut core))?;
    println!(rt; "it waits: {:?}", waits(&mut core))?;
    println!(rt; "withdrawn: {}", withdrawn())?;
    let mut core = Core::<u64>::new(rt.alloc(), 1)?.bounded(Some(2));
    println!(rt; "room: {:?}", roomy(&mut core)?)
}
