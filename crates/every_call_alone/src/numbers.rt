//! A gate's count, and the numbers of objects.
use deadpool_desk::{ObjectId, Removal, Removals, RetainResult, Slot};
use deadpool_gate::gate::Gate;
use std::alloc::{AllocError, Global};
use std::cmp::Ordering;
use std::io;
use std::io::Print;

// How many accesses the latest call of a gate took.
fn touched(alloc: Global) -> u128 {
    let mut gate = Gate::new(alloc);
    gate.enter(0, true);
    gate.touched()
}

// The numbers of two objects, compared.
fn compared(one: usize, two: usize) -> (Ordering, Option<Ordering>) {
    let one = Slot {
        number: one,
        value: (),
    };
    let two = Slot {
        number: two,
        value: (),
    };
    let (one, two): (ObjectId, ObjectId) = (one.id(), two.id());
    (one.cmp(&two), one.partial_cmp(&two))
}

// A list of one object that was given up, and whether its copy is the same.
fn is_as_its_copy(alloc: Global) -> Result<bool, AllocError> {
    let removal = Removal {
        position: 0,
        number: 7,
    };
    let removals = Removals::new(vec![in alloc; removal]?);
    Ok(removals == removals.copied()?)
}

/// Prints what the calls gave.
pub fn calls<R: Print + AllocGlobal>(rt: &R) -> io::Result<()> {
    let alloc = rt.alloc();
    println!(rt; "gate: {} accesses", touched(alloc))?;
    println!(rt; "objects 3 and 4: {:?}", compared(3, 4))?;
    println!(rt; "removals and a copy: {}", is_as_its_copy(alloc)?)?;
    let none = RetainResult::<u64>::empty(alloc).removed.len();
    println!(rt; "a retain of nothing: {none}")
}
