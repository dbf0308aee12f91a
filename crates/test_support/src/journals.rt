//! The journal of a pool, driven again on one thread.
use crate::expected::{expect, status_of};
use deadpool_journal::{Entry, Journal};
use deadpool_managed::{
    Core, Desk, OwnerDesk, Removal, Removals, Reply, Retainer, Slot, Status, Step,
};
use std::alloc::{AllocError, Global};
use std::test::Fail;

/// A new pool that opens as the journal says.
pub fn opened(alloc: Global, journal: &Journal) -> Result<Core<()>, AllocError> {
    let core = Core::new(alloc, journal.limit, journal.mode, 0, journal.min_idle)?;
    Ok(core.bounded(journal.max_waiting))
}

/// A new pool that opens as the journal says makes each step of it. None if one of them is answered otherwise.
pub fn replayed(alloc: Global, journal: &Journal) -> Result<Option<Core<()>>, AllocError> {
    let mut core = opened(alloc, journal)?;
    for entry in &journal.entries {
        if !answers_so(&mut core, entry) {
            return Ok(None);
        }
    }
    Ok(Some(core))
}

// How the pool stands at the end of a journal that replays.
fn last_status(alloc: Global, journal: &Journal) -> Result<Option<Status>, AllocError> {
    Ok(replayed(alloc, journal)?.map(|mut core| status_of(&mut core)))
}

/// Nothing is missing in a journal, and at its end the pool stands so.
pub fn ends_so(alloc: Global, journal: &Journal, status: Status) -> Result<(), Fail> {
    let seen = (journal.full, last_status(alloc, journal)?);
    expect(
        "whether entries are missing, and the last status",
        seen,
        (false, Some(status)),
    )
}

/// Makes a step. False if it is answered otherwise than its entry says.
pub fn answers_so(core: &mut Core<()>, entry: &Entry) -> bool {
    match entry {
        Entry::Made(step, number, reply) => makes_so(core, step, *number, *reply),
        Entry::Owner(step, reply) => core.make_for_owner(step) == *reply,
        Entry::Retain(Ok(removals)) => removes_so(core, removals),
        // No test here has a retain that finds no memory.
        Entry::Retain(Err(_)) => false,
    }
}

// A step of a get or an object. Only one that comes back is in the hand before.
fn makes_so(core: &mut Core<()>, step: &Step, number: Option<usize>, reply: Reply) -> bool {
    let mut hand = match (step, number) {
        (Step::Back, Some(number)) => Some(slot_of(number)),
        (Step::Back, None) => return false,
        _ => None,
    };
    let passed = hand.as_ref().map(|slot| slot.number);
    let made = core.make(step, &mut hand);
    let passed = passed.or(hand.as_ref().map(|slot| slot.number));
    made == reply && passed == number
}

// An object without a value.
fn slot_of(number: usize) -> Slot<()> {
    Slot { number, value: () }
}

// Gives up the objects at these positions.
#[derive(Drop)]
struct Positions<'a> {
    removals: &'a [Removal],
    asked: usize,
}

impl<'a> Retainer<()> for Positions<'a> {
    type Left = ();

    fn keeps(&mut self, _number: usize, _value: &()) -> bool {
        let position = self.asked;
        self.asked = position.saturating_add(1);
        !self
            .removals
            .iter()
            .any(|removal| removal.position == position)
    }

    fn detach(&mut self, _value: ()) {}
}

fn removes_so(core: &mut Core<()>, removals: &Removals) -> bool {
    let mut positions = Positions {
        removals: removals.as_slice(),
        asked: 0,
    };
    match core.retain_noting(&mut positions) {
        Ok((_, noted)) => noted == *removals,
        Err(_) => false,
    }
}
