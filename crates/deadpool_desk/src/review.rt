//! How a retain goes through the idle objects.
ghost use Rattle.std.specs.Prelude.{◌≡◌, ◌≢◌, [], length, MatchResult, IfOk, OnErr};
ghost use Rattle.deadpool_desk.specs.Retains.{Goes, ReviewsFrom, Stays};

use crate::{Removal, Retainer, Slot};
use circular_buffer::HeapCircularBuffer;
use deadpool_parts::tables::append;
use std::alloc::AllocError;

// Asks about one object of so many that are idle, and gives back the object if it stays, else what `detach` left of its
// value.
fn ask_about<T, R: Retainer<T>>(
    slot: Slot<T>,
    least: usize,
    idle: usize,
    retainer: &mut R,
) -> Result<Slot<T>, R::Left>
    requires { R.can_call retainer.old }
    ensures answer { MatchResult result
        (λ kept. (kept ≡ slot) × Stays R.Retainer least idle slot retainer.old retainer.new)
        (λ left. Goes R.Retainer least idle slot retainer.old left retainer.new) }
    ensures can_call { R.can_call retainer.new }
{
    let is_kept = retainer.keeps(slot.number, &slot.value);
    if is_kept || idle <= least {
        return Ok(slot);
    }
    let Slot { number: _, value } = slot;
    Err(retainer.detach(value))
}

// Asks about each object in the ring, front to back, and gives what is left of the values of those that go, and notes
// of them. None goes while no more than the least number are in the ring. The others go round to the back, one by one,
// so that they stand in their order at the end.
pub(crate) fn review<T: Drop, R: Retainer<T>>(
    ring: &mut HeapCircularBuffer<Slot<T>>,
    least: usize,
    retainer: &mut R,
) -> Result<(Vec<R::Left>, Vec<Removal>), AllocError>
    requires { R.can_call retainer.old }
    ensures reviewed { IfOk result (λ given. ReviewsFrom R.Retainer least (length ring.old.items)
        0 ring.old.items retainer.old ring.new.items given.0.items given.1.items retainer.new) }
    ensures unchanged { OnErr result ((ring.old.items ≢ [])
        × (ring.new.items ≡ ring.old.items) × (retainer.new ≡ retainer.old)) }
    ensures room { ring.new.capacity ≡ ring.old.capacity }
    ensures can_call { R.can_call retainer.new }
{
    let count = ring.len();
    let mut removed = Vec::with_capacity(*ring.allocator(), count)?;
    let mut noted = Vec::with_capacity(*ring.allocator(), count)?;
    for asked in 0..count {
        let idle = ring.len();
        let Some(slot) = ring.pop_front() else {
            break;
        };
        let number = slot.number;
        match ask_about(slot, least, idle, retainer) {
            Ok(kept) => {
                ring.push_back(kept);
            }
            Err(left) => {
                append(&mut removed, left);
                append(
                    &mut noted,
                    Removal {
                        position: asked,
                        number,
                    },
                );
            }
        }
    }
    Ok((removed, noted))
}
