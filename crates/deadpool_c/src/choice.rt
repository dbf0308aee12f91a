//! Which idle objects a retain keeps, as the caller chose beforehand by their order.
ghost use Rattle.std.specs.Prelude.{◌≡◌, drop};
ghost use Rattle.deadpool_c.specs.Choices.{is_kept};

use deadpool_desk::Retainer;

/// A byte for each object that is still to be asked about: one that is 0 lets its object go. Those beyond stay.
#[derive(Drop)]
pub struct Choice<'a> {
    /// The bytes, from the front of the idle objects on.
    pub keep: &'a [u8],
}

impl Retainer<u64> for Choice<'_> {
    type Left = u64;

    ghost may_keep = { λ choice _ _ kept after. (kept ≡ is_kept choice.keep.now)
        × (after.keep.now ≡ drop 1 choice.keep.now) };

    ghost may_detach = { λ choice value left after. (left ≡ value) × (after ≡ choice) };

    fn keeps(&mut self, _number: usize, _value: &u64) -> bool {
        match self.keep.split_first() {
            Some((first, rest)) => {
                self.keep = rest;
                *first != 0
            }
            None => true,
        }
    }

    fn detach(&mut self, value: u64) -> u64 {
        value
    }
}
