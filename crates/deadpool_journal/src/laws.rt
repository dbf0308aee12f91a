//! What holds of the tally of any pool whose steps are counted. The functions here do nothing: each states a law.
ghost use Rattle.std.specs.Prelude.{Result};
ghost use Rattle.std.specs.declared.alloc.AllocError.{AllocError};
ghost use Rattle.deadpool_desk.specs.Closing.{EachStep, EachOwnerStep};
ghost use Rattle.deadpool_desk.specs.DeskState.{DeskState};
ghost use Rattle.deadpool_desk.specs.Retained.{Retained};
ghost use Rattle.deadpool_desk.specs.Retains.{Retains};
ghost use Rattle.deadpool_desk.specs.declared.slot.Slot.{Slot};
ghost use Rattle.deadpool_journal.specs.Tally.{counted_for_owner, counted_made, counted_retain, gone, StaysBalanced};

use deadpool_desk::Retainer;

/// Each step that is counted, of a get, an object or the owner, leaves the books balanced.
pub fn books_stay_balanced<T>()
    ensures step { EachStep {O = Slot T}
        (λ step reply. StaysBalanced (λ _ _. counted_made step reply)) }
    ensures owner_step { EachOwnerStep {O = Slot T}
        (λ step reply. StaysBalanced (λ d d'. counted_for_owner (gone d d') step)) }
{}

/// So does each retain, whatever it is told.
pub fn retain_keeps_books_balanced<T, R: Retainer<T>>()
    ensures { (d d' : DeskState (Slot T)) (r r' : R) (result : Result (Retained R.Left) AllocError)
        → Retains R.Retainer d r result d' r'
        → StaysBalanced (λ was now. counted_retain (gone was now) result) d d' }
{}
