//! What holds of each step of a pool, whatever its state. The functions here do nothing: each states a law.
ghost use Rattle.deadpool_desk.specs.Closing.{EachStep, EachOwnerStep, EachRetain, ShrinksIfClosed, StaysDrained};
ghost use Rattle.deadpool_desk.specs.Closing.{Drains, LetsGo, LetsIdleGo, ShowsWhatIsLeft};
ghost use Rattle.deadpool_desk.specs.DeskState.{DeskState};
ghost use Rattle.deadpool_desk.specs.Rooms.{NobodyIsRefused, OwnerStepsKeepRoom, RetainsKeepRoom, StepsKeepRoom};
ghost use Rattle.deadpool_desk.specs.declared.slot.Slot.{Slot};

use crate::Retainer;

/// A closed pool stays closed. Its reach never grows, nor do its objects with the gets that hold a place or have a
/// creation under way.
pub fn closed_pool_only_shrinks<T>()
    ensures step { EachStep {O = Slot T} (λ _ _. ShrinksIfClosed) }
    ensures owner_step { EachOwnerStep {O = Slot T} (λ _ _. ShrinksIfClosed) }
{}

/// The same of a retain, whatever it is told.
pub fn retain_of_closed_pool_only_shrinks<T, R: Retainer<T>>()
    ensures { EachRetain R.Retainer ShrinksIfClosed }
{}

/// A pool that is drained stays so: no step, no step of the owner and no retain brings anything into it again.
pub fn drained_pool_stays_empty<T, R: Retainer<T>>()
    ensures step { EachStep {O = Slot T} (λ _ _. StaysDrained) }
    ensures owner_step { EachOwnerStep {O = Slot T} (λ _ _. StaysDrained) }
    ensures retain { EachRetain R.Retainer StaysDrained }
{}

/// The step that drains a pool is one that lets go: of an object that comes back, is refused, is taken or is given
/// back, of a creation or of a place. Of the owner's steps it is a close or the drop of a handle.
pub fn pool_drains_by_letting_go<T>()
    ensures step { EachStep {O = Slot T} (λ step reply d d'. Drains d d' → LetsGo step reply) }
    ensures owner_step { EachOwnerStep {O = Slot T} (λ step _ d d'. Drains d d' → LetsIdleGo step) }
{}

/// The status of a closed pool shows whether something is left in it: once it is drained no object is counted, and
/// until then one is, or a get that asks.
pub fn status_shows_what_is_left<T>()
    ensures { (d : DeskState (Slot T)) → ShowsWhatIsLeft d }
{}

/// A queue that has room for all gets that may wait keeps it with each step, with each retain, and with each step of
/// the owner but a resize above the greatest limit so far. As long as it has it no get is refused for want of memory.
pub fn room_for_waiting_stays<T, R: Retainer<T>>()
    ensures step { StepsKeepRoom T }
    ensures owner_step { OwnerStepsKeepRoom T }
    ensures retain { RetainsKeepRoom R.Retainer }
    ensures nobody { NobodyIsRefused T }
{}
