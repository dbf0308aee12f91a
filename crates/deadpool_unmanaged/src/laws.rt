//! What holds of each step of a get, an add or an object, whatever the pool's state. The functions here do nothing:
//! each states a law.
ghost use Rattle.deadpool_unmanaged.specs.Closing.{Drains, EachStep, LetsGo, ShowsWhatIsLeft, ShrinksIfClosed};
ghost use Rattle.deadpool_unmanaged.specs.Closing.{StaysDrained};
ghost use Rattle.deadpool_unmanaged.specs.Kept.{IsKept};
ghost use Rattle.deadpool_unmanaged.specs.Room.{RoomLasts};
ghost use Rattle.deadpool_unmanaged.specs.State.{CoreState, State};
ghost use Rattle.deadpool_unmanaged.specs.StateSteps.{Steps};
ghost use Rattle.deadpool_unmanaged.specs.declared.step.Reply.{Reply};
ghost use Rattle.deadpool_unmanaged.specs.declared.step.Step.{Step};
ghost use Rattle.std.specs.Prelude.{Option};

/// A closed pool stays closed, and its objects, idle or out, are never more.
pub fn closed_pool_only_shrinks<T>()
    ensures { EachStep {T = T} (λ _ _. ShrinksIfClosed) }
{}

/// A pool that is drained stays so: no step brings an object into it again.
pub fn drained_pool_stays_empty<T>()
    ensures { EachStep {T = T} (λ _ _. StaysDrained) }
{}

/// The step that drains a pool is one by which an object leaves: it comes back and is dropped, or is taken.
pub fn pool_drains_by_letting_go<T>()
    ensures { EachStep {T = T} (λ step reply d d'. Drains d d' → LetsGo step reply) }
{}

/// The status of a closed pool shows whether an object is left in it: none is counted exactly if it is drained.
pub fn status_shows_what_is_left<T>()
    ensures { (d : State T) → ShowsWhatIsLeft d }
{}

/// A pool with room for all that may wait keeps it: each step leaves the room of both queues as it was, and no get and
/// no add is refused for want of memory for its entry.
pub fn room_for_waiting_stays<T>()
    ensures { (c c' : CoreState T) (step : Step) (object : Option T) (reply : Reply) → IsKept c.pool
        → Steps c step object reply c' → RoomLasts c reply c' }
{}
