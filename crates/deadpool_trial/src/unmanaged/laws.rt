//! What is true of every state of every run from a pool that is well, of each two neighbours in it, of each state and
//! each later one, and of each move, memory found or not. A function here does nothing: its contract is the law.
ghost use Rattle.deadpool_trial.specs.Unmanaged.RunLaws.{OpensWell, EachState, EachStep, EachLater, EachMove};
ghost use Rattle.deadpool_trial.specs.Unmanaged.RunLaws.{EndsWell, IsNumbered, CountsOn, NoneReturns, KeepsPromises};
ghost use Rattle.deadpool_trial.specs.Unmanaged.RunLaws.{HasRoomForAll, IsEmptyIfClosed, HasTheQueued, IsListedOnce};
ghost use Rattle.deadpool_trial.specs.Unmanaged.RunLaws.{KeepsQueues, OthersStayInPool, OthersStayQueued, OthersStand};

/// A new pool is well.
pub fn opened_is_well<T>()
    ensures { OpensWell T }
{}

/// A run from a pool that is well ends with one.
pub fn run_ends_well<T>()
    ensures { EndsWell T }
{}

/// No number stands twice among the objects that are idle, out or still to be added, and only numbers that were drawn
/// stand there.
pub fn numbers_stand_once<T>()
    ensures { EachState (IsNumbered {V = T}) }
{}

/// Each move draws one number at most, which is the next. The number of an object that has left never returns.
pub fn numbers_are_drawn_in_turn<T>()
    ensures next { EachStep (CountsOn {V = T}) }
    ensures gone { EachLater (NoneReturns {V = T}) }
{}

/// The size and the adds that were granted room come to no more than the limit.
pub fn granted_room_within_limit<T>()
    ensures { EachState (HasRoomForAll {V = T}) }
{}

/// In an open pool with a handle there is an idle object for each get that was granted one.
pub fn granted_objects_are_idle<T>()
    ensures { EachState (KeepsPromises {V = T}) }
{}

/// A closed pool has nothing idle.
pub fn closed_is_empty<T>()
    ensures { EachState (IsEmptyIfClosed {V = T}) }
{}

/// In each queue are those that stand as queued there: no get and no add that waits drops out of its queue, and nobody
/// else is in it.
pub fn queues_have_the_queued<T>()
    ensures { EachState (HasTheQueued {V = T}) }
{}

/// Those that were granted an object, followed by those that wait for one, change only by removals and by one party at
/// the end. So do the adds.
pub fn queues_keep_order<T>()
    ensures { EachStep (KeepsQueues {V = T}) }
{}

/// Whoever leaves a queue by a move is the party that the move names, and every other party is as it was.
pub fn no_waiter_is_lost<T>()
    ensures queues { EachMove (OthersStayQueued {V = T}) }
    ensures parties { EachMove (OthersStand {V = T}) }
{}

/// An object that is idle, out or still to be added leaves only by a move that may take it: by a poll or a cancel of
/// the add that brings it, by its own return or take, or by a close or the drop of the last handle while it is idle.
pub fn no_object_is_lost<T>()
    ensures { EachMove (OthersStayInPool {V = T}) }
{}

/// No party stands in two lists, nor twice in one.
pub fn party_in_one_list<T>()
    ensures { EachState (IsListedOnce {V = T}) }
{}
