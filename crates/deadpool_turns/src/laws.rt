//! What holds of each step of a pool and of each run of steps, as a journal and a history have them. The functions here
//! do nothing: each states a law.
ghost use Rattle.deadpool_turns.specs.Holders.{EachHasOneHolder, EachOpensNumberedOnce, EachRunNumbersOnce};
ghost use Rattle.deadpool_turns.specs.Leaving.{EachNumberGoesForGood, EachStepKeepsObjects};
ghost use Rattle.deadpool_turns.specs.OtherOrders.{EachNearsBy, barged_in, freed_for_last, put_behind};
ghost use Rattle.deadpool_turns.specs.Own.{EachHandsItsOwn, EachHoldsItsOwn};
ghost use Rattle.deadpool_turns.specs.Tickets.{EachTicketIsKnown, EachWaitsInTheQueue};
ghost use Rattle.deadpool_turns.specs.Turns.{EachIsGrantedInTurn, EachKeepsItsPlace, EachReachedIsOrderly};
ghost use Rattle.deadpool_turns.specs.Turns.{EachStaysQueued, EachStepKeepsOrder, EachStepNears};

/// Whatever step is made, those in the queue keep their order: some leave, and at most one joins, at the end. Then
/// nobody waits while a place is free, and no ticket stands twice.
pub fn grants_keep_the_order()
    ensures { EachStepKeepsOrder }
{}

/// Who is in the queue leaves it only by a step that names its ticket. Until then it keeps the place that it was
/// granted.
pub fn no_waiter_is_lost()
    ensures queue { EachStaysQueued }
    ensures place { EachKeepsItsPlace }
{}

/// No step puts one that waits back, and each place that is let go of brings it one nearer: while the pool is open, by
/// a step that sets no smaller limit, and by which it does not give up itself.
pub fn nobody_is_passed_over()
    ensures { EachStepNears }
{}

/// Who waits is granted a place by the time as many were let go of as are above the limit, one for each that waits
/// ahead of it, and one: while the pool stays open, no smaller limit is set, and it does not give up itself.
pub fn waiter_is_granted_in_turn()
    ensures { EachIsGrantedInTurn }
{}

/// Another order is refused: that one that waits is nearer after each step is false of a machine that grants places to
/// those that came last, that serves a new get while others wait, or whose resize puts the first that waits last.
pub fn other_orders_are_refused()
    ensures last { EachNearsBy 1 freed_for_last → ⊥ }
    ensures barge { EachNearsBy 0 barged_in → ⊥ }
    ensures resize { EachNearsBy 0 put_behind → ⊥ }
{}

/// In each state that a history reaches nobody waits while a place is free, and no ticket stands twice.
pub fn each_history_is_orderly()
    ensures { EachReachedIsOrderly }
{}

/// No number stands twice among the objects that are idle or held, in a new pool and after each run in which each gives
/// away only what it holds.
pub fn numbers_stand_once()
    ensures opened { EachOpensNumberedOnce }
    ensures run { EachRunNumbersOnce }
{}

/// An object that is idle or held is so after each step, unless its holder gives it up, or it is idle and the step is a
/// retain, a close, or another limit or a handle less.
pub fn no_object_is_lost()
    ensures { EachStepKeepsObjects }
{}

/// A number of an object that is neither idle nor held, and was given, never comes back.
pub fn no_number_returns()
    ensures { EachNumberGoesForGood }
{}

/// What each has by its own steps, it holds there. Whatever the reply, it may give that away by its next step.
pub fn each_holds_what_it_was_given()
    ensures holds { EachHoldsItsOwn }
    ensures hands { EachHandsItsOwn }
{}

/// There no two hold one object, and none that is held is idle.
pub fn one_number_has_one_holder()
    ensures { EachHasOneHolder }
{}

/// No ticket is unknown to a pool whose gets each name only the one under which they wait.
pub fn no_ticket_is_unknown()
    ensures { EachTicketIsKnown }
{}

/// There who waits under a ticket, by its last step, is in the queue under it, and nobody else waits under that.
pub fn who_waits_is_in_the_queue()
    ensures { EachWaitsInTheQueue }
{}
