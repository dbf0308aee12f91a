//! What holds of each legal history. The functions here do nothing: each states a law.
ghost use Rattle.deadpool_history.specs.Holding.{EachHandsItsOwnOn, EachObjectIsOfOne, NoneIsIdle};
ghost use Rattle.deadpool_history.specs.Waiting.{EachTicketIsOfOne, EachWaitsInTheQueue};
ghost use Rattle.deadpool_history.specs.Waiting.{NoTicketIsUnknown};

/// By the steps of a legal history each gives away only what it holds, and it holds what it has by its own lines. No
/// number stands twice among the objects that are idle or held.
pub fn each_gives_away_its_own()
    ensures { EachHandsItsOwnOn }
{}

/// No two callers have one object by their own lines.
pub fn one_object_has_one_holder()
    ensures { EachObjectIsOfOne }
{}

/// An object that a caller has by its own lines is not idle.
pub fn held_object_is_not_idle()
    ensures { NoneIsIdle }
{}

/// In a legal history no step that names a ticket is answered that the pool does not know it.
pub fn no_ticket_is_unknown()
    ensures { NoTicketIsUnknown }
{}

/// Who waits under a ticket by its own lines is in the queue under it, and nobody else waits under that.
pub fn who_waits_is_in_the_queue()
    ensures queue { EachWaitsInTheQueue }
    ensures one { EachTicketIsOfOne }
{}
