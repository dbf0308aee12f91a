//! What holds of each legal history. The functions here do nothing: each states a law.
ghost use Rattle.deadpool_unmanaged_history.specs.Waiting.{EachTicketIsOfOne, EachWaitsInItsQueue};
ghost use Rattle.deadpool_unmanaged_history.specs.Waiting.{NoTicketIsUnknown};

/// In a legal history no step that names a ticket is answered that the pool does not know it.
pub fn no_ticket_is_unknown<T>()
    ensures { NoTicketIsUnknown T }
{}

/// Who waits under a ticket by its own lines is in its queue under it, and nobody else waits under that.
pub fn who_waits_is_in_the_queue<T>()
    ensures queue { EachWaitsInItsQueue T }
    ensures one { EachTicketIsOfOne T }
{}
