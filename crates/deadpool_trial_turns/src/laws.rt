//! What holds of every run of a managed pool on one thread, in words of lists. A function here does nothing: its
//! contract is the law.
ghost use Rattle.deadpool_managed.specs.Outside.{may};
ghost use Rattle.deadpool_trial_turns.specs.Turns.{EachIsGrantedInTurn};

use deadpool_managed::{AsyncHook, Manager, SyncHook};

/// The party that waits as the first, second or later has a place after as many returns, whatever else is done between
/// them: an object that comes back is a return, and one that is taken. That is so if the run begins with its reach
/// within the limit, no move sets a limit, the pool stays open, and the party stays in the queue.
pub fn waiter_is_granted_in_turn<M: Manager, F: SyncHook<M>, A: AsyncHook<M>>()
    ensures { (manager : M)
        → EachIsGrantedInTurn (may M.Manager F.SyncHook A.AsyncHook manager) }
{}
