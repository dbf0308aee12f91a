//! What is true of every state of every run from a pool that is well, of each two neighbours in it, and of each move,
//! whatever the manager and the hooks answer. A function here does nothing: its contract is the law.
ghost use Rattle.deadpool_trial.specs.Laws.{MarksQueued};
ghost use Rattle.deadpool_managed.specs.Outside.{may};
ghost use Rattle.deadpool_trial.specs.RunLaws.{OpensWell, EachState, EachStep, EachLater, EachMove, EachReply};
ghost use Rattle.deadpool_trial.specs.RunLaws.{EndsWell, StaysWithin, HasFewIdle, IsEmptyIfClosed, IsNumbered};
ghost use Rattle.deadpool_trial.specs.RunLaws.{CountsOn, NoneReturns, KeepsQueue, OthersStayInPool, OthersStayQueued};
ghost use Rattle.deadpool_trial.specs.RunLaws.{OthersStand, KeepsMinIdle, LeavesEnough, IsOutIfGiven, IsIdleIfKept};
ghost use Rattle.deadpool_trial.specs.RunLaws.{IsListedOnce};

use deadpool_managed::{AsyncHook, Manager, SyncHook};

/// A new pool is well, with any bound on those that wait.
pub fn opened_is_well<M: Manager, F: SyncHook<M>, A: AsyncHook<M>>()
    ensures { OpensWell M.Type M.Creating M.Recycling A.State F A }
{}

/// A run from a pool that is well ends with one.
pub fn run_ends_well<M: Manager, F: SyncHook<M>, A: AsyncHook<M>>()
    ensures { (manager : M) → EndsWell (may M.Manager F.SyncHook A.AsyncHook manager) }
{}

/// No more objects are idle than the limit.
pub fn idle_within_limit<M: Manager, F: SyncHook<M>, A: AsyncHook<M>>()
    ensures { (manager : M) → EachState (may M.Manager F.SyncHook A.AsyncHook manager) HasFewIdle }
{}

/// A closed pool has limit 0 and nothing idle.
pub fn closed_is_empty<M: Manager, F: SyncHook<M>, A: AsyncHook<M>>()
    ensures { (manager : M)
        → EachState (may M.Manager F.SyncHook A.AsyncHook manager) IsEmptyIfClosed }
{}

/// No number stands twice among the objects that are idle, under preparation or out, and only numbers from the first up
/// to but not including the next stand there.
pub fn numbers_stand_once<M: Manager, F: SyncHook<M>, A: AsyncHook<M>>()
    ensures { (manager : M) → EachState (may M.Manager F.SyncHook A.AsyncHook manager) IsNumbered }
{}

/// A new object has the next number, which then rises by one. So the number of an object that has left never returns.
pub fn new_object_has_next<M: Manager, F: SyncHook<M>, A: AsyncHook<M>>()
    ensures next { (manager : M)
        → EachStep (may M.Manager F.SyncHook A.AsyncHook manager) CountsOn }
    ensures gone { (manager : M)
        → EachLater (may M.Manager F.SyncHook A.AsyncHook manager) NoneReturns }
{}

/// An object leaves the pool only by a move that may take it: by an advance, a poll or a cancel of the party that
/// prepares it, by its own return or take, by a smaller limit, which takes those at the front and none that is to stay
/// idle, a close or the drop of the last handle while it is idle, or by a retain that does not keep it. A poll is
/// looked at advance by advance.
pub fn no_object_is_lost<M: Manager, F: SyncHook<M>, A: AsyncHook<M>>()
    ensures { (manager : M)
        → EachMove (may M.Manager F.SyncHook A.AsyncHook manager) OthersStayInPool }
{}

/// How many objects are to stay idle never changes. A resize and a retain leave as many idle, as far as the limit after
/// them allows, if as many were. A poll is looked at advance by advance.
pub fn enough_stay_idle<M: Manager, F: SyncHook<M>, A: AsyncHook<M>>()
    ensures min_idle { (manager : M)
        → EachMove (may M.Manager F.SyncHook A.AsyncHook manager) KeepsMinIdle }
    ensures idle { (manager : M)
        → EachMove (may M.Manager F.SyncHook A.AsyncHook manager) LeavesEnough }
{}

/// After a move that gives an object it is out, and after a return that keeps its object it is idle.
pub fn object_is_where_said<M: Manager, F: SyncHook<M>, A: AsyncHook<M>>()
    ensures given { (manager : M)
        → EachReply (may M.Manager F.SyncHook A.AsyncHook manager) IsOutIfGiven }
    ensures kept { (manager : M)
        → EachReply (may M.Manager F.SyncHook A.AsyncHook manager) IsIdleIfKept }
{}

/// Those that were granted a place and those that wait are those that stand as queued: no get that waits drops out of
/// the queue, and nobody else is in it.
pub fn queue_has_the_queued<M: Manager, F: SyncHook<M>, A: AsyncHook<M>>()
    ensures { (manager : M) → EachState (may M.Manager F.SyncHook A.AsyncHook manager) MarksQueued }
{}

/// Those that were granted a place, followed by those that wait, change only by removals and by one party at the end.
pub fn queue_keeps_order<M: Manager, F: SyncHook<M>, A: AsyncHook<M>>()
    ensures { (manager : M) → EachStep (may M.Manager F.SyncHook A.AsyncHook manager) KeepsQueue }
{}

/// Whoever leaves the queue by a move is the party that the move names, and every other party is as it was. A poll is
/// looked at advance by advance.
pub fn no_waiter_is_lost<M: Manager, F: SyncHook<M>, A: AsyncHook<M>>()
    ensures queue { (manager : M)
        → EachMove (may M.Manager F.SyncHook A.AsyncHook manager) OthersStayQueued }
    ensures parties { (manager : M)
        → EachMove (may M.Manager F.SyncHook A.AsyncHook manager) OthersStand }
{}

/// No party stands in two lists, nor twice in one.
pub fn party_in_one_list<M: Manager, F: SyncHook<M>, A: AsyncHook<M>>()
    ensures { (manager : M)
        → EachState (may M.Manager F.SyncHook A.AsyncHook manager) IsListedOnce }
{}

/// If a run begins with its reach within the limit, and no move may set a limit, the size never passes the limit.
pub fn size_within_limit<M: Manager, F: SyncHook<M>, A: AsyncHook<M>>()
    ensures { (manager : M) → StaysWithin (may M.Manager F.SyncHook A.AsyncHook manager) }
{}
