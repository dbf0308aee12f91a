//! What holds of each step of the owner, whatever the pool's state, as `deadpool_unmanaged::laws` says it of the other
//! steps, and of the tally of any pool whose steps are counted. The functions here do nothing: each states a law.
ghost use Rattle.std.specs.Prelude.{Option};
ghost use Rattle.deadpool_unmanaged.specs.Closing.{Drains, ShrinksIfClosed, StaysDrained};
ghost use Rattle.deadpool_unmanaged.specs.State.{State};
ghost use Rattle.deadpool_unmanaged.specs.StateSteps.{Does};
ghost use Rattle.deadpool_unmanaged.specs.declared.step.Reply.{Reply};
ghost use Rattle.deadpool_unmanaged.specs.declared.step.Step.{Step};
ghost use Rattle.deadpool_unmanaged_journal.specs.Closing.{EachOwnerStep, LetsIdleGo};
ghost use Rattle.deadpool_unmanaged_journal.specs.OwnerSteps.{DoesForOwner};
ghost use Rattle.deadpool_unmanaged_journal.specs.Tally.{counted_for_owner, counted_made, gone, StaysBalanced};
ghost use Rattle.deadpool_unmanaged_journal.specs.declared.owner_step.OwnerReply.{OwnerReply};
ghost use Rattle.deadpool_unmanaged_journal.specs.declared.owner_step.OwnerStep.{OwnerStep};

/// A closed pool stays closed, and its objects, idle or out, are never more.
pub fn closed_pool_only_shrinks<T>()
    ensures { EachOwnerStep {T = T} (λ _. ShrinksIfClosed) }
{}

/// A pool that is drained stays so.
pub fn drained_pool_stays_empty<T>()
    ensures { EachOwnerStep {T = T} (λ _. StaysDrained) }
{}

/// The step that drains a pool is a close or the drop of a handle.
pub fn pool_drains_by_letting_go<T>()
    ensures { EachOwnerStep {T = T} (λ step d d'. Drains d d' → LetsIdleGo step) }
{}

/// Each step that is counted, of a get, an add, an object or the owner, leaves the books balanced.
pub fn books_stay_balanced<T>()
    ensures step { (d d' : State T) (step : Step) (object : Option T) (reply : Reply)
        → Does d step object reply d' → StaysBalanced (λ _ _. counted_made step reply) d d' }
    ensures owner_step { (d d' : State T) (step : OwnerStep) (reply : OwnerReply)
        → DoesForOwner d step reply d'
        → StaysBalanced (λ was now. counted_for_owner (gone was now) step) d d' }
{}
