//! What holds of each step of a pool and of each run of steps, as a journal and a history have them. The functions here
//! do nothing: each states a law.
ghost use Rattle.deadpool_unmanaged_turns.specs.Turns.{EachAddIsGrantedInTurn, EachAddNears, EachGetIsGrantedInTurn};
ghost use Rattle.deadpool_unmanaged_turns.specs.Turns.{EachGetNears, EachKeepsItsGrant, EachReachedIsOrderly};
ghost use Rattle.deadpool_unmanaged_turns.specs.Turns.{EachStaysQueued, EachStepKeepsOrder};

/// Whatever step is made, those in each queue keep their order: some leave, and at most one joins, at the end. Then no
/// get waits for an object that is free, no add waits for room, and no ticket stands in a queue twice. There is an idle
/// object for each get that was granted one, while the pool is open and has a handle, and room for each add that was.
pub fn grants_keep_the_order<T>()
    ensures { EachStepKeepsOrder T }
{}

/// Who is in a queue leaves it only by a step that names its ticket. Until then it keeps what it was granted.
pub fn no_waiter_is_lost<T>()
    ensures queues { EachStaysQueued T }
    ensures grants { EachKeepsItsGrant T }
{}

/// No step puts back one that waits. Each object that comes in brings a get one nearer, and each that leaves the pool
/// an add: while the pool is open and, for a get, has a handle, and by a step by which it does not give up itself.
pub fn nobody_is_passed_over<T>()
    ensures gets { EachGetNears T }
    ensures adds { EachAddNears T }
{}

/// The get that waits as the first, second or later is granted an object by the time as many have come in, and so the
/// add is granted room by the time as many objects have left the pool: while the pool stays open and, for a get, has a
/// handle, and if it does not give up itself.
pub fn waiter_is_granted_in_turn<T>()
    ensures gets { EachGetIsGrantedInTurn T }
    ensures adds { EachAddIsGrantedInTurn T }
{}

/// So orderly is each state that a history reaches.
pub fn each_history_is_orderly<T>()
    ensures { EachReachedIsOrderly T }
{}
