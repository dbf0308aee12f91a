//! What may be told to an order, by its state.
ghost use Rattle.std.specs.Prelude.{◌↔◌, IsTrue};
ghost use Rattle.deadpool_order.specs.States.{IsCalling, IsGiving, IsLeaving, IsPaused, IsQueued, IsWithin};
ghost use Rattle.deadpool_order.specs.Commands.{IsMaking};

use deadpool_order::{HookCounts, State};

/// Whether its poll has ended, and nothing is under way.
pub fn is_paused(state: &State) -> bool
    ensures { IsTrue result ↔ IsPaused state.now }
{
    matches!(state, State::Queued(_) | State::Going)
}

/// Whether it is in the queue, and waits.
pub fn is_queued(state: &State) -> bool
    ensures { IsTrue result ↔ IsQueued state.now }
{
    matches!(state, State::Queued(_))
}

/// Whether a creation, a recycling or a hook is under way.
pub fn is_calling(state: &State) -> bool
    ensures { IsTrue result ↔ IsCalling state.now }
{
    matches!(
        state,
        State::Creating
            | State::PreRecycling(_)
            | State::Recycling
            | State::PostRecycling(_)
            | State::Checking(_)
    )
}

/// Whether the hook that sees the object is one of its list.
pub fn is_within(counts: &HookCounts, state: &State) -> bool
    ensures { IsTrue result ↔ IsWithin counts.now state.now }
{
    match state {
        State::PreRecycling(at) => *at < counts.pre_recycle,
        State::PostRecycling(at) => *at < counts.post_recycle,
        State::Checking(at) => *at < counts.post_create,
        _ => true,
    }
}

/// Whether a detach, a drop or what tells of the pool's end is to be made.
pub fn is_leaving(state: &State) -> bool
    ensures { IsTrue result ↔ IsLeaving state.now }
{
    matches!(
        state,
        State::Parting
            | State::Parted
            | State::Detaching(_)
            | State::Releasing(_)
            | State::Telling(_)
    )
}

/// Whether the object is to be given out, or handed over.
pub fn is_giving(state: &State) -> bool
    ensures { IsTrue result ↔ IsGiving state.now }
{
    matches!(state, State::Giving { .. } | State::Yielding)
}

/// Whether a step is to be made.
pub fn is_making(state: &State) -> bool
    ensures { IsTrue result ↔ IsMaking state.now }
{
    matches!(
        state,
        State::Entering { .. }
            | State::Asking { .. }
            | State::GoingOn
            | State::Numbering
            | State::Failing(_)
            | State::Discarding
            | State::Refusing
            | State::Withdrawing(..)
            | State::Cancelling(_)
            | State::Returning
            | State::Taking
    )
}
