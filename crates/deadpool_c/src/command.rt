//! What an order says is next, as plain numbers.
ghost use Rattle.std.specs.Prelude.{◌≡◌};
ghost use Rattle.deadpool_c.specs.Orders.{command_at};

use deadpool_order::State;

/// Nothing is left to do, and nothing is held. `cause` says why.
pub const END: u64 = 0;

/// Make a step by `deadpool_managed_advance`, then wake whoever is due.
pub const ADVANCE: u64 = 1;

/// The same, with the `number` and `key` of the object that comes back.
pub const BACK: u64 = 2;

/// Wait until the ticket `number` is due, or for too long, then tell `deadpool_order_polled` which.
pub const WAIT: u64 = 3;

/// Let others have their turn, then tell `deadpool_order_polled`.
pub const PAUSE: u64 = 4;

/// Make an object, then tell `deadpool_order_ready` or `deadpool_order_failed`.
pub const CREATE: u64 = 5;

/// The hook `number` of those before a recycling sees the object, and the same is told.
pub const PRE_RECYCLE: u64 = 6;

/// The object is recycled, and the same is told.
pub const RECYCLE: u64 = 7;

/// The hook `number` of those after a recycling sees it, and the same is told.
pub const POST_RECYCLE: u64 = 8;

/// The hook `number` of those of a new object sees it, and the same is told.
pub const POST_CREATE: u64 = 9;

/// Tell `deadpool_order_begins`, then detach the object.
pub const DETACH: u64 = 10;

/// Tell `deadpool_order_begins`, then drop the object, if there is one.
pub const RELEASE: u64 = 11;

/// Tell `deadpool_order_begins`, then tell those that wait for the pool's end, if it has come.
pub const TELL: u64 = 12;

/// Tell `deadpool_order_gives`: the object is the caller's. `is_set` says whether it was recycled.
pub const GIVE: u64 = 13;

/// The command of each state.
pub fn command_at(state: &State) -> u64
    ensures { result ≡ command_at state.now }
{
    match state {
        State::New | State::Over(_) => END,
        State::Returning => BACK,
        State::Queued(_) => WAIT,
        State::Going => PAUSE,
        State::Creating => CREATE,
        State::PreRecycling(_) => PRE_RECYCLE,
        State::Recycling => RECYCLE,
        State::PostRecycling(_) => POST_RECYCLE,
        State::Checking(_) => POST_CREATE,
        State::Parting | State::Detaching(_) => DETACH,
        State::Releasing(_) => RELEASE,
        State::Parted | State::Telling(_) => TELL,
        State::Giving { .. } | State::Yielding => GIVE,
        _ => ADVANCE,
    }
}
