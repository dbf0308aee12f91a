//! Steps of an unmanaged pool as plain numbers.
ghost use Rattle.std.specs.Prelude.{◌≡◌};
ghost use Rattle.deadpool_c.specs.UnmanagedSteps.{step_of};

use deadpool_gate::gate::Ticket;
use deadpool_unmanaged::Step;

/// A new get asks for an object. `is_set` says whether it joins the queue if none is free. The reply is `OBJECT` with
/// its key, `CLOSED`, `FULL`, `CROWDED`, `WAITING` or `OUT_OF_MEMORY`.
pub const GET_ENTER: u64 = 1;

/// A get in the queue asks for its object, by its ticket as `number`. `is_set` says whether it has waited long enough.
/// The reply is `OBJECT` with its key, `CLOSED`, `EXPIRED`, `WAITING` or `UNKNOWN`.
pub const GET_ASK: u64 = 2;

/// A get leaves the queue, by its ticket as `number`, and what it was granted is free again: `DONE` or `UNKNOWN`.
pub const GET_CANCEL: u64 = 3;

/// A new add brings an object by its `key`. `is_set` says whether it joins the queue if there is no room. The reply is
/// `STORED`, or with the key `CLOSED`, `FULL`, `CROWDED`, `WAITING` or `OUT_OF_MEMORY`.
pub const ADD_ENTER: u64 = 4;

/// An add in the queue asks for its room, by its ticket as `number`, and brings its object by its `key`: `STORED`, or
/// with the key `CLOSED`, `WAITING` or `UNKNOWN`.
pub const ADD_ASK: u64 = 5;

/// An add leaves the queue, by its ticket as `number`, and the room that it was granted is free again: `DONE` or
/// `UNKNOWN`.
pub const ADD_CANCEL: u64 = 6;

/// An object comes back by its `key`: `KEPT`, or with the key `DROPPED` or `UNKNOWN`.
pub const BACK: u64 = 7;

/// An object that is out leaves the pool for good, and its room is free: `TAKEN` or `UNKNOWN`.
pub const TAKE: u64 = 8;

/// The step that is asked for by these numbers, if there is one.
pub fn asked(step: u64, is_set: bool, number: usize) -> Option<Step>
    ensures { result ≡ step_of step is_set number }
{
    let ticket = Ticket::from_number(number);
    match step {
        GET_ENTER => Some(Step::GetEnter { wait: is_set }),
        GET_ASK => Some(Step::GetAsk {
            ticket,
            expired: is_set,
        }),
        GET_CANCEL => Some(Step::GetCancel { ticket }),
        ADD_ENTER => Some(Step::AddEnter { wait: is_set }),
        ADD_ASK => Some(Step::AddAsk { ticket }),
        ADD_CANCEL => Some(Step::AddCancel { ticket }),
        BACK => Some(Step::Back),
        TAKE => Some(Step::Take),
        _ => None,
    }
}
