//! Steps of a managed pool as plain numbers: those of a get or an object, and those of the owner.
ghost use Rattle.std.specs.Prelude.{◌≡◌};
ghost use Rattle.deadpool_desk.specs.declared.step.Step.TheVariants.{Again};
ghost use Rattle.deadpool_c.specs.ManagedSteps.{allowance_of, owner_step_of, step_of};

use deadpool_desk::gate::Ticket;
use deadpool_desk::{Held, OwnerStep, Step};

/// No step: there is no entry at this position.
pub const NO_ENTRY: u64 = 0;

/// A new get asks for a place. `is_set` says whether it joins the queue if none is free. The reply is `OBJECT`,
/// `CREATE`, `EXHAUSTED`, `CLOSED`, `FULL`, `CROWDED`, `WAITING` or `OUT_OF_MEMORY`.
pub const ENTER: u64 = 1;

/// A get in the queue asks for its place, by its ticket as `number`. `is_set` says whether it has waited long enough.
/// The reply is `OBJECT`, `CREATE`, `EXHAUSTED`, `CLOSED`, `EXPIRED`, `WAITING` or `UNKNOWN`.
pub const ASK: u64 = 2;

/// A get that holds a place goes on. It may take `number` idle objects, or as many as are idle if `is_set` is false.
/// The reply is `OBJECT`, `CREATE`, `GOING`, `EXHAUSTED` or `UNKNOWN`.
pub const AGAIN: u64 = 3;

/// A get gives up an object that was idle, and keeps its place: `DONE` or `UNKNOWN`.
pub const DISCARD: u64 = 4;

/// A creation under way has ended well: `CREATED` or `UNKNOWN`.
pub const NEW_OBJECT: u64 = 5;

/// A creation under way has ended without an object: `DONE` or `UNKNOWN`.
pub const FAILED: u64 = 6;

/// A get gives up a new object: `DONE` or `UNKNOWN`.
pub const REFUSED: u64 = 7;

/// An object comes back under its `number` and `key`: `KEPT`, or with both `DETACH`, `DROPPED` or `UNKNOWN`.
pub const BACK: u64 = 8;

/// A get leaves the queue, by its ticket as `number`: `DONE` or `UNKNOWN`.
pub const WITHDRAW: u64 = 9;

/// A get gives back a place, and held nothing else: `DONE` or `UNKNOWN`.
pub const CANCEL_PLACE: u64 = 10;

/// A get gives up a creation under way: `DONE` or `UNKNOWN`.
pub const CANCEL_CREATION: u64 = 11;

/// A get gives up an object under preparation: `DONE` or `UNKNOWN`.
pub const CANCEL_OBJECT: u64 = 12;

/// An object that is out leaves the pool for good, and its place is free: `DETACH`, `TAKEN` or `UNKNOWN`.
pub const TAKE: u64 = 13;

/// The owner asks how the pool stands. It is made by `deadpool_managed_status`.
pub const STATUS: u64 = 14;

/// The pool gets another limit, which is `number`, and the idle objects above it go, but for those that are to stay:
/// `DONE` or `OUT_OF_MEMORY`.
pub const RESIZE: u64 = 15;

/// Each idle object is asked about. It is made by `deadpool_managed_retain`.
pub const RETAIN: u64 = 16;

/// The pool closes for good, and all that is idle goes: `DONE`.
pub const CLOSE: u64 = 17;

/// There is one handle more: `DONE` or `NO_HANDLE`.
pub const CLONE_HANDLE: u64 = 18;

/// There is one handle less, and the last one takes all that is idle with it: `DONE` or `NO_HANDLE`.
pub const DROP_HANDLE: u64 = 19;

/// There is one handle more, for an owner that has none: `DONE`, or `NO_HANDLE` if none is left.
pub const UPGRADE: u64 = 20;

/// The step of a get or an object that is asked for by these numbers, if there is one.
pub fn asked(step: u64, is_set: bool, number: usize) -> Option<Step>
    ensures { result ≡ step_of step is_set number }
{
    match step {
        ENTER => Some(Step::Enter { wait: is_set }),
        ASK => Some(Step::Ask {
            ticket: Ticket::from_number(number),
            expired: is_set,
        }),
        AGAIN => Some(again(is_set, number)),
        DISCARD => Some(Step::Discard),
        NEW_OBJECT => Some(Step::Created),
        FAILED => Some(Step::Failed),
        REFUSED => Some(Step::Refused),
        BACK => Some(Step::Back),
        WITHDRAW => Some(Step::Withdraw {
            ticket: Ticket::from_number(number),
        }),
        CANCEL_PLACE => Some(Step::Cancel(Held::Place)),
        CANCEL_CREATION => Some(Step::Cancel(Held::Creation)),
        CANCEL_OBJECT => Some(Step::Cancel(Held::Object)),
        TAKE => Some(Step::Take),
        _ => None,
    }
}

/// The step of the owner that is asked for by these numbers, if there is one.
pub fn asked_by_owner(step: u64, number: usize) -> Option<OwnerStep>
    ensures { result ≡ owner_step_of step number }
{
    match step {
        RESIZE => Some(OwnerStep::Resize { limit: number }),
        CLOSE => Some(OwnerStep::Close),
        CLONE_HANDLE => Some(OwnerStep::CloneHandle),
        DROP_HANDLE => Some(OwnerStep::DropHandle),
        UPGRADE => Some(OwnerStep::Upgrade),
        _ => None,
    }
}

fn again(is_set: bool, number: usize) -> Step
    ensures { result ≡ Again (allowance_of is_set number) }
{
    if is_set {
        Step::Again {
            allowance: Some(number),
        }
    } else {
        Step::Again { allowance: None }
    }
}
