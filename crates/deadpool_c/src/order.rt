//! An order as plain numbers.
ghost use Rattle.std.specs.Prelude.{◌≡◌};
ghost use Rattle.deadpool_c.specs.Orders.{IsAt, allowance_in, hooks_in, numbers, state_in};

use crate::cause::{DONE, cause_of, code_of};
use crate::command::{END, command_at};
use deadpool_desk::Held;
use deadpool_desk::gate::Ticket;
use deadpool_order::{HookCounts, Order as Machine, State, Then};

/// A get, a return or a take on its way. The caller reads what is next, and passes it back unchanged. One of zeros has
/// nothing to do.
#[repr(C)]
#[derive(Clone, Copy, Debug, PartialEq, Eq)]
pub struct Order {
    /// What is next: one of the constants from `END` to `GIVE`.
    pub command: u64,
    /// How far it is.
    pub state: u64,
    /// Of `WAIT` the ticket, of a hook its place in its list.
    pub number: usize,
    /// Of `GIVE` whether the object was recycled.
    pub is_set: bool,
    /// Of `END` why: one of the constants from `cause::DONE` to `cause::DROPPED`.
    pub cause: u64,
    /// Whether its get may take only so many more idle objects in this poll.
    pub is_limited: bool,
    /// How many these are.
    pub left: usize,
}

/// How many hooks see an object. It is the same for all calls of an order.
#[repr(C)]
#[derive(Clone, Copy, Debug, PartialEq, Eq)]
pub struct Hooks {
    /// Before it is recycled.
    pub pre_recycle: usize,
    /// Once it was recycled.
    pub post_recycle: usize,
    /// As it is new.
    pub post_create: usize,
}

impl Hooks {
    /// The same, as an order is told it.
    pub fn counts(&self) -> HookCounts
        ensures { result ≡ hooks_in self.now }
    {
        HookCounts {
            pre_recycle: self.pre_recycle,
            post_recycle: self.post_recycle,
            post_create: self.post_create,
        }
    }
}

// The states. To the caller their numbers mean nothing.
const OVER: u64 = 0;

const NEW: u64 = 1;

const ENTERING: u64 = 2;

const ASKING: u64 = 3;

const QUEUED: u64 = 4;

const GOING: u64 = 5;

const GOING_ON: u64 = 6;

const CREATING: u64 = 7;

const NUMBERING: u64 = 8;

const FAILING: u64 = 9;

const PRE_RECYCLING: u64 = 10;

const RECYCLING: u64 = 11;

const POST_RECYCLING: u64 = 12;

const DISCARDING: u64 = 13;

const CHECKING: u64 = 14;

const REFUSING: u64 = 15;

const GIVING: u64 = 16;

const WITHDRAWING: u64 = 17;

const CANCELLING_PLACE: u64 = 18;

const CANCELLING_CREATION: u64 = 19;

const CANCELLING_OBJECT: u64 = 20;

const RETURNING: u64 = 21;

const TAKING: u64 = 22;

const PARTING: u64 = 23;

const PARTED: u64 = 24;

const YIELDING: u64 = 25;

const DETACHING_TO_GO_ON: u64 = 26;

const DETACHING_TO_CANCEL: u64 = 27;

const DETACHING_TO_END: u64 = 28;

const RELEASING_TO_GO_ON: u64 = 29;

const RELEASING_TO_CANCEL: u64 = 30;

const RELEASING_TO_END: u64 = 31;

const TELLING: u64 = 32;

impl Order {
    /// Its state. A number that names none is that of one that is over.
    pub fn whole_state(&self) -> State
        ensures { result ≡ state_in self.now }
    {
        let ticket = Ticket::from_number(self.number);
        let cause = cause_of(self.cause);
        match self.state {
            NEW => State::New,
            ENTERING => State::Entering { wait: self.is_set },
            ASKING => State::Asking {
                ticket,
                expired: self.is_set,
            },
            QUEUED => State::Queued(ticket),
            GOING => State::Going,
            GOING_ON => State::GoingOn,
            CREATING => State::Creating,
            NUMBERING => State::Numbering,
            FAILING => State::Failing(cause),
            PRE_RECYCLING => State::PreRecycling(self.number),
            RECYCLING => State::Recycling,
            POST_RECYCLING => State::PostRecycling(self.number),
            DISCARDING => State::Discarding,
            CHECKING => State::Checking(self.number),
            REFUSING => State::Refusing,
            GIVING => State::Giving {
                recycled: self.is_set,
            },
            WITHDRAWING => State::Withdrawing(ticket, cause),
            CANCELLING_PLACE => State::Cancelling(Held::Place),
            CANCELLING_CREATION => State::Cancelling(Held::Creation),
            CANCELLING_OBJECT => State::Cancelling(Held::Object),
            RETURNING => State::Returning,
            TAKING => State::Taking,
            PARTING => State::Parting,
            PARTED => State::Parted,
            YIELDING => State::Yielding,
            DETACHING_TO_GO_ON => State::Detaching(Then::GoOn),
            DETACHING_TO_CANCEL => State::Detaching(Then::Cancel),
            DETACHING_TO_END => State::Detaching(Then::End(cause)),
            RELEASING_TO_GO_ON => State::Releasing(Then::GoOn),
            RELEASING_TO_CANCEL => State::Releasing(Then::Cancel),
            RELEASING_TO_END => State::Releasing(Then::End(cause)),
            TELLING => State::Telling(cause),
            _ => State::Over(cause),
        }
    }

    /// The order at its state.
    pub fn whole(&self) -> Machine
        ensures state { result.state ≡ state_in self.now }
        ensures left { result.left ≡ allowance_in self.now }
    {
        let left = if self.is_limited {
            Some(self.left)
        } else {
            None
        };
        Machine::resumed(self.whole_state(), left)
    }

    /// An order as plain numbers.
    pub fn of(whole: &Machine) -> Order
        ensures { IsAt whole.now.state whole.now.left result }
    {
        let state = whole.state();
        let (is_limited, left) = match whole.left() {
            Some(left) => (true, left),
            None => (false, 0),
        };
        Order {
            command: command_at(state),
            is_limited,
            left,
            ..numbers_of(state)
        }
    }
}

fn numbers(state: u64, number: usize, is_set: bool, cause: u64) -> Order
    ensures { result ≡ numbers state number is_set cause }
{
    Order {
        command: END,
        state,
        number,
        is_set,
        cause,
        is_limited: false,
        left: 0,
    }
}

// A state as plain numbers.
fn numbers_of(state: &State) -> Order
    ensures { state_in result ≡ state.now }
{
    match state {
        State::New => numbers(NEW, 0, false, DONE),
        State::Entering { wait } => numbers(ENTERING, 0, *wait, DONE),
        State::Asking { ticket, expired } => numbers(ASKING, ticket.number(), *expired, DONE),
        State::Queued(ticket) => numbers(QUEUED, ticket.number(), false, DONE),
        State::Going => numbers(GOING, 0, false, DONE),
        State::GoingOn => numbers(GOING_ON, 0, false, DONE),
        State::Creating => numbers(CREATING, 0, false, DONE),
        State::Numbering => numbers(NUMBERING, 0, false, DONE),
        State::Failing(cause) => numbers(FAILING, 0, false, code_of(*cause)),
        State::PreRecycling(at) => numbers(PRE_RECYCLING, *at, false, DONE),
        State::Recycling => numbers(RECYCLING, 0, false, DONE),
        State::PostRecycling(at) => numbers(POST_RECYCLING, *at, false, DONE),
        State::Discarding => numbers(DISCARDING, 0, false, DONE),
        State::Checking(at) => numbers(CHECKING, *at, false, DONE),
        State::Refusing => numbers(REFUSING, 0, false, DONE),
        State::Giving { recycled } => numbers(GIVING, 0, *recycled, DONE),
        State::Withdrawing(ticket, cause) => {
            numbers(WITHDRAWING, ticket.number(), false, code_of(*cause))
        }
        State::Cancelling(Held::Place) => numbers(CANCELLING_PLACE, 0, false, DONE),
        State::Cancelling(Held::Creation) => numbers(CANCELLING_CREATION, 0, false, DONE),
        State::Cancelling(Held::Object) => numbers(CANCELLING_OBJECT, 0, false, DONE),
        State::Returning => numbers(RETURNING, 0, false, DONE),
        State::Taking => numbers(TAKING, 0, false, DONE),
        State::Parting => numbers(PARTING, 0, false, DONE),
        State::Parted => numbers(PARTED, 0, false, DONE),
        State::Yielding => numbers(YIELDING, 0, false, DONE),
        State::Detaching(Then::GoOn) => numbers(DETACHING_TO_GO_ON, 0, false, DONE),
        State::Detaching(Then::Cancel) => numbers(DETACHING_TO_CANCEL, 0, false, DONE),
        State::Detaching(Then::End(cause)) => {
            numbers(DETACHING_TO_END, 0, false, code_of(*cause))
        }
        State::Releasing(Then::GoOn) => numbers(RELEASING_TO_GO_ON, 0, false, DONE),
        State::Releasing(Then::Cancel) => numbers(RELEASING_TO_CANCEL, 0, false, DONE),
        State::Releasing(Then::End(cause)) => {
            numbers(RELEASING_TO_END, 0, false, code_of(*cause))
        }
        State::Telling(cause) => numbers(TELLING, 0, false, code_of(*cause)),
        State::Over(cause) => numbers(OVER, 0, false, code_of(*cause)),
    }
}
